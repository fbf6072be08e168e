//! The files of a script's devices, opened on a host.
ghost use Rattle.std.specs.Prelude.{◌≡◌, ◌<◌, ◌≤◌, ◌+◌, IfOk, OnOk};
ghost use Rattle.genie_host.specs.Host.{Reading, Writing};
ghost use Rattle.genie_kernel_rows.specs.Runs.{AreWired, OpensNext};

use genie_base::{DeviceConfig, NoMemory};
use genie_host::Host;
use genie_script::{DeviceLine, Name};
use thiserror::Error;

/// Why a script wasn't run to its end.
#[derive(Clone, Copy, Debug, PartialEq, Eq, Error)]
pub enum Trouble {
    #[error("no memory")]
    Memory,
    #[error("a file wasn't opened")]
    File,
    #[error("the backing store has failed")]
    Store,
    #[error("not a line of a script")]
    Script,
    /// The script asks for more than a run has.
    #[error("past the limits of a run")]
    Limits,
    #[error("the replies of kernel and plain machine differ")]
    Replies,
    #[error("an output isn't what the plain machine has sent")]
    Outputs,
}

impl From<NoMemory> for Trouble {
    fn from(_error: NoMemory) -> Trouble {
        Trouble::Memory
    }
}

// Opens the input of a device, if it has one.
fn open_input<H: Host>(host: &mut H, input: &Option<Name>) -> Result<Option<u32>, Trouble>
    requires few { (H.view host.old).opened < 20 }
    ensures { IfOk result (OpensNext Reading (H.view host.old) (H.view host.new)) }
{
    match input {
        None => Ok(None),
        Some(name) => match host.open_read(name.as_slice()) {
            Ok(handle) => Ok(Some(handle)),
            Err(_) => Err(Trouble::File),
        },
    }
}

// Opens the output of a device, if it has one.
fn open_output<H: Host>(host: &mut H, output: &Option<Name>) -> Result<Option<u32>, Trouble>
    requires few { (H.view host.old).opened < 20 }
    ensures { IfOk result (OpensNext Writing (H.view host.old) (H.view host.new)) }
{
    match output {
        None => Ok(None),
        Some(name) => match host.open_write(name.as_slice()) {
            Ok(handle) => Ok(Some(handle)),
            Err(_) => Err(Trouble::File),
        },
    }
}

// Opens the files of one more device, which gets its place.
fn wire<H: Host>(
    host: &mut H,
    line: &DeviceLine,
    devices: &mut [Option<DeviceConfig>; 8],
) -> Result<(), Trouble>
    requires wired { AreWired devices.old (H.view host.old) }
    requires few { (H.view host.old).opened < 19 }
    ensures wired { OnOk result (AreWired devices.new (H.view host.new)) }
    ensures few { OnOk result ((H.view host.new).opened ≤ (H.view host.old).opened + 2) }
{
    let place = line.number as usize;
    if place >= 8 {
        return Err(Trouble::Script);
    }
    match devices[place] {
        Some(_) => return Err(Trouble::Script),
        None => {}
    }
    let input = match open_input(host, &line.input) {
        Ok(input) => input,
        Err(trouble) => return Err(trouble),
    };
    let output = match open_output(host, &line.output) {
        Ok(output) => output,
        Err(trouble) => return Err(trouble),
    };
    devices[place] = Some(DeviceConfig {
        kind: line.kind,
        input,
        output,
        depth: line.depth,
        offset: line.offset,
    });
    Ok(())
}

/// Opens the files of the devices of a script, in the order of their lines: the input, and then the output.
#[tactic(auto, using(crate::proofs::Handles::wired_none))]
pub fn wire_all<H: Host>(
    host: &mut H,
    lines: &[DeviceLine],
) -> Result<[Option<DeviceConfig>; 8], Trouble>
    requires { (H.view host.old).opened ≡ 0 }
    ensures { IfOk result (λ devices. AreWired devices (H.view host.new)) }
{
    let mut devices = [None, None, None, None, None, None, None, None];
    let mut opened: u32 = 0;
    'lines: for line in lines {
        if opened > 16 {
            return Err(Trouble::Limits);
        }
        match wire(host, line, &mut devices) {
            Ok(()) => {}
            Err(trouble) => return Err(trouble),
        }
        opened += 2;
    }
    Ok(devices)
}
