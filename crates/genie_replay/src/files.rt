//! The files of the devices.
ghost use Rattle.std.specs.Prelude.{◌≡◌, ◌<◌, ◌≤◌, ◌+◌, ◌*◌, OnErr, OnOk, IfSome, IsSome, length, flat_map};
ghost use Rattle.genie_base.specs.declared.semantics.Direction.TheVariants.{Inward, Outward};
ghost use Rattle.genie_replay.specs.Files.{file_opening, openings_of, HoldsOfFile, HoldsOfInput, HoldsOfInputs, HoldsOfOutputs, OpensAll, IsFresh, IsFreshFor, IsUnwritten, Opening, IsWriting, WritesFile, WritesFiles};

use crate::write::write_all;
use genie_flat::Flat;
use genie_host::{Failed, Host, OpenRefused};
use genie_script::{DeviceLine, Name};

// Opens an input, if there is one.
fn open_input<H: Host>(host: &mut H, input: &Option<Name>) -> Result<(), OpenRefused>
    requires { (H.view host.old).opened < 20 }
    ensures opening { Opening OpenRefused.Failed (file_opening Inward input.now) (H.view host.old) (H.view host.new) result }
    ensures opened { OnOk result (OpensAll (file_opening Inward input.now) (H.view host.old) (H.view host.new)) }
    ensures fresh { OnOk result (HoldsOfInput (IsFreshFor (H.view host.old) (H.view host.new)) input.now ((H.view host.old).opened + 1)) }
{
    match input {
        None => Ok(()),
        Some(name) => match host.open_read(name.as_slice()) {
            Ok(_) => Ok(()),
            Err(error) => Err(error),
        },
    }
}

// Opens an output, if there is one.
fn open_output<H: Host>(host: &mut H, output: &Option<Name>) -> Result<(), OpenRefused>
    requires { (H.view host.old).opened < 20 }
    ensures opening { Opening OpenRefused.Failed (file_opening Outward output.now) (H.view host.old) (H.view host.new) result }
    ensures opened { OnOk result (OpensAll (file_opening Outward output.now) (H.view host.old) (H.view host.new)) }
    ensures fresh { OnOk result (HoldsOfFile (IsFresh (H.view host.old) (H.view host.new)) output.now 0 (H.view host.new).opened) }
{
    match output {
        None => Ok(()),
        Some(name) => match host.open_write(name.as_slice()) {
            Ok(_) => Ok(()),
            Err(error) => Err(error),
        },
    }
}

// Opens the files of a device line: the input, and then the output.
fn open_line<H: Host>(host: &mut H, device: &DeviceLine) -> Result<(), OpenRefused>
    requires { (H.view host.old).opened < 19 }
    ensures opening { Opening OpenRefused.Failed (openings_of device.now) (H.view host.old) (H.view host.new) result }
    ensures opened { OnOk result (OpensAll (openings_of device.now) (H.view host.old) (H.view host.new)) }
    ensures input { OnOk result (HoldsOfInput (IsFreshFor (H.view host.old) (H.view host.new)) device.now.input ((H.view host.old).opened + 1)) }
    ensures fresh { OnOk result (HoldsOfFile (IsFresh (H.view host.old) (H.view host.new)) device.now.output 0 (H.view host.new).opened) }
{
    match open_input(host, &device.input) {
        Ok(()) => open_output(host, &device.output),
        Err(error) => Err(error),
    }
}

/// Opens the files of the devices, in the order of their lines.
#[tactic(auto, using(crate::specs::Lemmas::Filing::fresh_more, crate::specs::Lemmas::Filing::inputs_more))]
pub fn open_files<H: Host>(host: &mut H, devices: &[DeviceLine]) -> Result<(), OpenRefused>
    requires { (H.view host.old).opened + 2 * length devices.now < 20 }
    ensures opening { Opening OpenRefused.Failed (flat_map openings_of devices.now) (H.view host.old) (H.view host.new) result }
    ensures opened { OnOk result (OpensAll (flat_map openings_of devices.now) (H.view host.old) (H.view host.new)) }
    ensures inputs { OnOk result (HoldsOfInputs (IsFreshFor (H.view host.old) (H.view host.new)) (H.view host.old).opened devices.now) }
    ensures fresh { OnOk result (HoldsOfOutputs (IsFresh (H.view host.old) (H.view host.new)) (H.view host.old).opened devices.now) }
    ensures unwritten { OnErr result (HoldsOfOutputs (IsUnwritten (H.view host.old) (H.view host.new)) (H.view host.old).opened devices.now) }
{
    match devices.split_first() {
        None => Ok(()),
        Some((device, rest)) => match open_line(host, device) {
            Ok(()) => open_files(host, rest),
            Err(error) => Err(error),
        },
    }
}

/// How many files a device line names.
pub fn file_count(device: &DeviceLine) -> u32
    ensures count { result ≡ length (openings_of device.now) }
    ensures most { result ≤ 2 }
{
    u32::from(device.input.is_some()) + u32::from(device.output.is_some())
}

// Writes what a device has sent to its output, if it has one.
fn write_file<H: Host>(
    host: &mut H,
    flat: &Flat,
    device: &DeviceLine,
    handle: u32,
) -> Result<(), Failed>
    requires output { HoldsOfFile (IsWriting (H.view host.old)) device.now.output device.now.number handle }
    ensures { IfSome flat.now (λ s. WritesFile device.now.output s device.now.number handle (H.view host.old) (H.view host.new) result) }
{
    match &device.output {
        None => Ok(()),
        Some(_) => write_all(host, handle, flat.sent(device.number)),
    }
}

/// Writes what the devices have sent to their outputs, in the order of their lines, where so many files were opened
/// before.
#[tactic(auto, using(crate::specs::Lemmas::Filing::files_none))]
pub(crate) fn write_files<H: Host>(
    host: &mut H,
    flat: &Flat,
    devices: &[DeviceLine],
    opened: u32,
) -> Result<(), Failed>
    requires outputs { HoldsOfOutputs (IsWriting (H.view host.old)) opened devices.now }
    requires few { opened + 2 * length devices.now < 20 }
    requires machine { IsSome flat.now }
    ensures { IfSome flat.now (λ s. WritesFiles s opened devices.now (H.view host.old) (H.view host.new) result) }
{
    match devices.split_first() {
        None => Ok(()),
        Some((device, rest)) => {
            let last = opened + file_count(device);
            match write_file(host, flat, device, last) {
                Ok(()) => write_files(host, flat, rest, last),
                Err(error) => Err(error),
            }
        }
    }
}
