//! The inputs of the devices, read whole before the first event.
ghost use Rattle.std.specs.Prelude.{◌≡◌, ◌<◌, ◌+◌, ◌*◌, IfOk, length};
ghost use Rattle.genie_host.specs.Host.{Reading, OnlyHandle};
ghost use Rattle.genie_replay.specs.Files.{HoldsOfInput, HoldsOfInputs, IsReading};
ghost use Rattle.genie_replay.specs.Inputs.{CountsFor, ReadsInput, ReadsInputs, Tells};

use crate::files::file_count;
use genie_flat::Flat;
use genie_host::Host;
use genie_script::DeviceLine;
use std::alloc::Global;

/// Why the inputs weren't read.
#[derive(Clone, Copy, Debug, PartialEq, Eq)]
pub enum Unread {
    /// A read failed.
    Host,
    /// Memory ran out.
    Memory,
}

// Reads all bytes that are left of a reading handle.
fn read_whole<H: Host>(alloc: Global, host: &mut H, handle: u32) -> Result<Vec<u8>, Unread>
    requires { ((H.view host.old).handle handle).mode ≡ Reading }
    ensures only { OnlyHandle handle (H.view host.old) (H.view host.new) }
    ensures counts { CountsFor handle (H.view host.old) (H.view host.new) result }
    ensures whole { IfOk result (λ bytes. Tells ((H.view host.old).handle handle).bytes bytes.items) }
{
    let mut piece = [0; 4096];
    let mut bytes = Vec::new(alloc);
    'pieces: for _ in 0..u64::MAX {
        let count = match host.read(handle, &mut piece) {
            Ok(count) => count,
            Err(_) => return Err(Unread::Host),
        };
        if count == 0 {
            return Ok(bytes);
        }
        match bytes.extend_from_slice(&piece[..count]) {
            Ok(()) => {}
            Err(_) => return Err(Unread::Memory),
        }
    }
    Err(Unread::Memory)
}

// Gives a device its input, if it has one.
fn read_input<H: Host>(
    alloc: Global,
    host: &mut H,
    flat: &mut Flat,
    device: &DeviceLine,
    handle: u32,
) -> Result<(), Unread>
    requires reading { HoldsOfInput (IsReading (H.view host.old)) device.now.input handle }
    ensures { ReadsInput device.now.input device.now.number handle flat.old flat.new (H.view host.old) (H.view host.new) result }
{
    match &device.input {
        None => Ok(()),
        Some(_) => match read_whole(alloc, host, handle) {
            Err(unread) => Err(unread),
            Ok(bytes) => match flat.input(device.number, bytes.as_slice()) {
                Ok(()) => Ok(()),
                Err(_) => Err(Unread::Memory),
            },
        },
    }
}

/// Gives the devices their inputs, in the order of their lines, where so many files were opened before.
#[tactic(auto, using(crate::proofs::Gathering::read_none))]
pub(crate) fn read_inputs<H: Host>(
    alloc: Global,
    host: &mut H,
    flat: &mut Flat,
    devices: &[DeviceLine],
    opened: u32,
) -> Result<(), Unread>
    requires inputs { HoldsOfInputs (IsReading (H.view host.old)) opened devices.now }
    requires few { opened + 2 * length devices.now < 20 }
    ensures { ReadsInputs opened devices.now flat.old flat.new (H.view host.old) (H.view host.new) result }
{
    match devices.split_first() {
        None => Ok(()),
        Some((device, rest)) => match read_input(alloc, host, flat, device, opened + 1) {
            Ok(()) => read_inputs(alloc, host, flat, rest, opened + file_count(device)),
            Err(unread) => Err(unread),
        },
    }
}
