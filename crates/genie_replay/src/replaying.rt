//! Replaying a script.
ghost use Rattle.std.specs.Prelude.{◌≡◌, ◌≢◌, ◌≤◌, IsSome, IfSome, length};
ghost use Rattle.std.specs.Io.KnownBytes.{prepend_known};
ghost use Rattle.genie_host.specs.Host.{Reading};
ghost use Rattle.genie_replay.specs.Booted.{RunsBooted, RunsFrom};
ghost use Rattle.genie_replay.specs.Files.{HandleRose, HoldsOfInputs, HoldsOfOutputs, IsReading, IsWriting, last_handle};
ghost use Rattle.genie_replay.specs.Plays.{IsFirst};
ghost use Rattle.genie_replay.specs.Outcome.{FaultOf, OutcomeOf};

use crate::booting::{BootRead, read_boot};
use crate::files::{open_files, write_files};
use crate::inputs::{Unread, read_inputs};
use crate::play::play;
use crate::script::{LineStep, SCRIPT, Script};
use crate::serving::{Buffers, REPLIES};
use crate::status::Status;
use crate::write::write_all;
use genie_flat::Flat;
use genie_host::{Host, OpenRefused};
use genie_script::{BootPart, DeviceLine, LineBuffer};
use std::alloc::Global;

// Writes the reply to the boot part, steps the events, and then writes what the devices sent.
fn run_started<H: Host>(
    host: &mut H,
    script: &mut Script,
    line: &mut LineBuffer,
    buffers: &mut Buffers,
    flat: &mut Flat,
    devices: &[DeviceLine],
    step: LineStep,
    before: u64,
) -> Status
    requires input { ((H.view host.old).handle 1).mode ≡ Reading }
    requires few { before ≤ 1000000 }
    requires eight { length devices.now ≤ 8 }
    requires outputs { HoldsOfOutputs (IsWriting (H.view host.old)) 1 devices.now }
    requires machine { IsSome flat.old }
    requires first { IfSome flat.old IsFirst }
    ensures runs { RunsFrom flat.old devices.now (prepend_known script.old ((H.view host.old).handle 1).bytes) step line.old
        before (H.view host.old) (H.view host.new) result }
    ensures opened { (H.view host.new).opened ≡ (H.view host.old).opened }
    ensures fault { result ≡ Status.HostFault → HandleRose (last_handle 1 devices.now) (H.view host.old) (H.view host.new) }
    ensures not_usage { result ≢ Status.Usage }
{
    match write_all(host, REPLIES, b"ok\n") {
        Ok(()) => {}
        Err(_) => return Status::HostFault,
    }
    let status = play(host, script, line, buffers, flat, step, before);
    if status == Status::NoMemory {
        return status;
    }
    match write_files(host, flat, devices, SCRIPT) {
        Ok(()) => status,
        Err(_) => Status::HostFault,
    }
}

// Boots the machine and gives the devices their inputs, and then runs the script. The files are open.
fn run_booted<H: Host>(
    alloc: Global,
    host: &mut H,
    script: &mut Script,
    line: &mut LineBuffer,
    buffers: &mut Buffers,
    part: &BootPart,
    step: LineStep,
    before: u64,
) -> Status
    requires input { ((H.view host.old).handle 1).mode ≡ Reading }
    requires few { before ≤ 1000000 }
    requires inputs { HoldsOfInputs (IsReading (H.view host.old)) 1 part.now.devices }
    requires outputs { HoldsOfOutputs (IsWriting (H.view host.old)) 1 part.now.devices }
    ensures runs { RunsBooted part.now (prepend_known script.old ((H.view host.old).handle 1).bytes) step line.old before
        (H.view host.old) (H.view host.new) result }
    ensures opened { (H.view host.new).opened ≡ (H.view host.old).opened }
    ensures fault { result ≡ Status.HostFault → HandleRose (last_handle 1 part.now.devices) (H.view host.old) (H.view host.new) }
    ensures not_usage { result ≢ Status.Usage }
{
    let config = part.config();
    let devices = part.devices();
    let mut flat = match Flat::boot(alloc, &config) {
        Ok(flat) => flat,
        Err(_) => return Status::NoMemory,
    };
    match read_inputs(alloc, host, &mut flat, devices, SCRIPT) {
        Ok(()) => run_started(
            host, script, line, buffers, &mut flat, devices, step, before,
        ),
        Err(Unread::Host) => Status::HostFault,
        Err(Unread::Memory) => Status::NoMemory,
    }
}

/// Replays the script of this name by the flat machine: its replies go to handle 0 of the host, and what each device sends
/// to the output that the script names for it.
pub fn replay<H: Host>(alloc: Global, host: &mut H, name: &[u8]) -> Status
    requires { (H.view host.old).opened ≡ 0 }
    // What the status says of the script, of the replies and of the outputs.
    ensures outcome { OutcomeOf name.now ((H.view host.old).names name.now) (H.view host.old) (H.view host.new) result }
    // `HostFault` comes only where a count rose: that of an open handle, or of the openings.
    ensures fault { FaultOf (H.view host.old) (H.view host.new) result }
    ensures not_usage { result ≢ Status.Usage }
{
    match host.open_read(name) {
        Ok(_) => {}
        Err(OpenRefused::Memory) => return Status::NoMemory,
        Err(OpenRefused::Failed) => return Status::HostFault,
    }
    let mut script = Script::new();
    let mut line = LineBuffer::new();
    let mut buffers = Buffers::new();
    let (part, step, before) = match read_boot(
        alloc,
        host,
        &mut script,
        &mut line,
        &mut buffers.said,
        name,
    ) {
        Ok(BootRead::Whole(part, step, before)) => (part, step, before),
        Ok(BootRead::Refused(ending)) => return Status::of(ending),
        Ok(BootRead::NoMemory) => return Status::NoMemory,
        Err(_) => return Status::HostFault,
    };
    match open_files(host, part.devices()) {
        Ok(()) => run_booted(
            alloc,
            host,
            &mut script,
            &mut line,
            &mut buffers,
            &part,
            step,
            before,
        ),
        Err(OpenRefused::Memory) => Status::NoMemory,
        Err(OpenRefused::Failed) => Status::HostFault,
    }
}
