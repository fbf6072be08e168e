//! The boot part of a script: the boot line and the device lines.
ghost use Rattle.std.specs.Prelude.{◌≡◌, ◌≤◌, IfOk};
ghost use Rattle.std.specs.Io.KnownBytes.{prepend_known};
ghost use Rattle.genie_host.specs.Host.{Reading, OnlyHandle};
ghost use Rattle.genie_base.specs.Causes.{HasCause};
ghost use Rattle.genie_replay.specs.Booting.{FindsBoot, FitsFound, ReadsDevices, ReadsBoot, IsSmall};
ghost use Rattle.genie_replay.specs.Places.{IsPlaced, IsPlacedRead};

use crate::script::{LineStep, SCRIPT, Script};
use genie_base::PageBuffer;
use genie_host::{Failed, Host};
use genie_script::{
    BootLine, BootPart, Ending, Judged, LineBuffer, MOST_LINES, is_device_line, judge_device,
    judge_first,
};
use std::alloc::Global;

/// What looking for the boot line came to.
#[derive(Drop)]
pub enum Found {
    /// The script ends so before a boot line.
    Refused(Ending),
    /// The boot line's numbers, which keep their limits, and how many lines there were.
    Boot(BootLine, u64),
}

/// What the boot part came to.
#[derive(Drop)]
pub enum BootRead {
    /// The script ends so within the boot part.
    Refused(Ending),
    /// Memory ran out.
    NoMemory,
    /// The whole part; what the line behind it is, which is in the buffer; and how many lines stand before that one.
    Whole(BootPart, LineStep, u64),
}

// Reads lines up to the boot line.
fn find_boot<H: Host>(
    host: &mut H,
    script: &mut Script,
    line: &mut LineBuffer,
    bytes: &mut PageBuffer,
) -> Result<Found, Failed>
    requires { ((H.view host.old).handle 1).mode ≡ Reading }
    ensures only { OnlyHandle 1 (H.view host.old) (H.view host.new) }
    ensures cause { HasCause ((H.view host.old).handle 1).faults ((H.view host.new).handle 1).faults result }
    ensures found { FindsBoot (prepend_known script.old ((H.view host.old).handle 1).bytes)
        (prepend_known script.new ((H.view host.new).handle 1).bytes) result }
    ensures fits { IfOk result FitsFound }
{
    'lines: for at in 0..MOST_LINES {
        match script.next_line(host, SCRIPT, line) {
            Err(error) => return Err(error),
            Ok(LineStep::End) => return Ok(Found::Refused(Ending::BadBoot(0))),
            Ok(LineStep::TooLong) => return Ok(Found::Refused(Ending::TooLong)),
            Ok(LineStep::Line) => match judge_first(at, line.as_slice(), bytes) {
                Judged::Passed => {}
                Judged::Taken(boot) => return Ok(Found::Boot(boot, at + 1)),
                Judged::Ends(ending) => return Ok(Found::Refused(ending)),
            },
        }
    }
    match script.next_line(host, SCRIPT, line) {
        Err(error) => Err(error),
        Ok(LineStep::End) => Ok(Found::Refused(Ending::BadBoot(0))),
        Ok(LineStep::TooLong) => Ok(Found::Refused(Ending::TooLong)),
        Ok(LineStep::Line) => Ok(Found::Refused(Ending::TooLong)),
    }
}

// Reads the device lines behind the boot line, where so many lines stand before them.
fn read_devices<H: Host>(
    host: &mut H,
    script: &mut Script,
    line: &mut LineBuffer,
    bytes: &mut PageBuffer,
    name: &[u8],
    part: BootPart,
    before: u64,
) -> Result<BootRead, Failed>
    requires input { ((H.view host.old).handle 1).mode ≡ Reading }
    requires few { before ≤ 1000000 }
    requires placed { IsPlaced part }
    ensures only { OnlyHandle 1 (H.view host.old) (H.view host.new) }
    ensures cause { HasCause ((H.view host.old).handle 1).faults ((H.view host.new).handle 1).faults result }
    ensures devices { ReadsDevices name.now part before (prepend_known script.old ((H.view host.old).handle 1).bytes)
        (prepend_known script.new ((H.view host.new).handle 1).bytes) line.new result }
    ensures small { IfOk result IsSmall }
    ensures placed { IfOk result IsPlacedRead }
{
    let mut part = part;
    'lines: for at in before..MOST_LINES {
        match script.next_line(host, SCRIPT, line) {
            Err(error) => return Err(error),
            Ok(LineStep::End) => return Ok(BootRead::Whole(part, LineStep::End, at)),
            Ok(LineStep::TooLong) => return Ok(BootRead::Whole(part, LineStep::TooLong, at)),
            Ok(LineStep::Line) => {}
        }
        if !is_device_line(line.as_slice()) {
            return Ok(BootRead::Whole(part, LineStep::Line, at));
        }
        match judge_device(at, line.as_slice(), name, &part, bytes) {
            Judged::Passed => {}
            Judged::Ends(ending) => return Ok(BootRead::Refused(ending)),
            Judged::Taken(device) => match part.add(device) {
                Ok(()) => {}
                Err(_) => return Ok(BootRead::NoMemory),
            },
        }
    }
    match script.next_line(host, SCRIPT, line) {
        Err(error) => Err(error),
        Ok(step) => Ok(BootRead::Whole(part, step, MOST_LINES)),
    }
}

/// Reads the boot part of the script of this name, and the line behind it.
#[tactic(auto, using(crate::specs::Lemmas::Placing::placed_none))]
pub fn read_boot<H: Host>(
    alloc: Global,
    host: &mut H,
    script: &mut Script,
    line: &mut LineBuffer,
    bytes: &mut PageBuffer,
    name: &[u8],
) -> Result<BootRead, Failed>
    requires { ((H.view host.old).handle 1).mode ≡ Reading }
    ensures only { OnlyHandle 1 (H.view host.old) (H.view host.new) }
    ensures cause { HasCause ((H.view host.old).handle 1).faults ((H.view host.new).handle 1).faults result }
    ensures boot { ReadsBoot name.now (prepend_known script.old ((H.view host.old).handle 1).bytes)
        (prepend_known script.new ((H.view host.new).handle 1).bytes) line.new result }
    ensures small { IfOk result IsSmall }
    ensures placed { IfOk result IsPlacedRead }
{
    match find_boot(host, script, line, bytes) {
        Err(error) => Err(error),
        Ok(Found::Refused(ending)) => Ok(BootRead::Refused(ending)),
        Ok(Found::Boot(boot, before)) => {
            let part = BootPart::new(alloc, &boot);
            read_devices(host, script, line, bytes, name, part, before)
        }
    }
}
