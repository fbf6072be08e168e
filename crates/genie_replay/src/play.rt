//! The run of the lines behind the boot part.
ghost use Rattle.std.specs.Prelude.{◌≡◌, ◌≢◌, ◌≤◌, IfSome, IsSome};
ghost use Rattle.std.specs.Io.KnownBytes.{prepend_known};
ghost use Rattle.genie_host.specs.Host.{Reading};
ghost use Rattle.genie_replay.specs.Plays.{IsFirst, Leaves, PlaysFrom};

use crate::script::{LineStep, SCRIPT, Script};
use crate::serving::{Buffers, Stop, take_line};
use crate::status::Status;
use genie_flat::Flat;
use genie_host::Host;
use genie_script::{LineBuffer, MOST_LINES};

/// Steps the events of the lines that are left, and writes each reply before it reads the next line. The first of these
/// lines was read, and so many stand before it.
pub(crate) fn play<H: Host>(
    host: &mut H,
    script: &mut Script,
    line: &mut LineBuffer,
    buffers: &mut Buffers,
    flat: &mut Flat,
    step: LineStep,
    before: u64,
) -> Status
    requires input { ((H.view host.old).handle 1).mode ≡ Reading }
    requires few { before ≤ 1000000 }
    requires machine { IsSome flat.old }
    requires first { IfSome flat.old IsFirst }
    ensures played { PlaysFrom flat.old (prepend_known script.old ((H.view host.old).handle 1).bytes) step line.old
        before flat.new (H.view host.old) (H.view host.new) result }
    ensures machine { result ≢ Status.NoMemory → IsSome flat.new }
    ensures leaves { Leaves result (H.view host.old) (H.view host.new) }
    ensures not_usage { result ≢ Status.Usage }
{
    let mut step = step;
    'lines: for at in before..MOST_LINES {
        match step {
            LineStep::Line => {}
            LineStep::End => return Status::Done,
            LineStep::TooLong => return Status::TooLong,
        }
        match take_line(host, flat, buffers, line.as_slice(), at) {
            Ok(()) => {}
            Err(Stop::Ended(ending)) => return Status::of(ending),
            Err(Stop::Host) => return Status::HostFault,
            Err(Stop::Memory) => return Status::NoMemory,
        }
        step = match script.next_line(host, SCRIPT, line) {
            Ok(step) => step,
            Err(_) => return Status::HostFault,
        };
    }
    match step {
        LineStep::End => Status::Done,
        LineStep::Line => Status::TooLong,
        LineStep::TooLong => Status::TooLong,
    }
}
