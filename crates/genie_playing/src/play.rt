//! The run of the lines behind the boot part.
ghost use Rattle.std.specs.Prelude.{◌≡◌, ◌≢◌, ◌≤◌};
ghost use Rattle.std.specs.Io.KnownBytes.{prepend_known};
ghost use Rattle.genie_host.specs.Host.{Reading};
ghost use Rattle.genie_playing.specs.Moments.{IsFresh, IsReady, moment};
ghost use Rattle.genie_playing.specs.Plays.{Leaves, Plays};

use crate::costs::Listing;
use crate::serving::{Buffers, Stop, take_line};
use genie_host::Host;
use genie_kernel::Kernel;
use genie_replay::script::SCRIPT;
use genie_replay::{LineStep, Script, Status};
use genie_script::{LineBuffer, MOST_LINES};
use genie_store::Store;

/// Steps the events of the lines that are left, and writes each reply, and what the event cost where that is listed, before it
/// reads the next line. The first of these lines was read, and so many stand before it. It takes no memory.
pub fn play<H: Host, S: Store>(
    kernel: &mut Kernel,
    host: &mut H,
    store: &mut S,
    listing: Listing,
    script: &mut Script,
    line: &mut LineBuffer,
    buffers: &mut Buffers,
    step: LineStep,
    before: u64,
) -> Status
    requires ready { IsReady kernel.old (H.view host.old) (S.view store.old) }
    requires fresh { IsFresh kernel.old }
    requires input { ((H.view host.old).handle 1).mode ≡ Reading }
    requires few { before ≤ 1000000 }

    // The kernel is good over a store of its size, and its handles are open, whatever the host and the store tell.
    ensures ready { IsReady kernel.new (H.view host.new) (S.view store.new) }
    ensures played { Plays listing result (prepend_known script.old ((H.view host.old).handle 1).bytes) step line.old before
        (moment kernel.old (H.view host.old) (S.view store.old)) (moment kernel.new (H.view host.new) (S.view store.new)) }
    ensures config { kernel.new.config ≡ kernel.old.config }
    ensures leaves { Leaves result (H.view host.old) (H.view host.new) }
    ensures no_memory { result ≢ Status.NoMemory }
    ensures not_usage { result ≢ Status.Usage }
{
    let mut step = step;
    'lines: for at in before..MOST_LINES {
        match step {
            LineStep::Line => {}
            LineStep::End => return Status::Done,
            LineStep::TooLong => return Status::TooLong,
        }
        match take_line(kernel, host, store, listing, buffers, line.as_slice(), at) {
            Ok(()) => {}
            Err(Stop::Ended(ending)) => return Status::of(ending),
            Err(Stop::Host) => return Status::HostFault,
        }
        step = match script.next_line(host, SCRIPT, line) {
            Ok(step) => step,
            Err(_) => return Status::HostFault,
        };
    }
    match step {
        LineStep::End => Status::Done,
        LineStep::Line => Status::TooLong,
        LineStep::TooLong => Status::TooLong,
    }
}
