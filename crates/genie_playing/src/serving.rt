//! Stepping one event, and one line.
ghost use Rattle.std.specs.Prelude.{◌≡◌, ◌<◌, ◌^◌, IsTrue};
ghost use Rattle.genie_base.specs.Events.{is_whole};
ghost use Rattle.genie_script.specs.Judge.{event_said};
ghost use Rattle.genie_script.specs.Lines.{line_of};
ghost use Rattle.genie_playing.specs.Moments.{HasRoom, IsReady, moment};
ghost use Rattle.genie_playing.specs.Serving.{Answers, TakesLine};

use crate::costs::{Listing, raise, write_answer};
use genie_base::{Event, PageBuffer};
use genie_calls::step::step;
use genie_host::Host;
use genie_kernel::Kernel;
use genie_script::{Ending, Judged, LineBuffer, judge_event};
use genie_store::Store;

/// The handle of the replies.
pub const REPLIES: u32 = 0;

/// Why a run stops at a line.
#[derive(Clone, Copy, Debug, PartialEq, Eq)]
pub enum Stop {
    /// What is said of the event couldn't be written.
    Host,
    /// The script ends there.
    Ended(Ending),
}

/// The buffers of a run. Nothing is known of what they hold between two lines.
#[derive(Drop)]
pub struct Buffers {
    /// The bytes that a `write` says.
    pub said: PageBuffer,
    // the bytes that a `read` answers
    answer: PageBuffer,
    // the text of a reply, or of a cost
    text: LineBuffer,
}

impl Buffers {
    /// Empty ones.
    pub fn new() -> Buffers {
        Buffers {
            said: PageBuffer::new(),
            answer: PageBuffer::new(),
            text: LineBuffer::new(),
        }
    }
}

// Steps an event, and writes its reply, and what it cost where that is listed.
fn serve<H: Host, S: Store>(
    kernel: &mut Kernel,
    host: &mut H,
    store: &mut S,
    listing: Listing,
    event: &Event,
    answer: &mut PageBuffer,
    text: &mut LineBuffer,
) -> Result<(), Stop>
    requires ready { IsReady kernel.old (H.view host.old) (S.view store.old) }
    requires room { HasRoom kernel.old }
    requires whole { IsTrue (is_whole event.now) }
    ensures ready { IsReady kernel.new (H.view host.new) (S.view store.new) }
    ensures answers { Answers listing (moment kernel.old (H.view host.old) (S.view store.old)) event.now
        (moment kernel.new (H.view host.new) (S.view store.new)) result }
{
    let before = kernel.meters();
    let reply = step(kernel, host, store, event, answer);
    let cost = raise(&before, &kernel.meters());
    match write_answer(host, listing, &reply, &cost, text) {
        Ok(()) => Ok(()),
        Err(_) => Err(Stop::Host),
    }
}

/// Judges a line behind the boot part, where so many lines stand before it, and steps its event.
pub fn take_line<H: Host, S: Store>(
    kernel: &mut Kernel,
    host: &mut H,
    store: &mut S,
    listing: Listing,
    buffers: &mut Buffers,
    line: &[u8],
    before: u64,
) -> Result<(), Stop>
    requires few { before < 2 ^ 32 }
    requires ready { IsReady kernel.old (H.view host.old) (S.view store.old) }
    requires room { HasRoom kernel.old }
    ensures ready { IsReady kernel.new (H.view host.new) (S.view store.new) }
    ensures takes { TakesLine listing (event_said before (line_of line.now)) (moment kernel.old (H.view host.old) (S.view store.old))
        (moment kernel.new (H.view host.new) (S.view store.new)) result }
{
    match judge_event(before, line, &mut buffers.said) {
        Judged::Passed => Ok(()),
        Judged::Ends(ending) => Err(Stop::Ended(ending)),
        Judged::Taken(event) => {
            serve(
                kernel,
                host,
                store,
                listing,
                &event,
                &mut buffers.answer,
                &mut buffers.text,
            )
        }
    }
}
