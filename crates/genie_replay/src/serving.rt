//! Stepping one event, and one line.
ghost use Rattle.std.specs.Prelude.{◌<◌, ◌^◌, IsTrue, IsSome, IfSome};
ghost use Rattle.genie_base.specs.Events.{is_whole};
ghost use Rattle.genie_model.specs.Step.{HasNumber};
ghost use Rattle.genie_script.specs.Judge.{event_said};
ghost use Rattle.genie_script.specs.Lines.{line_of};
ghost use Rattle.genie_replay.specs.Serving.{ServesFrom, TakesLineFrom};

use crate::write::write_all;
use genie_base::{Event, Mark, PageBuffer};
use genie_flat::Flat;
use genie_host::Host;
use genie_script::{Ending, Judged, LineBuffer, judge_event, put_reply};

/// The handle of the replies.
pub const REPLIES: u32 = 0;

/// Why a run stops at a line.
#[derive(Clone, Copy, Debug, PartialEq, Eq)]
pub enum Stop {
    /// A write failed.
    Host,
    /// Memory ran out.
    Memory,
    /// The script ends there.
    Ended(Ending),
}

/// The buffers of a run. Nothing is known of what they hold between two lines.
#[derive(Drop)]
pub(crate) struct Buffers {
    // the bytes that a `write` says
    pub(crate) said: PageBuffer,
    // the bytes that a `read` answers
    answer: PageBuffer,
    // the text of a reply
    text: LineBuffer,
}

impl Buffers {
    /// Empty ones.
    pub(crate) fn new() -> Buffers {
        Buffers {
            said: PageBuffer::new(),
            answer: PageBuffer::new(),
            text: LineBuffer::new(),
        }
    }
}

// Steps an event, and writes its reply.
fn serve<H: Host>(
    host: &mut H,
    flat: &mut Flat,
    event: &Event,
    answer: &mut PageBuffer,
    text: &mut LineBuffer,
) -> Result<(), Stop>
    requires whole { IsTrue (is_whole event.now) }
    requires numbered { IfSome flat.old HasNumber }
    requires machine { IsSome flat.old }
    ensures { ServesFrom flat.old event.now flat.new (H.view host.old) (H.view host.new) result }
{
    let reply = match flat.step(event, &Mark::NoFault, answer) {
        Ok(reply) => reply,
        Err(_) => return Err(Stop::Memory),
    };
    text.clear();
    put_reply(&reply, text);
    match write_all(host, REPLIES, text.as_slice()) {
        Ok(()) => Ok(()),
        Err(_) => Err(Stop::Host),
    }
}

/// Judges a line behind the boot part, where so many lines stand before it, and steps its event.
pub(crate) fn take_line<H: Host>(
    host: &mut H,
    flat: &mut Flat,
    buffers: &mut Buffers,
    line: &[u8],
    before: u64,
) -> Result<(), Stop>
    requires few { before < 2 ^ 32 }
    requires numbered { IfSome flat.old HasNumber }
    requires machine { IsSome flat.old }
    ensures { TakesLineFrom (event_said before (line_of line.now)) flat.old flat.new
        (H.view host.old) (H.view host.new) result }
{
    match judge_event(before, line, &mut buffers.said) {
        Judged::Passed => Ok(()),
        Judged::Ends(ending) => Err(Stop::Ended(ending)),
        Judged::Taken(event) => {
            serve(host, flat, &event, &mut buffers.answer, &mut buffers.text)
        }
    }
}
