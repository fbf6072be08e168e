//! A buffer's bytes are stored in a range, and all its loans end.
ghost use Rattle.genie_plan.specs.Plans.{input_frames};
ghost use Rattle.genie_copying.specs.Spending.{CopiesAtMost};
ghost use Rattle.genie_arrivals.specs.EarlyCosts.{store_work};
ghost use Rattle.genie_arrivals.specs.Stored.{CanStoreBuffer, StoresBuffer};

use genie_finish::store_range;
use genie_frame::InLoan;
use genie_object::{Memory, Range};
use genie_plan::laws::ended_loans_show_what_was_seen;
use genie_plan::{end_inputs, page_count};

/// Stores the first bytes of a buffer in a range, whose pages were made ready, and ends all loans of the buffer. Its bytes
/// lie in its pages as the range's do in theirs; it may have more pages than the range.
pub(crate) fn store_buffer(memory: &mut Memory, loans: &[InLoan], range: &Range, few: u32)
    requires { CanStoreBuffer memory.old range.now.object.0 range.now.off range.now.len few (input_frames loans.now) }
    ensures stores { StoresBuffer memory.old memory.new range.now.object.0 range.now.off range.now.len (input_frames loans.now) }
    ensures copies { CopiesAtMost (store_work memory.old range.now.object.0 range.now.off range.now.len few) memory.old memory.new }
{
    ended_loans_show_what_was_seen();
    let count = page_count(memory.frames.page(), range.off, range.len) as usize;
    store_range(memory, &loans[..count], range, few);
    end_inputs(&mut memory.frames, &loans[count..]);
    memory.frames.len();
}
