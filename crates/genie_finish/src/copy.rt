//! Bytes are copied from a buffer to a range.
ghost use Rattle.std.specs.Prelude.{◌≡◌, ℕ, ◌+◌, ◌-◌, ◌*◌, ◌/◌, ◌%◌, ◌^◌, ◌<◌, ◌≤◌, true, length, min, slice_index_or};
ghost use Rattle.genie_base.specs.Counts.{span};
ghost use Rattle.genie_frame.specs.FrameTable.{owner_at, is_system};
ghost use Rattle.genie_object.specs.Objects.{object_at, entry_at};
ghost use Rattle.genie_object.specs.Sound.{IsSound, IsPrivate};
ghost use Rattle.genie_plan.specs.Plans.{input_frames};
ghost use Rattle.genie_finish.specs.Copies.{CopiesRange, AreOwn, AreOfSystem};

use genie_copyout::copy_out;
use genie_frame::InLoan;
use genie_object::{EntryRef, Memory, Range};

/// Copies the bytes of a buffer to a range of pages that are the object's own, wherever either lies in its pages. The
/// buffer's bytes begin at place `first` of its first frame. No page moves, and no loan ends.
pub fn copy_range(memory: &mut Memory, loans: &[InLoan], first: u32, range: &Range)
    requires sound { IsSound memory.old }
    requires fits { range.now.off + range.now.len < 2 ^ 32 }
    requires source { first + range.now.len < 2 ^ 32 }
    requires inside { first + range.now.len ≤ memory.old.frames.page * length loans.now }
    requires within { range.now.off / memory.old.frames.page + span memory.old.frames.page range.now.off range.now.len ≤ length (object_at memory.old.objects range.now.object.0) }
    requires own { AreOwn memory.old range.now.object.0 range.now.off range.now.len }
    requires frames { AreOfSystem memory.old.frames (input_frames loans.now) }
    requires meter { memory.old.frames.meters.copied + range.now.len < 2 ^ 64 }
    ensures copied { CopiesRange memory.old memory.new range.now.object.0 range.now.off range.now.len first (input_frames loans.now) }
{
    let page = memory.frames.page();
    let mut done = 0u32;
    'pieces: while done < range.len {
        let from = first + done;
        let to = range.off + done;
        let room = (page - from % page).min(page - to % page);
        let n = room.min(range.len - done);
        let at = EntryRef {
            object: range.object,
            index: to / page,
        };
        copy_out(
            memory,
            loans[(from / page) as usize].frame,
            from % page,
            at,
            to % page,
            n,
        );
        done += n;
    }
}
