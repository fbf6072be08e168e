//! A buffer is stored in a range of an object.
ghost use Rattle.std.specs.Prelude.{◌≡◌, ℕ, ◌+◌, ◌-◌, ◌*◌, ◌/◌, ◌%◌, ◌^◌, ◌<◌, ◌≤◌, length, count_by, min};
ghost use Rattle.genie_base.specs.Counts.{span};
ghost use Rattle.genie_object.specs.Pages.{is_there};
ghost use Rattle.genie_object.specs.Objects.{object_at};
ghost use Rattle.genie_object.specs.Sound.{IsSound};
ghost use Rattle.genie_object.specs.Costs.{AreBelow};
ghost use Rattle.genie_plan.specs.Plans.{input_frames};
ghost use Rattle.genie_input.specs.Buffers.{AreBuffers};
ghost use Rattle.genie_finish.specs.Ranges.{CanStoreRange, StoresRange};

use crate::page::store_page;
use genie_frame::InLoan;
use genie_object::{EntryRef, Memory, Range};
use genie_plan::page_count;

/// Stores the bytes of a buffer in a range, and ends its loans. The buffer's bytes lie in its pages as the range's do in
/// theirs, one loan for each page. Whole pages are swapped. A part of a page is copied out where it has at most `few`
/// bytes; else the page's other bytes are brought to the buffer's frame, which takes the page's place. A page that a
/// device holds stays where it is, and is copied to. What lies beside the range in its pages stays: zeros where the page
/// was untouched. Nothing here can fail.
pub fn store_range(memory: &mut Memory, loans: &[InLoan], range: &Range, few: u32)
    requires sound { IsSound memory.old }
    requires fits { range.now.off + range.now.len < 2 ^ 32 }
    requires within { range.now.off / memory.old.frames.page + length loans.now ≤ length (object_at memory.old.objects range.now.object.0) }
    requires number { length loans.now ≡ span memory.old.frames.page range.now.off range.now.len }
    requires most { length loans.now ≤ 65 }
    requires can { CanStoreRange memory.old range.now.object.0 range.now.off range.now.len few }
    requires buffers { AreBuffers memory.old.frames (input_frames loans.now) }
    requires room { count_by is_there memory.old.pages.pages + length loans.now ≤ memory.old.pages.most }
    requires meters { AreBelow (2 ^ 64 - 2 ^ 21) memory.old.frames.meters }
    ensures stored { StoresRange memory.old memory.new range.now.object.0 range.now.off range.now.len few (input_frames loans.now) }
{
    let page = memory.frames.page();
    let first = range.off / page;
    let count = page_count(page, range.off, range.len);
    let mut done = 0u32;
    let mut off = range.off % page;
    'pages: for k in 0..count {
        let n = (page - off).min(range.len - done);
        let at = EntryRef {
            object: range.object,
            index: first + k,
        };
        store_page(memory, loans[k as usize], at, off, n, few);
        done += n;
        off = 0;
    }
}
