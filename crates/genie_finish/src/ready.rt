//! The pages of a range are made ready for what is to be stored there.
ghost use Rattle.std.specs.Prelude.{◌≡◌, ℕ, ◌+◌, ◌-◌, ◌*◌, ◌/◌, ◌%◌, ◌^◌, ◌<◌, ◌≤◌, length, count_by, min, OnOk, Result};
ghost use Rattle.genie_base.specs.Counts.{span};
ghost use Rattle.genie_base.specs.Causes.{HasCause};
ghost use Rattle.genie_frame.specs.FrameTable.{is_free};
ghost use Rattle.genie_object.specs.Pages.{is_there};
ghost use Rattle.genie_object.specs.Objects.{object_at, entry_at};
ghost use Rattle.genie_object.specs.Memory.{seen_with};
ghost use Rattle.genie_object.specs.Sound.{IsSound, IsSized, IsPrivate};
ghost use Rattle.genie_object.specs.Touching.{is_in_range};
ghost use Rattle.genie_object.specs.Costs.{AreBelow, Spends};
ghost use Rattle.genie_finish.specs.Ready.{MakesReady, part_work, parts_work};
ghost use Rattle.genie_finish.specs.Ranges.{CanStoreRange};

use genie_fault::resolve_write;
use genie_object::{EntryRef, Memory, Range};
use genie_plan::page_count;
use genie_store::{Store, StoreFault};

// Makes an entry's page ready for `n` bytes: where the rest of it is to stay, it is brought in and made the entry's own.
fn ready_page<S: Store>(
    memory: &mut Memory,
    store: &mut S,
    at: EntryRef,
    n: u32,
) -> Result<(), StoreFault>
    requires sound { IsSound memory.old }
    requires sized { IsSized memory.old (S.view store.old) }
    requires there { at.index < length (object_at memory.old.objects at.object.0) }
    requires free { 0 < count_by is_free memory.old.frames.owners }
    requires room { count_by is_there memory.old.pages.pages < memory.old.pages.most }
    requires meters { AreBelow (2 ^ 64 - 2 ^ 20) memory.old.frames.meters }
    ensures ready { MakesReady memory.old memory.new (S.view store.old) (S.view store.new) at.object.0 at.index 1 (part_work memory.old at.object.0 at.index n) }
    ensures cause { HasCause (S.view store.old).faults (S.view store.new).faults result }
    ensures own { OnOk result (n < memory.old.frames.page → IsPrivate memory.new.frames.counts memory.new.pages.pages (entry_at memory.new.objects at.object.0 at.index).page) }
{
    if n >= memory.frames.page() {
        return Ok(());
    }
    match resolve_write(memory, store, at) {
        Ok(_) => Ok(()),
        Err(fault) => Err(fault),
    }
}

/// Brings the pages in of which a range has a part, and makes them the object's own, so that nothing can fail any more
/// once the first byte is stored in the range. What is seen stays, also after a fault of the store.
pub fn ready_range<S: Store>(
    memory: &mut Memory,
    store: &mut S,
    range: &Range,
) -> Result<(), StoreFault>
    requires sound { IsSound memory.old }
    requires sized { IsSized memory.old (S.view store.old) }
    requires fits { range.now.off + range.now.len < 2 ^ 32 }
    requires within { range.now.off / memory.old.frames.page + span memory.old.frames.page range.now.off range.now.len ≤ length (object_at memory.old.objects range.now.object.0) }
    requires most { span memory.old.frames.page range.now.off range.now.len ≤ 65 }
    requires free { span memory.old.frames.page range.now.off range.now.len ≤ count_by is_free memory.old.frames.owners }
    requires room { count_by is_there memory.old.pages.pages + span memory.old.frames.page range.now.off range.now.len ≤ memory.old.pages.most }
    requires meters { AreBelow (2 ^ 64 - 2 ^ 21) memory.old.frames.meters }
    ensures ready { let n = span memory.old.frames.page range.now.off range.now.len in MakesReady memory.old memory.new (S.view store.old) (S.view store.new) range.now.object.0 (range.now.off / memory.old.frames.page) n (parts_work memory.old range.now.object.0 (range.now.off / memory.old.frames.page) (range.now.off % memory.old.frames.page) range.now.len n) }
    ensures cause { HasCause (S.view store.old).faults (S.view store.new).faults result }
    ensures can { OnOk result ((few : ℕ) → CanStoreRange memory.new range.now.object.0 range.now.off range.now.len few) }
{
    let page = memory.frames.page();
    let first = range.off / page;
    let count = page_count(page, range.off, range.len);
    let mut done = 0u32;
    let mut off = range.off % page;
    'pages: for k in 0..count {
        let n = (page - off).min(range.len - done);
        let at = EntryRef {
            object: range.object,
            index: first + k,
        };
        match ready_page(memory, store, at, n) {
            Ok(()) => {}
            Err(fault) => return Err(fault),
        }
        done += n;
        off = 0;
    }
    Ok(())
}
