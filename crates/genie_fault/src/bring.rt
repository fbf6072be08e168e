//! A page comes into a frame of its own.
ghost use Rattle.std.specs.Prelude.{◌≡◌, ◌<◌, ◌^◌, ◌-◌, length, count_by, Some, OnErr, IfOk};
ghost use Rattle.genie_frame.specs.FrameTable.{is_free};
ghost use Rattle.genie_object.specs.Objects.{object_at, entry_at};
ghost use Rattle.genie_object.specs.Pages.{page_at, is_there};
ghost use Rattle.genie_object.specs.Sound.{IsSound, IsSized};
ghost use Rattle.genie_object.specs.Steps.{metered};
ghost use Rattle.genie_object.specs.Costs.{AreBelow, Spends, load_work, slot_gets, place_of as place_in};
ghost use Rattle.genie_fault.specs.Resolving.{IsRead, IsBrought, IsParted};

use crate::load::take_loaded;
use crate::lookup::place_of;
use crate::settle::{rename, settle};
use genie_frame::FrameId;
use genie_object::{EntryRef, Memory, PageId};
use genie_store::{Store, StoreFault};

// Brings a page into a frame of its own, which no device holds where it is.
pub(crate) fn bring<S: Store>(
    memory: &mut Memory,
    store: &mut S,
    page: PageId,
) -> Result<FrameId, StoreFault>
    requires sound { IsSound memory.old }
    requires sized { IsSized memory.old (S.view store.old) }
    requires page { 0 < (page_at memory.old.pages.pages page.0).shares }
    requires free { 0 < count_by is_free memory.old.frames.owners }
    requires meters { AreBelow (2 ^ 64 - 2 ^ 20) memory.old.frames.meters }
    ensures brought { IfOk result (λ g. IsBrought memory.old memory.new (S.view store.old) page.0 g) }
    ensures unchanged { OnErr result (memory.new ≡ metered memory.old memory.new.frames.meters) }
    ensures read { IsRead (S.view store.old) (S.view store.new) result }
    ensures meters { Spends (load_work memory.old.frames.page (page_at memory.old.pages.pages page.0).place) (slot_gets (page_at memory.old.pages.pages page.0).place) 0 1 memory.old.frames.meters memory.new.frames.meters }
{
    let place = memory.pages.place(page);
    match take_loaded(memory, store, place) {
        Ok(g) => {
            settle(memory, page, g);
            Ok(g)
        }
        Err(fault) => Err(fault),
    }
}

// Gives an entry a page of its own, in a frame of its own, with the bytes that it had.
pub(crate) fn part<S: Store>(
    memory: &mut Memory,
    store: &mut S,
    at: EntryRef,
) -> Result<FrameId, StoreFault>
    requires sound { IsSound memory.old }
    requires sized { IsSized memory.old (S.view store.old) }
    requires there { at.index < length (object_at memory.old.objects at.object.0) }
    requires many { (p : PageId) → (entry_at memory.old.objects at.object.0 at.index).page ≡ Some p → 1 < (page_at memory.old.pages.pages p.0).shares }
    requires free { 0 < count_by is_free memory.old.frames.owners }
    requires room { count_by is_there memory.old.pages.pages < memory.old.pages.most }
    requires meters { AreBelow (2 ^ 64 - 2 ^ 20) memory.old.frames.meters }
    ensures parted { IfOk result (λ g. IsParted memory.old memory.new (S.view store.old) at.object.0 at.index g) }
    ensures unchanged { OnErr result (memory.new ≡ metered memory.old memory.new.frames.meters) }
    ensures read { IsRead (S.view store.old) (S.view store.new) result }
    ensures meters { Spends (load_work memory.old.frames.page (place_in memory.old at.object.0 at.index)) (slot_gets (place_in memory.old at.object.0 at.index)) 0 1 memory.old.frames.meters memory.new.frames.meters }
{
    let place = place_of(memory, at);
    match take_loaded(memory, store, place) {
        Ok(g) => {
            let page = rename(memory, at);
            settle(memory, page, g);
            Ok(g)
        }
        Err(fault) => Err(fault),
    }
}
