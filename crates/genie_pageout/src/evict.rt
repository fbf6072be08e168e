//! One page goes to the store.
ghost use Rattle.std.specs.Prelude.{◌≡◌, ◌+◌, ◌<◌, ◌≤◌, ◌^◌, ◌-◌, ℕ, true, false, not, length, count_by, slice_set, OnErr, OnOk, IfOk};
ghost use Rattle.genie_frame.specs.FrameTable.{owner_at, counts_at, bytes_at, is_page, is_held};
ghost use Rattle.genie_frame.specs.Frames.{unowned, more_puts};
ghost use Rattle.genie_store.specs.StoreView.{Puts};
ghost use Rattle.genie_object.specs.Memory.{seen_with};
ghost use Rattle.genie_object.specs.Sound.{IsSound, IsSized};
ghost use Rattle.genie_base.specs.Causes.{HasCause};
ghost use Rattle.genie_object.specs.Steps.{metered};
ghost use Rattle.genie_object.specs.Costs.{AreBelow, Spends};
ghost use Rattle.genie_pageout.specs.Evicting.{IsPut, IsGone, StoreKept};

use genie_frame::{FrameId, Frames, Owner};
use genie_object::{Memory, PageId, Place};
use genie_store::{Store, StoreFault};

// Stores a frame's page in a slot.
fn put_page<S: Store>(
    frames: &mut Frames,
    f: FrameId,
    store: &mut S,
    slot: u32,
) -> Result<(), StoreFault>
    requires there { f.0 < length frames.old.owners }
    requires slot { slot < (S.view store.old).count }
    requires page { (S.view store.old).page ≡ frames.old.page }
    requires meter { frames.old.meters.puts + 1 < 2 ^ 64 }
    ensures frames { frames.new ≡ more_puts frames.old }
    ensures puts { Puts (S.view store.old) (S.view store.new) slot (bytes_at frames.old f.0) result }
{
    store.put(slot, frames.page_out(f))
}

// Takes a slot, stores the page, and then leaves the frame.
fn put_out<S: Store>(
    memory: &mut Memory,
    store: &mut S,
    page: PageId,
    f: FrameId,
) -> Result<u32, StoreFault>
    requires sound { IsSound memory.old }
    requires sized { IsSized memory.old (S.view store.old) }
    requires owned { owner_at memory.old.frames f.0 ≡ Owner.Page page.0 }
    requires slots { 0 < count_by not memory.old.slots }
    requires meters { AreBelow (2 ^ 64 - 2 ^ 16) memory.old.frames.meters }
    ensures put { IfOk result (λ s. IsPut memory.old memory.new (S.view store.old) (S.view store.new) page.0 f.0 s) }
    ensures unchanged { OnErr result (memory.new ≡ metered memory.old memory.new.frames.meters) }
    ensures kept { StoreKept (S.view store.old) (S.view store.new) result }
    ensures meters { Spends 0 0 1 0 memory.old.frames.meters memory.new.frames.meters }
    ensures puts { memory.new.frames.meters.puts ≡ memory.old.frames.meters.puts + 1 }
{
    let slot = memory.slots.take();
    match put_page(&mut memory.frames, f, store, slot) {
        Ok(()) => {
            memory.pages.set_place(page, Place::Slot(slot));
            memory.objects.revoke(page);
            memory.frames.disown(f);
            Ok(slot)
        }
        Err(fault) => {
            memory.slots.back(slot);
            Err(fault)
        }
    }
}

/// Puts the page that is in a frame into a slot. The frame is free then, or nobody's while it is strongly lent.
pub fn evict<S: Store>(
    memory: &mut Memory,
    store: &mut S,
    page: PageId,
    f: FrameId,
) -> Result<(), StoreFault>
    requires sound { IsSound memory.old }
    requires sized { IsSized memory.old (S.view store.old) }
    requires owned { owner_at memory.old.frames f.0 ≡ Owner.Page page.0 }
    requires unheld { is_held (counts_at memory.old.frames f.0) ≡ false }
    requires slots { 0 < count_by not memory.old.slots }
    requires meters { AreBelow (2 ^ 64 - 2 ^ 16) memory.old.frames.meters }
    ensures gone { OnOk result (IsGone memory.old memory.new (S.view store.old) (S.view store.new) page.0 f.0) }
    ensures unchanged { OnErr result (memory.new ≡ metered memory.old memory.new.frames.meters) }
    ensures kept { StoreKept (S.view store.old) (S.view store.new) result }
    ensures meters { Spends 0 0 1 0 memory.old.frames.meters memory.new.frames.meters }
    ensures puts { memory.new.frames.meters.puts ≡ memory.old.frames.meters.puts + 1 }
{
    match put_out(memory, store, page, f) {
        Ok(_) => Ok(()),
        Err(fault) => Err(fault),
    }
}
