//! A frame is loaded with the bytes of a page.
ghost use Rattle.std.specs.Prelude.{◌≡◌, ◌+◌, ◌<◌, ◌≤◌, ◌^◌, ◌-◌, ℕ, length, count_by, OnErr, IfOk};
ghost use Rattle.genie_frame.specs.FrameTable.{bytes_at, set_bytes, owner_at, is_free};
ghost use Rattle.genie_frame.specs.Frames.{more_gets};
ghost use Rattle.genie_store.specs.StoreView.{Gets};
ghost use Rattle.genie_object.specs.Sound.{IsSound, IsSized};
ghost use Rattle.genie_object.specs.Steps.{metered};
ghost use Rattle.genie_fault.specs.Resolving.{Loads, IsRead, IsLoaded, IsKnown};
ghost use Rattle.genie_object.specs.Costs.{AreBelow, Spends, load_work, slot_gets};

use genie_frame::{FrameId, Frames, Owner};
use genie_object::{Memory, Place};
use genie_store::{Store, StoreFault};

// Fills a frame with the page in a slot.
fn get_page<S: Store>(
    frames: &mut Frames,
    f: FrameId,
    store: &mut S,
    slot: u32,
) -> Result<(), StoreFault>
    requires there { f.0 < length frames.old.owners }
    requires slot { slot < (S.view store.old).count }
    requires page { (S.view store.old).page ≡ frames.old.page }
    requires meter { frames.old.meters.gets + 1 < 2 ^ 64 }
    ensures frames { frames.new ≡ more_gets (set_bytes frames.old f.0 (bytes_at frames.new f.0)) }
    ensures size { length (bytes_at frames.new f.0) ≡ frames.old.page }
    ensures gets { Gets (S.view store.old) (S.view store.new) slot (bytes_at frames.old f.0) (bytes_at frames.new f.0) result }
{
    store.get(slot, frames.page_in(f))
}

// Loads a frame with the bytes of a place.
fn load<S: Store>(
    frames: &mut Frames,
    f: FrameId,
    store: &mut S,
    place: Place,
) -> Result<(), StoreFault>
    requires there { f.0 < length frames.old.owners }
    requires from { (g : FrameId) → place ≡ Place.Frame g → g.0 < length frames.old.owners }
    requires slot { (s : ℕ) → place ≡ Place.Slot s → s < (S.view store.old).count }
    requires page { (S.view store.old).page ≡ frames.old.page }
    requires meters { AreBelow (2 ^ 64 - 2 ^ 16) frames.old.meters }
    ensures loads { Loads frames.old frames.new f.0 place (S.view store.old) result }
    ensures read { IsRead (S.view store.old) (S.view store.new) result }
    ensures meters { Spends (load_work frames.old.page place) (slot_gets place) 0 0 frames.old.meters frames.new.meters }
{
    let page = frames.page();
    match place {
        Place::Zero => {
            frames.zero(f, 0, page);
            Ok(())
        }
        Place::Frame(from) => {
            frames.copy(from, 0, f, 0, page);
            Ok(())
        }
        Place::Slot(slot) => get_page(frames, f, store, slot),
    }
}

/// Takes a frame for the system and loads it with the bytes of a place. After a fault the memory is as before.
pub fn take_loaded<S: Store>(
    memory: &mut Memory,
    store: &mut S,
    place: Place,
) -> Result<FrameId, StoreFault>
    requires sound { IsSound memory.old }
    requires known { IsKnown memory.old place }
    requires sized { IsSized memory.old (S.view store.old) }
    requires free { 0 < count_by is_free memory.old.frames.owners }
    requires meters { AreBelow (2 ^ 64 - 2 ^ 20) memory.old.frames.meters }
    ensures loaded { IfOk result (λ g. IsLoaded memory.old memory.new (S.view store.old) place g.0) }
    ensures unchanged { OnErr result (memory.new ≡ metered memory.old memory.new.frames.meters) }
    ensures read { IsRead (S.view store.old) (S.view store.new) result }
    ensures meters { Spends (load_work memory.old.frames.page place) (slot_gets place) 0 1 memory.old.frames.meters memory.new.frames.meters }
{
    let g = memory.frames.take(Owner::System(0));
    match load(&mut memory.frames, g, store, place) {
        Ok(()) => Ok(g),
        Err(fault) => {
            memory.frames.disown(g);
            Err(fault)
        }
    }
}
