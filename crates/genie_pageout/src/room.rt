//! Room is made, frame after frame.
ghost use Rattle.std.specs.Prelude.{◌≡◌, ◌+◌, ◌-◌, ◌<◌, ◌≤◌, ◌^◌, ◌⊎◌, true, false, not, length, count_by, IfSome, OnOk, None};
ghost use Rattle.genie_base.specs.Causes.{HasCause};
ghost use Rattle.genie_frame.specs.FrameTable.{owner_at, counts_at, is_free, is_lent};
ghost use Rattle.genie_object.specs.Costs.{AreBelow, Spends};
ghost use Rattle.genie_object.specs.Sound.{IsSound, IsSized, FitsHidden};
ghost use Rattle.genie_hiding.specs.Hidden.{objects_of};
ghost use Rattle.genie_hiding.specs.Rooms.{MakesRoom, AllShed, can_leave, visible_pages, available};
ghost use Rattle.genie_pageout.specs.Going.{AreSwept};
ghost use Rattle.genie_pageout.specs.Rounds.{MovesOn, Passes, leaves_from};

use crate::clock::Clock;
use crate::evict::evict;
use genie_frame::{FrameId, Owner};
use genie_hiding::HiddenCache;
use genie_object::{Memory, PageId};
use genie_store::{Store, StoreFault};

/// Makes `k` frames free. Where `k` are free already it does nothing. First it drops pages of hidden regions, those of the
/// oldest region first, without asking the store. Then it puts pages into slots, from the clock's frame on, and moves the
/// clock past the frames that it has looked at. It looks at each frame once at most, and leaves a lent frame as it is.
/// After a fault of the store the page that was to go is where it was.
pub fn make_room<S: Store>(
    memory: &mut Memory,
    hidden: &mut HiddenCache,
    clock: &mut Clock,
    store: &mut S,
    k: u32,
) -> Result<(), StoreFault>
    requires sound { IsSound memory.old }
    requires sized { IsSized memory.old (S.view store.old) }
    requires fits { FitsHidden memory.old (objects_of hidden.old) }
    requires frames { k ≤ available memory.old.frames }
    requires slots { visible_pages memory.old (objects_of hidden.old) ≤ count_by not memory.old.slots }
    requires meters { AreBelow (2 ^ 64 - 2 ^ 20) memory.old.frames.meters }
    ensures free { OnOk result (k ≤ count_by is_free memory.new.frames.owners) }
    ensures idle { k ≤ count_by is_free memory.old.frames.owners → memory.new ≡ memory.old }
    ensures first { (memory.new.frames.meters.puts ≡ memory.old.frames.meters.puts) ⊎ AllShed memory.new (objects_of hidden.old) }
    ensures room { MakesRoom (objects_of hidden.old) memory.old memory.new (S.view store.old) (S.view store.new) }
    ensures hidden { hidden.new ≡ hidden.old }
    ensures clock { OnOk result (MovesOn memory.old memory.new clock.old clock.new) }
    ensures cause { HasCause (S.view store.old).faults (S.view store.new).faults result }
    ensures meters { Spends 0 0 8192 0 memory.old.frames.meters memory.new.frames.meters }
{
    hidden.shed_until(memory, k);
    if memory.frames.free() >= k {
        return Ok(());
    }
    match sweep_all(memory, hidden, clock, store, k) {
        Ok(()) => Ok(()),
        Err(fault) => Err(fault),
    }
}

// Goes once around the frames, from the clock's on, until k are free.
fn sweep_all<S: Store>(
    memory: &mut Memory,
    hidden: &HiddenCache,
    clock: &mut Clock,
    store: &mut S,
    k: u32,
) -> Result<(), StoreFault>
    requires sound { IsSound memory.old }
    requires sized { IsSized memory.old (S.view store.old) }
    requires fits { FitsHidden memory.old (objects_of hidden.now) }
    requires shed { AllShed memory.old (objects_of hidden.now) }
    requires frames { k ≤ available memory.old.frames }
    requires slots { visible_pages memory.old (objects_of hidden.now) ≤ count_by not memory.old.slots }
    requires meters { AreBelow (2 ^ 64 - 2 ^ 19) memory.old.frames.meters }
    ensures free { OnOk result (k ≤ count_by is_free memory.new.frames.owners) }
    ensures room { MakesRoom (objects_of hidden.now) memory.old memory.new (S.view store.old) (S.view store.new) }
    ensures clock { OnOk result (MovesOn memory.old memory.new clock.old clock.new) }
    ensures cause { HasCause (S.view store.old).faults (S.view store.new).faults result }
    ensures meters { Spends 0 0 8192 0 memory.old.frames.meters memory.new.frames.meters }
{
    let n = memory.frames.len();
    let place = clock.place(n);
    match sweep(memory, hidden, clock, store, k, place, n) {
        Ok(()) => {}
        Err(fault) => return Err(fault),
    }
    match sweep(memory, hidden, clock, store, k, 0, place) {
        Ok(()) => Ok(()),
        Err(fault) => Err(fault),
    }
}

// Frees frames in a range, until k are free, and moves the clock past those that it has looked at.
fn sweep<S: Store>(
    memory: &mut Memory,
    hidden: &HiddenCache,
    clock: &mut Clock,
    store: &mut S,
    k: u32,
    from: u32,
    to: u32,
) -> Result<(), StoreFault>
    requires sound { IsSound memory.old }
    requires sized { IsSized memory.old (S.view store.old) }
    requires fits { FitsHidden memory.old (objects_of hidden.now) }
    requires shed { AllShed memory.old (objects_of hidden.now) }
    requires order { from ≤ to }
    requires range { to ≤ length memory.old.frames.owners }
    requires slots { visible_pages memory.old (objects_of hidden.now) ≤ count_by not memory.old.slots }
    requires meters { AreBelow (2 ^ 64 - 2 ^ 18) memory.old.frames.meters }
    ensures room { MakesRoom (objects_of hidden.now) memory.old memory.new (S.view store.old) (S.view store.new) }
    ensures cause { HasCause (S.view store.old).faults (S.view store.new).faults result }
    ensures swept { OnOk result ((k ≤ count_by is_free memory.new.frames.owners) ⊎ AreSwept memory.new from to) }
    ensures passes { OnOk result (Passes (leaves_from memory.new) (k ≤ count_by is_free memory.old.frames.owners) (k ≤ count_by is_free memory.new.frames.owners) memory.old memory.new from to clock.old clock.new) }
    ensures meters { Spends 0 0 4096 0 memory.old.frames.meters memory.new.frames.meters }
{
    'frames: for f in from..to {
        if memory.frames.free() >= k {
            return Ok(());
        }
        match visit(memory, hidden, store, FrameId(f)) {
            Ok(()) => clock.set(f + 1),
            Err(fault) => return Err(fault),
        }
    }
    Ok(())
}

// Puts the page in a frame into a slot, unless the frame is lent.
fn visit<S: Store>(
    memory: &mut Memory,
    hidden: &HiddenCache,
    store: &mut S,
    f: FrameId,
) -> Result<(), StoreFault>
    requires sound { IsSound memory.old }
    requires sized { IsSized memory.old (S.view store.old) }
    requires fits { FitsHidden memory.old (objects_of hidden.now) }
    requires shed { AllShed memory.old (objects_of hidden.now) }
    requires there { f.0 < length memory.old.frames.owners }
    requires slots { visible_pages memory.old (objects_of hidden.now) ≤ count_by not memory.old.slots }
    requires meters { AreBelow (2 ^ 64 - 2 ^ 16) memory.old.frames.meters }
    ensures room { MakesRoom (objects_of hidden.now) memory.old memory.new (S.view store.old) (S.view store.new) }
    ensures cause { HasCause (S.view store.old).faults (S.view store.new).faults result }
    ensures gone { OnOk result (can_leave (owner_at memory.new.frames f.0) (counts_at memory.new.frames f.0) ≡ false) }
    ensures meters { Spends 0 0 1 0 memory.old.frames.meters memory.new.frames.meters }
{
    let Some(page) = page_unlent(memory, f) else {
        return Ok(());
    };
    match evict(memory, store, page, f) {
        Ok(()) => Ok(()),
        Err(fault) => Err(fault),
    }
}

// The page in a frame that isn't lent.
fn page_unlent(memory: &Memory, f: FrameId) -> Option<PageId>
    requires { f.0 < length memory.now.frames.owners }
    ensures page { IfSome result (λ p. owner_at memory.now.frames f.0 ≡ Owner.Page p.0) }
    ensures unlent { IfSome result (λ p. is_lent (counts_at memory.now.frames f.0) ≡ false) }
    ensures none { result ≡ None → can_leave (owner_at memory.now.frames f.0) (counts_at memory.now.frames f.0) ≡ false }
{
    let Owner::Page(page) = memory.frames.owner(f) else {
        return None;
    };
    let counts = memory.frames.counts(f);
    if counts.is_lent() {
        return None;
    }
    Some(PageId(page))
}
