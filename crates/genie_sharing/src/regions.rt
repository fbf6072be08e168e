//! The objects of regions that are copied.
ghost use Rattle.std.specs.Prelude.{◌≡◌, ◌≢◌, ◌+◌, ◌≤◌, ◌^◌, [], All, OnErr, OnOk, sum_by};
ghost use Rattle.std.specs.List.{AllPairs, list_any};
ghost use Rattle.genie_base.specs.Causes.{HasCause};
ghost use Rattle.genie_hiding.specs.Discarding.{Discards};
ghost use Rattle.genie_hiding.specs.Hidden.{objects_of};
ghost use Rattle.genie_object.specs.Costs.{AreBelow, Spends};
ghost use Rattle.genie_object.specs.Objects.{object_at};
ghost use Rattle.genie_object.specs.Sound.{FitsHidden, IsSized, IsSound};
ghost use Rattle.genie_sharing.specs.Copying.{Copies, StaysRoomy};
ghost use Rattle.genie_sharing.specs.Regions.{AreCopies, CopiesRegions, has_object, is_copied, region_work};

use crate::copies::copy_object;
use genie_fault::remove_object;
use genie_hiding::HiddenCache;
use genie_object::Memory;
use genie_pageout::Clock;
use genie_region::Regions;
use genie_store::{Store, StoreFault};

/// Copies to each of the copies the pages of the region that starts where it starts. Where the store fails only entries of
/// the copies have changed.
pub fn copy_regions<S: Store>(
    memory: &mut Memory,
    hidden: &mut HiddenCache,
    clock: &mut Clock,
    store: &mut S,
    regions: &Regions,
    copies: &Regions,
) -> Result<(), StoreFault>
    requires sound { IsSound memory.old }
    requires sized { IsSized memory.old (S.view store.old) }
    requires fits { FitsHidden memory.old (objects_of hidden.old) }
    requires page { memory.old.frames.page ≤ 4096 }
    requires copies { AreCopies memory.old (objects_of hidden.old) regions.now copies.now }
    requires room { StaysRoomy (objects_of hidden.old) memory.old }
    requires meters { AreBelow (2 ^ 63) memory.old.frames.meters }
    ensures copied { OnOk result (CopiesRegions (objects_of hidden.old) regions.now copies.now memory.old memory.new (S.view store.old) (S.view store.new)) }
    ensures failed { OnErr result (Copies (objects_of hidden.old) (is_copied copies.now) memory.old memory.new (S.view store.old) (S.view store.new)) }
    ensures hidden { hidden.new ≡ hidden.old }
    ensures cause { HasCause (S.view store.old).faults (S.view store.new).faults result }
    ensures meters { Spends (sum_by (region_work memory.old regions.now) copies.now) 0 (2 ^ 24) (2 ^ 11) memory.old.frames.meters memory.new.frames.meters }
{
    'copies: for i in 0..copies.len() {
        let copy = copies.at(i);
        match regions.starting_at(copy.start) {
            Some(region) => {
                match copy_object(memory, hidden, clock, store, region.object, copy.object) {
                    Ok(()) => {}
                    Err(fault) => return Err(fault),
                }
            }
            None => unreachable!(),
        }
    }
    Ok(())
}

/// Takes the objects of regions away, with their pages.
pub fn drop_objects(memory: &mut Memory, regions: &Regions)
    requires sound { IsSound memory.old }
    requires there { All (λ r. object_at memory.old.objects r.object.0 ≢ []) regions.now }
    requires differ { AllPairs (λ a b. a.object.0 ≢ b.object.0) regions.now }
    ensures { Discards (λ o. list_any (has_object o) regions.now) memory.old memory.new }
{
    'regions: for i in 0..regions.len() {
        remove_object(memory, regions.at(i).object);
    }
}
