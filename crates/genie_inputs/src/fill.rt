//! Input into a new region, in which a device stores at once.
ghost use Rattle.std.specs.Prelude.{◌≤◌, ◌≡◌, ◌+◌, ◌^◌, ◌<◌, IsSome, IsTrue, None};
ghost use Rattle.genie_base.specs.Events.{mark_of};
ghost use Rattle.genie_base.specs.Transfers.{class_of};
ghost use Rattle.genie_base.specs.declared.region.RegionState.TheVariants.{Live};
ghost use Rattle.genie_base.specs.declared.semantics.Class.TheVariants.{WeakMove};
ghost use Rattle.genie_object.specs.Costs.{AreBelow};
ghost use Rattle.genie_object.specs.Sound.{IsSized};
ghost use Rattle.genie_region.specs.Layouts.{region_of};
ghost use Rattle.genie_space.specs.Spaces.{is_alive, regions_of};
ghost use Rattle.genie_model.specs.Refusing.{must_make, refuse};
ghost use Rattle.genie_kernel.specs.Good.{IsGood};
ghost use Rattle.genie_kernel.specs.Rising.{MetersRise};
ghost use Rattle.genie_copying.specs.Bounds.{KeepsToBound};
ghost use Rattle.genie_copying.specs.Getting.{pages_most};
ghost use Rattle.genie_kernel.specs.Steps.{StoreCause};
ghost use Rattle.genie_kernel.specs.View.{outline};
ghost use Rattle.genie_inputs.specs.Calls.{input_event};
ghost use Rattle.genie_inputs.specs.Placing.{new_region};
ghost use Rattle.genie_inputs.specs.Posting.{IsAnswered};
ghost use Rattle.genie_inputs.specs.Reusing.{with_filled};

use crate::call::Call;
use crate::in_place::lend_in_place;
use crate::laws::input_laws;
use crate::place::{Placement, add_region, find_place};
use crate::posting::post;
use genie_base::{Area, ObjectId, RegionId, Reply, TransferId};
use genie_changes::removal::{remove_region, removed_regions};
use genie_changes::settled::good_kernels_are_settled;
use genie_kernel::Kernel;
use genie_plan::laws::wires_show_what_was_seen;
use genie_region::{Region, RegionState};
use genie_room::laws::objects_suffice;
use genie_spaces::laws::region_laws;
use genie_spaces::room::make_room;
use genie_store::Store;

// The new region, before it is moved into.
fn live_region(place: Placement, object: ObjectId) -> Region
    ensures { result ≡ new_region place Live object }
{
    Region {
        id: place.id,
        start: place.start,
        pages: place.pages,
        area: Area::Sys,
        state: RegionState::Live,
        writable: true,
        object,
    }
}

// The region is In.
fn set_in(kernel: &mut Kernel, pid: u32, id: RegionId)
    requires alive { IsTrue (is_alive pid kernel.old.spaces) }
    requires there { IsSome (region_of id (regions_of pid kernel.old.spaces)) }
    ensures { kernel.new ≡ with_filled kernel.old pid id }
{
    let regions = kernel.spaces.regions_mut(pid);
    regions.set_state(id, RegionState::In);
}

/// Posts an input of weak move semantics into a new region of zeros, at the lowest place in the system area, where no region
/// of the process's weak queue can be used again. Its pages are lent in place; the basic call wires them besides. Where the
/// store fails, the region goes again, nothing is posted, and what processes and devices see is as before.
pub fn fill<S: Store>(kernel: &mut Kernel, store: &mut S, call: Call) -> Reply<'static>
    requires class { class_of call.sem ≡ WeakMove }
    requires good { IsGood kernel.old }
    requires sized { IsSized kernel.old.memory (S.view store.old) }
    requires meters { AreBelow (2 ^ 63) kernel.old.memory.frames.meters }
    requires numbered { kernel.old.next + 1 < 2 ^ 32 }
    requires accepted { refuse (outline kernel.old) (input_event call None) ≡ None }
    requires made { IsTrue (must_make (outline kernel.old) call.pid (class_of call.sem) call.len) }
    ensures answered { IsAnswered kernel.old kernel.new (S.view store.old) (S.view store.new) (input_event call None) result }
    ensures cause { StoreCause (mark_of result) (S.view store.old).faults (S.view store.new).faults }
    ensures rises { MetersRise (2 ^ 36) kernel.old.memory.frames kernel.new.memory.frames }
    ensures landed { kernel.new.memory.frames.landed ≡ kernel.old.memory.frames.landed }
    ensures gets { kernel.new.memory.frames.meters.gets ≤ kernel.old.memory.frames.meters.gets + pages_most kernel.old (input_event call None) }
    ensures copying { KeepsToBound kernel.old (input_event call None) kernel.new result }
{
    input_laws();
    region_laws();
    objects_suffice();
    wires_show_what_was_seen();
    good_kernels_are_settled();
    removed_regions();
    let id = TransferId(kernel.next);
    let place = find_place(kernel, call);
    make_room(kernel, call.pid);
    let object = add_region(kernel, call.pid, place, RegionState::Live);
    let region = live_region(place, object);
    let basic = !call.sem.emulated();
    match lend_in_place(kernel, store, region, 0, call.len, basic) {
        Ok(loans) => {
            set_in(kernel, call.pid, place.id);
            post(kernel, call.transfer(id, 0, Some(place.id), 0, loans));
            Reply::Id { id: id.0 }
        }
        Err(_) => {
            remove_region(kernel, call.pid, region);
            Reply::StoreFault
        }
    }
}
