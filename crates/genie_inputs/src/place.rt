//! The place of a new region.
ghost use Rattle.std.specs.Prelude.{◌≡◌, ◌+◌, ◌-◌, ◌*◌, ◌/◌, ◌^◌, ◌<◌, ◌≤◌, None, IsNone, IsTrue, length, count_by, not};
ghost use Rattle.genie_base.specs.Regions.{is_free};
ghost use Rattle.genie_base.specs.Transfers.{class_of};
ghost use Rattle.genie_object.specs.Objects.{is_absent};
ghost use Rattle.genie_object.specs.Sound.{IsSound};
ghost use Rattle.genie_region.specs.Layouts.{extent, region_of};
ghost use Rattle.genie_space.specs.Spaces.{is_alive, regions_of};
ghost use Rattle.genie_model.specs.Refusing.{must_make, refuse};
ghost use Rattle.genie_kernel.specs.Good.{IsGood};
ghost use Rattle.genie_kernel.specs.View.{outline};
ghost use Rattle.genie_spaces.specs.Clearing.{Adds};
ghost use Rattle.genie_inputs.specs.Calls.{input_event};
ghost use Rattle.genie_inputs.specs.Placing.{IsPlace, new_region};

use crate::call::Call;
use genie_base::{Area, ObjectId, RegionId};
use genie_kernel::Kernel;
use genie_region::{Region, RegionState};
use genie_spaces::number::fresh_number;

// Where a new region is to be: its number, its first page, and how many pages it has.
#[derive(Clone, Copy, Debug, PartialEq, Eq)]
pub(crate) struct Placement {
    pub id: RegionId,
    pub start: u32,
    pub pages: u32,
}

// How many pages so many bytes need.
pub(crate) fn pages_for(page: u32, len: u32) -> u32
    requires some { 0 < page }
    requires fits { len + page < 2 ^ 32 }
    ensures { result ≡ (len + page - 1) / page }
{
    (len + page - 1) / page
}

// Where the region of a call is to be that makes one: its number is the least that no region and no orphan has, and its
// place the lowest in the system area.
pub(crate) fn find_place(kernel: &Kernel, call: Call) -> Placement
    requires good { IsGood kernel.now }
    requires accepted { refuse (outline kernel.now) (input_event call None) ≡ None }
    requires made { IsTrue (must_make (outline kernel.now) call.pid (class_of call.sem) call.len) }
    ensures { IsPlace kernel.now call result }
{
    let id = RegionId(fresh_number(kernel));
    let pages = pages_for(kernel.spaces.page().get(), call.len);
    let Some(start) = kernel.spaces.regions(call.pid).place(pages) else {
        unreachable!()
    };
    Placement { id, start, pages }
}

// A region of the system's more, in this state, with an object of untouched pages.
pub(crate) fn add_region(
    kernel: &mut Kernel,
    pid: u32,
    place: Placement,
    state: RegionState,
) -> ObjectId
    requires alive { IsTrue (is_alive pid kernel.old.spaces) }
    requires sound { IsSound kernel.old.memory }
    requires room { count_by (λ o. not (is_absent o)) kernel.old.memory.objects < 512 }
    requires some { 1 ≤ place.pages }
    requires most { place.pages ≤ 64 }
    requires few { length (regions_of pid kernel.old.spaces) < 32 }
    requires free { IsTrue (is_free extent place.start place.pages (regions_of pid kernel.old.spaces)) }
    requires new { IsNone (region_of place.id (regions_of pid kernel.old.spaces)) }
    ensures { Adds pid (new_region place state result) kernel.old kernel.new }
{
    let object = kernel.memory.make_object(place.pages);
    let regions = kernel.spaces.regions_mut(pid);
    regions.insert(Region {
        id: place.id,
        start: place.start,
        pages: place.pages,
        area: Area::Sys,
        state,
        writable: true,
        object,
    });
    object
}
