//! Room for one region more.
ghost use Rattle.std.specs.Prelude.{◌≡◌, ◌<◌, ◌≤◌, IsNone, IsTrue, length, count_by, not, true};
ghost use Rattle.genie_base.specs.Regions.{is_free};
ghost use Rattle.genie_base.specs.declared.region.RegionState.TheVariants.{Live};
ghost use Rattle.genie_object.specs.Objects.{is_absent};
ghost use Rattle.genie_object.specs.Sound.{IsSound};
ghost use Rattle.genie_region.specs.Layouts.{extent, region_of};
ghost use Rattle.genie_space.specs.Spaces.{is_alive, regions_of};
ghost use Rattle.genie_kernel.specs.Good.{IsGood};
ghost use Rattle.genie_spaces.specs.Clearing.{Adds, Clears, HasRoom};

use genie_base::{Area, ObjectId, RegionId};
use genie_kernel::Kernel;
use genie_region::{Region, RegionState};

/// Drops the hidden regions of a process, where with them a further region would be one too many.
pub fn make_room(kernel: &mut Kernel, pid: u32)
    requires good { IsGood kernel.old }
    requires alive { IsTrue (is_alive pid kernel.old.spaces) }
    requires few { length (regions_of pid kernel.old.spaces) < 32 }
    ensures clears { Clears kernel.old kernel.new }
    ensures room { HasRoom pid kernel.new }
{
    let count = kernel.spaces.regions(pid).len() + kernel.hidden.count(pid);
    if count < 32 {
        return;
    }
    kernel.hidden.discard(&mut kernel.memory, pid);
}

// A region more, with an object of untouched pages.
pub(crate) fn add_region(
    kernel: &mut Kernel,
    pid: u32,
    id: RegionId,
    area: Area,
    start: u32,
    pages: u32,
) -> ObjectId
    requires alive { IsTrue (is_alive pid kernel.old.spaces) }
    requires sound { IsSound kernel.old.memory }
    requires room { count_by (λ o. not (is_absent o)) kernel.old.memory.objects < 512 }
    requires some { 1 ≤ pages }
    requires most { pages ≤ 64 }
    requires few { length (regions_of pid kernel.old.spaces) < 32 }
    requires free { IsTrue (is_free extent start pages (regions_of pid kernel.old.spaces)) }
    requires new { IsNone (region_of id (regions_of pid kernel.old.spaces)) }
    ensures { Adds pid (record { id = id; start = start; pages = pages; area = area; state = Live; writable = true; object = result }) kernel.old kernel.new }
{
    let object = kernel.memory.make_object(pages);
    let regions = kernel.spaces.regions_mut(pid);
    regions.insert(Region {
        id,
        start,
        pages,
        area,
        state: RegionState::Live,
        writable: true,
        object,
    });
    object
}
