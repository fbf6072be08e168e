//! The regions of a process that begins as a copy of another one, before their pages are copied.
ghost use Rattle.std.specs.Prelude.{◌≡◌, ◌<◌, ◌≤◌, IsNone, IsTrue, length, count_by, not, None};
ghost use Rattle.genie_base.specs.Regions.{AreInOrder, is_free};
ghost use Rattle.genie_base.specs.declared.event.Event.TheVariants as event;
ghost use Rattle.genie_hiding.specs.Hidden.{is_of};
ghost use Rattle.genie_object.specs.Objects.{is_absent};
ghost use Rattle.genie_object.specs.Sound.{IsSound};
ghost use Rattle.genie_region.specs.Layouts.{extent, region_of};
ghost use Rattle.genie_space.specs.Spaces.{regions_of};
ghost use Rattle.genie_model.specs.Refusing.{refuse};
ghost use Rattle.genie_kernel.specs.Good.{IsGood};
ghost use Rattle.genie_kernel.specs.View.{outline};
ghost use Rattle.genie_spaces.specs.Forking.{AddsCopy, HasCopies, with_entries};

use crate::laws::region_laws;
use crate::number::fresh_beside;
use genie_base::RegionId;
use genie_changes::given::regions_fit;
use genie_kernel::Kernel;
use genie_object::Memory;
use genie_region::{Region, RegionState, Regions};
use genie_room::laws::objects_suffice;

// Adds a Live copy of a region, with an object of untouched pages.
fn add_copy(memory: &mut Memory, copies: &mut Regions, id: RegionId, region: Region)
    requires sound { IsSound memory.old }
    requires room { count_by (λ o. not (is_absent o)) memory.old.objects < 512 }
    requires some { 1 ≤ region.pages }
    requires most { region.pages ≤ 64 }
    requires few { length copies.old < 32 }
    requires free { IsTrue (is_free extent region.start region.pages copies.old) }
    requires new { IsNone (region_of id copies.old) }
    ensures { AddsCopy id region copies.old copies.new memory.old memory.new }
{
    let object = memory.make_object(region.pages);
    copies.insert(Region {
        id,
        start: region.start,
        pages: region.pages,
        area: region.area,
        state: RegionState::Live,
        writable: region.writable,
        object,
    });
}

// Makes a copy of each region of a process that an access may reach, in order of start pages. Each gets the least number
// that no region and no orphan has, those before it counted, and an object of untouched pages.
pub(crate) fn make_copies(kernel: &mut Kernel, pid: u32, child: u32) -> Regions
    requires good { IsGood kernel.old }
    requires accepted { refuse (outline kernel.old) (event.Fork pid child) ≡ None }
    requires unhidden { count_by (is_of child) kernel.old.hidden ≡ 0 }
    ensures only { kernel.new ≡ record kernel.old { memory = with_entries kernel.old kernel.new.memory.objects } }
    ensures ordered { AreInOrder extent (regions_of pid kernel.old.spaces) }
    ensures copies { HasCopies kernel.old child (regions_of pid kernel.old.spaces) (length (regions_of pid kernel.old.spaces)) result kernel.new.memory.objects }
{
    region_laws();
    regions_fit();
    objects_suffice();
    let mut copies = Regions::new();
    let count = kernel.spaces.regions(pid).len();
    'regions: for i in 0..count {
        let region = kernel.spaces.regions(pid).at(i);
        if !region.accessible() {
            continue;
        }
        let id = RegionId(fresh_beside(kernel, &copies));
        add_copy(&mut kernel.memory, &mut copies, id, region);
    }
    copies
}
