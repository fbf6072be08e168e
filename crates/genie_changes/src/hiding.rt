//! A region that is hidden in place of being removed.
ghost use Rattle.std.specs.Prelude.{◌≡◌, IsTrue, Some};
ghost use Rattle.genie_region.specs.Layouts.{region_of};
ghost use Rattle.genie_space.specs.Spaces.{is_alive, regions_of};
ghost use Rattle.genie_changes.specs.Hiding.{HidesRegion, HidingSettles, HidingKeeps, HidingShows, HidingState};
ghost use Rattle.genie_changes.specs.Settled.{IsSettled};

use crate::removal::forget;
use genie_kernel::Kernel;
use genie_region::Region;

/// What is left of a kernel once a region is hidden: what is true between two changes stays so, no frame is freed while a
/// device holds it, and the state is that without the region, of which an orphan stays under pending weak transfers.
pub fn hidden_regions()
    ensures settles { HidingSettles }
    ensures keeps { HidingKeeps }
    ensures shows { HidingShows }
    ensures state { HidingState }
{}

/// Hides a region of a process: the cache keeps it, with those of its pages that are its own and in a frame that no device
/// holds. The frames of its other pages are free then, but those that are lent, which are nobody's until the loans are back;
/// what is left of it under pending weak transfers is an orphan.
pub fn hide_region(kernel: &mut Kernel, pid: u32, region: Region)
    requires settled { IsSettled kernel.old }
    requires alive { IsTrue (is_alive pid kernel.old.spaces) }
    requires there { region_of region.id (regions_of pid kernel.old.spaces) ≡ Some region }
    ensures { HidesRegion pid region kernel.old kernel.new }
{
    kernel.hidden.hide(&mut kernel.memory, pid, region);
    forget(kernel, pid, region.id);
}
