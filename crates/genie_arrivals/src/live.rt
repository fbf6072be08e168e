//! The region of a move input becomes its process's.
ghost use Rattle.std.specs.Prelude.{◌≡◌, IsSome, IsTrue};
ghost use Rattle.genie_region.specs.Layouts.{region_of};
ghost use Rattle.genie_space.specs.Spaces.{is_alive, regions_of};
ghost use Rattle.genie_arrivals.specs.Live.{lively};

use genie_base::{RegionId, RegionState};
use genie_kernel::Kernel;

// The region is Live, and nothing else changed.
pub(crate) fn make_live(kernel: &mut Kernel, pid: u32, id: RegionId)
    requires alive { IsTrue (is_alive pid kernel.old.spaces) }
    requires there { IsSome (region_of id (regions_of pid kernel.old.spaces)) }
    ensures { kernel.new ≡ lively kernel.old pid id.0 (regions_of pid kernel.old.spaces) }
{
    let regions = kernel.spaces.regions_mut(pid);
    regions.set_state(id, RegionState::Live);
}
