//! A region is moved out.
ghost use Rattle.std.specs.Prelude.{◌≡◌, ◌<◌, [], false, IsSome, IsTrue, length, slice_index_or};
ghost use Rattle.genie_hiding.specs.Queues.{is_in};
ghost use Rattle.genie_region.specs.Layouts.{region_of};
ghost use Rattle.genie_space.specs.Spaces.{is_alive, regions_of};
ghost use Rattle.genie_changes.specs.MovingOut.{MovedOutHasParts, MovedOutState, moved_out};

use genie_base::RegionId;
use genie_kernel::Kernel;
use genie_region::RegionState;

/// What is true of a kernel stays so where a region is moved out, but for the order of its outline, and the state is that
/// with the region moved out.
pub fn regions_move_out()
    ensures parts { MovedOutHasParts }
    ensures state { MovedOutState }
{}

/// Moves a region of a process out: it is Out, and behind the others in the weak queue.
pub fn move_out(kernel: &mut Kernel, pid: u32, id: RegionId)
    requires number { pid < 16 }
    requires alive { IsTrue (is_alive pid kernel.old.spaces) }
    requires there { IsSome (region_of id (regions_of pid kernel.old.spaces)) }
    requires room { length (slice_index_or kernel.old.queues pid []) < 32 }
    requires unlisted { is_in id.0 (slice_index_or kernel.old.queues pid []) ≡ false }
    ensures { kernel.new ≡ moved_out kernel.old pid id }
{
    let regions = kernel.spaces.regions_mut(pid);
    regions.set_state(id, RegionState::Out);
    kernel.queues[pid as usize].push(id);
}
