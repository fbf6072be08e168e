//! The region of a transfer.
ghost use Rattle.std.specs.Prelude.{◌≡◌, ◌<◌, IsTrue, Some, false, length, slice_index_or, [], ◌∷◌, ◌++◌};
ghost use Rattle.genie_base.specs.declared.region.RegionState.TheVariants.{Out};
ghost use Rattle.genie_hiding.specs.Queues.{is_in};
ghost use Rattle.genie_region.specs.Layouts.{region_of};
ghost use Rattle.genie_space.specs.Spaces.{is_alive, regions_of};
ghost use Rattle.genie_changes.specs.Turned.{turned};
ghost use Rattle.genie_endings.specs.Named.{named};

use genie_kernel::{Kernel, Transfer};
use genie_region::{Region, RegionState};

/// A region, and the process that has it.
#[derive(Clone, Copy)]
pub(crate) struct Placed {
    pub pid: u32,
    pub region: Region,
}

// The region that a transfer names, where the process that made the call has it.
pub(crate) fn named_region(kernel: &Kernel, transfer: &Transfer) -> Option<Placed>
    ensures { result ≡ named kernel.now.spaces transfer.now.owner transfer.now.region }
{
    let pid = transfer.owner?;
    let id = transfer.region?;
    if !kernel.spaces.alive(pid) {
        return None;
    }
    let region = kernel.spaces.regions(pid).get(id)?;
    Some(Placed { pid, region })
}

// The region is moved out, and comes to the end of the queue of its process.
pub(crate) fn move_out(kernel: &mut Kernel, pid: u32, region: Region)
    requires number { pid < 16 }
    requires alive { IsTrue (is_alive pid kernel.old.spaces) }
    requires there { region_of region.id (regions_of pid kernel.old.spaces) ≡ Some region }
    requires room { length (slice_index_or kernel.old.queues pid []) < 32 }
    requires new { is_in region.id.0 (slice_index_or kernel.old.queues pid []) ≡ false }
    ensures { kernel.new ≡ turned kernel.old pid region.id.0 Out (regions_of pid kernel.old.spaces) (slice_index_or kernel.old.queues pid [] ++ region.id.0 ∷ []) }
{
    let regions = kernel.spaces.regions_mut(pid);
    regions.set_state(region.id, RegionState::Out);
    kernel.queues[pid as usize].push(region.id);
}
