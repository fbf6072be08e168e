//! A region that is removed with its object.
ghost use Rattle.std.specs.Prelude.{◌≡◌, ◌<◌, IsSome, IsTrue, Some};
ghost use Rattle.genie_hiding.specs.Queues.{is_in};
ghost use Rattle.genie_region.specs.Layouts.{region_of};
ghost use Rattle.genie_space.specs.Spaces.{is_alive, regions_of};
ghost use Rattle.genie_changes.specs.Removal.{RemovesRegion, RemovalSettles, RemovalKeeps, RemovalShows, OutlinesShowRemoval, RemovalState, removed_from, unlisted};
ghost use Rattle.genie_changes.specs.Settled.{IsSettled};

use genie_base::RegionId;
use genie_fault::remove_object;
use genie_hiding::WeakQueue;
use genie_kernel::Kernel;
use genie_region::Region;

/// What is left of a kernel once a region is removed: what is true between two changes stays so, no frame is freed while a
/// device holds it, and the state is that without the region, of which an orphan stays under pending weak transfers.
pub fn removed_regions()
    ensures settles { RemovalSettles }
    ensures keeps { RemovalKeeps }
    ensures shows { RemovalShows }
    ensures outlines { OutlinesShowRemoval }
    ensures state { RemovalState }
{}

// Whether the queue lists the region.
fn lists(queue: &WeakQueue, id: RegionId) -> bool
    ensures { result ≡ is_in id.0 queue.now }
{
    queue.at(0);
    'places: for i in 0..32 {
        let Some(listed) = queue.at(i) else {
            return false;
        };
        if listed.0 == id.0 {
            return true;
        }
    }
    false
}

// Takes the region out of the queue, where that lists it.
fn unlist(queue: &mut WeakQueue, id: RegionId)
    ensures { queue.new ≡ unlisted id.0 queue.old }
{
    if lists(queue, id) {
        queue.remove(id);
    }
}

// Takes a region out of a process, also out of its queue.
pub(crate) fn forget(kernel: &mut Kernel, pid: u32, id: RegionId)
    requires number { pid < 16 }
    requires alive { IsTrue (is_alive pid kernel.old.spaces) }
    requires there { IsSome (region_of id (regions_of pid kernel.old.spaces)) }
    ensures { kernel.new ≡ removed_from kernel.old kernel.old.memory pid id.0 (regions_of pid kernel.old.spaces) }
{
    let regions = kernel.spaces.regions_mut(pid);
    regions.remove(id);
    unlist(&mut kernel.queues[pid as usize], id);
}

/// Removes a region of a process with its object. Its frames are free then, but those that are lent, which are nobody's
/// until the loans are back; what is left of it under pending weak transfers is an orphan.
pub fn remove_region(kernel: &mut Kernel, pid: u32, region: Region)
    requires settled { IsSettled kernel.old }
    requires alive { IsTrue (is_alive pid kernel.old.spaces) }
    requires there { region_of region.id (regions_of pid kernel.old.spaces) ≡ Some region }
    ensures { RemovesRegion pid region kernel.old kernel.new }
{
    remove_object(&mut kernel.memory, region.object);
    forget(kernel, pid, region.id);
}
