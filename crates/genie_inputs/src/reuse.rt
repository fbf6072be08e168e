//! The region that a weak move input uses again.
ghost use Rattle.std.specs.Prelude.{◌≡◌, ◌+◌, ◌^◌, ◌<◌, IsTrue, None, find};
ghost use Rattle.std.specs.List.{list_any};
ghost use Rattle.genie_model.specs.Refusing.{refuse};
ghost use Rattle.genie_kernel.specs.Asked.{has_pages, is_reusable};
ghost use Rattle.genie_kernel.specs.Good.{IsGood};
ghost use Rattle.genie_kernel.specs.View.{outline};
ghost use Rattle.genie_inputs.specs.Calls.{input_event};
ghost use Rattle.genie_inputs.specs.Reusing.{FindsIn, FindsReusable};

use crate::call::Call;
use crate::place::pages_for;
use genie_hiding::WeakQueue;
use genie_kernel::{Kernel, Search, Transfers};
use genie_region::{Region, Regions};

// Whether this is region `id` and has exactly so many pages.
fn is_sized(region: Region, id: u32, pages: u32) -> bool
    ensures { result ≡ has_pages id pages region }
{
    region.id.0 == id && region.pages == pages
}

// Region `id`, where it is one of these and has exactly so many pages.
fn sized_region(regions: &Regions, id: u32, pages: u32) -> Option<Region>
    ensures { result ≡ find (has_pages id pages) regions.now }
{
    'each: for i in 0..regions.len() {
        let region = regions.at(i);
        if is_sized(region, id, pages) {
            return Some(region);
        }
    }
    None
}

// Whether region `id` has exactly so many pages, and no transfer names it.
fn is_free(regions: &Regions, transfers: &Transfers, id: u32, pages: u32) -> bool
    ensures { result ≡ is_reusable regions.now transfers.now pages id }
{
    sized_region(regions, id, pages).is_some() && !transfers.any(Search::Naming(id))
}

// The oldest region of the queue that has exactly so many pages and that no transfer names.
fn oldest(queue: &WeakQueue, regions: &Regions, transfers: &Transfers, pages: u32) -> Option<Region>
    ensures { FindsIn queue.now regions.now transfers.now pages result }
{
    queue.at(0);
    'each: for i in 0..32 {
        let Some(id) = queue.at(i) else {
            return None;
        };
        if is_free(regions, transfers, id.0, pages) {
            return sized_region(regions, id.0, pages);
        }
    }
    None
}

// The region of the process's weak queue that the call uses again.
pub(crate) fn find_reusable(kernel: &Kernel, call: Call) -> Option<Region>
    requires good { IsGood kernel.now }
    requires accepted { refuse (outline kernel.now) (input_event call None) ≡ None }
    ensures { FindsReusable kernel.now call result }
{
    let pages = pages_for(kernel.spaces.page().get(), call.len);
    let regions = kernel.spaces.regions(call.pid);
    oldest(
        &kernel.queues[call.pid as usize],
        regions,
        &kernel.transfers,
        pages,
    )
}
