//! What the causes of refusal ask of a kernel.
ghost use Rattle.std.specs.Prelude.{◌≡◌, ◌≤◌, ℕ, None, find, is_some, length};
ghost use Rattle.std.specs.Option.{option_map};
ghost use Rattle.genie_base.specs.Regions.{is_free, place as place_of, reach};
ghost use Rattle.genie_region.specs.Layouts.{extent, starts_at};
ghost use Rattle.genie_space.specs.Spaces.{regions_of};
ghost use Rattle.genie_kernel.specs.Asked.{found_as};
ghost use Rattle.genie_kernel.specs.Good.{IsGood};
ghost use Rattle.genie_kernel.specs.View.{outline};

use crate::asked::{all_costs, all_pages, any_reusable, pages_of};
use crate::kernel::Kernel;
use crate::search::Search;
use genie_base::{Config, PageSize};
use genie_model::Phase;
use genie_refusal::{FoundRegion, Tables};
use genie_region::{Region, Regions};
use genie_space::Spaces;

fn found(region: Region) -> FoundRegion
    ensures { result ≡ found_as region }
{
    FoundRegion {
        number: region.id.0,
        area: region.area,
        state: region.state,
        writable: region.writable,
    }
}

fn count_regions(spaces: &Spaces, pid: u32) -> u32
    ensures { result ≡ length (regions_of pid spaces.now) }
{
    if spaces.alive(pid) {
        spaces.regions(pid).len()
    } else {
        0
    }
}

fn region_from(spaces: &Spaces, pid: u32, page: u32) -> Option<Region>
    ensures { result ≡ find (starts_at page) (regions_of pid spaces.now) }
{
    if spaces.alive(pid) {
        spaces.regions(pid).starting_at(page)
    } else {
        None
    }
}

fn region_reached(spaces: &Spaces, pid: u32, addr: u32, len: u32) -> Option<Region>
    ensures { result ≡ reach extent spaces.now.page addr len (regions_of pid spaces.now) }
{
    if spaces.alive(pid) {
        spaces.regions(pid).find(addr, len, spaces.page())
    } else {
        None
    }
}

fn is_free(spaces: &Spaces, pid: u32, start: u32, pages: u32) -> bool
    ensures { result ≡ is_free extent start pages (regions_of pid spaces.now) }
{
    if spaces.alive(pid) {
        spaces.regions(pid).is_free(start, pages)
    } else {
        true
    }
}

fn place_of(spaces: &Spaces, pid: u32, pages: u32) -> Option<u32>
    ensures { result ≡ place_of extent pages (regions_of pid spaces.now) }
{
    if spaces.alive(pid) {
        spaces.regions(pid).place(pages)
    } else {
        Regions::new().place(pages)
    }
}

fn found_region(region: Option<Region>) -> Option<FoundRegion>
    ensures { result ≡ option_map found_as region }
{
    match region {
        Some(region) => Some(found(region)),
        None => None,
    }
}

impl Tables for Kernel {
    ghost is_sound = { IsGood };

    ghost state = { outline };

    fn config(&self) -> &Config {
        &self.config
    }

    fn page(&self) -> PageSize {
        self.spaces.page()
    }

    fn is_alive(&self, pid: u32) -> bool {
        self.spaces.alive(pid)
    }

    fn count_regions(&self, pid: u32) -> u32 {
        count_regions(&self.spaces, pid)
    }

    fn starting_at(&self, pid: u32, page: u32) -> Option<FoundRegion> {
        found_region(region_from(&self.spaces, pid, page))
    }

    fn reach(&self, pid: u32, addr: u32, len: u32) -> Option<FoundRegion> {
        found_region(region_reached(&self.spaces, pid, addr, len))
    }

    fn is_free(&self, pid: u32, start: u32, pages: u32) -> bool {
        is_free(&self.spaces, pid, start, pages)
    }

    fn has_place(&self, pid: u32, pages: u32) -> bool {
        place_of(&self.spaces, pid, pages).is_some()
    }

    fn accessible_pages(&self, pid: u32) -> u64 {
        pages_of(&self.spaces, pid, true)
    }

    fn committed(&self) -> u64 {
        all_pages(&self.spaces)
    }

    fn count_pending(&self) -> u32 {
        self.transfers.len()
    }

    fn wired(&self) -> u64 {
        all_costs(&self.transfers, self.spaces.page())
    }

    fn phase(&self, id: u32) -> Option<Phase> {
        match self.transfers.find(Search::Number(id)) {
            Some(transfer) => Some(transfer.phase),
            None => None,
        }
    }

    fn has_weak_input_into(&self, number: u32) -> bool {
        self.transfers.any(Search::WeakInput(number))
    }

    fn has_reusable(&self, pid: u32, pages: u32) -> bool {
        if self.spaces.alive(pid) {
            any_reusable(
                &self.queues[pid as usize],
                self.spaces.regions(pid),
                &self.transfers,
                pages,
            )
        } else {
            false
        }
    }
}
