//! What the causes of refusal ask of the plain machine.
ghost use Rattle.std.specs.Prelude.{◌≡◌, ⊤};
ghost use Rattle.genie_refusal.specs.Found.{found};

use crate::machine::Machine;
use genie_base::{Config, PageSize};
use genie_model::Phase;
use genie_refusal::{FoundRegion, Tables};
use genie_tables::transfers::{any_weak_input_into, numbered, wired};
use genie_tables::{Region, table};

// What the causes of refusal see of a region.
fn found(region: &Region) -> FoundRegion
    ensures { result ≡ found region.now }
{
    FoundRegion {
        number: region.number(),
        area: region.area(),
        state: region.state(),
        writable: region.is_writable(),
    }
}

impl Tables for Machine {
    ghost is_sound = { λ _. ⊤ };

    ghost state = { λ s. s };

    fn config(&self) -> &Config {
        &self.config
    }

    fn page(&self) -> PageSize {
        self.page
    }

    fn is_alive(&self, pid: u32) -> bool {
        self.process(pid).is_some()
    }

    fn count_regions(&self, pid: u32) -> u32 {
        match self.process(pid) {
            Some(process) => process.count() as u32,
            None => 0,
        }
    }

    fn starting_at(&self, pid: u32, page: u32) -> Option<FoundRegion> {
        Some(found(self.region_from(pid, page)?))
    }

    fn reach(&self, pid: u32, addr: u32, len: u32) -> Option<FoundRegion> {
        Some(found(self.reach(pid, addr, len)?))
    }

    fn is_free(&self, pid: u32, start: u32, pages: u32) -> bool {
        match self.process(pid) {
            Some(process) => process.is_free(start, pages),
            None => true,
        }
    }

    fn has_place(&self, pid: u32, pages: u32) -> bool {
        self.place_of(pid, pages).is_some()
    }

    fn accessible_pages(&self, pid: u32) -> u64 {
        match self.process(pid) {
            Some(process) => process.accessible_pages(),
            None => 0,
        }
    }

    fn committed(&self) -> u64 {
        table::committed(self.processes.as_slice())
    }

    fn count_pending(&self) -> u32 {
        self.transfers.len() as u32
    }

    fn wired(&self) -> u64 {
        wired(self.transfers.as_slice(), self.page)
    }

    fn phase(&self, id: u32) -> Option<Phase> {
        Some(numbered(self.transfers.as_slice(), id)?.phase())
    }

    fn has_weak_input_into(&self, number: u32) -> bool {
        any_weak_input_into(self.transfers.as_slice(), number)
    }

    fn has_reusable(&self, pid: u32, pages: u32) -> bool {
        self.reusable(pid, pages).is_some()
    }
}
