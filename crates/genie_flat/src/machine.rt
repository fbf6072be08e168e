//! The state of the plain machine.
ghost use Rattle.std.specs.Prelude.{◌≡◌, IfOk};
ghost use Rattle.std.specs.Option.{option_copied};
ghost use Rattle.genie_tables.specs.Changes.{change_of};
ghost use Rattle.genie_model.specs.Regions.{reach_of, write_reach_of, region_numbered, orphan_numbered, orphan_part, bytes_of, address_of, change_region, put};
ghost use Rattle.genie_model.specs.Space.{tidy, region_from};
ghost use Rattle.genie_model.specs.Tables.{entry};

use genie_base::{Config, NoMemory, PageSize};
use genie_plain_device::Device;
use genie_tables::orphan::{orphan_numbered, store_in_orphan, tidy};
use genie_tables::{Change, Orphan, Process, Region, Transfer, table};
use std::alloc::Global;
use std::marker::Model;

/// The state, as lists of whole buffers.
#[derive(Drop)]
pub(crate) struct Machine {
    pub(crate) alloc: Global,
    pub(crate) config: Config,
    pub(crate) page: PageSize,
    pub(crate) processes: Vec<Option<Process>>,
    pub(crate) orphans: Vec<Orphan>,
    pub(crate) transfers: Vec<Transfer>,
    pub(crate) devices: Vec<Option<Device>>,
    pub(crate) next: u64,
}

impl Model for Machine {
    ghost use Rattle.genie_base.specs.Configs.{config_of};
    ghost use Rattle.genie_model.specs.State as flat;
    ghost use Rattle.genie_flat.specs.Shape.{HasShape};

    ghost Value = { flat.State };

    ghost view = { λ m. record { config = config_of m.config; processes = m.processes.items; orphans = m.orphans.items; transfers = m.transfers.items; devices = m.devices.items; next = m.next } };

    ghost invariant = { λ m. HasShape m.page m.config.page m.processes.items m.transfers.items };
}

impl Machine {
    // Cuts each orphan to what pending weak transfers cover.
    pub(crate) fn tidy(&mut self)
        ensures { self.new ≡ tidy self.old }
    {
        tidy(&mut self.orphans, self.transfers.as_slice());
    }

    // The process of this number.
    pub(crate) fn process(&self, pid: u32) -> Option<&Process>
        ensures { option_copied result ≡ entry self.now.processes pid }
    {
        table::entry_of(self.processes.as_slice(), pid)
    }

    // The region that an access of a process reaches.
    pub(crate) fn reach(&self, pid: u32, addr: u32, len: u32) -> Option<&Region>
        ensures { option_copied result ≡ reach_of self.now pid addr len }
    {
        table::entry_of(self.processes.as_slice(), pid)?.reach(self.page, addr, len)
    }

    // The region that a write of a process reaches.
    pub(crate) fn write_reach(&self, pid: u32, addr: u32, len: u32) -> Option<&Region>
        ensures { option_copied result ≡ write_reach_of self.now pid addr len }
    {
        match self.reach(pid, addr, len) {
            Some(region) if region.is_writable() => Some(region),
            _ => None,
        }
    }

    // The accessible region of a process that starts at a page.
    pub(crate) fn region_from(&self, pid: u32, page: u32) -> Option<&Region>
        ensures { option_copied result ≡ region_from self.now pid page }
    {
        table::entry_of(self.processes.as_slice(), pid)?.region_from(page)
    }

    // The region of this number, whoever has it.
    pub(crate) fn region_numbered(&self, number: u32) -> Option<&Region>
        ensures { option_copied result ≡ region_numbered self.now number }
    {
        match table::process_with(self.processes.as_slice(), number) {
            Some(Some(process)) => process.region(number),
            _ => None,
        }
    }

    // The bytes that an orphan has at the `n` places from place `at` on.
    fn orphan_part(&self, number: u32, at: usize, n: usize) -> Result<Vec<u8>, NoMemory>
        ensures { IfOk result (λ bytes. bytes.items ≡ orphan_part at n (orphan_numbered self.now number)) }
    {
        match orphan_numbered(self.orphans.as_slice(), number) {
            Some(orphan) => orphan.part(self.alloc, at, n),
            None => Ok(Vec::new(self.alloc)),
        }
    }

    // The `n` bytes from place `at` on of a region or orphan.
    pub(crate) fn bytes_of(&self, number: u32, at: usize, n: usize) -> Result<Vec<u8>, NoMemory>
        ensures { IfOk result (λ bytes. bytes.items ≡ bytes_of self.now number at n) }
    {
        match self.region_numbered(number) {
            Some(region) => Ok(region.part(at, n).to_vec(self.alloc)?),
            None => self.orphan_part(number, at, n),
        }
    }

    // The address at which a region begins.
    pub(crate) fn address_of(&self, region: &Region) -> u32
        ensures { result ≡ address_of self.now region.now }
    {
        region.address(self.page)
    }

    // Changes a region, whoever has it.
    pub(crate) fn change_region(&mut self, number: u32, change: &Change)
        ensures { self.new ≡ change_region self.old number (change_of change.now) }
    {
        table::change_region(&mut self.processes, number, change);
    }

    // Stores bytes from place `at` on in a region or orphan.
    pub(crate) fn put(&mut self, number: u32, at: usize, bytes: &[u8])
        ensures { self.new ≡ put self.old number at bytes.now }
    {
        let change = Change::Bytes { at, bytes };
        table::change_region(&mut self.processes, number, &change);
        store_in_orphan(self.orphans.as_mut_slice(), number, at, bytes);
    }
}
