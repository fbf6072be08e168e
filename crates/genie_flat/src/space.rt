//! The events on address spaces.
ghost use Rattle.std.specs.Prelude.{◌≡◌, ◌<◌, ◌≤◌, ◌^◌, None, [], IfOk, IfSome, OnOk, length, map, slice_set};
ghost use Rattle.genie_base.specs.declared.region.RegionState.TheVariants.{Live};
ghost use Rattle.genie_model.specs.State.{Region as Placed};
ghost use Rattle.genie_model.specs.Regions.{fresh, is_used, regions_at, reach_of, place_of, with_state};
ghost use Rattle.genie_model.specs.Space.{spawn, zeros, zeros_at_place, map_pages, alloc, as_orphan, remove, unmap, protect, accessible, copy_of, add_copies, fork, add_orphans, exit, bytes_reached, write, add_region};

use crate::machine::Machine;
use genie_base::{Area, NoMemory, RegionState, Reply};
use genie_tables::orphan::{add_orphans, any_orphan, insert_orphan};
use genie_tables::transfers::disown_all;
use genie_tables::{Change, Orphan, Process, Purpose, Region, table};

/// More numbers than regions and orphans can use.
const MOST_NUMBERS: u32 = 577;

impl Machine {
    // A process without regions.
    pub(crate) fn spawn(&mut self, pid: u32)
        ensures { self.new ≡ (spawn self.old pid).0 }
    {
        let pid = pid as usize;
        if pid < self.processes.len() {
            self.processes[pid] = Some(Process::new(self.alloc));
        }
    }

    // Whether an orphan or a region has this number.
    fn is_used(&self, number: u32) -> bool
        ensures { result ≡ is_used self.now number }
    {
        any_orphan(self.orphans.as_slice(), number)
            || table::any_numbered(self.processes.as_slice(), number)
    }

    // The least number that no region and no orphan has.
    pub(crate) fn fresh(&self) -> u32
        ensures { result ≡ fresh self.now }
    {
        for number in 0..MOST_NUMBERS {
            if !self.is_used(number) {
                return number;
            }
        }
        MOST_NUMBERS
    }

    // A region of zeros with a fresh number.
    fn zeros(&self, purpose: Purpose) -> Result<Region, NoMemory>
        requires start { purpose.start ≤ 1024 }
        requires pages { purpose.pages ≤ 64 }
        ensures { IfOk result (λ r. r ≡ zeros self.now purpose.area purpose.state purpose.start purpose.pages) }
    {
        let number = self.fresh();
        Region::zeros(self.alloc, number, purpose, self.page)
    }

    // Gives a process a region.
    pub(crate) fn add_region(&mut self, pid: u32, region: Region) -> Result<(), NoMemory>
        requires { length (regions_at self.old pid) < 32 }
        ensures { OnOk result (self.new ≡ add_region self.old pid region) }
    {
        table::add_region(&mut self.processes, pid, region)
    }

    // A region of zeros in the application area.
    pub(crate) fn map(&mut self, pid: u32, start: u32, pages: u32) -> Result<(), NoMemory>
        requires low { start ≤ 1024 }
        requires small { pages ≤ 64 }
        requires few { length (regions_at self.old pid) < 32 }
        ensures { OnOk result (self.new ≡ (map_pages self.old pid start pages).0) }
    {
        let purpose = Purpose {
            area: Area::App,
            state: RegionState::Live,
            start,
            pages,
        };
        let region = self.zeros(purpose)?;
        self.add_region(pid, region)
    }

    // The lowest start in the system area at which so many pages of a process are free.
    pub(crate) fn place_of(&self, pid: u32, pages: u32) -> Option<u32>
        requires { pages ≤ 64 }
        ensures place { result ≡ place_of self.now pid pages }
        ensures low { IfSome result (λ start. start ≤ 1024) }
    {
        match table::entry_of(self.processes.as_slice(), pid) {
            Some(process) => process.place(pages),
            None => Some(512),
        }
    }

    // A region of zeros at the place for so many pages.
    pub(crate) fn zeros_at_place(
        &self,
        state: RegionState,
        pid: u32,
        pages: u32,
    ) -> Result<Region, NoMemory>
        requires { pages ≤ 64 }
        ensures { IfOk result (λ r. r ≡ zeros_at_place self.now state pid pages) }
    {
        let start = self.place_of(pid, pages).unwrap_or(0);
        let purpose = Purpose {
            area: Area::Sys,
            state,
            start,
            pages,
        };
        self.zeros(purpose)
    }

    // A region of zeros in the system area, whose address is answered.
    pub(crate) fn alloc(&mut self, pid: u32, pages: u32) -> Result<Reply<'static>, NoMemory>
        requires small { pages ≤ 64 }
        requires few { length (regions_at self.old pid) < 32 }
        ensures { IfOk result (λ reply. alloc self.old pid pages ≡ (self.new, reply)) }
    {
        let region = self.zeros_at_place(RegionState::Live, pid, pages)?;
        let addr = self.address_of(&region);
        self.add_region(pid, region)?;
        Ok(Reply::At { addr })
    }

    // A region, of which this is left, goes.
    pub(crate) fn remove(&mut self, orphan: Orphan) -> Result<(), NoMemory>
        ensures { (r : Placed) → as_orphan r ≡ orphan → OnOk result (self.new ≡ remove self.old r) }
    {
        table::remove_region(&mut self.processes, orphan.number());
        insert_orphan(&mut self.orphans, orphan)
    }

    // The region that starts at a page goes.
    pub(crate) fn unmap(&mut self, pid: u32, page: u32) -> Result<(), NoMemory>
        ensures { OnOk result (self.new ≡ (unmap self.old pid page).0) }
    {
        let Some(region) = self.region_from(pid, page) else {
            return Ok(());
        };
        let orphan = Orphan::of(self.alloc, region)?;
        self.remove(orphan)
    }

    // Whether the region that starts at a page may be written from now on.
    pub(crate) fn protect(&mut self, pid: u32, page: u32, writable: bool)
        ensures { self.new ≡ (protect self.old pid page writable).0 }
    {
        let Some(region) = self.region_from(pid, page) else {
            return;
        };
        let number = region.number();
        self.change_region(number, &Change::Mode(writable));
    }

    // Live copies of the accessible regions of a process.
    fn copies(&self, pid: u32) -> Result<Vec<Region>, NoMemory>
        ensures copies { IfOk result (λ copies. copies.items ≡ map (with_state Live) (accessible (regions_at self.now pid))) }
        ensures few { IfOk result (λ copies. length copies.items ≤ 32) }
    {
        match table::entry_of(self.processes.as_slice(), pid) {
            Some(process) => process.copies(self.alloc),
            None => Ok(Vec::new(self.alloc)),
        }
    }

    // Gives a process a copy of a region, with a fresh number.
    fn add_copy(&mut self, pid: u32, region: &Region) -> Result<(), NoMemory>
        requires { length (regions_at self.old pid) < 32 }
        ensures { OnOk result (self.new ≡ add_region self.old pid (copy_of self.old region.now)) }
    {
        let number = self.fresh();
        let copy = region.copy(self.alloc, number)?;
        self.add_region(pid, copy)
    }

    // Gives a process copies of regions.
    fn add_copies(&mut self, pid: u32, regions: &[Region]) -> Result<(), NoMemory>
        requires none { regions_at self.old pid ≡ [] }
        requires few { length regions.now ≤ 32 }
        ensures { OnOk result (self.new ≡ add_copies self.old pid regions.now) }
    {
        for region in regions {
            self.add_copy(pid, region)?;
        }
        Ok(())
    }

    // A process with copies of the accessible regions of another one.
    pub(crate) fn fork(&mut self, parent: u32, child: u32) -> Result<(), NoMemory>
        ensures { OnOk result (self.new ≡ (fork self.old parent child).0) }
    {
        let copies = self.copies(parent)?;
        self.spawn(child);
        self.add_copies(child, copies.as_slice())
    }

    // The regions of a process are orphans from now on, and it goes.
    fn abandon(&mut self, pid: u32) -> Result<(), NoMemory>
        ensures { OnOk result (self.new ≡ record self.old { processes = slice_set self.old.processes pid None; orphans = add_orphans (regions_at self.old pid) self.old.orphans }) }
    {
        match table::take_process(&mut self.processes, pid) {
            Some(process) => add_orphans(self.alloc, &mut self.orphans, process.regions()),
            None => Ok(()),
        }
    }

    // The posted inputs of a process end, its other transfers lose their owner, its regions go, and it goes.
    pub(crate) fn exit(&mut self, pid: u32) -> Result<(), NoMemory>
        ensures { OnOk result (self.new ≡ (exit self.old pid).0) }
    {
        self.abandon(pid)?;
        disown_all(&mut self.transfers, pid);
        Ok(())
    }

    // The bytes that an access reaches.
    pub(crate) fn bytes(&self, pid: u32, addr: u32, len: u32) -> &[u8]
        ensures { result.now ≡ bytes_reached self.now (reach_of self.now pid addr len) addr len }
    {
        match self.reach(pid, addr, len) {
            Some(region) => region.part(region.place_of(self.page, addr), len as usize),
            None => &[],
        }
    }

    // Stores bytes where an access reaches.
    pub(crate) fn write(&mut self, pid: u32, addr: u32, bytes: &[u8])
        requires { length bytes.now < 2 ^ 32 }
        ensures { self.new ≡ (write self.old pid addr bytes.now).0 }
    {
        let Some(region) = self.reach(pid, addr, bytes.len() as u32) else {
            return;
        };
        let number = region.number();
        let place = region.place_of(self.page, addr);
        self.put(number, place, bytes);
    }
}
