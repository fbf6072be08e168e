//! A region with its bytes as one list.
ghost use Rattle.std.specs.Prelude.{◌≡◌, ◌+◌, ◌-◌, ◌*◌, ◌<◌, ◌≤◌, ◌^◌, true, nat_le, length, replicate, IfOk};
ghost use Rattle.genie_base.specs.Bytes.{part as part_of};
ghost use Rattle.genie_base.specs.Regions.{is_reached, is_apart, is_accessible};
ghost use Rattle.genie_base.specs.declared.region.RegionState.TheVariants.{Live};
ghost use Rattle.genie_tables.specs.Changes.{change_of};
ghost use Rattle.genie_model.specs.Regions.{extent_of, changed, is_region};
ghost use Rattle.genie_model.specs.Inputs.{has_pages};
ghost use Rattle.genie_model.specs.Refusing.{accessible_pages};
ghost use Rattle.genie_model.specs.Space.{starts_at};

use crate::change::Change;
use genie_base::{Area, NoMemory, PageSize, RegionState, overlay, part};
use std::alloc::Global;
use std::marker::Model;

/// A region of a process.
#[derive(Drop)]
pub struct Region {
    number: u32,
    start: u32,
    pages: u32,
    area: Area,
    state: RegionState,
    writable: bool,
    bytes: Vec<u8>,
}

impl Model for Region {
    ghost use Rattle.std.specs.Prelude.{◌<◌, ◌≤◌, ◌^◌, length};
    ghost use Rattle.genie_model.specs.State as flat;

    ghost Value = { flat.Region };

    ghost view = { λ r. record { number = r.number; start = r.start; pages = r.pages; area = r.area; state = r.state; writable = r.writable; bytes = r.bytes.items } };

    ghost invariant = { λ r. (r.start ≤ 1024) × (length r.bytes.items < 2 ^ 32) };
}

/// Where a region lies, and what it is used for.
#[derive(Clone, Copy)]
pub struct Purpose {
    pub area: Area,
    pub state: RegionState,
    pub start: u32,
    pub pages: u32,
}

impl Region {
    /// A region of zeros.
    pub fn zeros(
        alloc: Global,
        number: u32,
        purpose: Purpose,
        page: PageSize,
    ) -> Result<Region, NoMemory>
        requires start { purpose.start ≤ 1024 }
        requires pages { purpose.pages ≤ 64 }
        ensures { IfOk result (λ r. r ≡ record { number = number; start = purpose.start; pages = purpose.pages; area = purpose.area; state = purpose.state; writable = true; bytes = replicate (purpose.pages * page) 0 }) }
    {
        let size = purpose.pages as usize * page.get() as usize;
        let bytes = vec![in alloc; 0u8; size]?;
        Ok(Region {
            number,
            start: purpose.start,
            pages: purpose.pages,
            area: purpose.area,
            state: purpose.state,
            writable: true,
            bytes,
        })
    }

    /// A live copy with a number of its own.
    pub fn copy(&self, alloc: Global, number: u32) -> Result<Region, NoMemory>
        ensures { IfOk result (λ r. r ≡ record self.now { number = number; state = Live }) }
    {
        let bytes = self.bytes.as_slice().to_vec(alloc)?;
        Ok(Region {
            number,
            start: self.start,
            pages: self.pages,
            area: self.area,
            state: RegionState::Live,
            writable: self.writable,
            bytes,
        })
    }

    /// Its number.
    pub fn number(&self) -> u32
        ensures { result ≡ self.now.number }
    {
        self.number
    }

    pub(crate) fn start(&self) -> u32
        ensures { result ≡ self.now.start }
    {
        self.start
    }

    pub(crate) fn pages(&self) -> u32
        ensures { result ≡ self.now.pages }
    {
        self.pages
    }

    /// The part of the address space in which it lies.
    pub fn area(&self) -> Area
        ensures { result ≡ self.now.area }
    {
        self.area
    }

    /// What it is used for.
    pub fn state(&self) -> RegionState
        ensures { result ≡ self.now.state }
    {
        self.state
    }

    /// Whether it may be written.
    pub fn is_writable(&self) -> bool
        ensures { result ≡ self.now.writable }
    {
        self.writable
    }

    pub(crate) fn is_accessible(&self) -> bool
        ensures { result ≡ is_accessible self.now.state }
    {
        !matches!(self.state, RegionState::Held)
    }

    /// Its pages, if it is accessible, else 0.
    pub fn accessible_pages(&self) -> u32
        ensures { result ≡ accessible_pages self.now }
    {
        if self.is_accessible() { self.pages } else { 0 }
    }

    // Whether it is accessible and starts at a page.
    pub(crate) fn starts_at(&self, page: u32) -> bool
        ensures { result ≡ starts_at page self.now }
    {
        self.is_accessible() && self.start == page
    }

    // Whether an access to the `len` bytes from address `addr` on reaches it.
    pub(crate) fn is_reached(&self, page: PageSize, addr: u32, len: u32) -> bool
        ensures { result ≡ is_reached page addr len (extent_of self.now) }
    {
        let page = u64::from(page.get());
        let start = u64::from(self.start) * page;
        let end = (u64::from(self.start) + u64::from(self.pages)) * page;
        let addr = u64::from(addr);
        self.is_accessible() && (start <= addr && addr < end && addr + u64::from(len) <= end)
    }

    // Whether none of these pages lies in it.
    pub(crate) fn is_apart(&self, start: u32, pages: u32) -> bool
        ensures { result ≡ is_apart start pages (extent_of self.now) }
    {
        u64::from(self.start) + u64::from(self.pages) <= u64::from(start)
            || u64::from(start) + u64::from(pages) <= u64::from(self.start)
    }

    // Whether it ends before a page.
    pub(crate) fn ends_by(&self, page: u32) -> bool
        ensures { result ≡ nat_le (self.now.start + self.now.pages) page }
    {
        u64::from(self.start) + u64::from(self.pages) <= u64::from(page)
    }

    /// Where an address lies in it, in bytes.
    pub fn place_of(&self, page: PageSize, addr: u32) -> usize
        ensures place { result ≡ addr - self.now.start * page }
        ensures most { result < 2 ^ 32 }
    {
        let start = u64::from(self.start) * u64::from(page.get());
        u64::from(addr).saturating_sub(start) as usize
    }

    /// The address at which it begins.
    pub fn address(&self, page: PageSize) -> u32
        ensures { result ≡ self.now.start * page }
    {
        self.start * page.get()
    }

    pub(crate) fn bytes(&self) -> &[u8]
        ensures bytes { result.now ≡ self.now.bytes }
        ensures few { length result.now < 2 ^ 32 }
    {
        self.bytes.as_slice()
    }

    /// Lends `n` bytes from place `at` on, as far as they go.
    pub fn part(&self, at: usize, n: usize) -> &[u8]
        ensures { result.now ≡ part_of at n self.now.bytes }
    {
        part(self.bytes.as_slice(), at, n)
    }

    // Whether it has this number.
    pub(crate) fn is_region(&self, number: u32) -> bool
        ensures { result ≡ is_region number self.now }
    {
        self.number == number
    }

    /// Whether it has this number, and exactly so many pages.
    pub fn has_pages(&self, number: u32, pages: u32) -> bool
        ensures { result ≡ has_pages number pages self.now }
    {
        self.number == number && self.pages == pages
    }

    fn set(&mut self, change: &Change)
        ensures { self.new ≡ change_of change.now self.old }
    {
        match change {
            Change::Bytes { at, bytes } => overlay(self.bytes.as_mut_slice(), *at, bytes),
            Change::State(state) => self.state = *state,
            Change::Mode(writable) => self.writable = *writable,
            Change::Fill(bytes) => {
                self.state = RegionState::Live;
                self.bytes.as_mut_slice().fill(0);
                overlay(self.bytes.as_mut_slice(), 0, bytes);
            }
        }
    }

    // Changes it, if it is region `number`.
    pub(crate) fn change(&mut self, number: u32, change: &Change)
        ensures { self.new ≡ changed number (change_of change.now) self.old }
    {
        if self.number == number {
            self.set(change);
        }
    }
}
