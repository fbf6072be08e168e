//! The regions of a process.
ghost use Rattle.std.specs.Prelude.{◌≡◌, ◌+◌, ◌<◌, ◌≤◌, ◌^◌, ℕ, List, [], length, Option, Some, IsTrue, IsSome, IsNone, false, true, find, slice_get, position};
ghost use Rattle.std.specs.List.Sorted.{IsPartitionPoint};
ghost use Rattle.genie_base.specs.Regions.{AreInOrder, add_in_order, is_free, place as place_of, reach, write_reach};
ghost use Rattle.genie_region.specs.Layouts.{IsLayout, IsLowestFit, extent, has_id, starts_at, region_of, ends_by, starts_by, with_region, without};

use crate::region::Region;
use arrayvec::ArrayVec;
use genie_base::{PageSize, RegionId, RegionState};
use std::marker::Model;

/// How many regions a process may have.
const REGIONS: usize = 32;

/// The first page of the system area, and the page after its last.
const SYSTEM: u64 = 512;

const SYSTEM_END: u64 = 1024;

/// At most 32 regions in order of start pages, none overlapping another, each with a number of its own. Contracts see
/// their list.
#[derive(Drop)]
pub struct Regions {
    regions: ArrayVec<Region, 32>,
}

impl Model for Regions {
    ghost use Rattle.std.specs.Prelude.{List};
    ghost use Rattle.genie_region.specs.declared.region.Region.{Region};
    ghost use Rattle.genie_region.specs.Layouts.{IsLayout};

    ghost Value = { List Region };

    ghost view = { λ r. r.regions.items };

    ghost invariant = { λ r. IsLayout r.regions.items };
}

impl Regions {
    /// No regions.
    pub fn new() -> Regions
        ensures { result ≡ [] }
    {
        Regions {
            regions: ArrayVec::new(),
        }
    }

    /// How many regions there are: at most 32.
    pub fn len(&self) -> u32
        ensures length { result ≡ length self.now }
        ensures layout { IsLayout self.now }
    {
        self.regions.len() as u32
    }

    /// The region at place `i`, counted from 0 in order of start pages.
    pub fn at(&self, i: u32) -> Region
        requires { i < length self.now }
        ensures { slice_get self.now i ≡ Some result }
    {
        self.regions.as_slice()[i as usize]
    }

    /// The region with this number, or `None` where there is none.
    pub fn get(&self, id: RegionId) -> Option<Region>
        ensures { result ≡ region_of id self.now }
    {
        with_id(self.regions.as_slice(), id)
    }

    /// The region that an access may reach and that starts at this page, or `None` where there is none.
    pub fn starting_at(&self, page: u32) -> Option<Region>
        ensures { result ≡ find (starts_at page) self.now }
    {
        with_start(self.regions.as_slice(), page)
    }

    /// Whether no page of the `pages` from page `start` on lies in a region.
    pub fn is_free(&self, start: u32, pages: u32) -> bool
        ensures { result ≡ is_free extent start pages self.now }
    {
        self.regions
            .as_slice()
            .iter()
            .all(|r| r.is_apart(start, pages))
    }

    /// The region that an access to the `len` bytes from address `addr` on reaches, or `None` where it reaches none: the
    /// access begins in it and doesn't pass its end, and it isn't held for a move input.
    pub fn find(&self, addr: u32, len: u32, page: PageSize) -> Option<Region>
        ensures { result ≡ reach extent page addr len self.now }
    {
        reached(self.regions.as_slice(), addr, len, page)
    }

    /// The region that a write of the `len` bytes from address `addr` on reaches, or `None` where it reaches none, or
    /// a read-only one.
    pub fn find_writable(&self, addr: u32, len: u32, page: PageSize) -> Option<Region>
        ensures { result ≡ write_reach extent page addr len self.now }
    {
        let region = self.find(addr, len, page)?;
        if region.writable { Some(region) } else { None }
    }

    /// The lowest page of the system area, pages 512 to 1,023, from which on `n` pages are free, or `None` where there
    /// is none. Regions in every state count.
    pub fn place(&self, n: u32) -> Option<u32>
        ensures { result ≡ place_of extent n self.now }
    {
        let pages = u64::from(n);
        let start = lowest_fit(self.regions.as_slice(), pages);
        if start + pages <= SYSTEM_END {
            Some(start as u32)
        } else {
            None
        }
    }

    /// Adds a region in its place by start page. Its pages must be free and its number new, which `is_free` and `get`
    /// tell.
    pub fn insert(&mut self, region: Region)
        requires room { length self.old < 32 }
        requires free { IsTrue (is_free extent region.start region.pages self.old) }
        requires new { IsNone (region_of region.id self.old) }
        ensures added { self.new ≡ add_in_order extent region self.old }
        ensures layout { IsLayout self.new }
    {
        let at = count_ended(self.regions.as_slice(), region.start);
        self.regions.insert(at, region);
    }

    /// Takes a region out. The others stay as they are.
    pub fn remove(&mut self, id: RegionId) -> Region
        requires { IsSome (region_of id self.old) }
        ensures removed { region_of id self.old ≡ Some result }
        ensures others { self.new ≡ without id self.old }
        ensures layout { IsLayout self.new }
    {
        let at = place_of_id(self.regions.as_slice(), id).unwrap();
        self.regions.remove(at)
    }

    /// Changes the state of a region. Its other fields and the other regions stay as they are.
    pub fn set_state(&mut self, id: RegionId, state: RegionState)
        requires { IsSome (region_of id self.old) }
        ensures changed { self.new ≡ with_region id (λ r. record r { state = state }) self.old }
        ensures layout { IsLayout self.new }
    {
        change_state(self.regions.as_mut_slice(), id, state);
    }

    /// Makes a region read-write or read-only. Its other fields and the other regions stay as they are.
    pub fn set_writable(&mut self, id: RegionId, writable: bool)
        requires { IsSome (region_of id self.old) }
        ensures changed { self.new ≡ with_region id (λ r. record r { writable = writable }) self.old }
        ensures layout { IsLayout self.new }
    {
        change_writable(self.regions.as_mut_slice(), id, writable);
    }
}

/// A region that the range begins in is the last one that starts at `addr` or before, since the regions are in order.
fn reached(regions: &[Region], addr: u32, len: u32, page: PageSize) -> Option<Region>
    requires { AreInOrder extent regions.now }
    ensures { result ≡ reach extent page addr len regions.now }
{
    let started = count_started(regions, addr, page);
    if started == 0 {
        return None;
    }
    let region = regions[started - 1];
    if region.reaches(addr, len, page) {
        Some(region)
    } else {
        None
    }
}

/// How many regions start at this address or before.
fn count_started(regions: &[Region], addr: u32, page: PageSize) -> usize
    requires { AreInOrder extent regions.now }
    ensures within { result ≤ length regions.now }
    ensures point { IsPartitionPoint (λ r. starts_by page addr r ≡ true) (λ r. starts_by page addr r ≡ false) regions.now result }
{
    regions.partition_point(|r| r.starts_by(addr, page))
}

/// How many regions end at this page or before.
fn count_ended(regions: &[Region], page: u32) -> usize
    requires { AreInOrder extent regions.now }
    ensures within { result ≤ length regions.now }
    ensures point { IsPartitionPoint (λ r. ends_by page r ≡ true) (λ r. ends_by page r ≡ false) regions.now result }
{
    regions.partition_point(|r| r.ends_by(page))
}

/// The lowest page from 512 on from which on so many pages are free.
fn lowest_fit(regions: &[Region], pages: u64) -> u64
    requires ordered { AreInOrder extent regions.now }
    requires pages { pages < 2 ^ 32 }
    ensures fits { IsLowestFit pages regions.now result }
    ensures most { result < 2 ^ 33 }
{
    let mut start = SYSTEM;
    for region in regions {
        if start + pages <= u64::from(region.start) {
            return start;
        }
        start = start.max(region.end());
    }
    start
}

/// The region with this number.
fn with_id(regions: &[Region], id: RegionId) -> Option<Region>
    ensures { result ≡ region_of id regions.now }
{
    let at = place_of_id(regions, id)?;
    Some(regions[at])
}

/// The region that an access may reach and that starts at this page.
fn with_start(regions: &[Region], page: u32) -> Option<Region>
    ensures { result ≡ find (starts_at page) regions.now }
{
    let at = place_of_start(regions, page)?;
    Some(regions[at])
}

/// Where it is.
fn place_of_start(regions: &[Region], page: u32) -> Option<usize>
    ensures { result ≡ position (starts_at page) regions.now }
{
    regions.iter().position(|r| r.starts_at(page))
}

/// Where the region with this number is.
fn place_of_id(regions: &[Region], id: RegionId) -> Option<usize>
    ensures { result ≡ position (has_id id) regions.now }
{
    regions.iter().position(|r| r.has_id(id))
}

/// Changes the state of the region with this number.
fn change_state(regions: &mut [Region], id: RegionId, state: RegionState)
    requires layout { IsLayout regions.old }
    requires there { IsSome (region_of id regions.old) }
    ensures changed { regions.new ≡ with_region id (λ r. record r { state = state }) regions.old }
    ensures layout { IsLayout regions.new }
{
    let at = place_of_id(regions, id).unwrap();
    regions[at].state = state;
}

/// Makes the region with this number read-write or read-only.
fn change_writable(regions: &mut [Region], id: RegionId, writable: bool)
    requires layout { IsLayout regions.old }
    requires there { IsSome (region_of id regions.old) }
    ensures changed { regions.new ≡ with_region id (λ r. record r { writable = writable }) regions.old }
    ensures layout { IsLayout regions.new }
{
    let at = place_of_id(regions, id).unwrap();
    regions[at].writable = writable;
}

#[cfg(test)]
mod tests;
