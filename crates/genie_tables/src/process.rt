//! A process with its regions.
ghost use Rattle.std.specs.Prelude.{◌≡◌, ◌==◌, ◌+◌, ◌*◌, ◌<◌, ◌≤◌, ◌^◌, [], length, map, find, filter, sum_by, insert, OnOk, OnErr, IfOk, IfSome, Some, ◌++◌, not};
ghost use Rattle.std.specs.List.{list_any};
ghost use Rattle.std.specs.Option.{option_copied};
ghost use Rattle.genie_base.specs.Regions.{reach, is_free, place, add_in_order};
ghost use Rattle.genie_model.specs.State.{Region as Placed};
ghost use Rattle.genie_base.specs.declared.region.RegionState.TheVariants.{Live};
ghost use Rattle.genie_tables.specs.Changes.{change_of, live_copy};
ghost use Rattle.genie_model.specs.Regions.{extent_of, region_pages, has_number, is_region, changed, changed_in, with_state};
ghost use Rattle.genie_model.specs.Outputs.{moved_out_of};
ghost use Rattle.genie_model.specs.Inputs.{moved_in_of};
ghost use Rattle.genie_model.specs.Refusing.{accessible_pages};
ghost use Rattle.genie_model.specs.Space.{with_region, without_region, starts_at, accessible};

use crate::change::Change;
use crate::region::Region;
use genie_base::{NoMemory, PageSize, RegionState};
use std::alloc::Global;
use std::marker::Model;

/// A live process: its weak queue, as numbers of regions, and its regions in the order of their start pages.
#[derive(Drop)]
pub struct Process {
    queue: Vec<u32>,
    regions: Vec<Region>,
}

impl Model for Process {
    ghost use Rattle.std.specs.Prelude.{length, ◌≤◌};
    ghost use Rattle.genie_model.specs.State as flat;

    ghost Value = { flat.Process };

    ghost view = { λ p. record { queue = p.queue.items; regions = p.regions.items } };

    ghost invariant = { λ p. length p.regions.items ≤ 32 };
}

// The region that an access reaches.
fn reached(regions: &[Region], page: PageSize, addr: u32, len: u32) -> Option<&Region>
    ensures { option_copied result ≡ reach extent_of page addr len regions.now }
{
    regions
        .iter()
        .find(|region| region.is_reached(page, addr, len))
}

fn starting(regions: &[Region], page: u32) -> Option<&Region>
    ensures { option_copied result ≡ find (starts_at page) regions.now }
{
    regions.iter().find(|region| region.starts_at(page))
}

fn numbered(regions: &[Region], number: u32) -> Option<&Region>
    ensures { option_copied result ≡ find (is_region number) regions.now }
{
    regions.iter().find(|region| region.is_region(number))
}

fn all_apart(regions: &[Region], start: u32, pages: u32) -> bool
    ensures { result ≡ is_free extent_of start pages regions.now }
{
    regions.iter().all(|region| region.is_apart(start, pages))
}

fn any_numbered(regions: &[Region], number: u32) -> bool
    ensures { result ≡ list_any (is_region number) regions.now }
{
    regions.iter().any(|region| region.is_region(number))
}

fn sum_of_pages(regions: &[Region]) -> u64
    requires { length regions.now ≤ 32 }
    ensures pages { result ≡ sum_by (λ r. r.pages) regions.now }
    ensures most { result ≤ 2 ^ 32 * length regions.now }
{
    let mut pages = 0;
    for region in regions {
        pages += u64::from(region.pages());
    }
    pages
}

fn sum_of_accessible(regions: &[Region]) -> u64
    requires { length regions.now ≤ 32 }
    ensures pages { result ≡ sum_by accessible_pages regions.now }
    ensures most { result ≤ 2 ^ 32 * length regions.now }
{
    let mut pages = 0;
    for region in regions {
        pages += u64::from(region.accessible_pages());
    }
    pages
}

// The lowest start in the system area at which so many pages are free.
fn place(regions: &[Region], pages: u32) -> Option<u32>
    requires { pages ≤ 64 }
    ensures place { result ≡ place extent_of pages regions.now }
    ensures low { IfSome result (λ start. start ≤ 1024) }
{
    for start in 512..1025 - pages {
        if all_apart(regions, start, pages) {
            return Some(start);
        }
    }
    None
}

// Appends a live copy of a region, if it is accessible.
fn push_copy(alloc: Global, copies: &mut Vec<Region>, region: &Region) -> Result<(), NoMemory>
    ensures copies { OnOk result (copies.new.items ≡ copies.old.items ++ live_copy region.now) }
    ensures few { OnOk result (length copies.new.items ≤ length copies.old.items + 1) }
{
    if !region.is_accessible() {
        return Ok(());
    }
    copies.push(region.copy(alloc, region.number())?)?;
    Ok(())
}

// Live copies of the accessible ones.
fn live_copies(alloc: Global, regions: &[Region]) -> Result<Vec<Region>, NoMemory>
    ensures copies { IfOk result (λ copies. copies.items ≡ map (with_state Live) (accessible regions.now)) }
    ensures few { IfOk result (λ copies. length copies.items ≤ length regions.now) }
{
    let mut copies = Vec::new(alloc);
    for region in regions {
        push_copy(alloc, &mut copies, region)?;
    }
    Ok(copies)
}

// The other regions.
fn drop_region(regions: &mut Vec<Region>, number: u32)
    ensures rest { regions.new.items ≡ filter (λ r. not (is_region number r)) regions.old.items }
    ensures fewer { length regions.new.items ≤ length regions.old.items }
{
    regions.retain(|region| !region.is_region(number));
}

// The other numbers of a weak queue.
fn drop_number(queue: &mut Vec<u32>, number: u32)
    ensures { queue.new.items ≡ filter (λ n. not (n == number)) queue.old.items }
{
    queue.retain(|n| *n != number);
}

fn change_in_all(regions: &mut [Region], number: u32, change: &Change)
    ensures { regions.new ≡ map (changed number (change_of change.now)) regions.old }
{
    for region in regions.iter_mut() {
        region.change(number, change);
    }
}

// Where a region that starts at page `start` belongs.
fn place_for(regions: &[Region], start: u32) -> usize
    ensures within { result ≤ length regions.now }
    ensures place { (r : Placed) → r.start ≡ start → insert regions.now result r ≡ add_in_order extent_of r regions.now }
{
    for (i, region) in regions.iter().enumerate() {
        if !region.ends_by(start) {
            return i;
        }
    }
    regions.len()
}

impl Process {
    /// A process without a region.
    pub fn new(alloc: Global) -> Process
        ensures { result ≡ record { queue = []; regions = [] } }
    {
        Process {
            queue: Vec::new(alloc),
            regions: Vec::new(alloc),
        }
    }

    /// Lends its weak queue.
    pub fn queue(&self) -> &[u32]
        ensures { result.now ≡ self.now.queue }
    {
        self.queue.as_slice()
    }

    /// Region `number` is Out, at the end of the weak queue, if it has it.
    pub(crate) fn move_out(&mut self, number: u32) -> Result<(), NoMemory>
        ensures { OnOk result (self.new ≡ moved_out_of number self.old) }
    {
        if !self.has_number(number) {
            return Ok(());
        }
        self.queue.push(number)?;
        let state = Change::State(RegionState::Out);
        change_in_all(self.regions.as_mut_slice(), number, &state);
        Ok(())
    }

    /// Region `number` leaves the weak queue, and is In.
    pub(crate) fn move_in(&mut self, number: u32)
        ensures { self.new ≡ moved_in_of number self.old }
    {
        drop_number(&mut self.queue, number);
        let state = Change::State(RegionState::In);
        change_in_all(self.regions.as_mut_slice(), number, &state);
    }

    /// Lends its regions.
    pub fn regions(&self) -> &[Region]
        ensures { result.now ≡ self.now.regions }
    {
        self.regions.as_slice()
    }

    /// The region that an access reaches.
    pub fn reach(&self, page: PageSize, addr: u32, len: u32) -> Option<&Region>
        ensures { option_copied result ≡ reach extent_of page addr len self.now.regions }
    {
        reached(self.regions.as_slice(), page, addr, len)
    }

    /// The accessible region that starts at a page.
    pub fn region_from(&self, page: u32) -> Option<&Region>
        ensures { option_copied result ≡ find (starts_at page) self.now.regions }
    {
        starting(self.regions.as_slice(), page)
    }

    /// Its region with this number.
    pub fn region(&self, number: u32) -> Option<&Region>
        ensures { option_copied result ≡ find (is_region number) self.now.regions }
    {
        numbered(self.regions.as_slice(), number)
    }

    /// Whether none of its regions has one of these pages.
    pub fn is_free(&self, start: u32, pages: u32) -> bool
        ensures { result ≡ is_free extent_of start pages self.now.regions }
    {
        all_apart(self.regions.as_slice(), start, pages)
    }

    /// How many regions it has.
    pub fn count(&self) -> usize
        ensures count { result ≡ length self.now.regions }
        ensures most { result ≤ 32 }
    {
        self.regions.len()
    }

    // The pages of its regions.
    pub(crate) fn pages(&self) -> u64
        ensures pages { result ≡ region_pages (Some self.now) }
        ensures most { result ≤ 2 ^ 37 }
    {
        sum_of_pages(self.regions.as_slice())
    }

    /// The pages of its accessible regions.
    pub fn accessible_pages(&self) -> u64
        ensures pages { result ≡ sum_by accessible_pages self.now.regions }
        ensures most { result ≤ 2 ^ 37 }
    {
        sum_of_accessible(self.regions.as_slice())
    }

    /// The lowest start in the system area at which so many pages are free.
    pub fn place(&self, pages: u32) -> Option<u32>
        requires { pages ≤ 64 }
        ensures place { result ≡ place extent_of pages self.now.regions }
        ensures low { IfSome result (λ start. start ≤ 1024) }
    {
        place(self.regions.as_slice(), pages)
    }

    /// Live copies of its accessible regions.
    pub fn copies(&self, alloc: Global) -> Result<Vec<Region>, NoMemory>
        ensures copies { IfOk result (λ copies. copies.items ≡ map (with_state Live) (accessible self.now.regions)) }
        ensures few { IfOk result (λ copies. length copies.items ≤ 32) }
    {
        live_copies(alloc, self.regions.as_slice())
    }

    /// Without region `number`, also in its weak queue.
    pub(crate) fn remove(&mut self, number: u32)
        ensures { self.new ≡ without_region number self.old }
    {
        drop_number(&mut self.queue, number);
        drop_region(&mut self.regions, number);
    }

    // Whether one of its regions has this number.
    pub(crate) fn has_number(&self, number: u32) -> bool
        ensures { result ≡ has_number number (Some self.now) }
    {
        any_numbered(self.regions.as_slice(), number)
    }

    // Puts a region into its place.
    pub(crate) fn add(&mut self, region: Region) -> Result<(), NoMemory>
        requires { length self.old.regions < 32 }
        ensures ok { OnOk result (self.new ≡ with_region region self.old) }
        ensures err { OnErr result (self.new ≡ self.old) }
    {
        let at = place_for(self.regions.as_slice(), region.start());
        self.regions.insert(at, region)?;
        Ok(())
    }

    // Changes region `number`, if it has it.
    pub(crate) fn change(&mut self, number: u32, change: &Change)
        ensures { self.new ≡ changed_in number (change_of change.now) self.old }
    {
        change_in_all(self.regions.as_mut_slice(), number, change);
    }
}
