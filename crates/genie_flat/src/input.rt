//! The input call, and `cancel`.
ghost use Rattle.std.specs.Prelude.{◌≡◌, ◌*◌, ◌<◌, ◌≤◌, ◌^◌, ◌&&◌, not, find, OnOk, IsSome, IsTrue, length};
ghost use Rattle.std.specs.List.{list_any};
ghost use Rattle.std.specs.Option.{option_copied};
ghost use Rattle.genie_base.specs.declared.semantics.Class.TheVariants.{Copy, Share, Move, WeakMove};
ghost use Rattle.genie_model.specs.Regions.{fresh, regions_at};
ghost use Rattle.genie_model.specs.Pending.{names, pending, add_transfer};
ghost use Rattle.genie_model.specs.Outputs.{give_up};
ghost use Rattle.genie_model.specs.Inputs.{pages_for, has_pages, reusable, moved_in, input_of, input};
ghost use Rattle.genie_model.specs.Refusing.{must_make};
ghost use Rattle.genie_model.specs.Ending.{cancel, region_of};
ghost use Rattle.genie_model.specs.Space.{zeros_at_place, add_region};
ghost use Rattle.genie_tables.specs.Targets.{address_of};

use crate::machine::Machine;
use genie_base::{Class, NoMemory, RegionState};
use genie_tables::transfer::address_or_zero;
use genie_tables::transfers::any_names;
use genie_tables::{Orphan, Region, Target, Transfer, table};

fn any_with_pages(regions: &[Region], number: u32, pages: u32) -> bool
    ensures { result ≡ list_any (has_pages number pages) regions.now }
{
    regions.iter().any(|region| region.has_pages(number, pages))
}

// Whether a region has exactly so many pages and no pending transfer names it.
fn is_reusable(regions: &[Region], transfers: &[Transfer], pages: u32, number: u32) -> bool
    ensures { result ≡ (list_any (has_pages number pages) regions.now && not (list_any (names number) transfers.now)) }
{
    any_with_pages(regions, number, pages) && !any_names(transfers, number)
}

// The first such region of a weak queue.
fn first_reusable<'a>(
    queue: &'a [u32],
    regions: &[Region],
    transfers: &[Transfer],
    pages: u32,
) -> Option<&'a u32>
    ensures { option_copied result ≡ find (λ k. list_any (has_pages k pages) regions.now && not (list_any (names k) transfers.now)) queue.now }
{
    queue
        .iter()
        .find(|number| is_reusable(regions, transfers, pages, **number))
}

impl Machine {
    // How many pages so many bytes need.
    pub(crate) fn pages_for(&self, len: u32) -> u32
        ensures pages { result ≡ pages_for self.now len }
        ensures most { len ≤ 64 * self.now.config.page → result ≤ 64 }
    {
        let page = u64::from(self.page.get());
        ((u64::from(len) + page - 1) / page) as u32
    }

    // The first region of the weak queue that has exactly so many pages and that no pending transfer names.
    pub(crate) fn reusable(&self, pid: u32, pages: u32) -> Option<u32>
        ensures { result ≡ reusable self.now pid pages }
    {
        let process = table::entry_of(self.processes.as_slice(), pid)?;
        let transfers = self.transfers.as_slice();
        first_reusable(process.queue(), process.regions(), transfers, pages).copied()
    }

    // A copy input keeps its address.
    fn input_copy(
        &mut self,
        pid: u32,
        target: Target,
        addr: Option<u32>,
        len: u32,
    ) -> Result<(), NoMemory>
        requires few { length self.old.transfers < 64 }
        requires numbered { self.old.next < 2 ^ 32 }
        ensures { OnOk result (self.new ≡ (input self.old pid Copy (address_of target) addr len).0) }
    {
        let call = self.call(pid, Class::Copy, target, len);
        let transfer = Transfer::input(self.alloc, call, addr, None, 0);
        self.add_transfer(transfer)
    }

    // A share input names the region that is reached.
    fn input_share(
        &mut self,
        pid: u32,
        target: Target,
        addr: Option<u32>,
        len: u32,
    ) -> Result<(), NoMemory>
        requires few { length self.old.transfers < 64 }
        requires numbered { self.old.next < 2 ^ 32 }
        ensures { OnOk result (self.new ≡ (input self.old pid Share (address_of target) addr len).0) }
    {
        let from = address_or_zero(addr);
        let region = self.reached(pid, from, len);
        let place = self.place(pid, from, len);
        let call = self.call(pid, Class::Share, target, len);
        let transfer = Transfer::input(self.alloc, call, None, region, place);
        self.add_transfer(transfer)
    }

    // An input that has a region of zeros.
    fn input_into_zeros(
        &mut self,
        pid: u32,
        class: Class,
        state: RegionState,
        target: Target,
        len: u32,
    ) -> Result<(), NoMemory>
        requires few { length self.old.transfers < 64 }
        requires numbered { self.old.next < 2 ^ 32 }
        requires short { len ≤ 64 * self.old.config.page }
        requires room { length (regions_at self.old pid) < 32 }
        ensures { OnOk result (self.new ≡ add_transfer (add_region self.old pid (zeros_at_place self.old state pid (pages_for self.old len))) (input_of self.old pid class (address_of target) len None (Some (fresh self.old)) 0)) }
    {
        let pages = self.pages_for(len);
        let region = self.zeros_at_place(state, pid, pages)?;
        let call = self.call(pid, class, target, len);
        let transfer = Transfer::input(self.alloc, call, None, Some(region.number()), 0);
        self.add_region(pid, region)?;
        self.add_transfer(transfer)
    }

    // A weak move input that takes a region of the weak queue.
    fn input_reused(
        &mut self,
        pid: u32,
        target: Target,
        len: u32,
        number: u32,
    ) -> Result<(), NoMemory>
        requires few { length self.old.transfers < 64 }
        requires numbered { self.old.next < 2 ^ 32 }
        ensures { OnOk result (self.new ≡ add_transfer (moved_in self.old number) (input_of self.old pid WeakMove (address_of target) len None (Some number) 0)) }
    {
        let call = self.call(pid, Class::WeakMove, target, len);
        let transfer = Transfer::input(self.alloc, call, None, Some(number), 0);
        table::move_in(&mut self.processes, number);
        self.add_transfer(transfer)
    }

    // A weak move input.
    fn input_weak_move(
        &mut self,
        pid: u32,
        target: Target,
        addr: Option<u32>,
        len: u32,
    ) -> Result<(), NoMemory>
        requires few { length self.old.transfers < 64 }
        requires numbered { self.old.next < 2 ^ 32 }
        requires short { len ≤ 64 * self.old.config.page }
        requires room { IsTrue (must_make self.old pid WeakMove len) → length (regions_at self.old pid) < 32 }
        ensures { OnOk result (self.new ≡ (input self.old pid WeakMove (address_of target) addr len).0) }
    {
        let pages = self.pages_for(len);
        match self.reusable(pid, pages) {
            Some(number) => self.input_reused(pid, target, len, number),
            None => self.input_into_zeros(pid, Class::WeakMove, RegionState::In, target, len),
        }
    }
}

impl Machine {
    // An input.
    pub(crate) fn input(
        &mut self,
        pid: u32,
        class: Class,
        target: Target,
        addr: Option<u32>,
        len: u32,
    ) -> Result<(), NoMemory>
        requires few { length self.old.transfers < 64 }
        requires numbered { self.old.next < 2 ^ 32 }
        requires short { len ≤ 64 * self.old.config.page }
        requires room { IsTrue (must_make self.old pid class len) → length (regions_at self.old pid) < 32 }
        ensures { OnOk result (self.new ≡ (input self.old pid class (address_of target) addr len).0) }
    {
        match class {
            Class::Copy => self.input_copy(pid, target, addr, len),
            Class::Share => self.input_share(pid, target, addr, len),
            Class::Move => self.input_into_zeros(pid, Class::Move, RegionState::Held, target, len),
            Class::WeakMove => self.input_weak_move(pid, target, addr, len),
        }
    }

    // The held region of an input that is cancelled goes.
    fn cancel_move(&mut self, transfer: &Transfer) -> Result<(), NoMemory>
        ensures { OnOk result (self.new ≡ give_up self.old Move (region_of self.old transfer.now)) }
    {
        let Some(region) = self.region_of(transfer) else {
            return Ok(());
        };
        let orphan = Orphan::of(self.alloc, region)?;
        self.remove(orphan)
    }

    // The region of a weak move input that is cancelled is moved out again.
    fn cancel_weak_move(&mut self, transfer: &Transfer) -> Result<(), NoMemory>
        ensures { OnOk result (self.new ≡ give_up self.old WeakMove (region_of self.old transfer.now)) }
    {
        let Some(region) = self.region_of(transfer) else {
            return Ok(());
        };
        let number = region.number();
        self.move_out(number)
    }

    fn give_up(&mut self, transfer: &Transfer) -> Result<(), NoMemory>
        ensures { OnOk result (self.new ≡ give_up self.old transfer.now.class (region_of self.old transfer.now)) }
    {
        match transfer.class() {
            Class::Copy | Class::Share => Ok(()),
            Class::Move => self.cancel_move(transfer),
            Class::WeakMove => self.cancel_weak_move(transfer),
        }
    }

    // Ends a posted input.
    pub(crate) fn cancel(&mut self, id: u32) -> Result<(), NoMemory>
        requires { IsSome (pending self.old id) }
        ensures { OnOk result (self.new ≡ (cancel self.old id).0) }
    {
        let Some(transfer) = self.take(id) else {
            unreachable!()
        };
        self.give_up(&transfer)
    }
}
