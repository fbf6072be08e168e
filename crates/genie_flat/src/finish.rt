//! The end of a transfer by `done`.
ghost use Rattle.std.specs.Prelude.{◌≡◌, IsSome};
ghost use Rattle.std.specs.Option.{option_copied};
ghost use Rattle.genie_model.specs.State.{Region as Placed};
ghost use Rattle.genie_model.specs.Pending.{is_early_at, pending};
ghost use Rattle.genie_model.specs.Inputs.{address_or_zero};
ghost use Rattle.genie_model.specs.Regions.{write_reach_of};
ghost use Rattle.genie_model.specs.Ending.{finish, finish_for, finish_owned, finish_input, finish_copy, finish_move, finish_share, finish_weak_move, after_landing, region_of, without_transfer};

use crate::machine::Machine;
use genie_base::{Class, Direction, RegionState, Reply};
use genie_tables::transfers::take;
use genie_tables::{Change, Region, Transfer, table};

impl Machine {
    // Whether a device matches a record by its header.
    pub(crate) fn is_early_at(&self, dev: u32) -> bool
        ensures { result ≡ is_early_at self.now dev }
    {
        table::entry_of(self.devices.as_slice(), dev).is_some_and(|device| device.is_early())
    }

    // The region that a transfer names, where it isn't an orphan.
    pub(crate) fn region_of(&self, transfer: &Transfer) -> Option<&Region>
        ensures { option_copied result ≡ region_of self.now transfer.now }
    {
        self.region_numbered(transfer.region()?)
    }

    // A copy input's bytes are stored where a write of its range reaches.
    fn finish_copy(&mut self, pid: u32, transfer: &Transfer) -> Reply<'static>
        ensures { finish_copy self.old transfer.now (write_reach_of self.old pid (address_or_zero transfer.now.addr) transfer.now.len) ≡ (self.new, result) }
    {
        let addr = transfer.address_or_zero();
        let Some(region) = self.write_reach(pid, addr, transfer.len()) else {
            return Reply::Lost;
        };
        let number = region.number();
        let place = region.place_of(self.page, addr);
        self.put(number, place, transfer.payload());
        transfer.arrived(None)
    }

    // A move input's region is live with its bytes.
    fn finish_move(&mut self, transfer: &Transfer) -> Reply<'static>
        ensures { finish_move self.old transfer.now (region_of self.old transfer.now) ≡ (self.new, result) }
    {
        let Some(region) = self.region_of(transfer) else {
            return Reply::Lost;
        };
        let number = region.number();
        let addr = self.address_of(region);
        self.change_region(number, &Change::Fill(transfer.payload()));
        transfer.arrived(Some(addr))
    }

    // A weak input's bytes land now, where they haven't landed.
    fn land_late(&mut self, transfer: &Transfer, region: u32)
        ensures { (r : Placed) → r.number ≡ region → self.new ≡ after_landing self.old transfer.now r }
    {
        if !self.is_early_at(transfer.device()) {
            self.put(region, transfer.offset() as usize, transfer.payload());
        }
    }

    // A share input's region has its bytes.
    fn finish_share(&mut self, transfer: &Transfer) -> Reply<'static>
        ensures { finish_share self.old transfer.now (region_of self.old transfer.now) ≡ (self.new, result) }
    {
        let Some(region) = self.region_of(transfer) else {
            return Reply::Lost;
        };
        let number = region.number();
        self.land_late(transfer, number);
        transfer.arrived(None)
    }

    // A weak move input's region is live.
    fn finish_weak_move(&mut self, transfer: &Transfer) -> Reply<'static>
        ensures { finish_weak_move self.old transfer.now (region_of self.old transfer.now) ≡ (self.new, result) }
    {
        let Some(region) = self.region_of(transfer) else {
            return Reply::Lost;
        };
        let number = region.number();
        let addr = self.address_of(region);
        self.land_late(transfer, number);
        self.change_region(number, &Change::State(RegionState::Live));
        transfer.arrived(Some(addr))
    }

    fn finish_input(&mut self, pid: u32, transfer: &Transfer) -> Reply<'static>
        ensures { finish_input self.old pid transfer.now transfer.now.class ≡ (self.new, result) }
    {
        match transfer.class() {
            Class::Copy => self.finish_copy(pid, transfer),
            Class::Share => self.finish_share(transfer),
            Class::Move => self.finish_move(transfer),
            Class::WeakMove => self.finish_weak_move(transfer),
        }
    }

    fn finish_owned(&mut self, pid: u32, transfer: &Transfer) -> Reply<'static>
        ensures { finish_owned self.old pid transfer.now transfer.now.direction ≡ (self.new, result) }
    {
        match transfer.direction() {
            Direction::Outward => Reply::Output { n: transfer.len() },
            Direction::Inward => self.finish_input(pid, transfer),
        }
    }

    fn finish_for(&mut self, transfer: &Transfer) -> Reply<'static>
        ensures { finish_for self.old transfer.now transfer.now.owner ≡ (self.new, result) }
    {
        match transfer.owner() {
            None => Reply::Gone,
            Some(pid) => self.finish_owned(pid, transfer),
        }
    }

    // Takes a transfer out.
    pub(crate) fn take(&mut self, id: u32) -> Option<Transfer>
        ensures found { result ≡ pending self.old id }
        ensures rest { self.new ≡ without_transfer self.old id }
    {
        take(&mut self.transfers, id)
    }

    // Ends a transfer.
    pub(crate) fn finish(&mut self, id: u32) -> Reply<'static>
        requires { IsSome (pending self.old id) }
        ensures { finish self.old id ≡ (self.new, result) }
    {
        let Some(transfer) = self.take(id) else {
            unreachable!()
        };
        self.finish_for(&transfer)
    }
}
