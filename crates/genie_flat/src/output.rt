//! The output call.
ghost use Rattle.std.specs.Prelude.{◌≡◌, ◌<◌, ◌^◌, IfOk, OnOk, IsSome, Some, length};
ghost use Rattle.std.specs.Option.{option_map};
ghost use Rattle.genie_base.specs.declared.semantics.Class.TheVariants.{Move, WeakMove};
ghost use Rattle.genie_model.specs.Regions.{reach_of};
ghost use Rattle.genie_model.specs.Pending.{add_transfer};
ghost use Rattle.genie_model.specs.Outputs.{place_reached, number_of, output_of, moved_out, output};
ghost use Rattle.genie_model.specs.Space.{as_orphan};
ghost use Rattle.genie_tables.specs.Targets.{address_of};

use crate::machine::Machine;
use genie_base::{Class, NoMemory};
use genie_tables::{Call, Orphan, Target, Transfer, table};

impl Machine {
    // Where an access begins in the region that it reaches.
    pub(crate) fn place(&self, pid: u32, addr: u32, len: u32) -> u32
        ensures { result ≡ place_reached self.now (reach_of self.now pid addr len) addr }
    {
        match self.reach(pid, addr, len) {
            Some(region) => region.place_of(self.page, addr) as u32,
            None => 0,
        }
    }

    // The number of the region that an access reaches.
    pub(crate) fn reached(&self, pid: u32, addr: u32, len: u32) -> Option<u32>
        ensures { result ≡ number_of (reach_of self.now pid addr len) }
    {
        Some(self.reach(pid, addr, len)?.number())
    }

    // A call with the next number.
    pub(crate) fn call(&self, pid: u32, class: Class, target: Target, len: u32) -> Call
        requires { self.now.next < 2 ^ 32 }
        ensures { result ≡ record { number = self.now.next; owner = pid; class = class; target = target; len = len } }
    {
        Call {
            number: self.next as u32,
            owner: pid,
            class,
            target,
            len,
        }
    }

    // A call is pending from now on.
    pub(crate) fn add_transfer(&mut self, transfer: Transfer) -> Result<(), NoMemory>
        requires few { length self.old.transfers < 64 }
        requires numbered { self.old.next < 2 ^ 32 }
        ensures { OnOk result (self.new ≡ add_transfer self.old transfer) }
    {
        self.transfers.push(transfer)?;
        self.next += 1;
        Ok(())
    }

    // An output, with its bytes of now where it is strong, and else with its region.
    fn output_of(
        &self,
        pid: u32,
        class: Class,
        target: Target,
        addr: u32,
        len: u32,
    ) -> Result<Transfer, NoMemory>
        requires { self.now.next < 2 ^ 32 }
        ensures { IfOk result (λ t. t ≡ output_of self.now pid class (address_of target) addr len (reach_of self.now pid addr len)) }
    {
        let call = self.call(pid, class, target, len);
        let place = self.place(pid, addr, len);
        if !class.is_strong() {
            let region = self.reached(pid, addr, len);
            return Ok(Transfer::output(call, region, place, Vec::new(self.alloc)));
        }
        let payload = self.bytes(pid, addr, len).to_vec(self.alloc)?;
        Ok(Transfer::output(call, None, place, payload))
    }

    // An output whose region stays as it is.
    fn add_output(
        &mut self,
        pid: u32,
        class: Class,
        target: Target,
        addr: u32,
        len: u32,
    ) -> Result<(), NoMemory>
        requires few { length self.old.transfers < 64 }
        requires numbered { self.old.next < 2 ^ 32 }
        ensures { OnOk result (self.new ≡ add_transfer self.old (output_of self.old pid class (address_of target) addr len (reach_of self.old pid addr len))) }
    {
        let transfer = self.output_of(pid, class, target, addr, len)?;
        self.add_transfer(transfer)
    }

    // A region is Out, at the end of its process's weak queue.
    pub(crate) fn move_out(&mut self, number: u32) -> Result<(), NoMemory>
        ensures { OnOk result (self.new ≡ moved_out self.old number) }
    {
        table::move_out(&mut self.processes, number)
    }

    // What is left of the region that an access reaches once it goes.
    fn reached_orphan(&self, pid: u32, addr: u32, len: u32) -> Result<Orphan, NoMemory>
        requires { IsSome (reach_of self.now pid addr len) }
        ensures { IfOk result (λ o. Some o ≡ option_map as_orphan (reach_of self.now pid addr len)) }
    {
        let Some(region) = self.reach(pid, addr, len) else {
            unreachable!()
        };
        Orphan::of(self.alloc, region)
    }

    // An output that takes its region away.
    fn output_move(&mut self, pid: u32, target: Target, addr: u32, len: u32) -> Result<(), NoMemory>
        requires few { length self.old.transfers < 64 }
        requires numbered { self.old.next < 2 ^ 32 }
        requires reached { IsSome (reach_of self.old pid addr len) }
        ensures { OnOk result (self.new ≡ (output self.old pid Move (address_of target) addr len).0) }
    {
        let orphan = self.reached_orphan(pid, addr, len)?;
        self.add_output(pid, Class::Move, target, addr, len)?;
        self.remove(orphan)
    }

    // An output that leaves its region to later inputs.
    fn output_weak_move(
        &mut self,
        pid: u32,
        target: Target,
        addr: u32,
        len: u32,
    ) -> Result<(), NoMemory>
        requires few { length self.old.transfers < 64 }
        requires numbered { self.old.next < 2 ^ 32 }
        requires reached { IsSome (reach_of self.old pid addr len) }
        ensures { OnOk result (self.new ≡ (output self.old pid WeakMove (address_of target) addr len).0) }
    {
        let Some(region) = self.reach(pid, addr, len) else {
            unreachable!()
        };
        let number = region.number();
        self.add_output(pid, Class::WeakMove, target, addr, len)?;
        self.move_out(number)
    }

    // An output.
    pub(crate) fn output(
        &mut self,
        pid: u32,
        class: Class,
        target: Target,
        addr: u32,
        len: u32,
    ) -> Result<(), NoMemory>
        requires few { length self.old.transfers < 64 }
        requires numbered { self.old.next < 2 ^ 32 }
        requires reached { IsSome (reach_of self.old pid addr len) }
        ensures { OnOk result (self.new ≡ (output self.old pid class (address_of target) addr len).0) }
    {
        match class {
            Class::Copy | Class::Share => self.add_output(pid, class, target, addr, len),
            Class::Move => self.output_move(pid, target, addr, len),
            Class::WeakMove => self.output_weak_move(pid, target, addr, len),
        }
    }
}
