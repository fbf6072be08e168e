//! The pending transfers.
ghost use Rattle.std.specs.Prelude.{◌≡◌, None, IfSome, false};
ghost use Rattle.std.specs.List.{list_any};
ghost use Rattle.genie_kernel.specs.Searches.{IsFirst, passes};

use crate::search::Search;
use crate::transfer::{Change, Transfer};
use genie_base::{NoMemory, TransferId};
use slab::Slab;
use std::alloc::Global;
use std::marker::Model;

/// How many transfers may be pending.
pub const MOST_PENDING: usize = 64;

/// At most 64 pending transfers, in the order of their numbers. All memory is reserved by `new`. Contracts see their list.
#[derive(Drop)]
pub struct Transfers {
    slots: Slab<Transfer>,
    order: Vec<usize>,
}

impl Model for Transfers {
    ghost use Rattle.std.specs.Prelude.{List, vec_capacity};
    ghost use Rattle.genie_kernel.specs.declared.transfer.Transfer.{Transfer};
    ghost use Rattle.genie_kernel.specs.Order.{transfers_of, IsOrder};

    ghost Value = { List Transfer };

    ghost view = { λ t. transfers_of t.slots t.order.items };

    ghost invariant = { λ t. IsOrder t.slots t.order.items (vec_capacity t.order) };
}

impl Transfers {
    ghost use Rattle.std.specs.Prelude.{◌<◌, ◌≤◌, ◌++◌, [], ◌∷◌, IfOk, IsSome, Some, length, find, slice_index_or};
    ghost use Rattle.std.specs.Option.{option_copied};
    ghost use Rattle.genie_model.specs.Tables.{without, change as changed_in};
    ghost use Rattle.genie_kernel.specs.Changes.{changed_by};
    ghost use Rattle.genie_kernel.specs.Calls.{has_number};
    ghost use Rattle.genie_kernel.specs.declared.transfer.Transfer.{Transfer as TransferView};

    /// No transfer.
    pub fn new(alloc: Global) -> Result<Transfers, NoMemory>
        ensures { IfOk result (λ transfers. transfers ≡ []) }
    {
        Ok(Transfers {
            slots: Slab::with_capacity(alloc, MOST_PENDING)?,
            order: Vec::with_capacity(alloc, MOST_PENDING)?,
        })
    }

    /// How many are pending: at most 64.
    pub fn len(&self) -> u32
        ensures number { result ≡ length self.now }
        ensures most { result ≤ 64 }
    {
        self.order.len() as u32
    }

    /// The transfer at place `i`, in the order of numbers.
    pub fn at(&self, i: u32) -> &Transfer
        requires { i < length self.now }
        ensures { (d : TransferView) → slice_index_or self.now i d ≡ result.now }
    {
        match self.slots.get(self.order[i as usize]) {
            Some(transfer) => transfer,
            None => unreachable!(),
        }
    }

    /// Where the first transfer is that passes, or `None` exactly where none does.
    pub fn first(&self, search: Search) -> Option<u32>
        ensures found { IfSome result (IsFirst (passes search) self.now) }
        ensures none { result ≡ None → list_any (passes search) self.now ≡ false }
    {
        first_of(self, search)
    }

    /// The first transfer that passes, or `None` exactly where none does.
    pub fn find(&self, search: Search) -> Option<&Transfer>
        ensures { option_copied result ≡ find (passes search) self.now }
    {
        match self.first(search) {
            Some(i) => Some(self.at(i)),
            None => None,
        }
    }

    /// Whether a transfer passes.
    pub fn any(&self, search: Search) -> bool
        ensures { result ≡ list_any (passes search) self.now }
    {
        match self.first(search) {
            Some(_) => true,
            None => false,
        }
    }

    /// Changes a transfer. The others stay as they are.
    pub fn change(&mut self, id: TransferId, change: Change)
        requires { IsSome (find (has_number id.0) self.old) }
        ensures { self.new ≡ changed_in (has_number id.0) (changed_by change) self.old }
    {
        match first_of(self, Search::Number(id.0)) {
            Some(i) => match self.slots.get_mut(self.order[i as usize]) {
                Some(transfer) => change.apply(transfer),
                None => unreachable!(),
            },
            None => unreachable!(),
        }
    }

    /// Takes a transfer out. The others stay in order.
    pub fn remove(&mut self, id: TransferId) -> Transfer
        requires { IsSome (find (has_number id.0) self.old) }
        ensures removed { find (has_number id.0) self.old ≡ Some result }
        ensures others { self.new ≡ without (has_number id.0) self.old }
    {
        match first_of(self, Search::Number(id.0)) {
            Some(i) => {
                let key = self.order.remove(i as usize);
                match self.slots.try_remove(key) {
                    Some(transfer) => transfer,
                    None => unreachable!(),
                }
            }
            None => unreachable!(),
        }
    }

    /// Adds a transfer behind the others.
    #[tactic(auto, using(crate::proofs::Orders::transfers_pushed))]
    pub fn add(&mut self, transfer: Transfer)
        requires { length self.old < 64 }
        ensures { self.new ≡ self.old ++ transfer ∷ [] }
    {
        let key = self.slots.insert_reserved(transfer);
        match self.order.push(key) {
            Ok(()) => {}
            Err(_) => unreachable!(),
        }
    }
}

// Where the first transfer is that passes.
fn first_of(transfers: &Transfers, search: Search) -> Option<u32>
    ensures found { IfSome result (IsFirst (passes search) transfers.now) }
    ensures none { result ≡ None → list_any (passes search) transfers.now ≡ false }
{
    'each: for i in 0..transfers.len() {
        if search.passes(transfers.at(i)) {
            return Some(i);
        }
    }
    None
}
