//! Which slots of the store are taken.
ghost use Rattle.std.specs.Prelude.{◌≡◌, ◌<◌, not, true, false, length, replicate, count_by, IfOk, slice_set};
ghost use Rattle.genie_store.specs.Slots.{slot_at};

use genie_base::{FreeList, NoMemory};
use std::alloc::Global;
use std::marker::Model;

/// The slots of the store, each of them taken or not. A slot is taken and given back in constant time. Contracts see
/// for each slot whether it is taken.
#[derive(Drop)]
pub struct Slots {
    taken: Vec<bool>,
    // The numbers of the free slots, each once.
    free: FreeList,
}

impl Model for Slots {
    ghost use Rattle.std.specs.Prelude.{List, Bool};
    ghost use Rattle.genie_store.specs.Slots.{AreListed};

    ghost Value = { List Bool };

    ghost view = { λ a. a.taken.items };

    ghost invariant = { λ a. AreListed a.taken.items a.free.list a.free.room };
}

impl Slots {
    /// `pages` slots, all of them free.
    pub fn new(alloc: Global, pages: u32) -> Result<Slots, NoMemory>
        ensures { IfOk result (λ slots. slots ≡ replicate pages false) }
    {
        let taken = vec![in alloc; false; pages as usize]?;
        let free = FreeList::below(alloc, pages)?;
        Ok(Slots { taken, free })
    }

    /// The number of free slots.
    pub fn free(&self) -> u32
        ensures { result ≡ count_by not self.now }
    {
        self.free.len()
    }

    /// Takes a free slot. Which one isn't said.
    pub fn take(&mut self) -> u32
        requires { 0 < count_by not self.old }
        ensures there { result < length self.old }
        ensures was_free { slot_at self.old result ≡ false }
        ensures slots { self.new ≡ slice_set self.old result true }
    {
        let slot = self.free.take();
        self.taken[slot as usize] = true;
        slot
    }

    /// Gives a taken slot back.
    pub fn back(&mut self, slot: u32)
        requires { slot_at self.old slot ≡ true }
        ensures { self.new ≡ slice_set self.old slot false }
    {
        self.taken[slot as usize] = false;
        self.free.give(slot);
    }
}
