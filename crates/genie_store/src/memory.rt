//! A store in memory.
ghost use Rattle.std.specs.Prelude.{◌≡◌, ◌<◌, ◌≤◌, [], All, length, replicate, IsOk, IfOk, IfErr};

use crate::store::{Store, StoreFault, StoreRefused};
use genie_base::{FixedBytes, NoMemory};
use std::alloc::Global;

/// A store in memory. It fails only where `size` finds no memory, and tells all bytes.
#[derive(Drop)]
pub struct MemoryStore {
    alloc: Global,
    page: u32,
    slots: Vec<FixedBytes>,
    ghost full: { All (λ b. length b ≡ page) slots.items },
}

impl MemoryStore {
    ghost use Rattle.genie_store.specs.MemoryView.{memory_view, empty_store};

    /// A store that isn't sized yet.
    pub fn new(alloc: Global) -> MemoryStore
        ensures { memory_view result ≡ empty_store }
    {
        MemoryStore {
            alloc,
            page: 0,
            slots: Vec::new(alloc),
        }
    }
}

impl Store for MemoryStore {
    ghost use Rattle.genie_store.specs.MemoryView.{memory_view};
    ghost use Rattle.genie_store.specs.StoreView.{Sizes, Puts, Gets};

    ghost view = { memory_view };

    fn size(&mut self, pages: u32, page: u32) -> Result<(), StoreRefused>
        requires fresh { (memory_view self.old).count ≡ 0 }
        requires some { 1 ≤ pages }
        requires most { pages ≤ 8192 }
        requires shortest { 16 ≤ page }
        requires longest { page ≤ 4096 }
        ensures sizes { Sizes (memory_view self.old) (memory_view self.new) pages page result }
        ensures memory { IfErr result (λ e. e ≡ StoreRefused.Memory) }
    {
        let Ok(slots) = blank(self.alloc, pages as usize, page as usize) else {
            return Err(StoreRefused::Memory);
        };
        self.page = page;
        self.slots = slots;
        Ok(())
    }

    fn put(&mut self, slot: u32, from: &[u8]) -> Result<(), StoreFault>
        requires there { slot < (memory_view self.old).count }
        requires page { length from.now ≡ (memory_view self.old).page }
        ensures puts { Puts (memory_view self.old) (memory_view self.new) slot from.now result }
        ensures works { IsOk result }
    {
        let bytes = &mut self.slots[slot as usize];
        bytes.fill(from);
        Ok(())
    }

    fn get(&mut self, slot: u32, into: &mut [u8]) -> Result<(), StoreFault>
        requires there { slot < (memory_view self.old).count }
        requires page { length into.old ≡ (memory_view self.old).page }
        ensures gets { Gets (memory_view self.old) (memory_view self.new) slot into.old into.new result }
        ensures works { IsOk result }
    {
        into.copy_from_slice(self.slots[slot as usize].as_slice());
        Ok(())
    }

    ghost paged = { λ a s l. a.full s [] l };
}

// So many slots of zeros.
fn blank(alloc: Global, slots: usize, page: usize) -> Result<Vec<FixedBytes>, NoMemory>
    ensures { IfOk result (λ v. v.items ≡ replicate slots (replicate page 0)) }
{
    let mut all = Vec::with_capacity(alloc, slots)?;
    for _ in 0..slots {
        all.push_reserved(FixedBytes::zeros(alloc, page)?);
    }
    Ok(all)
}
