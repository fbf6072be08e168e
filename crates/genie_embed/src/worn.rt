//! A store that wears out.
ghost use Rattle.std.specs.Prelude.{◌≡◌, ◌↔◌, ◌<◌, ◌≤◌, ◌-◌, [], length, IsErr, IsOk, IfErr, OnErr};
ghost use Rattle.genie_store.specs.MemoryView.{empty_store};
ghost use Rattle.genie_store.specs.StoreView.{Sizes, Puts, Gets};
ghost use Rattle.genie_embed.specs.Worn.{worn_view, puts_left};

use genie_store::{MemoryStore, Store, StoreFault, StoreRefused};
use std::alloc::Global;

/// A store in memory that takes a number of puts and fails every later one. A page that it has is got for good.
#[derive(Drop)]
pub struct WornStore {
    memory: MemoryStore,
    left: u64,
    faults: u64,
}

impl WornStore {
    /// A store that isn't sized yet, and takes so many puts.
    pub fn new(alloc: Global, puts: u64) -> WornStore
        ensures view { worn_view result ≡ empty_store }
        ensures left { puts_left result ≡ puts }
    {
        WornStore {
            memory: MemoryStore::new(alloc),
            left: puts,
            faults: 0,
        }
    }
}

impl Store for WornStore {
    ghost view = { worn_view };

    fn size(&mut self, pages: u32, page: u32) -> Result<(), StoreRefused>
        requires fresh { (worn_view self.old).count ≡ 0 }
        requires some { 1 ≤ pages }
        requires most { pages ≤ 8192 }
        requires shortest { 16 ≤ page }
        requires longest { page ≤ 4096 }
        ensures sizes { Sizes (worn_view self.old) (worn_view self.new) pages page result }
        ensures memory { IfErr result (λ e. e ≡ StoreRefused.Memory) }
        ensures left { puts_left self.new ≡ puts_left self.old }
    {
        self.memory.size(pages, page)
    }

    fn put(&mut self, slot: u32, from: &[u8]) -> Result<(), StoreFault>
        requires there { slot < (worn_view self.old).count }
        requires page { length from.now ≡ (worn_view self.old).page }
        ensures puts { Puts (worn_view self.old) (worn_view self.new) slot from.now result }
        ensures exact { IsErr result ↔ (puts_left self.old ≡ 0) }
        ensures left { puts_left self.new ≡ puts_left self.old - 1 }
    {
        if self.left == 0 {
            self.faults = self.faults.saturating_add(1);
            return Err(StoreFault);
        }
        self.left -= 1;
        self.memory.put(slot, from)
    }

    fn get(&mut self, slot: u32, into: &mut [u8]) -> Result<(), StoreFault>
        requires there { slot < (worn_view self.old).count }
        requires page { length into.old ≡ (worn_view self.old).page }
        ensures gets { Gets (worn_view self.old) (worn_view self.new) slot into.old into.new result }
        ensures works { IsOk result }
        ensures left { puts_left self.new ≡ puts_left self.old }
    {
        self.memory.get(slot, into)
    }

    ghost paged = { λ a s l. a.memory.full s [] l };
}
