//! A store in memory that fails at given calls.
ghost use Rattle.std.specs.Prelude.{◌≡◌, ◌↔◌, ◌^◌, IsErr, IfOk, IfErr, IsTrue, [], length, ◌<◌, ◌≤◌};
ghost use Rattle.genie_store.specs.StoreView.{Sizes, Puts, Gets};
ghost use Rattle.genie_store.specs.MemoryView.{failing_view, calls, failing as failing_calls, one_more, fails_next, counted, empty_store};

use crate::memory::MemoryStore;
use crate::store::{Store, StoreFault, StoreRefused};
use genie_base::NoMemory;
use std::alloc::Global;

/// A store in memory whose puts and gets, counted together from 1, fail exactly where their number is listed. Nothing
/// else raises its count of faults.
#[derive(Drop)]
pub struct FailingStore {
    memory: MemoryStore,
    failing: Vec<u64>,
    calls: u64,
    faults: u64,
}

impl FailingStore {
    /// A store that isn't sized yet, with the numbers of the calls that fail.
    pub fn new(alloc: Global, failing: &[u64]) -> Result<FailingStore, NoMemory>
        ensures view { IfOk result (λ store. failing_view store ≡ empty_store) }
        ensures calls { IfOk result (λ store. calls store ≡ 0) }
        ensures failing { IfOk result (λ store. failing_calls store ≡ failing.now) }
    {
        Ok(FailingStore {
            memory: MemoryStore::new(alloc),
            failing: Vec::from_slice(alloc, failing)?,
            calls: 0,
            faults: 0,
        })
    }

    // Counts a call, and a fault where its number is listed. Answers whether it is.
    fn count(&mut self) -> bool
        ensures result { result ≡ fails_next self.old }
        ensures calls { calls self.new ≡ one_more (calls self.old) }
        ensures failing { failing_calls self.new ≡ failing_calls self.old }
        ensures view { failing_view self.new ≡ counted result (failing_view self.old) }
        ensures fits { (failing_view self.old).faults < 2 ^ 64 }
    {
        self.calls = self.calls.saturating_add(1);
        let faults = self.faults;
        let fails = self.failing.contains(&self.calls);
        if fails {
            self.faults = faults.saturating_add(1);
        }
        fails
    }
}

impl Store for FailingStore {
    ghost view = { failing_view };

    fn size(&mut self, pages: u32, page: u32) -> Result<(), StoreRefused>
        requires fresh { (failing_view self.old).count ≡ 0 }
        requires some { 1 ≤ pages }
        requires most { pages ≤ 8192 }
        requires shortest { 16 ≤ page }
        requires longest { page ≤ 4096 }
        ensures sizes { Sizes (failing_view self.old) (failing_view self.new) pages page result }
        ensures memory { IfErr result (λ e. e ≡ StoreRefused.Memory) }
        ensures calls { calls self.new ≡ calls self.old }
        ensures failing { failing_calls self.new ≡ failing_calls self.old }
    {
        self.memory.size(pages, page)
    }

    fn put(&mut self, slot: u32, from: &[u8]) -> Result<(), StoreFault>
        requires there { slot < (failing_view self.old).count }
        requires page { length from.now ≡ (failing_view self.old).page }
        ensures puts { Puts (failing_view self.old) (failing_view self.new) slot from.now result }
        ensures exact { IsErr result ↔ IsTrue (fails_next self.old) }
        ensures calls { calls self.new ≡ one_more (calls self.old) }
        ensures failing { failing_calls self.new ≡ failing_calls self.old }
    {
        if self.count() {
            return Err(StoreFault);
        }
        self.memory.put(slot, from)
    }

    fn get(&mut self, slot: u32, into: &mut [u8]) -> Result<(), StoreFault>
        requires there { slot < (failing_view self.old).count }
        requires page { length into.old ≡ (failing_view self.old).page }
        ensures gets { Gets (failing_view self.old) (failing_view self.new) slot into.old into.new result }
        ensures exact { IsErr result ↔ IsTrue (fails_next self.old) }
        ensures calls { calls self.new ≡ one_more (calls self.old) }
        ensures failing { failing_calls self.new ≡ failing_calls self.old }
    {
        if self.count() {
            return Err(StoreFault);
        }
        self.memory.get(slot, into)
    }

    ghost paged = { λ a s l. a.memory.full s [] l };
}
