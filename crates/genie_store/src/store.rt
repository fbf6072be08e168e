//! What a backing store does.
ghost use Rattle.std.specs.Prelude.{◌≡◌, ◌<◌, ◌≤◌, ℕ, length, IfSome};
ghost use Rattle.genie_store.specs.StoreView.{StoreView, Sizes, Puts, Gets};

use thiserror::Error;

/// The store has failed.
#[derive(Clone, Copy, Debug, PartialEq, Eq, Error)]
#[error("the backing store has failed")]
pub struct StoreFault;

/// Why a store has no slots.
#[derive(Clone, Copy, Debug, PartialEq, Eq, Error)]
pub enum StoreRefused {
    #[error("no memory for the backing store")]
    Memory,
    #[error("the backing store has failed")]
    Failed,
}

/// A store of pages in numbered slots. It has none before `size` has answered Ok; their number and length stay from
/// then on. A fault comes only where the count of faults rose, which no call lowers.
pub trait Store {
    ghost view: { Self → StoreView };

    /// Makes `pages` slots of `page` bytes each, of any content. After a refusal nothing has changed but the count.
    fn size(&mut self, pages: u32, page: u32) -> Result<(), StoreRefused>
        requires fresh { (view self.old).count ≡ 0 }
        requires some { 1 ≤ pages }
        requires most { pages ≤ 8192 }
        requires shortest { 16 ≤ page }
        requires longest { page ≤ 4096 }
        ensures { Sizes (view self.old) (view self.new) pages page result };

    /// Stores a page in a slot. After a fault all slots are as before.
    fn put(&mut self, slot: u32, from: &[u8]) -> Result<(), StoreFault>
        requires there { slot < (view self.old).count }
        requires page { length from.now ≡ (view self.old).page }
        ensures { Puts (view self.old) (view self.new) slot from.now result };

    /// Fills `into` with the page in a slot. After a fault `into` is as before.
    fn get(&mut self, slot: u32, into: &mut [u8]) -> Result<(), StoreFault>
        requires there { slot < (view self.old).count }
        requires page { length into.old ≡ (view self.old).page }
        ensures { Gets (view self.old) (view self.new) slot into.old into.new result };

    // Each slot whose bytes are told has a page of them.
    ghost paged: { (store : Self) → IfSome (view store).slots (λ slots. (s : ℕ) → s < (view store).count → length (slots s) ≡ (view store).page) };
}
