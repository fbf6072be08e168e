//! The backing store: its slots, stores in memory, and which slots are taken.
#![tactic(auto)]

pub mod failing;
pub mod memory;
pub mod slots;
pub mod store;

pub use crate::failing::FailingStore;
pub use crate::memory::MemoryStore;
pub use crate::slots::Slots;
pub use crate::store::{Store, StoreFault, StoreRefused};

#[cfg(test)]
mod tests;
