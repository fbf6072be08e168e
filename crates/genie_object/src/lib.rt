//! Logical pages, objects and their entries, and the memory that they form with frames and slots.
#![tactic(auto)]

pub mod laws;
pub mod memory;
pub mod object;
pub mod objects;
pub mod pages;

pub use crate::memory::Memory;
pub use crate::objects::{Entry, EntryRef, Objects, Range};
pub use crate::pages::{PageId, PageInfo, Pages, Place};
pub use genie_base::ObjectId;

#[cfg(test)]
mod tests;
