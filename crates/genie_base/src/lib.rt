//! The numbers, events, replies, configuration and counts that every layer names.
#![tactic(auto)]

pub mod bytes;
pub mod config;
pub mod counts;
pub mod event;
pub mod fixed_bytes;
pub mod free_list;
pub mod no_memory;
pub mod numbers;
pub mod page_bytes;
pub mod page_size;
pub mod refusal;
pub mod region;
pub mod reply;
pub mod semantics;
#[cfg(test)]
mod tests;

pub use crate::bytes::{overlay, part};
pub use crate::config::{Config, DEVICES, DeviceConfig, Kind};
pub use crate::counts::{cost, span};
pub use crate::event::Event;
pub use crate::fixed_bytes::FixedBytes;
pub use crate::free_list::FreeList;
pub use crate::no_memory::NoMemory;
pub use crate::numbers::{Addr, DevNo, ObjectId, PageNo, Pid, Port, RegionId, TransferId};
pub use crate::page_bytes::{PageBuffer, PageBytes};
pub use crate::page_size::PageSize;
pub use crate::refusal::Refusal;
pub use crate::region::{Area, RegionState};
pub use crate::reply::{Mark, Note, Reply};
pub use crate::semantics::{Class, Direction, Semantics};
