//! The kernel's input calls: a transfer is posted for the datagrams of a device and a port.
#![tactic(auto)]

mod buffer;
pub mod call;
mod claim;
pub mod copy;
pub mod fill;
mod hidden;
pub mod hold;
mod in_place;
pub mod input;
mod laws;
mod place;
mod posting;
pub mod refill;
mod reuse;
mod room;
pub mod share;
mod target;

pub use crate::call::Call;
