//! The kernel's receive step on devices that aren't early: a device gathers a datagram in a buffer, and once it has ended, the
//! first posted input that it meets has the buffer.
#![tactic(auto)]

mod deliver;
mod gather;
mod laws;
pub mod outboard;
pub mod payload;
