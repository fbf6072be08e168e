//! The kernel's receive step on pooled devices: a device gathers a datagram in a buffer of its pool, and once it has ended, the
//! first posted input that it meets has the buffer.
#![tactic(auto)]

mod buffers;
mod deliver;
mod filling;
pub mod pooled;
mod waiting;
