//! The output call of the kernel: bytes of a process's memory wait to be sent by a device.
#![tactic(auto)]

pub mod begin;
pub mod call;
pub mod hiding;
mod laws;
pub mod lending;
pub mod moving;
pub mod output;
pub mod plain;
pub mod reach;
pub mod room;
pub mod sharing;
pub mod strong;
pub mod weak_moving;

pub use crate::hiding::out_hidden;
pub use crate::moving::out_moved;
pub use crate::output::out;
pub use crate::plain::out_copied;
pub use crate::sharing::out_shared;
pub use crate::strong::out_lent;
pub use crate::weak_moving::out_moved_out;
