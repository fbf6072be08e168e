//! Plans for input: where bytes land, and what they leave.
#![tactic(auto)]

pub mod aligned;
pub mod laws;
pub mod lending;
pub mod pool;

pub use crate::aligned::aligned_buffer;
pub use crate::lending::in_place;
pub use crate::pool::{BufferState, Pool};
