//! The end of an input: `done` gives the process what has come of a datagram, and gives back what was lent.
#![tactic(auto)]

mod back;
mod blanks;
mod clear;
pub mod copy;
mod fill;
pub mod finish;
pub mod held;
mod laws;
mod live;
pub mod outboard;
pub mod outboard_copy;
pub mod outboard_move;
mod owned;
pub mod pooled;
pub mod pooled_copy;
pub mod pooled_move;
mod pooled_room;
mod release;
mod room;
pub mod share;
mod store;
mod target;
pub mod waiting;
pub mod weak_move;

pub use crate::finish::finish_input_early;
