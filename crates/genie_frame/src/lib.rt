//! Page frames: their owners, loans, wires, bytes and meters.
#![tactic(auto)]

mod copy;
pub mod frame;
pub mod frames;

pub use crate::frame::{Counts, FrameId, InLoan, Meters, OutLoan, Owner};
pub use crate::frames::Frames;

#[cfg(test)]
mod tests;
