//! The flat machine, defined in `specs/`: whole buffers as lists of bytes, and no frames.
#![tactic(auto)]

pub mod fate;
pub mod laws;
pub mod phase;

pub use crate::fate::Fate;
pub use crate::phase::Phase;
