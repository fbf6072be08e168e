//! The address spaces of the processes.
#![tactic(auto)]

mod space;
pub mod spaces;
pub mod translation;

pub use crate::spaces::{PROCESSES, Spaces};
pub use crate::translation::Translation;
