//! The regions of one process: which of them an access reaches, and where a new one is placed.
#![tactic(auto)]

pub mod laws;
pub mod region;
pub mod regions;

pub use crate::region::Region;
pub use crate::regions::Regions;
pub use genie_base::{Area, RegionState};
