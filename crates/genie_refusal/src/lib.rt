//! Which events are refused and why, over any tables that stand for a state of the flat machine.
#![tactic(auto)]

mod limits;
pub mod refusal;
mod spaces;
pub mod tables;
mod transfers;

pub use crate::refusal::refuse;
pub use crate::tables::{FoundRegion, Tables};
