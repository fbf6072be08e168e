//! The run of a script by the kernel, over a host and a store.
#![tactic(auto)]

pub mod booting;
pub mod ended;
pub mod replaying;
#[cfg(test)]
mod tests;
mod wiring;

pub use crate::ended::Ended;
pub use crate::replaying::replay;
