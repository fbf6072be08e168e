//! The run of a script by the flat machine: its lines are read one by one, and each reply is written whole.
#![tactic(auto)]

pub mod booting;
pub mod files;
mod inputs;
mod play;
pub mod replaying;
pub mod script;
mod serving;
pub mod status;
#[cfg(test)]
mod tests;
pub mod write;

pub use crate::replaying::replay;
pub use crate::script::{LineStep, Script};
pub use crate::status::{Status, put_status};
pub use crate::write::write_all;
