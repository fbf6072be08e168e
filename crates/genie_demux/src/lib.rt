//! The inputs that wait for a datagram, and which of them a datagram meets.
#![tactic(auto)]

pub mod input;
pub mod posted;

pub use crate::input::Input;
pub use crate::posted::{NotPosted, Posted};
