//! The kernel's events on address spaces.
#![tactic(auto)]

mod copies;
pub mod exit;
pub mod fork;
pub mod laws;
pub mod map;
pub mod number;
pub mod protect;
pub mod room;
pub mod spawn;
pub mod unmap;
