//! The kernel's event of sending: a device sends the next bytes of an output's record.
#![tactic(auto)]

mod laws;
pub mod send;
mod step;
