//! The ends of the kernel's transfers on which no device works: inputs that are taken back, and outputs that are sent.
#![tactic(auto)]

mod call;
pub mod cancel;
mod laws;
pub mod output;
mod region;
