//! Laws of the runs of scripts.
#![tactic(auto)]

pub mod laws;
