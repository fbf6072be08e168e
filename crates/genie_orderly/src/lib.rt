//! What every step of the flat machine keeps: the orderly states, which a run never leaves.
#![tactic(auto)]

pub mod laws;
