//! Further laws of the flat machine: refusals, levels and thresholds, numbers of calls, and integrity.
#![tactic(auto)]

pub mod laws;
