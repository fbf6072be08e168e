//! What an event may copy at most, by the kinds of the pages that it finds.
#![tactic(auto)]

pub mod laws;
