//! Room that can always be made: what a good kernel leaves of the frames, the slots, the pages and the objects.
#![tactic(auto)]

pub mod laws;
