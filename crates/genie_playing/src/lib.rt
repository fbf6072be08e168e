//! The run of a script's events by the kernel: line by line, each reply written before the next line is read.
#![tactic(auto)]

pub mod costs;
pub mod play;
pub mod serving;
