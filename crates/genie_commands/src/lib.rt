//! What the program's words ask for: a script that is replayed by a kernel, or a made one that is replayed and summed up.
#![tactic(auto)]

pub mod command;
pub mod make;
mod summary;
#[cfg(test)]
mod tests;

pub use crate::command::run;
