//! Worked scripts as tables, and the runs of them.
#![tactic(auto)]

pub mod datagrams;
pub mod marked;
pub mod rows;
pub mod templates;
#[cfg(test)]
mod tests;
