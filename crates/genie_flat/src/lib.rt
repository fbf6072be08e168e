//! The plain machine, which computes the flat machine's steps by copies of whole lists.
#![tactic(auto)]

mod finish;
pub mod flat;
mod input;
mod machine;
mod output;
mod recv;
mod refusal;
mod send;
mod space;
mod step;

pub use crate::flat::Flat;
