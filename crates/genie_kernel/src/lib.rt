//! What a kernel is: its tables, the flat state that it stands for, and what is true of every kernel.
#![tactic(auto)]

mod asked;
pub mod kernel;
pub mod laws;
pub mod search;
pub mod tables;
pub mod transfer;
pub mod transfers;

pub use crate::kernel::Kernel;
pub use crate::search::Search;
pub use crate::transfer::{Change, Loans, Transfer};
pub use crate::transfers::{MOST_PENDING, Transfers};

#[cfg(test)]
mod tests;
