//! What a program reads and writes, as a trait with a written meaning.
#![tactic(auto)]

pub mod file;
mod files;
pub mod host;
pub mod memory;
mod opened;
pub mod openings;
mod place;
mod reader;
#[cfg(test)]
mod tests;
mod writer;

pub use crate::file::FileHost;
pub use crate::host::{Failed, Host, OpenRefused};
pub use crate::memory::MemoryHost;
pub use crate::openings::Openings;
