//! A host that gathers its replies, and flushes them before it reads.
#![tactic(auto)]

pub mod console;
mod replies;
#[cfg(test)]
mod tests;

pub use crate::console::Console;
pub use crate::replies::ROOM;
