//! The kernel's events on memory alone: a process reads and writes its memory, and pages go to the store.
#![tactic(auto)]

pub mod bytes;
pub mod paging;
pub mod ranges;
pub mod reading;
pub mod storing;
pub mod writing;
