//! Copies of objects that share the pages of what they are copies of, until either is written.
#![tactic(auto)]

pub mod copies;
pub mod entries;
pub mod regions;

pub use crate::copies::{copy_entry, copy_object};
pub use crate::regions::{copy_regions, drop_objects};
