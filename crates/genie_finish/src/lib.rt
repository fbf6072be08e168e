//! The end of an input: what a buffer received is stored in a region, by swapping pages, and by copying parts of pages.
#![tactic(auto)]

pub mod copy;
pub mod laws;
pub mod page;
pub mod range;
pub mod ready;

pub use crate::copy::copy_range;
pub use crate::page::store_page;
pub use crate::range::store_range;
pub use crate::ready::ready_range;
