//! Plans for output: the pages of a range are lent to a device, or copied for it.
#![tactic(auto)]

pub mod back;
pub mod copied;
pub mod laws;
pub mod strong;
pub mod weak;

pub use crate::copied::prepare_copy;
pub use crate::strong::prepare_strong;
pub use crate::weak::prepare_weak;
