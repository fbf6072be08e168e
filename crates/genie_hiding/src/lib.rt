//! What the kernel keeps of regions that their process has moved out.
#![tactic(auto)]

pub mod hidden;
pub mod trim;
pub mod weak_queue;

pub use crate::hidden::{Hidden, HiddenCache};
pub use crate::weak_queue::WeakQueue;
