//! Devices: records that come in and go out over a host, byte for byte.
#![tactic(auto)]

mod buffer;
mod buffers;
pub mod device;
mod gather;
pub mod landing;
pub mod laws;
mod memory;
mod move_payload;
pub mod outgoing;
pub mod present;
mod receive;
mod send;
mod stage;
pub mod steps;

pub use crate::device::Device;
pub use crate::landing::Landing;
pub use crate::outgoing::Outgoing;
pub use crate::present::Present;
pub use crate::steps::{BodyEnd, BodyStep, HeaderEnd, HeaderStep, SendStep};
