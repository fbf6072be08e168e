//! A quick start for those who embed the library: a host and a store of their own, a kernel that is stepped by events
//! and reads no script, and a frame that is lent to a device.
#![tactic(auto)]

pub mod exchange;
pub mod guide;
pub mod lending;
pub mod machine;
pub mod packets;
#[cfg(test)]
mod tests;
pub mod worn;

pub use crate::exchange::{EchoError, echo};
pub use crate::guide::{close_early, lend_three, send_again, send_two};
pub use crate::lending::send_page;
pub use crate::machine::{Machine, Stopped};
pub use crate::packets::{PacketHost, RECEIVED, SENT};
pub use crate::worn::WornStore;
