//! A device of the plain machine: what is left of its input, the datagram that it is receiving, and what it has sent, each
//! as one list of bytes.
#![tactic(auto)]

pub mod datagram;
pub mod device;
pub mod devices;

pub use crate::datagram::Datagram;
pub use crate::device::Device;
