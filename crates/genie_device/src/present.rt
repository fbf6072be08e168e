//! A datagram that is coming in.
use genie_wire::Header;

/// A datagram whose header is whole.
#[derive(Clone, Copy, Debug, PartialEq, Eq)]
pub struct Present {
    pub header: Header,
    /// How many payload bytes were taken from the input.
    pub moved: u32,
    /// The outboard buffer that it fills, on an outboard device.
    pub buffer: Option<u32>,
}
