//! What may be changed of a region.
use genie_base::RegionState;

/// One change of a region.
#[derive(Clone, Copy)]
pub enum Change<'a> {
    /// Other bytes from a place on.
    Bytes { at: usize, bytes: &'a [u8] },
    State(RegionState),
    /// Whether it may be written.
    Mode(bool),
    /// Live, with these bytes and then zeros.
    Fill(&'a [u8]),
}

/// One change of a transfer that receives.
#[derive(Clone, Copy)]
pub enum Turn<'a> {
    /// A record has met it.
    Moving,
    /// Its datagram of so many bytes has ended.
    Arrived {
        truncated: bool,
        len: u32,
    },
    /// A gathered datagram of so many bytes is its own.
    Gathered {
        truncated: bool,
        len: u32,
        bytes: &'a [u8],
    },
    /// Bytes of its datagram from a place on have come.
    Received {
        at: u32,
        bytes: &'a [u8],
    },
}
