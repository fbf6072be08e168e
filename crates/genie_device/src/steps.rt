//! What one step of a device did.
use genie_wire::Header;

/// A step that gathers the bytes of a header.
#[derive(Clone, Copy, Debug, PartialEq, Eq)]
pub struct HeaderStep {
    /// How many header bytes were taken from the input.
    pub moved: u32,
    pub end: HeaderEnd,
}

/// How it ends.
#[derive(Clone, Copy, Debug, PartialEq, Eq)]
pub enum HeaderEnd {
    /// The budget or the input is used up, and the header isn't whole.
    More,
    /// The header is whole and valid. Its datagram is present.
    Whole(Header),
    /// The header is whole and isn't valid. The device is bad from now on.
    Bad,
    /// The host failed after the bytes moved.
    Faulted,
}

/// A step that moves the bytes of a payload.
#[derive(Clone, Copy, Debug, PartialEq, Eq)]
pub struct BodyStep {
    /// How many payload bytes were taken from the input.
    pub moved: u32,
    pub end: BodyEnd,
}

/// How it ends.
#[derive(Clone, Copy, Debug, PartialEq, Eq)]
pub enum BodyEnd {
    /// The budget or the input is used up, and some of the payload is left.
    More,
    /// All of the payload is moved.
    Whole,
    /// The input ended: there was a budget and no byte for it.
    Truncated,
    /// The host failed after the bytes moved.
    Faulted,
}

/// A step that sends, or that stages what is sent later.
#[derive(Clone, Copy, Debug, PartialEq, Eq)]
pub struct SendStep {
    /// How many bytes were staged, or else appended to the output.
    pub moved: u32,
    /// Whether payload was staged.
    pub staged: bool,
    /// Whether the record's last byte was sent.
    pub whole: bool,
    /// Whether the host failed after the bytes moved.
    pub faulted: bool,
}
