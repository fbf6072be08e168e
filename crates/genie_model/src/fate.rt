//! What becomes of a datagram.

/// What becomes of a datagram: it was matched to an input, its payload is skipped, or it is gathered and matched whole.
#[derive(Clone, Copy, Debug, PartialEq, Eq)]
pub enum Fate {
    Matched(u32),
    Skipped,
    Gathering,
}
