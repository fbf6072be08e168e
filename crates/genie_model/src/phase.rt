//! How far a transfer has come.

/// An output is queued and then ready. An input is posted, on an early device moving, and then ready.
#[derive(Clone, Copy, Debug, PartialEq, Eq)]
pub enum Phase {
    /// An output whose record isn't wholly sent.
    Queued,
    /// An input that no record has met.
    Posted,
    /// An input whose record is coming in.
    Moving,
    /// It waits for its `done`.
    Ready,
}
