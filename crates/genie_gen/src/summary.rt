//! The summary of a run.

/// What the replies of a run come to. Counts stop at 2^64 - 1.
#[derive(Clone, Copy, Debug, PartialEq, Eq)]
pub struct Summary {
    /// How many events there were: the lines behind the reply to the boot part.
    pub events: u64,
    /// How many of them were refused.
    pub errs: u64,
    /// How many of them met a failure of a device or of the store.
    pub faults: u64,
    /// How many bytes went out, headers among them.
    pub sent: u64,
    /// How many bytes came in, headers among them.
    pub got: u64,
    /// The SHA-256 of the whole reply text, the reply to the boot part among it.
    pub digest: [u8; 32],
}
