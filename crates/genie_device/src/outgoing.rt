//! Where the bytes of a payload come from.
ghost use Rattle.std.specs.Prelude.{◌≡◌, ℕ, ◌<◌, List, length, take, drop};

/// A payload that is lent piece by piece.
pub trait Outgoing {
    /// The payload's bytes.
    ghost payload: { Self → List ℕ };

    /// Whether bytes may be lent now.
    ghost is_ready: { Self → Type 0 };

    /// Lends bytes from place `at` on: one at least, where some are left.
    fn piece(&self, at: u32) -> &[u8]
        requires ready { is_ready self.now }
        ensures front { result.now ≡ take (length result.now) (drop at (payload self.now)) }
        ensures some { at < length (payload self.now) → 0 < length result.now };
}
