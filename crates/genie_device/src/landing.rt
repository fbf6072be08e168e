//! Where the bytes of a payload go.
ghost use Rattle.std.specs.Prelude.{◌≡◌, ℕ, ◌+◌, ◌^◌, ◌<◌, ◌≤◌, List, length};
ghost use Rattle.genie_base.specs.Bytes.{overlaid};

/// A place of fixed length that payload bytes are stored in.
pub trait Landing {
    /// The bytes that stand there.
    ghost content: { Self → List ℕ };

    /// How many bytes were stored so far, at least.
    ghost count: { Self → ℕ };

    /// Whether bytes may be stored now.
    ghost is_ready: { Self → Type 0 };

    /// All but the content and the count is the same in two states.
    ghost kept: { Self → Self → Type 0 };

    /// Stores bytes from place `at` on. Those past the content's end are thrown away.
    fn land(&mut self, at: u32, bytes: &[u8])
        requires ready { is_ready self.old }
        requires room { count self.old + length bytes.now < 2 ^ 64 }
        ensures ready { is_ready self.new }
        ensures content { content self.new ≡ overlaid at bytes.now (content self.old) }
        ensures later { count self.old ≤ count self.new }
        ensures most { count self.new ≤ count self.old + length bytes.now }
        ensures kept { kept self.old self.new };

    ghost reflexive: { (a : Self) → kept a a };

    ghost transitive: { (a b c : Self) → kept a b → kept b c → kept a c };
}
