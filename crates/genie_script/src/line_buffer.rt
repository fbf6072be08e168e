//! The text of one line.
ghost use Rattle.std.specs.Prelude.{◌≡◌, ◌+◌, ◌<◌, ◌≤◌, [], ◌∷◌, ◌++◌, ◌==◌, length};

use arrayvec::ArrayVec;
use std::marker::Model;

/// At most 8,320 bytes: the longest script line, or the longest reply with its line end. Contracts see the list.
#[derive(Drop)]
pub struct LineBuffer {
    bytes: ArrayVec<u8, 8320>,
}

impl Model for LineBuffer {
    ghost use Rattle.std.specs.Prelude.{List, ℕ};

    ghost Value = { List ℕ };

    ghost view = { λ b. b.bytes.items };
}

impl LineBuffer {
    /// No bytes.
    pub fn new() -> LineBuffer
        ensures { result ≡ [] }
    {
        LineBuffer {
            bytes: ArrayVec::new(),
        }
    }

    /// Takes all bytes away.
    pub fn clear(&mut self)
        ensures { self.new ≡ [] }
    {
        self.bytes.clear();
    }

    /// How many bytes there are.
    pub fn len(&self) -> usize
        ensures count { result ≡ length self.now }
        ensures most { length self.now ≤ 8320 }
    {
        self.bytes.len()
    }

    /// Whether there are none.
    pub fn is_empty(&self) -> bool
        ensures { result ≡ (length self.now == 0) }
    {
        self.bytes.is_empty()
    }

    /// Appends a byte.
    pub fn push(&mut self, byte: u8)
        requires { length self.old < 8320 }
        ensures { self.new ≡ self.old ++ byte ∷ [] }
    {
        self.bytes.push(byte);
    }

    /// Appends bytes.
    pub fn push_slice(&mut self, bytes: &[u8])
        requires { length self.old + length bytes.now ≤ 8320 }
        ensures { self.new ≡ self.old ++ bytes.now }
    {
        self.bytes.try_extend_from_slice(bytes).unwrap();
    }

    /// Lends the bytes.
    pub fn as_slice(&self) -> &[u8]
        ensures bytes { result.now ≡ self.now }
        ensures most { length self.now ≤ 8320 }
    {
        self.bytes.as_slice()
    }
}
