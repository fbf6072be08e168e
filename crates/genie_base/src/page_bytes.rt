//! The bytes of one access.
ghost use Rattle.std.specs.Prelude.{◌≡◌, ◌+◌, ◌<◌, ◌≤◌, [], ◌∷◌, ◌++◌, length};

use arrayvec::ArrayVec;
use std::marker::Model;

/// At most 4,096 bytes, the largest page, lent by whoever has them. Contracts see the list.
#[derive(Drop)]
pub struct PageBytes<'a> {
    bytes: &'a [u8],
}

impl<'a> Model for PageBytes<'a> {
    ghost use Rattle.std.specs.Prelude.{List, ℕ, ◌≤◌, length};

    ghost Value = { List ℕ };

    ghost view = { λ b. b.bytes.now };

    ghost invariant = { λ b. length b.bytes.now ≤ 4096 };
}

impl<'a> PageBytes<'a> {
    /// These bytes, 4,096 at most.
    pub fn new(bytes: &'a [u8]) -> PageBytes<'a>
        requires { length bytes.now ≤ 4096 }
        ensures { result ≡ bytes.now }
    {
        PageBytes { bytes }
    }

    /// The bytes.
    pub fn as_slice(&self) -> &'a [u8]
        ensures bytes { result.now ≡ self.now }
        ensures most { length self.now ≤ 4096 }
    {
        self.bytes
    }
}

/// Room for 4,096 bytes, which are written and then lent. Contracts see the list.
#[derive(Drop)]
pub struct PageBuffer {
    bytes: ArrayVec<u8, 4096>,
}

impl Model for PageBuffer {
    ghost use Rattle.std.specs.Prelude.{List, ℕ};

    ghost Value = { List ℕ };

    ghost view = { λ b. b.bytes.items };
}

impl PageBuffer {
    /// No bytes.
    pub fn new() -> PageBuffer
        ensures { result ≡ [] }
    {
        PageBuffer {
            bytes: ArrayVec::new(),
        }
    }

    /// Takes all bytes away.
    pub fn clear(&mut self)
        ensures { self.new ≡ [] }
    {
        self.bytes.clear();
    }

    /// Appends a byte.
    pub fn push(&mut self, byte: u8)
        requires { length self.old < 4096 }
        ensures { self.new ≡ self.old ++ byte ∷ [] }
    {
        self.bytes.push(byte);
    }

    /// Appends bytes.
    pub fn push_slice(&mut self, bytes: &[u8])
        requires { length self.old + length bytes.now ≤ 4096 }
        ensures { self.new ≡ self.old ++ bytes.now }
    {
        self.bytes.try_extend_from_slice(bytes).unwrap();
    }

    /// Lends the bytes.
    pub fn lend(&self) -> PageBytes<'_>
        ensures { result ≡ self.now }
    {
        PageBytes::new(self.bytes.as_slice())
    }
}
