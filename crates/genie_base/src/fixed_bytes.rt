//! Bytes of fixed length.
ghost use Rattle.std.specs.Prelude.{◌≡◌, ◌+◌, ◌≤◌, length, replicate, IfOk};
ghost use Rattle.genie_base.specs.Bytes.{overlaid, part};

use crate::bytes::overlay;
use crate::no_memory::NoMemory;
use std::alloc::Global;
use std::marker::Model;

/// Bytes in memory of their own, as many as `zeros` has made. They are never moved in memory. Contracts see the list.
#[derive(Drop)]
pub struct FixedBytes {
    items: Vec<u8>,
}

impl Model for FixedBytes {
    ghost use Rattle.std.specs.Prelude.{List, ℕ};

    ghost Value = { List ℕ };

    ghost view = { λ a. a.items.items };
}

impl FixedBytes {
    ghost use Rattle.std.specs.Borrow.{sem};
    ghost use Rattle.genie_base.specs.Lending.{LendsBytes};

    /// `n` zeros.
    pub fn zeros(alloc: Global, n: usize) -> Result<FixedBytes, NoMemory>
        ensures { IfOk result (λ bytes. bytes ≡ replicate n 0) }
    {
        Ok(FixedBytes {
            items: vec![in alloc; 0; n]?,
        })
    }

    pub fn as_slice(&self) -> &[u8]
        ensures { result.now ≡ self.now }
    {
        self.items.as_slice()
    }

    pub fn as_mut_slice(&mut self) -> &mut [u8]
        ensures* writes_back { sem 𝓛 (LendsBytes self.entry result) }
        ensures value { result.now ≡ self.old }
    {
        self.items.as_mut_slice()
    }

    /// Lends `n` bytes from place `off` on.
    pub fn run(&self, off: usize, n: usize) -> &[u8]
        requires { off + n ≤ length self.now }
        ensures { result.now ≡ part off n self.now }
    {
        let bytes = self.items.as_slice();
        &bytes[off..off + n]
    }

    /// Stores bytes from place `off` on. Those that would pass the end are left out.
    pub fn store(&mut self, off: usize, from: &[u8])
        ensures { self.new ≡ overlaid off from.now self.old }
    {
        overlay(&mut self.items, off, from);
    }

    /// Stores as many bytes as there are.
    pub fn fill(&mut self, from: &[u8])
        requires { length from.now ≡ length self.old }
        ensures { self.new ≡ from.now }
    {
        self.items.copy_from_slice(from);
    }

    /// Stores `n` zeros from place `off` on.
    pub fn zero(&mut self, off: usize, n: usize)
        requires { off + n ≤ length self.old }
        ensures { self.new ≡ overlaid off (replicate n 0) self.old }
    {
        clear(&mut self.items, off, n);
    }

    /// Stores the `n` bytes that stand at place `from` at place `to`.
    pub fn move_run(&mut self, from: usize, to: usize, n: usize)
        requires from_room { from + n ≤ length self.old }
        requires to_room { to + n ≤ length self.old }
        ensures { self.new ≡ overlaid to (part from n self.old) self.old }
    {
        shift(&mut self.items, from, to, n);
    }
}

// Stores n zeros from place off on.
#[tactic(auto, using(crate::specs::Lemmas::Runs::put_laid))]
fn clear(bytes: &mut [u8], off: usize, n: usize)
    requires { off + n ≤ length bytes.old }
    ensures { bytes.new ≡ overlaid off (replicate n 0) bytes.old }
{
    let run = &mut bytes[off..off + n];
    run.fill(0);
}

// Stores the n bytes that stand at place from at place to.
#[tactic(auto, using(crate::specs::Lemmas::Runs::shifted))]
fn shift(bytes: &mut [u8], from: usize, to: usize, n: usize)
    requires from_room { from + n ≤ length bytes.old }
    requires to_room { to + n ≤ length bytes.old }
    ensures { bytes.new ≡ overlaid to (part from n bytes.old) bytes.old }
{
    bytes.copy_within(from..from + n, to);
}
