//! The datagram that a device is receiving.
ghost use Rattle.std.specs.Prelude.{◌≡◌, ◌+◌, ◌<◌, ◌≤◌, ◌^◌, length, drop, slice_index, IfOk, IsTrue, OnOk};
ghost use Rattle.std.specs.Int.{from_be_bytes, w16, w32};
ghost use Rattle.genie_base.specs.Headers.{is_whole_header, is_valid_header, size_of_header, len_in, flow_in};
ghost use Rattle.genie_model.specs.Receiving.{datagram, after_bytes};

use byteorder::{BigEndian, ByteOrder};
use genie_base::NoMemory;
use genie_model::Fate;
use std::alloc::Global;
use std::marker::Model;

/// A datagram whose header is whole and whose payload isn't.
#[derive(Drop)]
pub struct Datagram {
    port: u16,
    flow: Option<u32>,
    len: u32,
    moved: u32,
    fate: Fate,
    bytes: Vec<u8>,
}

impl Model for Datagram {
    ghost use Rattle.genie_model.specs.State as flat;

    ghost Value = { flat.Datagram };

    ghost view = { λ g. record { port = g.port; flow = g.flow; len = g.len; moved = g.moved; fate = g.fate; bytes = g.bytes.items } };
}

fn u16_at(bytes: &[u8], at: usize) -> u16
    requires { at + 2 ≤ length bytes.now }
    ensures { result ≡ from_be_bytes w16 (drop at bytes.now) }
{
    BigEndian::read_u16(&bytes[at..])
}

fn u32_at(bytes: &[u8], at: usize) -> u32
    requires { at + 4 ≤ length bytes.now }
    ensures { result ≡ from_be_bytes w32 (drop at bytes.now) }
{
    BigEndian::read_u32(&bytes[at..])
}

// The byte at a place, or 0 past the end.
fn byte_at(bytes: &[u8], at: usize) -> u8
    ensures { result ≡ slice_index bytes.now at }
{
    if at < bytes.len() { bytes[at] } else { 0 }
}

/// How many bytes the header has that begins with these.
pub fn size_of_header(bytes: &[u8]) -> usize
    ensures size { result ≡ size_of_header bytes.now }
    ensures low { 8 ≤ result }
    ensures flow { slice_index bytes.now 0 ≡ 71 → slice_index bytes.now 1 ≡ 69 → 12 ≤ result }
{
    if byte_at(bytes, 0) == b'G' && byte_at(bytes, 1) == b'E' {
        12
    } else {
        8
    }
}

/// Whether a header is whole.
pub fn is_whole_header(bytes: &[u8]) -> bool
    ensures whole { result ≡ is_whole_header bytes.now }
    ensures long { IsTrue result → 8 ≤ length bytes.now }
    ensures flow { IsTrue result → slice_index bytes.now 0 ≡ 71 → slice_index bytes.now 1 ≡ 69 → 12 ≤ length bytes.now }
{
    size_of_header(bytes) <= bytes.len()
}

/// Whether a whole header is of a format, and its payload has at most so many bytes.
pub fn is_valid_header(most: u32, bytes: &[u8]) -> bool
    requires { 8 ≤ length bytes.now }
    ensures valid { result ≡ is_valid_header most bytes.now }
    ensures first { IsTrue result → slice_index bytes.now 0 ≡ 71 }
{
    let second = byte_at(bytes, 1);
    byte_at(bytes, 0) == b'G' && (second == b'D' || second == b'E') && u32_at(bytes, 4) <= most
}

/// The payload's length that a whole header says.
pub fn len_in(bytes: &[u8]) -> u32
    requires { 8 ≤ length bytes.now }
    ensures { result ≡ len_in bytes.now }
{
    u32_at(bytes, 4)
}

// The flow that a whole header says.
fn flow_in(bytes: &[u8]) -> Option<u32>
    requires { slice_index bytes.now 1 ≡ 69 → 12 ≤ length bytes.now }
    ensures { result ≡ flow_in bytes.now }
{
    if byte_at(bytes, 1) == b'E' {
        Some(u32_at(bytes, 8))
    } else {
        None
    }
}

impl Datagram {
    /// The datagram that a whole header begins.
    pub fn new(alloc: Global, header: &[u8], fate: Fate) -> Datagram
        requires whole { 8 ≤ length header.now }
        requires flow { slice_index header.now 1 ≡ 69 → 12 ≤ length header.now }
        ensures { result ≡ datagram header.now fate }
    {
        Datagram {
            port: u16_at(header, 2),
            flow: flow_in(header),
            len: u32_at(header, 4),
            moved: 0,
            fate,
            bytes: Vec::new(alloc),
        }
    }

    /// Its port.
    pub fn port(&self) -> u16
        ensures { result ≡ self.now.port }
    {
        self.port
    }

    /// Its flow, if it has one.
    pub fn flow(&self) -> Option<u32>
        ensures { result ≡ self.now.flow }
    {
        self.flow
    }

    /// How many payload bytes it has.
    pub fn len(&self) -> u32
        ensures { result ≡ self.now.len }
    {
        self.len
    }

    /// How many of them have come.
    pub fn moved(&self) -> u32
        ensures { result ≡ self.now.moved }
    {
        self.moved
    }

    /// What becomes of it.
    pub fn fate(&self) -> Fate
        ensures { result ≡ self.now.fate }
    {
        self.fate
    }

    /// Lends the payload bytes that were gathered.
    pub fn bytes(&self) -> &[u8]
        ensures { result.now ≡ self.now.bytes }
    {
        self.bytes.as_slice()
    }

    /// Bytes of its payload have come.
    pub fn extend(&mut self, bytes: &[u8]) -> Result<(), NoMemory>
        requires { self.old.moved + length bytes.now < 2 ^ 32 }
        ensures { OnOk result (self.new ≡ after_bytes bytes.now self.old) }
    {
        self.moved += bytes.len() as u32;
        match self.fate {
            Fate::Gathering => self.bytes.extend_from_slice(bytes)?,
            Fate::Matched(_) | Fate::Skipped => {}
        }
        Ok(())
    }

    /// Another one with the same contents.
    pub fn copy(&self, alloc: Global) -> Result<Datagram, NoMemory>
        ensures { IfOk result (λ g. g ≡ self.now) }
    {
        let bytes = self.bytes.as_slice().to_vec(alloc)?;
        Ok(Datagram {
            port: self.port,
            flow: self.flow,
            len: self.len,
            moved: self.moved,
            fate: self.fate,
            bytes,
        })
    }
}
