//! The header of a record.
ghost use Rattle.std.specs.Prelude.{◌≡◌, ◌+◌, ◌≤◌, ◌++◌, length, drop, is_ok, IfOk};
ghost use Rattle.std.specs.Int.{from_be_bytes, to_be_bytes, w16, w32};
ghost use Rattle.genie_base.specs.Headers.{header_size as size_of, is_valid_header};
ghost use Rattle.genie_wire.specs.Headers.{IsWhole, header_in, bytes_of, AllReadBack};

use arrayvec::ArrayVec;
use byteorder::{BigEndian, ByteOrder};
use thiserror::Error;

/// What stands before the payload of a record. A record with a flow has format 2, else format 1.
#[derive(Clone, Copy, Debug, PartialEq, Eq)]
pub struct Header {
    pub port: u16,
    pub flow: Option<u32>,
    /// The payload's length, in bytes.
    pub len: u32,
}

/// Bytes that aren't a valid header.
#[derive(Clone, Copy, Debug, PartialEq, Eq, Error)]
#[error("bad record header")]
pub struct BadHeader;

/// How many bytes a header has that begins with these two: 12 in format 2, else 8.
pub fn header_size(first: u8, second: u8) -> u32
    ensures { result ≡ size_of first second }
{
    if first == b'G' && second == b'E' {
        12
    } else {
        8
    }
}

fn u16_at(bytes: &[u8], at: usize) -> u16
    requires { at + 2 ≤ length bytes.now }
    ensures { result ≡ from_be_bytes w16 (drop at bytes.now) }
{
    BigEndian::read_u16(&bytes[at..])
}

fn u32_at(bytes: &[u8], at: usize) -> u32
    requires { at + 4 ≤ length bytes.now }
    ensures { result ≡ from_be_bytes w32 (drop at bytes.now) }
{
    BigEndian::read_u32(&bytes[at..])
}

/// Reads a whole header, of as many bytes as its first two ask for. `BadHeader` comes exactly where neither format
/// begins with these two, or where the payload has more than `most` bytes.
pub fn read_header(bytes: &[u8], most: u32) -> Result<Header, BadHeader>
    requires { IsWhole bytes.now }
    // The header says what the bytes say, and these are its bytes.
    ensures fields { IfOk result (λ h. h ≡ header_in bytes.now) }
    ensures bytes { IfOk result (λ h. bytes.now ≡ bytes_of h) }
    ensures valid { is_ok result ≡ is_valid_header most bytes.now }
{
    let flow = match (bytes[0], bytes[1]) {
        (b'G', b'D') => None,
        (b'G', b'E') => Some(u32_at(bytes, 8)),
        _ => return Err(BadHeader),
    };
    let len = u32_at(bytes, 4);
    if len > most {
        return Err(BadHeader);
    }
    Ok(Header {
        port: u16_at(bytes, 2),
        flow,
        len,
    })
}

fn push_u16(out: &mut ArrayVec<u8, 12>, n: u16)
    requires { length out.old.items + 2 ≤ 12 }
    ensures { out.new.items ≡ out.old.items ++ to_be_bytes w16 n }
{
    let mut bytes = [0; 2];
    BigEndian::write_u16(&mut bytes, n);
    out.try_extend_from_slice(&bytes).unwrap();
}

fn push_u32(out: &mut ArrayVec<u8, 12>, n: u32)
    requires { length out.old.items + 4 ≤ 12 }
    ensures { out.new.items ≡ out.old.items ++ to_be_bytes w32 n }
{
    let mut bytes = [0; 4];
    BigEndian::write_u32(&mut bytes, n);
    out.try_extend_from_slice(&bytes).unwrap();
}

/// The bytes of a header: 12 where it has a flow, else 8.
pub fn write_header(header: &Header) -> ArrayVec<u8, 12>
    ensures { result.items ≡ bytes_of header.now }
{
    let mut out = ArrayVec::new();
    out.push(b'G');
    out.push(if header.flow.is_some() { b'E' } else { b'D' });
    push_u16(&mut out, header.port);
    push_u32(&mut out, header.len);
    if let Some(flow) = header.flow {
        push_u32(&mut out, flow);
    }
    out
}

/// What is written is read as the same header, where its length is allowed.
pub fn headers_read_back()
    ensures { AllReadBack }
{}
