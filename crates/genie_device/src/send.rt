//! The bytes of a record, appended to the output.
ghost use Rattle.std.specs.Prelude.{◌≡◌, ◌+◌, ◌^◌, ◌<◌, ◌≤◌, ◌++◌, length, take, drop, min};
ghost use Rattle.genie_base.specs.Records.{header_len, record_bytes, unsent_bytes};
ghost use Rattle.genie_host.specs.Host.{Writing};
ghost use Rattle.genie_device.specs.Sending.{AppendsPart, payload_of};

use crate::outgoing::Outgoing;
use crate::stage::Staged;
use genie_host::Host;
use genie_wire::{Header, write_header};

/// How many bytes went to the output, and whether it failed then.
#[derive(Clone, Copy, Debug)]
pub struct Sent {
    pub moved: u32,
    pub faulted: bool,
}

/// How many bytes a header has.
pub(crate) fn size_of(header: &Header) -> u32
    ensures size { result ≡ header_len header.now.flow }
    ensures most { result ≤ 12 }
{
    match header.flow {
        None => 8,
        Some(_) => 12,
    }
}

/// Lends bytes of a record from place `at` on: one at least, where some are left.
fn piece_of<'a, O: Outgoing>(header: &'a [u8], from: &'a O, at: u32) -> &'a [u8]
    requires ready { O.is_ready from.now }
    requires short { length header.now ≤ 12 }
    ensures front { result.now ≡ take (length result.now) (drop at (header.now ++ O.payload from.now)) }
    ensures some { at < length header.now + length (O.payload from.now) → 0 < length result.now }
{
    if (at as usize) < header.len() {
        &header[at as usize..]
    } else {
        from.piece(at - header.len() as u32)
    }
}

/// Appends the next `budget` bytes of a record, from place `at` on, to a handle.
fn send_part<H: Host, O: Outgoing>(
    host: &mut H,
    handle: u32,
    header: &[u8],
    from: &O,
    at: u32,
    budget: u32,
) -> Sent
    requires writing { ((H.view host.old).handle handle).mode ≡ Writing }
    requires ready { O.is_ready from.now }
    requires short { length header.now ≤ 12 }
    requires room { at + budget ≤ length header.now + length (O.payload from.now) }
    requires place { at + budget < 2 ^ 32 }
    ensures { AppendsPart handle at budget (H.view host.old) (H.view host.new) (header.now ++ O.payload from.now) result.moved result.faulted }
{
    let mut moved = 0u32;
    'pieces: while moved < budget {
        let piece = piece_of(header, from, at + moved);
        let count = piece.len().min((budget - moved) as usize);
        match host.write(handle, &piece[..count]) {
            Err(_) => {
                return Sent {
                    moved,
                    faulted: true,
                };
            }
            Ok(taken) => {
                moved += taken as u32;
            }
        }
    }
    Sent {
        moved,
        faulted: false,
    }
}

/// Appends at most `n` bytes of a record to a handle, of which `sent` are there.
pub(crate) fn send_record<H: Host, O: Outgoing>(
    host: &mut H,
    handle: u32,
    header: &Header,
    from: &O,
    sent: u32,
    n: u32,
) -> Sent
    requires writing { ((H.view host.old).handle handle).mode ≡ Writing }
    requires ready { O.is_ready from.now }
    requires payload { header.now.len ≡ length (O.payload from.now) }
    requires short { header.now.len < 2 ^ 31 }
    requires unsent { sent < header_len header.now.flow + header.now.len }
    ensures { AppendsPart handle sent (min n (unsent_bytes header.now.flow header.now.len sent)) (H.view host.old) (H.view host.new) (record_bytes header.now.port header.now.flow (O.payload from.now)) result.moved result.faulted }
{
    let left = size_of(header) + header.len - sent;
    let bytes = write_header(header);
    send_part(host, handle, bytes.as_slice(), from, sent, n.min(left))
}

/// The same, of a payload that stands staged where the device has memory for it.
pub(crate) fn send_from<H: Host, O: Outgoing>(
    host: &mut H,
    handle: u32,
    header: &Header,
    from: &O,
    staged: &[u8],
    is_staged: bool,
    sent: u32,
    n: u32,
) -> Sent
    requires writing { ((H.view host.old).handle handle).mode ≡ Writing }
    requires ready { O.is_ready from.now }
    requires payload { header.now.len ≡ length (payload_of is_staged staged.now (O.payload from.now)) }
    requires short { header.now.len < 2 ^ 31 }
    requires unsent { sent < header_len header.now.flow + header.now.len }
    ensures { AppendsPart handle sent (min n (unsent_bytes header.now.flow header.now.len sent)) (H.view host.old) (H.view host.new) (record_bytes header.now.port header.now.flow (payload_of is_staged staged.now (O.payload from.now))) result.moved result.faulted }
{
    if is_staged {
        let staged = Staged { bytes: staged };
        send_record(host, handle, header, &staged, sent, n)
    } else {
        send_record(host, handle, header, from, sent, n)
    }
}
