//! The buffers of an outboard device.
ghost use Rattle.std.specs.Prelude.{◌≡◌, ◌^◌, ◌<◌, true, length, replicate, IfOk, IfSome};
ghost use Rattle.genie_device.specs.Buffers.{free_buffer, first_free, begun, arrived, is_filling, state_at, arrived_count};

use crate::buffer::Buffer;
use genie_base::NoMemory;
use std::alloc::Global;

/// So many free buffers with room for so many bytes each.
pub(crate) fn free_buffers(alloc: Global, count: u32, room: u32) -> Result<Vec<Buffer>, NoMemory>
    ensures { IfOk result (λ v. v.items ≡ replicate count (free_buffer room)) }
{
    let mut all = Vec::with_capacity(alloc, count as usize)?;
    for _ in 0..count {
        all.push_reserved(Buffer::new(alloc, room)?);
    }
    Ok(all)
}

/// Begins to fill the first free buffer, if there is one, and answers its number.
pub(crate) fn begin_first(buffers: &mut Vec<Buffer>) -> Option<u32>
    requires { length buffers.old.items < 2 ^ 32 }
    ensures place { result ≡ first_free buffers.old.items }
    ensures buffers { buffers.new.items ≡ begun (first_free buffers.old.items) buffers.old.items }
{
    match place_of_free(buffers.as_slice()) {
        None => None,
        Some(at) => {
            let buffer = &mut buffers[at];
            buffer.begin();
            Some(at as u32)
        }
    }
}

/// Where the first free buffer is.
fn place_of_free(buffers: &[Buffer]) -> Option<usize>
    ensures place { result ≡ first_free buffers.now }
    ensures within { IfSome result (λ at. at < length buffers.now) }
{
    buffers.iter().position(|b| b.is_free())
}

/// The datagram that fills this buffer, if one does, has arrived.
pub(crate) fn end_filling(buffers: &mut Vec<Buffer>, buffer: Option<u32>)
    requires { IfSome buffer (λ k. is_filling (state_at buffers.old.items k) ≡ true) }
    ensures { buffers.new.items ≡ arrived buffer buffers.old.items }
{
    match buffer {
        None => {}
        Some(at) => {
            let filling = &mut buffers[at as usize];
            filling.arrive();
        }
    }
}

/// How many buffers have arrived.
pub(crate) fn arrived_count(buffers: &[Buffer]) -> u32
    requires { length buffers.now < 2 ^ 32 }
    ensures { result ≡ arrived_count buffers.now }
{
    buffers.iter().filter(|b| b.is_arrived()).count() as u32
}
