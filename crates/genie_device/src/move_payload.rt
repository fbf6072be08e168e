//! The payload of the present datagram, moved to where it goes.
ghost use Rattle.std.specs.Prelude.{◌≡◌, ◌+◌, ◌-◌, ◌^◌, ◌<◌, ◌≤◌, Some, length};
ghost use Rattle.genie_host.specs.Host.{Reading};
ghost use Rattle.genie_device.specs.Moving.{HasPlace, Moves};

use crate::buffer::Buffer;
use crate::landing::Landing;
use crate::present::Present;
use crate::receive::receive;
use crate::steps::BodyStep;
use genie_host::Host;

/// Moves at most `n` of the datagram's payload bytes from a handle to the landing, or to the buffer that it fills.
pub(crate) fn move_payload<H: Host, L: Landing>(
    host: &mut H,
    handle: u32,
    read_buffer: &mut Vec<u8>,
    landing: &mut L,
    buffers: &mut Vec<Buffer>,
    present: &Present,
    n: u32,
) -> BodyStep
    requires reading { ((H.view host.old).handle handle).mode ≡ Reading }
    requires ready { L.is_ready landing.old }
    requires room { L.count landing.old + n < 2 ^ 64 }
    requires within { present.now.moved ≤ present.now.header.len }
    requires place { HasPlace present.now buffers.old.items }
    requires some { 0 < length read_buffer.old.items }
    ensures step { Moves handle n (H.view host.old) (H.view host.new) present.now buffers.old.items buffers.new.items (L.content landing.old) (L.content landing.new) result.moved result.end }
    ensures ready { L.is_ready landing.new }
    ensures later { L.count landing.old ≤ L.count landing.new }
    ensures most { L.count landing.new ≤ L.count landing.old + result.moved }
    ensures kept { L.kept landing.old landing.new }
    ensures buffer { length read_buffer.new.items ≡ length read_buffer.old.items }
{
    let left = present.header.len - present.moved;
    match present.buffer {
        None => receive(host, handle, read_buffer, landing, present.moved, left, n),
        Some(at) => {
            let buffer = &mut buffers[at as usize];
            buffer.receive(host, handle, read_buffer, left, n)
        }
    }
}
