//! The payload part of a receive step, on a device whose datagrams go to buffers of its pool.
ghost use Rattle.std.specs.Prelude.{◌≡◌, ◌+◌, ◌^◌, ◌<◌, IsSome};
ghost use Rattle.genie_model.specs.Tables.{entry};
ghost use Rattle.genie_receiving.specs.Landing.{MayMove};
ghost use Rattle.genie_pooling.specs.Buffers.{HasFilling};
ghost use Rattle.genie_pooling.specs.Filling.{FillsBuffer, MayLandIn, offset_at};

use crate::buffers::loans_of;
use genie_base::Config;
use genie_device::Device;
use genie_frame::Frames;
use genie_host::Host;
use genie_input::Pool;
use genie_receiving::payload::{Moved, move_into};

/// Where the buffers of a device begin in their first page.
pub(crate) fn offset_of(config: &Config, dev: u32) -> u32
    requires { IsSome (entry config.now.devices dev) }
    ensures { result ≡ offset_at (entry config.now.devices dev) }
{
    match &config.devices[dev as usize] {
        Some(device) => device.offset,
        None => unreachable!(),
    }
}

/// Moves payload bytes into the buffer that the pool of a device fills, which has room for `len` bytes from place `first` on.
pub(crate) fn fill<H: Host>(
    devices: &mut [Option<Device>; 8],
    frames: &mut Frames,
    pools: &[Option<Pool>; 8],
    host: &mut H,
    dev: u32,
    first: u32,
    len: u32,
    taken: u32,
    n: u32,
) -> Moved
    requires device { MayMove (entry devices.old dev) (H.view host.old) }
    requires pool { HasFilling (entry pools.now dev) }
    requires ready { MayLandIn frames.old first len (entry pools.now dev) }
    requires room { frames.old.landed + n < 2 ^ 64 }
    ensures { FillsBuffer dev first len taken n (H.view host.old) (H.view host.new) devices.old devices.new frames.old frames.new pools.now result }
{
    match &pools[dev as usize] {
        Some(pool) => {
            let loans = loans_of(pool);
            match &mut devices[dev as usize] {
                Some(device) => move_into(device, host, frames, loans, first, len, taken, n),
                None => unreachable!(),
            }
        }
        None => unreachable!(),
    }
}
