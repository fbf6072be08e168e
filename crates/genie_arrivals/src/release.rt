//! The buffer in which the datagram of an input waited.
ghost use Rattle.std.specs.Prelude.{◌≡◌, ◌<◌, true, None};
ghost use Rattle.genie_device.specs.Buffers.{Free, is_arrived, state_at, with_state};
ghost use Rattle.genie_device.specs.Kept.{AreBuffers};
ghost use Rattle.genie_kernel.specs.Matching.{has_waiting};
ghost use Rattle.genie_model.specs.Tables.{entry};
ghost use Rattle.genie_arrivals.specs.Waiting.{Releases};

use genie_device::Device;
use genie_input::Pool;

// A buffer of the device's own memory is free again. Of its buffers just the one that it fills is filling.
fn release_own(device: &mut Device, buffer: u32)
    requires { is_arrived (state_at device.old.buffers buffer) ≡ true }
    ensures freed { device.new ≡ record device.old { buffers = with_state Free buffer device.old.buffers } }
    ensures filling { AreBuffers device.old.limit device.old.present device.old.buffers }
{
    device.present();
    device.release(buffer);
}

/// Makes the buffer free in which a datagram waits: its pool's where the device has one, or else the device's own.
pub(crate) fn release(
    devices: &mut [Option<Device>; 8],
    pools: &mut [Option<Pool>; 8],
    dev: u32,
    buffer: u32,
)
    requires number { dev < 8 }
    requires waiting { has_waiting (entry devices.old dev) (entry pools.old dev) buffer ≡ true }
    ensures { Releases dev buffer devices.old devices.new pools.old pools.new }
{
    match &mut pools[dev as usize] {
        Some(pool) => pool.release(buffer),
        None => match &mut devices[dev as usize] {
            Some(device) => release_own(device, buffer),
            None => unreachable!(),
        },
    }
}
