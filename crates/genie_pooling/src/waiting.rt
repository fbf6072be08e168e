//! The datagrams of a device that wait in buffers until their processes are done with them.
ghost use Rattle.std.specs.Prelude.{◌≡◌, ◌==◌, IsSome, count_by};
ghost use Rattle.genie_model.specs.Tables.{entry};
ghost use Rattle.genie_kernel.specs.Calls.{has_arrived};
ghost use Rattle.genie_pooling.specs.Pooled.{depth_at};

use genie_base::{Config, Direction};
use genie_kernel::{Transfer, Transfers};
use genie_model::Phase;

// Whether a transfer is an input of a device, and its datagram has arrived.
fn has_arrived(transfer: &Transfer, dev: u32) -> bool
    ensures { result ≡ has_arrived dev transfer.now }
{
    matches!(transfer.dir, Direction::Inward)
        && matches!(transfer.phase, Phase::Ready)
        && transfer.dev == dev
}

// How many of a device's inputs have their datagram.
fn arrived(transfers: &Transfers, dev: u32) -> u32
    ensures { result ≡ count_by (has_arrived dev) transfers.now }
{
    let mut count = 0;
    let len = transfers.len();
    'each: for i in 0..len {
        if has_arrived(transfers.at(i), dev) {
            count += 1;
        }
    }
    count
}

// How many buffers a device has.
fn depth_of(config: &Config, dev: u32) -> u32
    requires { IsSome (entry config.now.devices dev) }
    ensures { result ≡ depth_at (entry config.now.devices dev) }
{
    match &config.devices[dev as usize] {
        Some(device) => device.depth,
        None => unreachable!(),
    }
}

/// Whether as many datagrams of a device wait as it has buffers.
pub(crate) fn is_busy(config: &Config, transfers: &Transfers, dev: u32) -> bool
    requires { IsSome (entry config.now.devices dev) }
    ensures { result ≡ (count_by (has_arrived dev) transfers.now == depth_at (entry config.now.devices dev)) }
{
    arrived(transfers, dev) == depth_of(config, dev)
}
