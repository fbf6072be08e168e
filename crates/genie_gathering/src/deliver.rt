//! The end of a gathered datagram: at the input that it meets, or the drop.
ghost use Rattle.std.specs.Prelude.{◌≡◌, Some, find, true, IsSome};
ghost use Rattle.genie_demux.specs.Posted.{address, number_of as posted_number};
ghost use Rattle.genie_base.specs.Posted.{first};
ghost use Rattle.genie_device.specs.Buffers.{Free, is_arrived, state_at, with_state};
ghost use Rattle.genie_device.specs.Device.{buffer_of, finished, is_outboard};
ghost use Rattle.genie_model.specs.Receiving.{note_of};
ghost use Rattle.genie_model.specs.Tables.{entry};
ghost use Rattle.genie_kernel.specs.Calls.{has_number};
ghost use Rattle.genie_kernel.specs.Changes.{changed_by};
ghost use Rattle.genie_kernel.specs.declared.transfer.Transfer.{Transfer as TransferView};
ghost use Rattle.genie_changes.specs.Working.{worked, at_work};
ghost use Rattle.genie_gathering.specs.Delivering.{HasFilling, EndsRecord, HasArrivedIn, Releases, ready_with, IsPending, Delivers};

use genie_base::{Note, Reply, TransferId};
use genie_device::Device;
use genie_kernel::{Change, Kernel, Search, Transfer, Transfers};
use genie_model::Phase;
use genie_wire::Header;

// Ends the present datagram of an outboard device, and answers the number of its buffer.
fn finish(device: &mut Device) -> u32
    requires present { IsSome device.old.present }
    requires outboard { is_outboard device.old.config.kind ≡ true }
    ensures place { buffer_of device.old.present ≡ Some result }
    ensures device { device.new ≡ finished device.old }
    ensures arrived { is_arrived (state_at device.new.buffers result) ≡ true }
{
    match device.finish() {
        Some(buffer) => buffer,
        None => unreachable!(),
    }
}

// The same on one of the devices.
fn end_record(devices: &mut [Option<Device>; 8], dev: u32) -> u32
    requires { HasFilling (entry devices.old dev) }
    ensures { EndsRecord dev devices.old devices.new result }
{
    match &mut devices[dev as usize] {
        Some(device) => finish(device),
        None => unreachable!(),
    }
}

// The buffer is free again.
fn release(devices: &mut [Option<Device>; 8], dev: u32, buffer: u32)
    requires { HasArrivedIn buffer (entry devices.old dev) }
    ensures { Releases dev buffer devices.old devices.new }
{
    match &mut devices[dev as usize] {
        Some(device) => device.release(buffer),
        None => unreachable!(),
    }
}

// How a datagram of `len` bytes has met a buffer.
fn note_of(truncated: bool, len: u32, buffer: u32) -> Note
    ensures { result ≡ note_of truncated len buffer }
{
    if truncated {
        Note::Trunc
    } else if buffer < len {
        Note::Cut
    } else {
        Note::Whole
    }
}

// An input is ready with the bytes that fit it, of `so_far` in a buffer.
fn ready_with(transfer: &Transfer, buffer: u32, so_far: u32, truncated: bool, len: u32) -> Change
    ensures { (t : TransferView) → changed_by result t ≡ at_work (ready_with buffer so_far truncated len transfer.now) t }
{
    Change::Progress {
        phase: Phase::Ready,
        buffer: Some(buffer),
        stored: so_far.min(transfer.len),
        note: note_of(truncated, len, transfer.len),
    }
}

// So it is with input `id`.
fn make_ready(
    transfers: &mut Transfers,
    id: u32,
    buffer: u32,
    so_far: u32,
    truncated: bool,
    len: u32,
)
    requires { IsSome (find (has_number id) transfers.old) }
    ensures { (t : TransferView) → find (has_number id) transfers.old ≡ Some t → transfers.new ≡ worked (has_number id) (ready_with buffer so_far truncated len t) transfers.old }
{
    let change = match transfers.find(Search::Number(id)) {
        Some(transfer) => ready_with(transfer, buffer, so_far, truncated, len),
        None => unreachable!(),
    };
    transfers.change(TransferId(id), change);
}

/// The datagram of a device has ended, `so_far` bytes of which are in its buffer, in a step that moved `n` bytes. The first
/// posted input that it meets is ready, and the buffer is its own until its process is done with it. A datagram that meets
/// none is dropped, and its buffer is free.
pub(crate) fn deliver(
    kernel: &mut Kernel,
    dev: u32,
    header: &Header,
    so_far: u32,
    truncated: bool,
    n: u32,
) -> Reply<'static>
    requires filling { HasFilling (entry kernel.old.devices dev) }
    requires pends { IsPending (posted_number (first address dev header.now.port header.now.flow kernel.old.posted)) kernel.old.transfers }
    ensures { Delivers dev header.now so_far truncated n kernel.old kernel.new result }
{
    let buffer = end_record(&mut kernel.devices, dev);
    match kernel.posted.match_port(dev, header.port, header.flow) {
        Some(id) => {
            make_ready(
                &mut kernel.transfers,
                id,
                buffer,
                so_far,
                truncated,
                header.len,
            );
            Reply::Got { n }
        }
        None => {
            release(&mut kernel.devices, dev, buffer);
            Reply::Dropped {
                port: header.port,
                flow: header.flow,
                len: header.len,
            }
        }
    }
}
