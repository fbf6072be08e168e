//! A receive step of a device that gathers datagrams in buffers of its own.
ghost use Rattle.std.specs.Prelude.{◌≡◌, ◌≤◌, ◌<◌, ◌+◌, ◌^◌, false};
ghost use Rattle.genie_base.specs.Posted.{first};
ghost use Rattle.genie_base.specs.Headers.{is_whole_header};
ghost use Rattle.genie_demux.specs.Posted.{address, number_of as posted_number};
ghost use Rattle.genie_device.specs.Device.{IsReading, ReceivesHeader};
ghost use Rattle.genie_model.specs.Receiving.{header_reply};
ghost use Rattle.genie_model.specs.Tables.{entry};
ghost use Rattle.genie_gathering.specs.Delivering.{IsPending};
ghost use Rattle.genie_gathering.specs.Gathering.{IsBetween, MayGather, GathersHeader, GathersPayload};
ghost use Rattle.genie_gathering.specs.Payload.{MayMove};

use crate::deliver::deliver;
use crate::payload::{Course, move_at, reply_to};
use genie_base::Reply;
use genie_device::{Device, HeaderStep};
use genie_host::Host;
use genie_kernel::Kernel;
use genie_wire::Header;

// Gathers bytes of a header.
fn gather_from<H: Host>(device: &mut Device, host: &mut H, n: u32) -> HeaderStep
    requires between { IsBetween device.old }
    requires some { 1 ≤ n }
    requires reading { IsReading device.old.config.input (H.view host.old) }
    ensures step { ReceivesHeader n (H.view host.old) (H.view host.new) device.old device.new result.moved result.end }
    ensures short { is_whole_header device.old.gathered ≡ false }
{
    device.gathered();
    device.recv_header(host, n)
}

/// Gathers bytes of a header on one of the devices.
pub(crate) fn gather<H: Host>(
    devices: &mut [Option<Device>; 8],
    host: &mut H,
    dev: u32,
    n: u32,
) -> HeaderStep
    requires between { MayGather (entry devices.old dev) (H.view host.old) }
    requires some { 1 ≤ n }
    ensures { GathersHeader dev n (H.view host.old) (H.view host.new) devices.old devices.new result.moved result.end }
{
    match &mut devices[dev as usize] {
        Some(device) => gather_from(device, host, n),
        None => unreachable!(),
    }
}

/// The reply to a step that moved header bytes alone.
pub(crate) fn header_reply(moved: u32) -> Reply<'static>
    ensures { result ≡ header_reply moved }
{
    if moved == 0 {
        Reply::End
    } else {
        Reply::Got { n: moved }
    }
}

/// Gathers payload bytes of the datagram with this header, behind `taken` bytes of the header in the same step. Where the
/// datagram has ended, the first posted input that it meets is ready, or it is dropped.
pub(crate) fn gather_payload<H: Host>(
    kernel: &mut Kernel,
    host: &mut H,
    dev: u32,
    header: &Header,
    taken: u32,
    n: u32,
) -> Reply<'static>
    requires device { MayMove (entry kernel.old.devices dev) (H.view host.old) }
    requires short { taken + n < 2 ^ 32 }
    requires pends { IsPending (posted_number (first address dev header.now.port header.now.flow kernel.old.posted)) kernel.old.transfers }
    ensures { GathersPayload dev header.now taken n (H.view host.old) (H.view host.new) kernel.old kernel.new result }
{
    let moved = move_at(&mut kernel.devices, host, dev, taken, n);
    match moved.course {
        Course::GoesOn => reply_to(&moved, taken),
        Course::Ends => deliver(
            kernel,
            dev,
            header,
            moved.so_far,
            false,
            taken + moved.bytes,
        ),
        Course::IsTruncated => deliver(kernel, dev, header, moved.so_far, true, 0),
    }
}
