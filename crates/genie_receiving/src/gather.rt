//! The header part of a receive step.
ghost use Rattle.std.specs.Prelude.{◌≡◌, ◌≤◌, [], false, IsSome};
ghost use Rattle.genie_base.specs.Headers.{is_whole_header};
ghost use Rattle.genie_base.specs.declared.reply.Reply.TheVariants as reply;
ghost use Rattle.genie_device.specs.Device.{IsReading, ReceivesHeader, is_outboard};
ghost use Rattle.genie_model.specs.Receiving.{header_reply};
ghost use Rattle.genie_model.specs.Tables.{entry};
ghost use Rattle.genie_receiving.specs.Gathering.{IsBetween, MayGather, GathersHeader, dropped, DropsRecord, HasDatagram};

use genie_base::Reply;
use genie_device::{Device, HeaderStep};
use genie_host::Host;
use genie_wire::Header;

// Gathers bytes of a header.
fn gather_from<H: Host>(device: &mut Device, host: &mut H, n: u32) -> HeaderStep
    requires between { IsBetween device.old }
    requires some { 1 ≤ n }
    requires reading { IsReading device.old.config.input (H.view host.old) }
    ensures step { ReceivesHeader n (H.view host.old) (H.view host.new) device.old device.new result.moved result.end }
    ensures short { is_whole_header device.old.gathered ≡ false }
    ensures buffers { is_outboard device.old.config.kind ≡ false → device.old.buffers ≡ [] }
{
    device.gathered();
    device.present();
    device.recv_header(host, n)
}

/// Gathers bytes of a header on one of the devices.
pub fn gather<H: Host>(
    devices: &mut [Option<Device>; 8],
    host: &mut H,
    dev: u32,
    n: u32,
) -> HeaderStep
    requires between { MayGather (entry devices.old dev) (H.view host.old) }
    requires some { 1 ≤ n }
    ensures { GathersHeader dev n (H.view host.old) (H.view host.new) devices.old devices.new result.moved result.end }
{
    match &mut devices[dev as usize] {
        Some(device) => gather_from(device, host, n),
        None => unreachable!(),
    }
}

/// The reply to a step that moved header bytes alone.
pub fn header_reply(moved: u32) -> Reply<'static>
    ensures { result ≡ header_reply moved }
{
    if moved == 0 {
        Reply::End
    } else {
        Reply::Got { n: moved }
    }
}

// The device goes on to skip this datagram; one without a payload is over.
fn skip(device: &mut Device, header: &Header) -> Reply<'static>
    requires present { IsSome device.old.present }
    ensures device { device.new ≡ dropped header.now device.old }
    ensures reply { result ≡ reply.Dropped header.now.port header.now.flow header.now.len }
{
    if header.len == 0 {
        device.finish();
    }
    Reply::Dropped {
        port: header.port,
        flow: header.flow,
        len: header.len,
    }
}

/// The record has met no input: its payload is skipped from now on.
pub(crate) fn drop_record(
    devices: &mut [Option<Device>; 8],
    dev: u32,
    header: &Header,
) -> Reply<'static>
    requires { HasDatagram (entry devices.old dev) }
    ensures { DropsRecord dev header.now devices.old devices.new result }
{
    match &mut devices[dev as usize] {
        Some(device) => skip(device, header),
        None => unreachable!(),
    }
}
