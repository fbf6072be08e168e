//! The receive step of an early device, which matches a record at its header.
ghost use Rattle.std.specs.Prelude.{◌≡◌, ◌^◌, ◌<◌, None, Some, IsSome, true};
ghost use Rattle.std.specs.Option.{option_map};
ghost use Rattle.genie_base.specs.declared.event.Event.TheVariants as event;
ghost use Rattle.genie_device.specs.Device.{DeviceView};
ghost use Rattle.genie_model.specs.Refusing.{refuse};
ghost use Rattle.genie_model.specs.Tables.{entry};
ghost use Rattle.genie_kernel.specs.Good.{IsGood};
ghost use Rattle.genie_kernel.specs.Handles.{HasHandles};
ghost use Rattle.genie_kernel.specs.Planned.{is_early_device};
ghost use Rattle.genie_kernel.specs.View.{outline};
ghost use Rattle.genie_receiving.specs.Early.{IsOutsideAt, IsWithinAt, len_of};
ghost use Rattle.genie_receiving.specs.Receiving.{Receives, IsReceived};

use crate::gather::{drop_record, gather, header_reply};
use crate::land::{receive_into, receiving, skip_payload};
use crate::laws::receive_laws;
use genie_base::Reply;
use genie_device::{Device, HeaderEnd};
use genie_host::Host;
use genie_kernel::Kernel;
use genie_wire::Header;

// Goes on with the datagram of `len` bytes that is present: its payload goes to the input that it was matched to, or
// nowhere.
fn receive_rest<H: Host>(
    kernel: &mut Kernel,
    host: &mut H,
    dev: u32,
    len: u32,
    n: u32,
) -> Reply<'static>
    requires good { IsGood kernel.old }
    requires handles { HasHandles kernel.old.config (H.view host.old) }
    requires landed { kernel.old.memory.frames.landed < 2 ^ 63 }
    requires accepted { refuse (outline kernel.old) (event.Recv dev n) ≡ None }
    requires within { IsWithinAt len (entry kernel.old.devices dev) }
    ensures { Receives dev n (H.view host.old) (H.view host.new) kernel.old kernel.new result }
{
    receive_laws();
    match receiving(&kernel.transfers, dev) {
        Some(id) => receive_into(kernel, host, dev, id, len, 0, n),
        None => skip_payload(&mut kernel.devices, host, dev, n),
    }
}

// Gathers bytes of a header. The first input that a whole one meets receives from then on.
fn receive_record<H: Host>(kernel: &mut Kernel, host: &mut H, dev: u32, n: u32) -> Reply<'static>
    requires good { IsGood kernel.old }
    requires handles { HasHandles kernel.old.config (H.view host.old) }
    requires landed { kernel.old.memory.frames.landed < 2 ^ 63 }
    requires accepted { refuse (outline kernel.old) (event.Recv dev n) ≡ None }
    requires outside { IsOutsideAt (entry kernel.old.devices dev) }
    ensures { Receives dev n (H.view host.old) (H.view host.new) kernel.old kernel.new result }
{
    receive_laws();
    let step = gather(&mut kernel.devices, host, dev, n);
    match step.end {
        HeaderEnd::More => header_reply(step.moved),
        HeaderEnd::Faulted => Reply::Fault { n: step.moved },
        HeaderEnd::Bad => Reply::Bad,
        HeaderEnd::Whole(header) => {
            match kernel.posted.match_port(dev, header.port, header.flow) {
                Some(id) => receive_into(
                    kernel,
                    host,
                    dev,
                    id,
                    header.len,
                    step.moved,
                    n - step.moved,
                ),
                None => drop_record(&mut kernel.devices, dev, &header),
            }
        }
    }
}

/// Whether a device is bad.
pub fn is_bad(devices: &[Option<Device>; 8], dev: u32) -> bool
    requires { IsSome (entry devices.now dev) }
    ensures { (v : DeviceView) → entry devices.now dev ≡ Some v → result ≡ v.is_bad }
{
    match &devices[dev as usize] {
        Some(device) => device.is_bad(),
        None => unreachable!(),
    }
}

// The length of the datagram that is present in a device.
fn present_len(devices: &[Option<Device>; 8], dev: u32) -> Option<u32>
    requires { IsSome (entry devices.now dev) }
    ensures { (v : DeviceView) → entry devices.now dev ≡ Some v → result ≡ option_map len_of v.present }
{
    match &devices[dev as usize] {
        Some(device) => match device.present() {
            Some(header) => Some(header.len),
            None => None,
        },
        None => unreachable!(),
    }
}

/// One receive step of an early device. It takes bytes of one record from its input, and none past the record's last one:
/// at most `budget`, the header's and the payload's, which land in the frames of the input that the record has met: a
/// strong one's own, or those of the region or orphan that a weak one names. `Bad` once a header wasn't valid, from
/// then on. `End` where the input has ended between records, or inside a header. `Dropped` where a whole header meets no
/// posted input: the payload is skipped by later steps. Else `Got`, with 0 where the input ended inside a payload, which
/// truncates the datagram. `Fault` where the host failed after so many bytes, which have been received.
pub fn recv_early<H: Host>(
    kernel: &mut Kernel,
    host: &mut H,
    dev: u32,
    budget: u32,
) -> Reply<'static>
    requires good { IsGood kernel.old }
    requires handles { HasHandles kernel.old.config (H.view host.old) }
    requires landed { kernel.old.memory.frames.landed < 2 ^ 63 }
    requires accepted { refuse (outline kernel.old) (event.Recv dev budget) ≡ None }
    requires early { is_early_device (entry kernel.old.devices dev) ≡ true }
    ensures { IsReceived dev budget (H.view host.old) (H.view host.new) kernel.old kernel.new result }
{
    if is_bad(&kernel.devices, dev) {
        return Reply::Bad;
    }
    match present_len(&kernel.devices, dev) {
        Some(len) => receive_rest(kernel, host, dev, len, budget),
        None => receive_record(kernel, host, dev, budget),
    }
}
