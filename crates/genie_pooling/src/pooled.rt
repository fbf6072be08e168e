//! The receive step of a pooled device.
ghost use Rattle.std.specs.Prelude.{◌≡◌, ◌+◌, ◌*◌, ◌^◌, ◌<◌, ◌≤◌, None, Some, IsSome, true};
ghost use Rattle.genie_base.specs.Posted.{first};
ghost use Rattle.genie_base.specs.declared.event.Event.TheVariants as event;
ghost use Rattle.genie_demux.specs.Posted.{address, number_of as posted_number};
ghost use Rattle.genie_device.specs.Device.{DeviceView, header_of};
ghost use Rattle.genie_model.specs.Refusing.{refuse};
ghost use Rattle.genie_model.specs.Tables.{entry};
ghost use Rattle.genie_kernel.specs.Good.{IsGood};
ghost use Rattle.genie_kernel.specs.Handles.{HasHandles};
ghost use Rattle.genie_kernel.specs.View.{outline};
ghost use Rattle.genie_receiving.specs.Landing.{MayMove};
ghost use Rattle.genie_receiving.specs.Receiving.{Receives, IsReceived};
ghost use Rattle.genie_pooling.specs.Buffers.{HasFilling};
ghost use Rattle.genie_pooling.specs.Delivering.{IsPending};
ghost use Rattle.genie_pooling.specs.Filling.{MayLandIn, offset_at};
ghost use Rattle.genie_pooling.specs.Pooled.{FillsPayload, IsWithinAt, IsOutsideAt, is_pooled_device};

use crate::buffers::begin;
use crate::deliver::deliver;
use crate::filling::{fill, offset_of};
use crate::waiting::is_busy;
use genie_base::Reply;
use genie_device::{Device, HeaderEnd};
use genie_host::Host;
use genie_kernel::Kernel;
use genie_receiving::course::Course;
use genie_receiving::early::is_bad;
use genie_receiving::gather::{gather, header_reply};
use genie_receiving::land::reply_to;
use genie_receiving::laws::receive_laws;
use genie_wire::Header;

// Moves payload bytes on into the buffer that the datagram of a device fills, and ends the datagram where it is over.
fn fill_payload<H: Host>(
    kernel: &mut Kernel,
    host: &mut H,
    dev: u32,
    header: &Header,
    taken: u32,
    n: u32,
) -> Reply<'static>
    requires device { MayMove (entry kernel.old.devices dev) (H.view host.old) }
    requires config { IsSome (entry kernel.old.config.devices dev) }
    requires page { kernel.old.config.page ≤ 4096 }
    requires pool { HasFilling (entry kernel.old.pools dev) }
    requires ready { MayLandIn kernel.old.memory.frames (offset_at (entry kernel.old.config.devices dev)) (16 * kernel.old.config.page) (entry kernel.old.pools dev) }
    requires pends { IsPending (posted_number (first address dev header.now.port header.now.flow kernel.old.posted)) kernel.old.transfers }
    requires room { kernel.old.memory.frames.landed + n < 2 ^ 64 }
    requires short { taken + n < 2 ^ 32 }
    ensures { FillsPayload dev header.now taken n (H.view host.old) (H.view host.new) kernel.old kernel.new result }
{
    let offset = offset_of(&kernel.config, dev);
    let moved = fill(
        &mut kernel.devices,
        &mut kernel.memory.frames,
        &kernel.pools,
        host,
        dev,
        offset,
        16 * kernel.config.page,
        taken,
        n,
    );
    match moved.course {
        Course::GoesOn => reply_to(&moved, taken),
        Course::Ends => deliver(
            kernel,
            dev,
            header,
            moved.so_far,
            false,
            taken + moved.bytes,
        ),
        Course::IsTruncated => deliver(kernel, dev, header, moved.so_far, true, 0),
    }
}

// Goes on with the datagram with this header that is present in a pooled device: its payload goes to the buffer of the pool
// that it fills. Once all of it has come, or the input has ended, the first posted input that it meets is ready, and has
// the buffer until its process is done with it; a datagram that meets none is dropped, and the buffer is free.
fn fill_rest<H: Host>(
    kernel: &mut Kernel,
    host: &mut H,
    dev: u32,
    header: &Header,
    n: u32,
) -> Reply<'static>
    requires good { IsGood kernel.old }
    requires handles { HasHandles kernel.old.config (H.view host.old) }
    requires landed { kernel.old.memory.frames.landed < 2 ^ 63 }
    requires accepted { refuse (outline kernel.old) (event.Recv dev n) ≡ None }
    requires within { IsWithinAt header.now (entry kernel.old.devices dev) }
    ensures { Receives dev n (H.view host.old) (H.view host.new) kernel.old kernel.new result }
{
    receive_laws();
    fill_payload(kernel, host, dev, header, 0, n)
}

// Gathers bytes of a header, and of the payload behind a whole one, which goes to the first free buffer of the pool.
fn fill_record<H: Host>(kernel: &mut Kernel, host: &mut H, dev: u32, n: u32) -> Reply<'static>
    requires good { IsGood kernel.old }
    requires handles { HasHandles kernel.old.config (H.view host.old) }
    requires landed { kernel.old.memory.frames.landed < 2 ^ 63 }
    requires accepted { refuse (outline kernel.old) (event.Recv dev n) ≡ None }
    requires outside { IsOutsideAt dev kernel.old.transfers (entry kernel.old.devices dev) }
    ensures { Receives dev n (H.view host.old) (H.view host.new) kernel.old kernel.new result }
{
    receive_laws();
    let step = gather(&mut kernel.devices, host, dev, n);
    match step.end {
        HeaderEnd::More => header_reply(step.moved),
        HeaderEnd::Faulted => Reply::Fault { n: step.moved },
        HeaderEnd::Bad => Reply::Bad,
        HeaderEnd::Whole(header) => {
            begin(&mut kernel.pools, dev);
            fill_payload(kernel, host, dev, &header, step.moved, n - step.moved)
        }
    }
}

// The header of the datagram that is present in a device.
fn present(devices: &[Option<Device>; 8], dev: u32) -> Option<Header>
    requires { IsSome (entry devices.now dev) }
    ensures { (v : DeviceView) → entry devices.now dev ≡ Some v → result ≡ header_of v.present }
{
    match &devices[dev as usize] {
        Some(device) => device.present(),
        None => unreachable!(),
    }
}

/// One receive step of a pooled device. It takes bytes of one record from its input, and none past the record's last one: at
/// most `budget`, the header's and the payload's, which goes to a buffer of the device's pool. Once all of it has come, the
/// first posted input that the record meets is ready, with the bytes that fit it, and has the buffer until its process is done
/// with it; that step answers `Got`. `Dropped` comes instead where no input is posted that the record meets, and the buffer is
/// free again. Each step before answers `Got`, and one with 0 ends a datagram, truncated, where the input has ended inside its
/// payload. `Bad` once a header wasn't valid, from then on. `Busy` between records where as many datagrams wait as the device
/// has buffers. `End` where the input has ended between records, or inside a header. `Fault` where the host failed after so
/// many bytes, which have been received.
pub fn recv_pooled<H: Host>(
    kernel: &mut Kernel,
    host: &mut H,
    dev: u32,
    budget: u32,
) -> Reply<'static>
    requires good { IsGood kernel.old }
    requires handles { HasHandles kernel.old.config (H.view host.old) }
    requires landed { kernel.old.memory.frames.landed < 2 ^ 63 }
    requires accepted { refuse (outline kernel.old) (event.Recv dev budget) ≡ None }
    requires pooled { is_pooled_device (entry kernel.old.devices dev) ≡ true }
    ensures { IsReceived dev budget (H.view host.old) (H.view host.new) kernel.old kernel.new result }
{
    if is_bad(&kernel.devices, dev) {
        return Reply::Bad;
    }
    match present(&kernel.devices, dev) {
        Some(header) => fill_rest(kernel, host, dev, &header, budget),
        None => {
            if is_busy(&kernel.config, &kernel.transfers, dev) {
                Reply::Busy
            } else {
                fill_record(kernel, host, dev, budget)
            }
        }
    }
}
