//! The receive step of an outboard device.
ghost use Rattle.std.specs.Prelude.{◌≡◌, None, Some, IsSome, true};
ghost use Rattle.genie_base.specs.Events.{mark_of};
ghost use Rattle.genie_base.specs.declared.event.Event.TheVariants as event;
ghost use Rattle.genie_device.specs.Device.{DeviceView, header_of, is_full};
ghost use Rattle.genie_host.specs.Host.{OnlyHandle};
ghost use Rattle.genie_store.specs.StoreView.{StoreView};
ghost use Rattle.genie_model.specs.Refusing.{refuse};
ghost use Rattle.genie_model.specs.Tables.{entry};
ghost use Rattle.genie_kernel.specs.Good.{IsGood};
ghost use Rattle.genie_kernel.specs.Handles.{HasHandles};
ghost use Rattle.genie_kernel.specs.Kept.{Kept};
ghost use Rattle.genie_changes.specs.Filling.{StepsFilled};
ghost use Rattle.genie_kernel.specs.Steps.{StepsTold, DeviceCause};
ghost use Rattle.genie_kernel.specs.Transfers.{is_outboard_device};
ghost use Rattle.genie_kernel.specs.View.{view, outline};
ghost use Rattle.genie_gathering.specs.Outboard.{IsWithinAt, IsOutsideAt};
ghost use Rattle.genie_gathering.specs.Receiving.{Receives, input_of};

use crate::gather::{gather, gather_payload, header_reply};
use crate::laws::gathering_laws;
use genie_base::Reply;
use genie_device::{Device, HeaderEnd};
use genie_host::Host;
use genie_kernel::Kernel;
use genie_wire::Header;

// Whether a device is bad.
fn is_bad(devices: &[Option<Device>; 8], dev: u32) -> bool
    requires { IsSome (entry devices.now dev) }
    ensures { (v : DeviceView) → entry devices.now dev ≡ Some v → result ≡ v.is_bad }
{
    match &devices[dev as usize] {
        Some(device) => device.is_bad(),
        None => unreachable!(),
    }
}

// The header of the datagram that is present in a device.
fn present(devices: &[Option<Device>; 8], dev: u32) -> Option<Header>
    requires { IsSome (entry devices.now dev) }
    ensures { (v : DeviceView) → entry devices.now dev ≡ Some v → result ≡ header_of v.present }
{
    match &devices[dev as usize] {
        Some(device) => device.present(),
        None => unreachable!(),
    }
}

// Whether a device has a datagram in each of its buffers.
fn is_full(devices: &[Option<Device>; 8], dev: u32) -> bool
    requires { IsSome (entry devices.now dev) }
    ensures { (v : DeviceView) → entry devices.now dev ≡ Some v → result ≡ is_full v }
{
    match &devices[dev as usize] {
        Some(device) => device.is_full(),
        None => unreachable!(),
    }
}

// Goes on with the datagram that is present.
fn gather_rest<H: Host>(
    kernel: &mut Kernel,
    host: &mut H,
    dev: u32,
    header: &Header,
    n: u32,
) -> Reply<'static>
    requires good { IsGood kernel.old }
    requires handles { HasHandles kernel.old.config (H.view host.old) }
    requires accepted { refuse (outline kernel.old) (event.Recv dev n) ≡ None }
    requires within { IsWithinAt header.now (entry kernel.old.devices dev) }
    ensures { Receives dev n (H.view host.old) (H.view host.new) kernel.old kernel.new result }
{
    gathering_laws();
    gather_payload(kernel, host, dev, header, 0, n)
}

// Gathers bytes of a header, and of the payload behind a whole one.
fn gather_record<H: Host>(kernel: &mut Kernel, host: &mut H, dev: u32, n: u32) -> Reply<'static>
    requires good { IsGood kernel.old }
    requires handles { HasHandles kernel.old.config (H.view host.old) }
    requires accepted { refuse (outline kernel.old) (event.Recv dev n) ≡ None }
    requires outside { IsOutsideAt (entry kernel.old.devices dev) }
    ensures { Receives dev n (H.view host.old) (H.view host.new) kernel.old kernel.new result }
{
    gathering_laws();
    let step = gather(&mut kernel.devices, host, dev, n);
    match step.end {
        HeaderEnd::More => header_reply(step.moved),
        HeaderEnd::Faulted => Reply::Fault { n: step.moved },
        HeaderEnd::Bad => Reply::Bad,
        HeaderEnd::Whole(header) => {
            gather_payload(kernel, host, dev, &header, step.moved, n - step.moved)
        }
    }
}

/// One receive step of an outboard device. It takes bytes of one record from its input, and none past the record's last one:
/// at most `budget`, the header's and the payload's. The payload goes to outboard memory. Once all of it has come, the first
/// posted input that the record meets is ready, with the bytes that fit it, and has the buffer until its process is done with
/// it; that step answers `Got`. `Dropped` comes instead where no input is posted that the record meets, and the buffer is free
/// again. Each step before answers `Got`, and one with 0 ends a datagram, truncated, where the input has ended inside its
/// payload. `Bad` once a header wasn't valid, from then on. `Busy` between records where as many datagrams wait as the device
/// has buffers. `End` where the input has ended between records, or inside a header. `Fault` where the host failed after so
/// many bytes, which have been received.
pub fn recv_outboard<H: Host>(
    kernel: &mut Kernel,
    host: &mut H,
    dev: u32,
    budget: u32,
) -> Reply<'static>
    requires good { IsGood kernel.old }
    requires handles { HasHandles kernel.old.config (H.view host.old) }
    requires accepted { refuse (outline kernel.old) (event.Recv dev budget) ≡ None }
    requires outboard { is_outboard_device (entry kernel.old.devices dev) ≡ true }
    ensures good { IsGood kernel.new }
    ensures kept { Kept kernel.old kernel.new }
    ensures config { kernel.new.config ≡ kernel.old.config }

    // No transfer begins.
    ensures numbers { kernel.new.next ≡ kernel.old.next }

    // No byte of the memory moves, and no frame is lent or given back.
    ensures memory { kernel.new.memory ≡ kernel.old.memory }

    // Of the host, only the handle of the device's input changes, and each handle stays open in its direction.
    ensures only { OnlyHandle (input_of kernel.old.config dev) (H.view host.old) (H.view host.new) }
    ensures handles { HasHandles kernel.new.config (H.view host.new) }

    // It is one step of the flat machine, whatever store is behind the kernel's pages.
    ensures step { (store : StoreView) → StepsTold (view kernel.old (H.view host.old) store) (event.Recv dev budget) (view kernel.new (H.view host.new) store) result }

    // So it is where the host tells some files and not others, over every bytes that the others may have.
    ensures filled { (store : StoreView) → StepsFilled kernel.old (event.Recv dev budget) kernel.new result (H.view host.old) (H.view host.new) store store }
    ensures cause { DeviceCause (mark_of result) ((H.view host.old).handle (input_of kernel.old.config dev)).faults ((H.view host.new).handle (input_of kernel.old.config dev)).faults }
{
    if is_bad(&kernel.devices, dev) {
        return Reply::Bad;
    }
    match present(&kernel.devices, dev) {
        Some(header) => gather_rest(kernel, host, dev, &header, budget),
        None => {
            if is_full(&kernel.devices, dev) {
                Reply::Busy
            } else {
                gather_record(kernel, host, dev, budget)
            }
        }
    }
}
