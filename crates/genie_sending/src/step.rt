//! The step of a device for the first output that waits for it.
ghost use Rattle.std.specs.Prelude.{◌≡◌, ◌≤◌, ◌<◌, length, slice_index_or, true};
ghost use Rattle.genie_device.specs.Device.{IsWriting};
ghost use Rattle.genie_model.specs.Tables.{entry};
ghost use Rattle.genie_kernel.specs.declared.transfer.Transfer.{Transfer as TransferView};
ghost use Rattle.genie_sending.specs.Sending.{MaySend, MaySendAt, IsWritingAt, StepsFor, StepsAt, payload_under, reply_of, transfers_after};

use genie_base::Reply;
use genie_device::{Device, SendStep};
use genie_frame::Frames;
use genie_host::Host;
use genie_kernel::{Change, Loans, Transfer, Transfers};
use genie_model::Phase;
use genie_plan::FrameSource;
use genie_wire::Header;

// The device's step for an output, whose bytes are those of the frames that are lent for it.
fn step_for<H: Host>(
    device: &mut Device,
    host: &mut H,
    frames: &Frames,
    transfer: &Transfer,
    budget: u32,
) -> SendStep
    requires some { 1 ≤ budget }
    requires may { MaySend frames.now device.old transfer.now }
    requires writing { IsWriting device.old.config.output (H.view host.old) }
    ensures { StepsFor budget (H.view host.old) (H.view host.new) device.old device.new transfer.now (payload_under frames.now transfer.now.loans) result }
{
    let Loans::Outward(plan) = &transfer.loans else {
        unreachable!()
    };
    let header = Header {
        port: transfer.port,
        flow: transfer.flow,
        len: transfer.len,
    };
    let source = FrameSource {
        frames,
        loans: plan.loans.as_slice(),
        first: plan.first,
        len: plan.len,
    };
    device.send_step(host, &source, &header, budget)
}

// The step of device `dev` for an output.
pub(crate) fn step_at<H: Host>(
    devices: &mut [Option<Device>; 8],
    host: &mut H,
    frames: &Frames,
    transfer: &Transfer,
    dev: u32,
    budget: u32,
) -> SendStep
    requires some { 1 ≤ budget }
    requires may { MaySendAt frames.now (entry devices.old dev) transfer.now }
    requires writing { IsWritingAt (entry devices.old dev) (H.view host.old) }
    requires number { dev < 8 }
    ensures { StepsAt dev budget (H.view host.old) (H.view host.new) devices.old devices.new frames.now transfer.now result }
{
    match &mut devices[dev as usize] {
        Some(device) => step_for(device, host, frames, transfer, budget),
        None => unreachable!(),
    }
}

// The record of output `i` is sent whole: its loans stay until its process is done with it.
fn end_record(transfers: &mut Transfers, i: u32)
    requires { i < length transfers.old }
    ensures { (t : TransferView) → transfers.new ≡ transfers_after true (slice_index_or transfers.old i t) transfers.old }
{
    let transfer = transfers.at(i);
    let id = transfer.id;
    let change = Change::Progress {
        phase: Phase::Ready,
        buffer: transfer.buffer,
        stored: transfer.stored,
        note: transfer.note,
    };
    transfers.change(id, change);
}

// The transfers after a step for output `i`.
pub(crate) fn end_where_whole(transfers: &mut Transfers, i: u32, whole: bool)
    requires { i < length transfers.old }
    ensures { (t : TransferView) → transfers.new ≡ transfers_after whole (slice_index_or transfers.old i t) transfers.old }
{
    if whole {
        end_record(transfers, i);
    }
}

// How a step is answered.
pub(crate) fn reply_of(step: &SendStep) -> Reply<'static>
    ensures { result ≡ reply_of step.now }
{
    if step.faulted {
        Reply::Fault { n: step.moved }
    } else if step.staged {
        Reply::Staged { n: step.moved }
    } else {
        Reply::Sent { n: step.moved }
    }
}
