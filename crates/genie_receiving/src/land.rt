//! The payload part of a receive step, in a kernel.
ghost use Rattle.std.specs.Prelude.{◌≡◌, ◌+◌, ◌^◌, ◌<◌, ◌≤◌, Some, None, IsSome, find};
ghost use Rattle.std.specs.Option.{option_map};
ghost use Rattle.genie_base.specs.declared.reply.Reply.TheVariants as reply;
ghost use Rattle.genie_model.specs.Receiving.{note_of};
ghost use Rattle.genie_model.specs.Tables.{entry};
ghost use Rattle.genie_kernel.specs.Calls.{has_number, number_of, receiver};
ghost use Rattle.genie_kernel.specs.Changes.{changed_by};
ghost use Rattle.genie_kernel.specs.declared.transfer.Loans.TheVariants.{Inward};
ghost use Rattle.genie_kernel.specs.declared.transfer.Transfer.{Transfer as TransferView};
ghost use Rattle.genie_changes.specs.Working.{worked, at_work};
ghost use Rattle.genie_receiving.specs.Landing.{MayMove, MayLand, HasPlan, LandsFor, SkipsPayload, ReceivesInto, reply_to, work_of};

use crate::course::Course;
use crate::payload::{Moved, move_into, move_payload};
use genie_base::{Note, Reply, TransferId};
use genie_device::Device;
use genie_frame::Frames;
use genie_host::Host;
use genie_kernel::{Change, Kernel, Loans, Search, Transfer, Transfers};
use genie_model::Phase;
use genie_plan::{InPlan, Nowhere};

// The plan of an input that bytes land in.
fn plan_of(transfers: &Transfers, id: u32) -> &InPlan
    requires { HasPlan (find (has_number id) transfers.now) }
    ensures { (t : TransferView) → find (has_number id) transfers.now ≡ Some t → t.loans ≡ Inward result.now }
{
    match transfers.find(Search::Number(id)) {
        Some(transfer) => match &transfer.loans {
            Loans::Inward(plan) => plan,
            Loans::Nothing | Loans::Outward(_) => unreachable!(),
        },
        None => unreachable!(),
    }
}

// Moves payload bytes into the frames that are lent for an input.
fn land<H: Host>(
    devices: &mut [Option<Device>; 8],
    frames: &mut Frames,
    transfers: &Transfers,
    host: &mut H,
    dev: u32,
    id: u32,
    taken: u32,
    n: u32,
) -> Moved
    requires device { MayMove (entry devices.old dev) (H.view host.old) }
    requires plan { HasPlan (find (has_number id) transfers.now) }
    requires ready { MayLand frames.old (find (has_number id) transfers.now) }
    requires room { frames.old.landed + n < 2 ^ 64 }
    ensures { LandsFor dev id taken n (H.view host.old) (H.view host.new) devices.old devices.new frames.old frames.new transfers.now result }
{
    let plan = plan_of(transfers, id);
    match &mut devices[dev as usize] {
        Some(device) => move_into(
            device,
            host,
            frames,
            plan.loans.as_slice(),
            plan.first,
            plan.len,
            taken,
            n,
        ),
        None => unreachable!(),
    }
}

/// How a datagram of `len` bytes has met a buffer.
pub fn note_of(truncated: bool, len: u32, buffer: u32) -> Note
    ensures { result ≡ note_of truncated len buffer }
{
    if truncated {
        Note::Trunc
    } else if buffer < len {
        Note::Cut
    } else {
        Note::Whole
    }
}

// The input is ready.
fn ready(stored: u32, note: Note) -> Change
    ensures { (t : TransferView) → changed_by result t ≡ at_work (record { phase = Phase.Ready; buffer = None; stored = stored; note = note }) t }
{
    Change::Progress {
        phase: Phase::Ready,
        buffer: None,
        stored,
        note,
    }
}

// Where a step leaves an input, `so_far` bytes of whose datagram of `len` bytes have come.
fn work_of(transfer: &Transfer, course: Course, so_far: u32, len: u32) -> Change
    ensures { (t : TransferView) → changed_by result t ≡ at_work (work_of course so_far len transfer.now) t }
{
    let stored = so_far.min(transfer.len);
    match course {
        Course::GoesOn => Change::Progress {
            phase: Phase::Moving,
            buffer: None,
            stored,
            note: transfer.note,
        },
        Course::Ends => ready(stored, note_of(false, len, transfer.len)),
        Course::IsTruncated => ready(stored, note_of(true, len, transfer.len)),
    }
}

// The input goes on, or is ready.
fn advance(transfers: &mut Transfers, id: u32, moved: &Moved, len: u32)
    requires { IsSome (find (has_number id) transfers.old) }
    ensures { (t : TransferView) → find (has_number id) transfers.old ≡ Some t → transfers.new ≡ worked (has_number id) (work_of moved.now.course moved.now.so_far len t) transfers.old }
{
    let change = match transfers.find(Search::Number(id)) {
        Some(transfer) => work_of(transfer, moved.course, moved.so_far, len),
        None => unreachable!(),
    };
    transfers.change(TransferId(id), change);
}

/// What a step answers that has moved payload bytes, behind `taken` bytes of the header.
pub fn reply_to(moved: &Moved, taken: u32) -> Reply<'static>
    requires { taken + moved.now.bytes < 2 ^ 32 }
    ensures { result ≡ reply_to moved.now taken }
{
    let n = taken + moved.bytes;
    if moved.faulted {
        Reply::Fault { n }
    } else {
        Reply::Got { n }
    }
}

/// The input into which a device moves a datagram.
pub(crate) fn receiving(transfers: &Transfers, dev: u32) -> Option<u32>
    ensures { result ≡ option_map number_of (receiver transfers.now dev) }
{
    match transfers.find(Search::Receiving(dev)) {
        Some(transfer) => Some(transfer.id.0),
        None => None,
    }
}

/// Moves payload bytes of a datagram of `len` bytes into an input, behind `taken` bytes of its header in the same step.
pub(crate) fn receive_into<H: Host>(
    kernel: &mut Kernel,
    host: &mut H,
    dev: u32,
    id: u32,
    len: u32,
    taken: u32,
    n: u32,
) -> Reply<'static>
    requires device { MayMove (entry kernel.old.devices dev) (H.view host.old) }
    requires plan { HasPlan (find (has_number id) kernel.old.transfers) }
    requires ready { MayLand kernel.old.memory.frames (find (has_number id) kernel.old.transfers) }
    requires room { kernel.old.memory.frames.landed + n < 2 ^ 64 }
    requires short { taken + n < 2 ^ 32 }
    ensures { ReceivesInto dev id len taken n (H.view host.old) (H.view host.new) kernel.old kernel.new result }
{
    let moved = land(
        &mut kernel.devices,
        &mut kernel.memory.frames,
        &kernel.transfers,
        host,
        dev,
        id,
        taken,
        n,
    );
    advance(&mut kernel.transfers, id, &moved, len);
    reply_to(&moved, taken)
}

/// Throws payload bytes of a datagram away that has met no input.
pub(crate) fn skip_payload<H: Host>(
    devices: &mut [Option<Device>; 8],
    host: &mut H,
    dev: u32,
    n: u32,
) -> Reply<'static>
    requires device { MayMove (entry devices.old dev) (H.view host.old) }
    requires short { n < 2 ^ 32 }
    ensures { SkipsPayload dev n (H.view host.old) (H.view host.new) devices.old devices.new result }
{
    match &mut devices[dev as usize] {
        Some(device) => {
            let moved = move_payload(device, host, &mut Nowhere, 0, n);
            reply_to(&moved, 0)
        }
        None => unreachable!(),
    }
}
