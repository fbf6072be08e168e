//! The payload part of a receive step, on a device with buffers of its own.
ghost use Rattle.std.specs.Prelude.{◌≡◌, ◌+◌, ◌^◌, ◌<◌, IsSome};
ghost use Rattle.genie_device.specs.Device.{IsReading};
ghost use Rattle.genie_model.specs.Tables.{entry};
ghost use Rattle.genie_gathering.specs.Payload.{course_of, is_faulted, reply_to, MayMove, MovesPayload, MovesAt};

use genie_base::Reply;
use genie_device::{BodyEnd, Device};
use genie_host::Host;
use genie_plan::Nowhere;

/// How it is with a datagram behind a step of its payload.
#[derive(Clone, Copy, Debug, PartialEq, Eq)]
pub enum Course {
    /// Some of it is still to come.
    GoesOn,
    /// All of it has come.
    Ends,
    /// The input has ended before it.
    IsTruncated,
}

/// What a step of a payload has done.
#[derive(Clone, Copy, Debug, PartialEq, Eq)]
pub struct Moved {
    /// How many payload bytes it has moved.
    pub bytes: u32,
    /// How many of the datagram's payload are moved since its header.
    pub so_far: u32,
    /// Whether the host failed after them.
    pub faulted: bool,
    pub course: Course,
}

// It is truncated where no byte at all was moved, also none of its header, `taken` bytes of which came in the same step.
fn course_of(end: BodyEnd, taken: u32) -> Course
    ensures { result ≡ course_of end taken }
{
    match end {
        BodyEnd::More | BodyEnd::Faulted => Course::GoesOn,
        BodyEnd::Whole => Course::Ends,
        BodyEnd::Truncated => {
            if taken == 0 {
                Course::IsTruncated
            } else {
                Course::GoesOn
            }
        }
    }
}

// Whether the host has failed.
fn is_faulted(end: BodyEnd) -> bool
    ensures { result ≡ is_faulted end }
{
    matches!(end, BodyEnd::Faulted)
}

// Moves at most `n` payload bytes of the present datagram to the buffer that it fills, behind `taken` bytes of its header in
// the same step.
fn move_payload<H: Host>(device: &mut Device, host: &mut H, taken: u32, n: u32) -> Moved
    requires present { IsSome device.old.present }
    requires reading { IsReading device.old.config.input (H.view host.old) }
    requires short { n < 2 ^ 32 }
    ensures { MovesPayload taken n (H.view host.old) (H.view host.new) device.old device.new result }
{
    device.present();
    let step = device.recv_body(host, &mut Nowhere, n);
    Moved {
        bytes: step.moved,
        so_far: device.moved(),
        faulted: is_faulted(step.end),
        course: course_of(step.end, taken),
    }
}

/// The same on one of the devices.
pub(crate) fn move_at<H: Host>(
    devices: &mut [Option<Device>; 8],
    host: &mut H,
    dev: u32,
    taken: u32,
    n: u32,
) -> Moved
    requires device { MayMove (entry devices.old dev) (H.view host.old) }
    requires short { n < 2 ^ 32 }
    ensures { MovesAt dev taken n (H.view host.old) (H.view host.new) devices.old devices.new result }
{
    match &mut devices[dev as usize] {
        Some(device) => move_payload(device, host, taken, n),
        None => unreachable!(),
    }
}

/// What a step answers that has moved payload bytes of a datagram that goes on, behind `taken` bytes of its header.
pub(crate) fn reply_to(moved: &Moved, taken: u32) -> Reply<'static>
    requires { taken + moved.now.bytes < 2 ^ 32 }
    ensures { result ≡ reply_to moved.now taken }
{
    let n = taken + moved.bytes;
    if moved.faulted {
        Reply::Fault { n }
    } else {
        Reply::Got { n }
    }
}
