//! The payload part of a receive step, on a device.
ghost use Rattle.std.specs.Prelude.{◌≡◌, ◌+◌, ◌^◌, ◌<◌, ◌≤◌, IfSome, IsSome};
ghost use Rattle.genie_device.specs.Device.{IsReading};
ghost use Rattle.genie_device.specs.Kept.{IsAllowed};
ghost use Rattle.genie_plan.specs.Plans.{input_frames, range_bytes, CanLand, OnlyRange};
ghost use Rattle.genie_receiving.specs.Payload.{MovesPayload};

use crate::course::{Course, course_of, end_where_over, is_faulted};
use genie_device::{Device, Landing};
use genie_frame::{Frames, InLoan};
use genie_host::Host;
use genie_plan::FrameLanding;

/// What a step of a payload has done.
#[derive(Clone, Copy, Debug, PartialEq, Eq)]
pub struct Moved {
    /// How many payload bytes it has moved.
    pub bytes: u32,
    /// How many of the datagram's payload are moved since its header.
    pub so_far: u32,
    /// Whether the host failed after them.
    pub faulted: bool,
    pub course: Course,
}

/// Moves at most `n` payload bytes of the present datagram, behind `taken` bytes of its header in the same step, and ends
/// it with its last one, or where the input has ended.
pub fn move_payload<H: Host, L: Landing>(
    device: &mut Device,
    host: &mut H,
    landing: &mut L,
    taken: u32,
    n: u32,
) -> Moved
    requires present { IsSome device.old.present }
    requires reading { IsReading device.old.config.input (H.view host.old) }
    requires ready { L.is_ready landing.old }
    requires room { L.count landing.old + n < 2 ^ 64 }
    ensures step { MovesPayload taken n (H.view host.old) (H.view host.new) device.old device.new (L.content landing.old) (L.content landing.new) result }
    ensures later { L.count landing.old ≤ L.count landing.new }
    ensures most { L.count landing.new ≤ L.count landing.old + n }
    ensures landing { L.kept landing.old landing.new }
    ensures allowed { IfSome device.old.present (IsAllowed device.old.config.kind device.old.limit) }
{
    device.present();
    let step = device.recv_body(host, landing, n);
    let course = course_of(step.end, taken);
    let so_far = device.moved();
    end_where_over(device, course);
    Moved {
        bytes: step.moved,
        so_far,
        faulted: is_faulted(step.end),
        course,
    }
}

/// The same into frames that are lent for input: the `len` bytes from place `first` of the first one on.
pub fn move_into<H: Host>(
    device: &mut Device,
    host: &mut H,
    frames: &mut Frames,
    loans: &[InLoan],
    first: u32,
    len: u32,
    taken: u32,
    n: u32,
) -> Moved
    requires present { IsSome device.old.present }
    requires reading { IsReading device.old.config.input (H.view host.old) }
    requires ready { CanLand frames.old (input_frames loans.now) first len }
    requires room { frames.old.landed + n < 2 ^ 64 }
    ensures step { MovesPayload taken n (H.view host.old) (H.view host.new) device.old device.new (range_bytes frames.old (input_frames loans.now) first len) (range_bytes frames.new (input_frames loans.now) first len) result }
    ensures only { OnlyRange (input_frames loans.now) first len frames.old frames.new }
    ensures later { frames.old.landed ≤ frames.new.landed }
    ensures most { frames.new.landed ≤ frames.old.landed + n }
    ensures allowed { IfSome device.old.present (IsAllowed device.old.config.kind device.old.limit) }
{
    let mut landing = FrameLanding {
        frames,
        loans,
        first,
        len,
    };
    move_payload(device, host, &mut landing, taken, n)
}
