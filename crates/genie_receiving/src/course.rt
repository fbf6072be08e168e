//! What a step of a payload leaves of its datagram.
ghost use Rattle.std.specs.Prelude.{◌≡◌, IsSome};
ghost use Rattle.genie_receiving.specs.Course.{course_of, ended, is_faulted};

use genie_device::{BodyEnd, Device};

/// How it is with a datagram behind a step of its payload.
#[derive(Clone, Copy, Debug, PartialEq, Eq)]
pub enum Course {
    /// Some of it is still to come.
    GoesOn,
    /// All of it has come.
    Ends,
    /// The input has ended before it.
    IsTruncated,
}

/// It is truncated where no byte at all was moved, also none of its header, `taken` bytes of which came in the same step.
pub(crate) fn course_of(end: BodyEnd, taken: u32) -> Course
    ensures { result ≡ course_of end taken }
{
    match end {
        BodyEnd::More | BodyEnd::Faulted => Course::GoesOn,
        BodyEnd::Whole => Course::Ends,
        BodyEnd::Truncated => {
            if taken == 0 {
                Course::IsTruncated
            } else {
                Course::GoesOn
            }
        }
    }
}

/// Whether the host has failed.
pub(crate) fn is_faulted(end: BodyEnd) -> bool
    ensures { result ≡ is_faulted end }
{
    matches!(end, BodyEnd::Faulted)
}

/// The device without the present datagram, where that is over.
pub(crate) fn end_where_over(device: &mut Device, course: Course)
    requires { IsSome device.old.present }
    ensures { device.new ≡ ended course device.old }
{
    match course {
        Course::GoesOn => {}
        Course::Ends | Course::IsTruncated => {
            device.finish();
        }
    }
}
