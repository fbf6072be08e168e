//! The bytes of a payload, moved from the input to a landing.
ghost use Rattle.std.specs.Prelude.{◌≡◌, ◌+◌, ◌^◌, ◌<◌, ◌≤◌, length};
ghost use Rattle.genie_host.specs.Host.{Reading};
ghost use Rattle.genie_device.specs.Receiving.{Lands, stopped_end, used_up_end};

use crate::landing::Landing;
use crate::steps::{BodyEnd, BodyStep};
use genie_host::Host;

/// Moves at most `n` of a payload's `left` bytes from a handle to a landing, which has `at` of them. They go in runs
/// through the buffer, and nothing is read ahead.
pub(crate) fn receive<H: Host, L: Landing>(
    host: &mut H,
    handle: u32,
    buffer: &mut Vec<u8>,
    landing: &mut L,
    at: u32,
    left: u32,
    n: u32,
) -> BodyStep
    requires reading { ((H.view host.old).handle handle).mode ≡ Reading }
    requires ready { L.is_ready landing.old }
    requires room { L.count landing.old + n < 2 ^ 64 }
    requires place { at + left < 2 ^ 32 }
    requires some { 0 < length buffer.old.items }
    ensures step { Lands handle at left n (H.view host.old) (H.view host.new) (L.content landing.old) (L.content landing.new) result.moved result.end }
    ensures within { result.moved ≤ left }
    ensures ready { L.is_ready landing.new }
    ensures later { L.count landing.old ≤ L.count landing.new }
    ensures most { L.count landing.new ≤ L.count landing.old + result.moved }
    ensures kept { L.kept landing.old landing.new }
    ensures buffer { length buffer.new.items ≡ length buffer.old.items }
{
    let budget = n.min(left);
    let mut moved = 0u32;
    'runs: while moved < budget {
        let want = ((budget - moved) as usize).min(buffer.len());
        let run = &mut buffer[..want];
        match host.read(handle, run) {
            Err(_) => {
                return BodyStep {
                    moved,
                    end: BodyEnd::Faulted,
                };
            }
            Ok(0) => {
                return BodyStep {
                    moved,
                    end: stopped(moved),
                };
            }
            Ok(count) => {
                landing.land(at + moved, &run[..count]);
                moved += count as u32;
            }
        }
    }
    BodyStep {
        moved,
        end: used_up(moved, left),
    }
}

/// How a step ends where the input has ended.
fn stopped(moved: u32) -> BodyEnd
    ensures { result ≡ stopped_end moved }
{
    if moved == 0 {
        BodyEnd::Truncated
    } else {
        BodyEnd::More
    }
}

/// How a step ends where the budget or the payload is used up.
fn used_up(moved: u32, left: u32) -> BodyEnd
    ensures { result ≡ used_up_end moved left }
{
    if moved == left {
        BodyEnd::Whole
    } else {
        BodyEnd::More
    }
}
