//! The bytes of a header, gathered from the input.
ghost use Rattle.std.specs.Prelude.{◌≡◌, ◌+◌, ◌++◌, ◌≤◌, false, length};
ghost use Rattle.genie_base.specs.Headers.{size_of_header, is_whole_header};
ghost use Rattle.genie_host.specs.Host.{Reading};
ghost use Rattle.genie_wire.specs.Headers.{IsWhole};
ghost use Rattle.genie_device.specs.Gathering.{Gathers, judged};

use crate::steps::{HeaderEnd, HeaderStep};
use arrayvec::ArrayVec;
use genie_host::Host;
use genie_wire::{header_size, read_header};

/// How many bytes the header has that begins so, as far as these bytes tell it.
fn size_of(bytes: &[u8]) -> usize
    ensures size { result ≡ size_of_header bytes.now }
    ensures least { 8 ≤ result }
    ensures most { result ≤ 12 }
{
    if bytes.len() < 2 {
        8
    } else {
        header_size(bytes[0], bytes[1]) as usize
    }
}

/// Whether a whole header is valid, and what it says.
fn judge(bytes: &[u8], limit: u32) -> HeaderEnd
    requires { IsWhole bytes.now }
    ensures { result ≡ judged limit bytes.now }
{
    match read_header(bytes, limit) {
        Ok(header) => HeaderEnd::Whole(header),
        Err(_) => HeaderEnd::Bad,
    }
}

/// Takes at most `n` bytes from a handle, until the header is whole, and none past its last one.
pub(crate) fn gather<H: Host>(
    host: &mut H,
    handle: u32,
    gathered: &mut ArrayVec<u8, 12>,
    limit: u32,
    n: u32,
) -> HeaderStep
    requires reading { ((H.view host.old).handle handle).mode ≡ Reading }
    requires short { is_whole_header gathered.old.items ≡ false }
    ensures { Gathers handle limit n (H.view host.old) (H.view host.new) gathered.old.items gathered.new.items result.moved result.end }
{
    let mut buffer = [0u8; 12];
    let mut moved = 0u32;
    'runs: while moved < n {
        let missing = size_of(gathered.as_slice()) - gathered.len();
        let want = missing.min((n - moved) as usize);
        let run = &mut buffer[..want];
        match host.read(handle, run) {
            Err(_) => {
                return HeaderStep {
                    moved,
                    end: HeaderEnd::Faulted,
                };
            }
            Ok(0) => {
                return HeaderStep {
                    moved,
                    end: HeaderEnd::More,
                };
            }
            Ok(count) => {
                keep(gathered, &run[..count]);
                moved += count as u32;
                if gathered.len() == size_of(gathered.as_slice()) {
                    return HeaderStep {
                        moved,
                        end: judge(gathered.as_slice(), limit),
                    };
                }
            }
        }
    }
    HeaderStep {
        moved,
        end: HeaderEnd::More,
    }
}

fn keep(gathered: &mut ArrayVec<u8, 12>, bytes: &[u8])
    requires { length gathered.old.items + length bytes.now ≤ 12 }
    ensures { gathered.new.items ≡ gathered.old.items ++ bytes.now }
{
    gathered.try_extend_from_slice(bytes).unwrap();
}
