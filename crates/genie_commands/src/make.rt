//! Replaying a made script.
ghost use Rattle.std.specs.Prelude.{◌≡◌, ◌≢◌, ◌≤◌};
ghost use Rattle.genie_host.specs.Host.{OnlyHandle};
ghost use Rattle.genie_replay.specs.Outcome.{WroteNothing};
ghost use Rattle.genie_commands.specs.Forms.{HandsOver};
ghost use Rattle.genie_commands.specs.Makes.{HasMakeCause, MakesOf};

use crate::summary::put_summary;
use genie_gen::{GenHost, made_scripts_are_whole};
use genie_host::Host;
use genie_playing::costs::Listing;
use genie_playing::serving::REPLIES;
use genie_replay::{Status, write_all};
use genie_running::{Ended, replay};
use genie_script::LineBuffer;
use genie_store::Store;
use std::alloc::Global;

/// The name of the made script.
const MADE: &[u8] = b"made";

/// Replays a script of so many rounds that are drawn from a seed, over a host of its own, and writes the summary of its
/// replies. The status is `Done`, or `HostFault` where the store couldn't be sized or the summary couldn't be written, or
/// `NoMemory`.
pub(crate) fn make<H: Host, S: Store>(
    alloc: Global,
    seed: u64,
    rounds: u32,
    host: &mut H,
    store: &mut S,
) -> Ended
    requires some { 1 ≤ rounds }
    requires most { rounds ≤ 30000 }
    requires empty { (S.view store.old).count ≡ 0 }
    ensures made { MakesOf seed rounds result.status result.kernel (H.view host.old) (H.view host.new) (S.view store.old) (S.view store.new) }
    ensures only { OnlyHandle 0 (H.view host.old) (H.view host.new) }
    ensures kernel { HandsOver result.kernel (S.view store.new) }
    ensures fault { result.status ≡ Status.HostFault →
        HasMakeCause (H.view host.old) (H.view host.new) (S.view store.old) (S.view store.new) }
    ensures memory { result.status ≡ Status.NoMemory → WroteNothing (H.view host.old) (H.view host.new) }
    ensures not_usage { result.status ≢ Status.Usage }
{
    made_scripts_are_whole();
    let mut made = GenHost::new(seed, rounds);
    let ended = replay(alloc, Listing::Replies, MADE, &mut made, store);
    if ended.status != Status::Done {
        return ended;
    }
    let mut text = LineBuffer::new();
    put_summary(&made.summary(), &mut text);
    match write_all(host, REPLIES, text.as_slice()) {
        Ok(()) => ended,
        Err(_) => Ended {
            status: Status::HostFault,
            kernel: ended.kernel,
        },
    }
}
