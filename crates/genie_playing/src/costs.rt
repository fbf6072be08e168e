//! What an event cost: how far the meters rose in it, as a line behind its reply.
ghost use Rattle.std.specs.Prelude.{◌≡◌, ◌+◌, ◌≤◌, ◌++◌, [], length};
ghost use Rattle.genie_host.specs.Host.{Writing};
ghost use Rattle.genie_kernel.specs.Rising.{NoneFell};
ghost use Rattle.genie_replay.specs.Write.{WritesAll};
ghost use Rattle.genie_playing.specs.Costs.{answer, cost_text, counted, raise, said};

use crate::serving::REPLIES;
use genie_base::Reply;
use genie_frame::Meters;
use genie_host::{Failed, Host};
use genie_replay::write_all;
use genie_script::{LineBuffer, put_reply};
use itoa::Buffer;

/// What a run writes for each event.
#[derive(Clone, Copy, Debug, PartialEq, Eq)]
pub enum Listing {
    /// Its reply.
    Replies,
    /// Its reply, and a line that begins with `#` and says how far the meters rose.
    Costs,
}

// How far each meter rose.
pub(crate) fn raise(old: &Meters, new: &Meters) -> Meters
    requires { NoneFell old.now new.now }
    ensures { result ≡ raise old.now new.now }
{
    Meters {
        read: new.read - old.read,
        written: new.written - old.written,
        copied: new.copied - old.copied,
        zeroed: new.zeroed - old.zeroed,
        puts: new.puts - old.puts,
        gets: new.gets - old.gets,
        taken: new.taken - old.taken,
    }
}

// Appends words and a number.
fn put_count(out: &mut LineBuffer, words: &[u8], count: u64)
    requires room { length out.old ≤ 1000 }
    requires short { length words.now ≤ 9 }
    ensures text { out.new ≡ out.old ++ counted words.now count }
    ensures most { length out.new ≤ length out.old + 29 }
{
    let mut digits = Buffer::new();
    out.push_slice(words);
    out.push_slice(digits.format(count).as_bytes());
}

// Puts the line of a cost into an empty buffer.
fn put_cost(cost: &Meters, out: &mut LineBuffer)
    requires { out.old ≡ [] }
    ensures { out.new ≡ cost_text cost.now }
{
    put_count(out, b"# read ", cost.read);
    put_count(out, b" written ", cost.written);
    put_count(out, b" copied ", cost.copied);
    put_count(out, b" zeroed ", cost.zeroed);
    put_count(out, b" puts ", cost.puts);
    put_count(out, b" gets ", cost.gets);
    put_count(out, b" taken ", cost.taken);
    out.push(b'\n');
}

/// Writes a reply, and, where they are listed, what its event cost. Nothing is known of what is in `text`.
pub(crate) fn write_answer<H: Host>(
    host: &mut H,
    listing: Listing,
    reply: &Reply,
    cost: &Meters,
    text: &mut LineBuffer,
) -> Result<(), Failed>
    requires { ((H.view host.old).handle 0).mode ≡ Writing }
    ensures { WritesAll 0 (H.view host.old) (H.view host.new) result (said listing (answer reply.now cost.now)) }
{
    text.clear();
    put_reply(reply, text);
    match write_all(host, REPLIES, text.as_slice()) {
        Ok(()) => {}
        Err(failed) => return Err(failed),
    }
    match listing {
        Listing::Replies => Ok(()),
        Listing::Costs => {
            text.clear();
            put_cost(cost, text);
            write_all(host, REPLIES, text.as_slice())
        }
    }
}
