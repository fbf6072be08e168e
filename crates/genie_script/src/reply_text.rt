//! Writing a reply.
ghost use Rattle.std.specs.Prelude.{◌≡◌, ◌<◌, ◌≤◌, ◌∷◌, [], length, codes, decimal};
ghost use Rattle.genie_base.specs.Refusals.{word_of};
ghost use Rattle.genie_script.specs.Hex.{hex_text};
ghost use Rattle.genie_script.specs.Names.{port_text};
ghost use Rattle.genie_script.specs.Spelling.{spaced, input_words, reply_words, reply_text};

use crate::line_buffer::LineBuffer;
use crate::word_text::{put_hex, put_number, put_numbers, put_port, put_word};
use genie_base::{Note, Refusal, Reply};

fn put_bytes(out: &mut LineBuffer, bytes: &[u8])
    requires empty { out.old ≡ [] }
    requires most { length bytes.now ≤ 4096 }
    ensures text { out.new ≡ spaced (codes "data" ∷ hex_text bytes.now ∷ []) }
    ensures most { length out.new < 8320 }
{
    out.push_slice(b"data");
    put_hex(out, bytes);
}

fn put_drop(out: &mut LineBuffer, port: u16, flow: Option<u32>, len: u32)
    requires { out.old ≡ [] }
    ensures text { out.new ≡ spaced (codes "drop" ∷ port_text port flow ∷ decimal len ∷ []) }
    ensures most { length out.new < 8320 }
{
    out.push_slice(b"drop");
    put_port(out, port, flow);
    put_number(out, len);
}

fn put_input(out: &mut LineBuffer, at: Option<u32>, n: u32, note: Note)
    requires { out.old ≡ [] }
    ensures text { out.new ≡ spaced (input_words at n note) }
    ensures most { length out.new < 8320 }
{
    match at {
        None => put_numbers(out, b"in", &[n]),
        Some(at) => put_numbers(out, b"in", &[at, n]),
    }
    match note {
        Note::Whole => {}
        Note::Cut => put_word(out, b"cut"),
        Note::Trunc => put_word(out, b"trunc"),
    }
}

#[tactic(auto, using(crate::proofs::Joined::short_word))]
fn put_refusal(out: &mut LineBuffer, refusal: Refusal)
    requires { out.old ≡ [] }
    ensures text { out.new ≡ spaced (codes "err" ∷ word_of refusal ∷ []) }
    ensures most { length out.new < 8320 }
{
    out.push_slice(b"err");
    put_word(out, refusal.word().as_bytes());
}

#[tactic(auto, unfolding(crate::specs::Spelling::reply_words))]
fn put_body(out: &mut LineBuffer, reply: &Reply)
    requires { out.old ≡ [] }
    ensures text { out.new ≡ spaced (reply_words reply.now) }
    ensures most { length out.new < 8320 }
{
    match reply {
        Reply::Okay => out.push_slice(b"ok"),
        Reply::Bytes(bytes) => put_bytes(out, bytes.as_slice()),
        Reply::At { addr } => put_numbers(out, b"at", &[*addr]),
        Reply::Id { id } => put_numbers(out, b"id", &[*id]),
        Reply::Sent { n } => put_numbers(out, b"sent", &[*n]),
        Reply::Staged { n } => put_numbers(out, b"staged", &[*n]),
        Reply::Got { n } => put_numbers(out, b"got", &[*n]),
        Reply::Dropped { port, flow, len } => put_drop(out, *port, *flow, *len),
        Reply::Output { n } => put_numbers(out, b"out", &[*n]),
        Reply::Input { at, n, note } => put_input(out, *at, *n, *note),
        Reply::Gone => out.push_slice(b"gone"),
        Reply::Lost => out.push_slice(b"lost"),
        Reply::Fault { n } => put_numbers(out, b"fault", &[*n]),
        Reply::StoreFault => out.push_slice(b"fault store"),
        Reply::Idle => out.push_slice(b"idle"),
        Reply::End => out.push_slice(b"end"),
        Reply::Bad => out.push_slice(b"bad"),
        Reply::Busy => out.push_slice(b"busy"),
        Reply::Err(refusal) => put_refusal(out, *refusal),
    }
}

/// Writes the one spelling of a reply, with its line end.
pub fn put_reply(reply: &Reply, out: &mut LineBuffer)
    requires { out.old ≡ [] }
    ensures text { out.new ≡ reply_text reply.now }
    ensures most { length out.new ≤ 8320 }
{
    put_body(out, reply);
    out.push(b'\n');
}
