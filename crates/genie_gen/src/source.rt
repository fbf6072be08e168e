//! Places in the made script and in the made streams.
ghost use Rattle.std.specs.Prelude.{◌≡◌, ◌+◌, ◌<◌, ◌≤◌, [], ◌++◌, length, map};
ghost use Rattle.std.specs.List.{range_with_len};
ghost use Rattle.genie_gen.specs.Rounds.{head_text, rounds_text};
ghost use Rattle.genie_gen.specs.Streams.{payload_byte, payload_length, record_text, stream_from};
ghost use Rattle.genie_gen.specs.Sources.{IsPlace, behind_piece, left, piece};

use crate::draws::{Round, draw_round};
use crate::rounds::{LINES, put_round_line};
use genie_script::LineBuffer;

/// The first lines of the script.
const HEAD: &[u8] =
    b"boot 16 64 128 16 8\ndevice 0 early i0 o0 1 0\ndevice 1 pooled i1 o1 1 5\ndevice 2 outboard i2 o2 2 0\nspawn 0\nspawn 1\nmap 0 0 8\n";

/// A place in a made script or stream: a piece of it, which is made when it is read, and what is needed to make those
/// behind it.
#[derive(Clone, Copy, Debug, PartialEq, Eq)]
pub enum Source {
    /// The first lines, before so many rounds, which are drawn from this state.
    Head {
        state: u64,
        rounds: u32,
    },
    /// This line of a round of this number, before so many further rounds, which are drawn from this state.
    Line {
        line: u32,
        round: Round,
        number: u32,
        state: u64,
        rounds: u32,
    },
    /// This record of a device, before so many further ones.
    Record {
        device: u32,
        number: u32,
        behind: u32,
    },
    /// The end.
    End,
}

// The rounds from this one on, of which there are so many.
fn rounds_from(state: u64, number: u32, rounds: u32) -> Source
    requires { number + rounds ≤ 30000 }
    ensures place { IsPlace result }
    ensures text { left result ≡ rounds_text state number rounds }
{
    if rounds == 0 {
        return Source::End;
    }
    let mut state = state;
    let round = draw_round(&mut state);
    Source::Line {
        line: 0,
        round,
        number,
        state,
        rounds: rounds - 1,
    }
}

/// The records of a device from this one on, of which there are so many.
pub(crate) fn records_from(device: u32, number: u32, records: u32) -> Source
    requires device { device < 3 }
    requires most { number + records ≤ 60000 }
    ensures place { IsPlace result }
    ensures text { left result ≡ stream_from device number records }
{
    if records == 0 {
        return Source::End;
    }
    Source::Record {
        device,
        number,
        behind: records - 1,
    }
}

// Writes the first lines.
#[tactic(auto, unfolding(crate::specs::Rounds::head_text))]
fn put_head(out: &mut LineBuffer)
    requires { out.old ≡ [] }
    ensures { out.new ≡ head_text }
{
    out.push_slice(HEAD);
}

// A record, whose length fits the last byte of its field.
#[tactic(auto, unfolding(crate::specs::Streams::record_text))]
fn put_record(out: &mut LineBuffer, device: u32, number: u32)
    requires empty { out.old ≡ [] }
    requires device { device < 3 }
    requires number { number < 60000 }
    ensures { out.new ≡ record_text device number }
{
    let size = payload_size(device, number);
    out.push_slice(&[b'G', b'D', 0, 9, 0, 0, 0, size as u8]);
    put_payload(out, device, number, size);
}

// The length of a record's payload, in bytes.
fn payload_size(device: u32, number: u32) -> u32
    requires device { device < 3 }
    requires number { number < 60000 }
    ensures length { result ≡ payload_length device number }
    ensures most { result ≤ 64 }
{
    1 + (37 * number + 11 * device) % 64
}

// Appends the first bytes of a record's payload.
fn put_payload(out: &mut LineBuffer, device: u32, number: u32, size: u32)
    requires room { length out.old ≤ 8 }
    requires device { device < 3 }
    requires number { number < 60000 }
    requires most { size ≤ 64 }
    ensures { out.new ≡ out.old ++ map (payload_byte device number) (range_with_len 0 size) }
{
    'bytes: for at in 0..size {
        out.push(((7 * number + 3 * at + device) % 256) as u8);
    }
}

impl Source {
    /// Writes the piece that stands here.
    pub(crate) fn put(&self, out: &mut LineBuffer)
        requires empty { out.old ≡ [] }
        requires place { IsPlace self.now }
        ensures { out.new ≡ piece self.now }
    {
        match self {
            Source::Head { .. } => put_head(out),
            Source::Line {
                line,
                round,
                number,
                ..
            } => put_round_line(out, round, *number, *line),
            Source::Record { device, number, .. } => put_record(out, *device, *number),
            Source::End => {}
        }
    }

    /// The place behind that piece.
    pub(crate) fn next(&self) -> Source
        requires { IsPlace self.now }
        ensures place { IsPlace result }
        ensures text { left result ≡ behind_piece self.now }
    {
        match *self {
            Source::Head { state, rounds } => rounds_from(state, 0, rounds),
            Source::Line {
                line,
                round,
                number,
                state,
                rounds,
            } => {
                if line + 1 == LINES {
                    return rounds_from(state, number + 1, rounds);
                }
                Source::Line {
                    line: line + 1,
                    round,
                    number,
                    state,
                    rounds,
                }
            }
            Source::Record {
                device,
                number,
                behind,
            } => records_from(device, number + 1, behind),
            Source::End => Source::End,
        }
    }
}
