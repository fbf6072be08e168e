//! The lines of a round.
ghost use Rattle.std.specs.Prelude.{◌≡◌, ◌+◌, ◌*◌, ◌<◌, ◌≤◌, [], length, map, slice_get, true, false, Some, IsTrue};
ghost use Rattle.std.specs.List.{range_with_len};
ghost use Rattle.genie_base.specs.declared.event.Event.TheVariants as event;
ghost use Rattle.genie_base.specs.Events.{is_whole};
ghost use Rattle.genie_base.specs.Transfers.{class_of, is_system};
ghost use Rattle.genie_gen.specs.Rounds.{application, counting, owner, round_events, system};
ghost use Rattle.genie_gen.specs.Sources.{line_in};

use crate::draws::Round;
use genie_base::{Event, PageBuffer, PageBytes, Semantics};
use genie_script::{Line, LineBuffer, put_line};

/// How many lines a round has.
pub(crate) const LINES: u32 = 27;

fn application(number: u32) -> Semantics
    ensures value { result ≡ application number }
    ensures class { is_system (class_of result) ≡ false }
{
    match number {
        0 => Semantics::Copy,
        1 => Semantics::EmulatedCopy,
        2 => Semantics::Share,
        _ => Semantics::EmulatedShare,
    }
}

fn system(number: u32) -> Semantics
    ensures value { result ≡ system number }
    ensures class { is_system (class_of result) ≡ true }
{
    match number {
        0 => Semantics::Move,
        1 => Semantics::EmulatedMove,
        2 => Semantics::WeakMove,
        _ => Semantics::EmulatedWeakMove,
    }
}

fn owner(number: u32) -> u32
    ensures { result ≡ owner number }
{
    if number < 2 { 0 } else { 1 }
}

// Appends sixteen bytes that count up from this one.
fn count_up(from: u32, into: &mut PageBuffer)
    requires small { from < 1000 }
    requires empty { into.old ≡ [] }
    ensures { into.new ≡ counting from }
{
    'bytes: for at in 0..16u32 {
        into.push(((from + at) % 256) as u8);
    }
}

fn counting<'a>(from: u32, into: &'a mut PageBuffer) -> PageBytes<'a>
    requires small { from < 1000 }
    requires empty { into.old ≡ [] }
    ensures { result ≡ counting from }
{
    count_up(from, into);
    into.lend()
}

// A send step that takes a whole record.
fn send_all(device: u32) -> Event<'static>
    ensures { result ≡ event.Send device 300 }
{
    Event::Send {
        dev: device,
        len: 300,
    }
}

// The first lines of a round, whose buffers the application allocates.
#[tactic(auto, unfolding(crate::specs::Rounds::round_events))]
fn first_event<'a>(round: &Round, number: u32, line: u32, bytes: &'a mut PageBuffer) -> Event<'a>
    requires line { line < 13 }
    requires first { round.now.first < 256 }
    requires empty { bytes.old ≡ [] }
    ensures value { slice_get (round_events round.now number) line ≡ Some result }
    ensures whole { is_whole result ≡ true }
{
    let device = round.device;
    match line {
        0 => Event::Write {
            pid: 0,
            addr: round.from,
            bytes: counting(round.first, bytes),
        },
        1 => Event::Output {
            pid: 0,
            sem: application(round.output),
            dev: device,
            port: 7,
            flow: None,
            addr: round.from,
            len: round.sent,
        },
        2 => Event::Input {
            pid: 0,
            sem: application(round.input),
            dev: device,
            port: 9,
            flow: None,
            addr: Some(round.to),
            len: round.wanted,
        },
        3 => Event::Recv {
            dev: device,
            len: round.receive,
        },
        4 => Event::Write {
            pid: 0,
            addr: round.from,
            bytes: counting(round.first + 1, bytes),
        },
        5 => Event::Send {
            dev: device,
            len: round.send,
        },
        6 => Event::Pageout { pages: round.pages },
        7 => Event::Fork {
            parent: 0,
            child: 2,
        },
        8 => Event::Write {
            pid: 0,
            addr: round.to,
            bytes: counting(round.first + 2, bytes),
        },
        9 => Event::Recv {
            dev: device,
            len: 300,
        },
        _ => send_all(device),
    }
}

// The lines that end these transfers, and look at their buffers.
#[tactic(auto, unfolding(crate::specs::Rounds::round_events))]
fn middle_event(round: &Round, number: u32, line: u32) -> Event<'static>
    requires after { 13 ≤ line }
    requires before { line < 18 }
    requires number { number < 30000 }
    ensures value { slice_get (round_events round.now number) line ≡ Some result }
    ensures whole { is_whole result ≡ true }
{
    match line {
        13 => Event::Finish { id: 4 * number + 1 },
        14 => Event::Finish { id: 4 * number + 2 },
        15 => Event::Read {
            pid: 0,
            addr: round.to,
            len: 16,
        },
        16 => Event::Read {
            pid: 2,
            addr: round.from,
            len: 16,
        },
        _ => Event::Exit { pid: 2 },
    }
}

// The last lines, whose buffers the system allocates.
#[tactic(auto, unfolding(crate::specs::Rounds::round_events))]
fn last_event<'a>(round: &Round, number: u32, line: u32, bytes: &'a mut PageBuffer) -> Event<'a>
    requires after { 18 ≤ line }
    requires before { line < 27 }
    requires number { number < 30000 }
    requires first { round.now.first < 256 }
    requires empty { bytes.old ≡ [] }
    ensures value { slice_get (round_events round.now number) line ≡ Some result }
    ensures whole { is_whole result ≡ true }
{
    let device = round.device;
    let pid = owner(round.system);
    let sem = system(round.system);
    match line {
        18 => Event::Input {
            pid,
            sem,
            dev: device,
            port: 9,
            flow: None,
            addr: None,
            len: round.moved,
        },
        19 => Event::Recv {
            dev: device,
            len: 300,
        },
        20 => Event::Finish { id: 4 * number + 3 },
        21 => Event::Write {
            pid,
            addr: 8192,
            bytes: counting(round.first + 3, bytes),
        },
        22 => Event::Output {
            pid,
            sem,
            dev: device,
            port: 7,
            flow: None,
            addr: 8192,
            len: round.moved,
        },
        23 => send_all(device),
        24 => send_all(device),
        25 => send_all(device),
        _ => Event::Finish { id: 4 * number + 4 },
    }
}

// The event of this line.
fn round_event<'a>(round: &Round, number: u32, line: u32, bytes: &'a mut PageBuffer) -> Event<'a>
    requires line { line < 27 }
    requires number { number < 30000 }
    requires first { round.now.first < 256 }
    requires empty { bytes.old ≡ [] }
    ensures value { slice_get (round_events round.now number) line ≡ Some result }
    ensures whole { is_whole result ≡ true }
{
    if line < 13 {
        first_event(round, number, line, bytes)
    } else if line < 18 {
        middle_event(round, number, line)
    } else {
        last_event(round, number, line, bytes)
    }
}

/// Writes this line of a round of this number, with its end.
pub(crate) fn put_round_line(out: &mut LineBuffer, round: &Round, number: u32, line: u32)
    requires empty { out.old ≡ [] }
    requires line { line < 27 }
    requires number { number < 30000 }
    requires first { round.now.first < 256 }
    ensures { out.new ≡ line_in (slice_get (round_events round.now number) line) }
{
    let mut bytes = PageBuffer::new();
    let event = round_event(round, number, line, &mut bytes);
    put_line(&Line::Event(event), out);
    out.push(b'\n');
}
