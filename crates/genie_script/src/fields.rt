//! The words of a line that name kinds, semantics, ports and modes.
ghost use Rattle.std.specs.Prelude.{◌≡◌, option_copied};
ghost use Rattle.genie_script.specs.Words.{Gives, left};
ghost use Rattle.genie_script.specs.Names.{kind_text as text_of_kind, kind_of, kind_at, semantics_text as text_of_semantics, semantics_of, semantics_at, port_number as port_number_of, flow_of, port_of, port_at, mode_of, last_mode as last_mode_of, dash_at};
ghost use Rattle.genie_script.specs.Lines.{route_at, buffer_of};

use crate::numbers::{last_number, last_two, next_number, number};
use crate::words::{Words, cut, last_word, next_word};
use genie_base::{Kind, Semantics};

const KINDS: [Kind; 3] = [Kind::Early, Kind::Pooled, Kind::Outboard];

const SEMANTICS: [Semantics; 8] = [
    Semantics::Copy,
    Semantics::EmulatedCopy,
    Semantics::Share,
    Semantics::EmulatedShare,
    Semantics::Move,
    Semantics::EmulatedMove,
    Semantics::WeakMove,
    Semantics::EmulatedWeakMove,
];

pub(crate) fn kind_text(kind: Kind) -> &'static [u8]
    ensures { result.now ≡ text_of_kind kind }
{
    match kind {
        Kind::Early => b"early",
        Kind::Pooled => b"pooled",
        Kind::Outboard => b"outboard",
    }
}

pub(crate) fn semantics_text(sem: Semantics) -> &'static [u8]
    ensures { result.now ≡ text_of_semantics sem }
{
    match sem {
        Semantics::Copy => b"c",
        Semantics::EmulatedCopy => b"ec",
        Semantics::Share => b"s",
        Semantics::EmulatedShare => b"es",
        Semantics::Move => b"m",
        Semantics::EmulatedMove => b"em",
        Semantics::WeakMove => b"w",
        Semantics::EmulatedWeakMove => b"ew",
    }
}

#[tactic(auto, unfolding(crate::specs::Names::kind_of))]
fn kind(text: &[u8]) -> Option<Kind>
    ensures { result ≡ kind_of text.now }
{
    KINDS.iter().copied().find(|kind| kind_text(*kind) == text)
}

#[tactic(auto, unfolding(crate::specs::Names::kind_at))]
pub(crate) fn next_kind(words: Words) -> Option<(Kind, Words)>
    ensures { Gives (λ x. (x.0, left x.1)) result (kind_at (left words.entry)) }
{
    let (word, rest) = next_word(words)?;
    let kind = kind(word)?;
    Some((kind, rest))
}

#[tactic(auto, unfolding(crate::specs::Names::semantics_of))]
fn semantics(text: &[u8]) -> Option<Semantics>
    ensures { result ≡ semantics_of text.now }
{
    SEMANTICS
        .iter()
        .copied()
        .find(|sem| semantics_text(*sem) == text)
}

#[tactic(auto, unfolding(crate::specs::Names::semantics_at))]
fn next_semantics(words: Words) -> Option<(Semantics, Words)>
    ensures { Gives (λ x. (x.0, left x.1)) result (semantics_at (left words.entry)) }
{
    let (word, rest) = next_word(words)?;
    let sem = semantics(word)?;
    Some((sem, rest))
}

#[tactic(auto, unfolding(crate::specs::Names::port_number))]
fn port_number(text: &[u8]) -> Option<u16>
    ensures { result ≡ port_number_of text.now }
{
    let port = number(text)?;
    u16::try_from(port).ok()
}

#[tactic(auto, unfolding(crate::specs::Names::flow_of))]
fn flow(text: Option<&[u8]>) -> Option<Option<u32>>
    ensures { result ≡ flow_of (option_copied text.entry) }
{
    match text {
        None => Some(None),
        Some(text) => {
            let flow = number(text)?;
            Some(Some(flow))
        }
    }
}

/// A port, and a flow where a dot follows it.
#[tactic(auto, unfolding(crate::specs::Names::port_of))]
fn port(text: &[u8]) -> Option<(u16, Option<u32>)>
    ensures { result ≡ port_of text.now }
{
    let (front, back) = cut(text, b'.');
    let port = port_number(front)?;
    let flow = flow(back)?;
    Some((port, flow))
}

#[tactic(auto, unfolding(crate::specs::Names::port_at))]
fn next_port(words: Words) -> Option<((u16, Option<u32>), Words)>
    ensures { Gives (λ x. (x.0, left x.1)) result (port_at (left words.entry)) }
{
    let (word, rest) = next_word(words)?;
    let port = port(word)?;
    Some((port, rest))
}

#[tactic(auto, unfolding(crate::specs::Names::mode_of))]
fn mode(text: &[u8]) -> Option<bool>
    ensures { result ≡ mode_of text.now }
{
    if text == b"r".as_slice() {
        return Some(false);
    }
    if text == b"rw".as_slice() {
        return Some(true);
    }
    None
}

/// The one word that is left, as a mode: whether a region may be written.
#[tactic(auto, unfolding(crate::specs::Names::last_mode))]
pub(crate) fn last_mode(words: Words) -> Option<bool>
    ensures { result ≡ last_mode_of (left words.entry) }
{
    mode(last_word(words)?)
}

#[tactic(auto, unfolding(crate::specs::Names::dash_at))]
fn next_dash(words: Words) -> Option<Words>
    ensures { Gives left result (dash_at (left words.entry)) }
{
    let (word, rest) = next_word(words)?;
    if word == b"-".as_slice() {
        Some(rest)
    } else {
        None
    }
}

/// The words that an output and an input begin with.
#[derive(Clone, Copy)]
pub(crate) struct Route {
    pub(crate) pid: u32,
    pub(crate) sem: Semantics,
    pub(crate) dev: u32,
    pub(crate) port: u16,
    pub(crate) flow: Option<u32>,
}

#[tactic(auto, unfolding(crate::specs::Lines::route_at))]
pub(crate) fn next_route(words: Words) -> Option<(Route, Words)>
    ensures { Gives (λ x. (x.0, left x.1)) result (route_at (left words.entry)) }
{
    let (pid, rest) = next_number(words)?;
    let (sem, rest) = next_semantics(rest)?;
    let (dev, rest) = next_number(rest)?;
    let ((port, flow), rest) = next_port(rest)?;
    Some((
        Route {
            pid,
            sem,
            dev,
            port,
            flow,
        },
        rest,
    ))
}

/// The address and the length of an input's buffer. A buffer that the system allocates has no address yet.
#[tactic(auto, unfolding(crate::specs::Lines::buffer_of))]
pub(crate) fn buffer(system: bool, words: Words) -> Option<(Option<u32>, u32)>
    ensures { result ≡ buffer_of system (left words.entry) }
{
    if system {
        let len = last_number(next_dash(words)?)?;
        return Some((None, len));
    }
    let (addr, len) = last_two(words)?;
    Some((Some(addr), len))
}
