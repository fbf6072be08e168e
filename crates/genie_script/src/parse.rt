//! Reading a line.
ghost use Rattle.std.specs.Prelude.{◌≡◌, true, Some, None, IfOk, OnErr};
ghost use Rattle.genie_script.specs.Words.{left};
ghost use Rattle.genie_script.specs.Lines.{boot_of, device_of, output_of, input_of, protect_of, write_of, event_of, fields_of, line_of, is_whole_line};

use crate::fields::{Route, buffer, last_mode, next_kind, next_route};
use crate::hex::last_bytes;
use crate::keyword::Keyword;
use crate::line::{BadLine, DeviceLine, Line};
use crate::name::next_file;
use crate::numbers::{last_number, last_three, last_two, next_number};
use crate::words::{Words, next_word};
use genie_base::{Event, PageBuffer};

#[tactic(auto, unfolding(crate::specs::Lines::boot_of))]
fn boot<'a>(words: Words) -> Option<Line<'a>>
    ensures { result ≡ boot_of (left words.entry) }
{
    let (page, rest) = next_number(words)?;
    let (frames, rest) = next_number(rest)?;
    let (slots, cout, rcout) = last_three(rest)?;
    Some(Line::Boot {
        page,
        frames,
        slots,
        cout,
        rcout,
    })
}

#[tactic(auto, unfolding(crate::specs::Lines::device_of))]
fn device(words: Words) -> Option<DeviceLine>
    ensures { result ≡ device_of (left words.entry) }
{
    let (number, rest) = next_number(words)?;
    let (kind, rest) = next_kind(rest)?;
    let (input, rest) = next_file(rest)?;
    let (output, rest) = next_file(rest)?;
    let (depth, offset) = last_two(rest)?;
    Some(DeviceLine {
        number,
        kind,
        input,
        output,
        depth,
        offset,
    })
}

#[tactic(auto, unfolding(crate::specs::Lines::output_of))]
fn output<'a>(words: Words) -> Option<Event<'a>>
    ensures { result ≡ output_of (left words.entry) }
{
    let (route, rest) = next_route(words)?;
    let (addr, len) = last_two(rest)?;
    let Route {
        pid,
        sem,
        dev,
        port,
        flow,
    } = route;
    Some(Event::Output {
        pid,
        sem,
        dev,
        port,
        flow,
        addr,
        len,
    })
}

#[tactic(auto, unfolding(crate::specs::Lines::input_of))]
fn input<'a>(words: Words) -> Option<Event<'a>>
    ensures { result ≡ input_of (left words.entry) }
{
    let (route, rest) = next_route(words)?;
    let Route {
        pid,
        sem,
        dev,
        port,
        flow,
    } = route;
    let (addr, len) = buffer(sem.system(), rest)?;
    Some(Event::Input {
        pid,
        sem,
        dev,
        port,
        flow,
        addr,
        len,
    })
}

#[tactic(auto, unfolding(crate::specs::Lines::protect_of))]
fn protect<'a>(words: Words) -> Option<Event<'a>>
    ensures { result ≡ protect_of (left words.entry) }
{
    let (pid, rest) = next_number(words)?;
    let (page, rest) = next_number(rest)?;
    let writable = last_mode(rest)?;
    Some(Event::Protect {
        pid,
        page,
        writable,
    })
}

#[tactic(auto, unfolding(crate::specs::Lines::write_of))]
fn write<'a>(words: Words, into: &'a mut PageBuffer) -> Option<Event<'a>>
    ensures { result ≡ write_of (left words.entry) }
{
    let (pid, rest) = next_number(words)?;
    let (addr, rest) = next_number(rest)?;
    let bytes = last_bytes(rest, into)?;
    Some(Event::Write { pid, addr, bytes })
}

#[tactic(auto, unfolding(crate::specs::Lines::event_of))]
fn event<'a>(keyword: Keyword, words: Words, into: &'a mut PageBuffer) -> Option<Event<'a>>
    ensures { result ≡ event_of keyword (left words.entry) }
{
    match keyword {
        Keyword::Boot | Keyword::Device => None,
        Keyword::Spawn => last_number(words).map(|pid| Event::Spawn { pid }),
        Keyword::Fork => last_two(words).map(|(parent, child)| Event::Fork { parent, child }),
        Keyword::Exit => last_number(words).map(|pid| Event::Exit { pid }),
        Keyword::Map => last_three(words).map(|(pid, page, pages)| Event::Map { pid, page, pages }),
        Keyword::Alloc => last_two(words).map(|(pid, pages)| Event::Alloc { pid, pages }),
        Keyword::Unmap => last_two(words).map(|(pid, page)| Event::Unmap { pid, page }),
        Keyword::Protect => protect(words),
        Keyword::Read => last_three(words).map(|(pid, addr, len)| Event::Read { pid, addr, len }),
        Keyword::Write => write(words, into),
        Keyword::Output => output(words),
        Keyword::Input => input(words),
        Keyword::Send => last_two(words).map(|(dev, len)| Event::Send { dev, len }),
        Keyword::Recv => last_two(words).map(|(dev, len)| Event::Recv { dev, len }),
        Keyword::Finish => last_number(words).map(|id| Event::Finish { id }),
        Keyword::Cancel => last_number(words).map(|id| Event::Cancel { id }),
        Keyword::Pageout => last_number(words).map(|pages| Event::Pageout { pages }),
    }
}

#[tactic(auto, unfolding(crate::specs::Lines::fields_of))]
fn fields<'a>(keyword: Keyword, words: Words, into: &'a mut PageBuffer) -> Option<Line<'a>>
    ensures { result ≡ fields_of keyword (left words.entry) }
{
    match keyword {
        Keyword::Boot => boot(words),
        Keyword::Device => Some(Line::Device(device(words)?)),
        _ => Some(Line::Event(event(keyword, words, into)?)),
    }
}

#[tactic(auto, unfolding(crate::specs::Lines::line_of))]
fn read<'a>(line: &[u8], into: &'a mut PageBuffer) -> Option<Line<'a>>
    ensures { result ≡ line_of line.now }
{
    if matches!(line, [] | [b'#', ..]) {
        return Some(Line::Blank);
    }
    let (word, rest) = next_word(Some(line))?;
    fields(Keyword::find(word)?, rest, into)
}

/// Reads a line, given without its line end. `BadLine` comes exactly where the text isn't a line of the script's
/// grammar. The bytes of a `write` are put into the buffer, and the line borrows them. The time is linear in the number
/// of bytes.
pub fn parse_line<'a>(line: &[u8], into: &'a mut PageBuffer) -> Result<Line<'a>, BadLine>
    ensures line { IfOk result (λ l. line_of line.now ≡ Some l) }
    ensures bad { OnErr result (line_of line.now ≡ None) }
    // An input has an address exactly where the application allocates its buffer, and a write has a byte.
    ensures whole { IfOk result (λ l. is_whole_line l ≡ true) }
{
    read(line, into).ok_or(BadLine)
}
