//! Writing a line.
ghost use Rattle.std.specs.Prelude.{◌≡◌, ◌+◌, ◌≤◌, ◌∷◌, ◌++◌, [], true, length, codes, decimal};
ghost use Rattle.genie_script.specs.Hex.{hex_text};
ghost use Rattle.genie_script.specs.Names.{mode_text};
ghost use Rattle.genie_script.specs.Lines.{is_whole_line};
ghost use Rattle.genie_script.specs.Spelling.{spaced, device_words, event_words, route_words, line_text, addr_text};

use crate::fields::{Route, kind_text, semantics_text};
use crate::line::{DeviceLine, Line};
use crate::line_buffer::LineBuffer;
use crate::word_text::{put_file, put_hex, put_number, put_numbers, put_port, put_word};
use genie_base::{Event, Semantics};

fn put_device(out: &mut LineBuffer, device: &DeviceLine)
    requires { out.old ≡ [] }
    ensures text { out.new ≡ spaced (device_words device.now) }
    ensures most { length out.new ≤ 8300 }
{
    put_numbers(out, b"device", &[device.number]);
    put_word(out, kind_text(device.kind));
    put_file(out, &device.input);
    put_file(out, &device.output);
    put_number(out, device.depth);
    put_number(out, device.offset);
}

/// The words that an output and an input begin with.
fn put_route(out: &mut LineBuffer, word: &[u8], route: &Route)
    requires empty { out.old ≡ [] }
    requires short { length word.now ≤ 3 }
    ensures text { out.new ≡ spaced (route_words word.now route.now) }
    ensures most { length out.new ≤ 100 }
{
    put_numbers(out, word, &[route.pid]);
    put_word(out, semantics_text(route.sem));
    put_number(out, route.dev);
    put_port(out, route.port, route.flow);
}

fn put_output(out: &mut LineBuffer, route: &Route, addr: u32, len: u32)
    requires { out.old ≡ [] }
    ensures text { out.new ≡ spaced (route_words (codes "out") route.now ++ decimal addr ∷ decimal len ∷ []) }
    ensures most { length out.new ≤ 8300 }
{
    put_route(out, b"out", route);
    put_number(out, addr);
    put_number(out, len);
}

fn put_input(out: &mut LineBuffer, route: &Route, addr: Option<u32>, len: u32)
    requires { out.old ≡ [] }
    ensures text { out.new ≡ spaced (route_words (codes "in") route.now ++ addr_text addr ∷ decimal len ∷ []) }
    ensures most { length out.new ≤ 8300 }
{
    put_route(out, b"in", route);
    match addr {
        None => put_word(out, b"-"),
        Some(addr) => put_number(out, addr),
    }
    put_number(out, len);
}

fn put_protect(out: &mut LineBuffer, pid: u32, page: u32, writable: bool)
    requires { out.old ≡ [] }
    ensures text { out.new ≡ spaced (codes "protect" ∷ decimal pid ∷ decimal page ∷ mode_text writable ∷ []) }
    ensures most { length out.new ≤ 8300 }
{
    put_numbers(out, b"protect", &[pid, page]);
    if writable {
        put_word(out, b"rw")
    } else {
        put_word(out, b"r")
    }
}

fn put_write(out: &mut LineBuffer, pid: u32, addr: u32, bytes: &[u8])
    requires empty { out.old ≡ [] }
    requires most { length bytes.now ≤ 4096 }
    ensures text { out.new ≡ spaced (codes "write" ∷ decimal pid ∷ decimal addr ∷ hex_text bytes.now ∷ []) }
    ensures most { length out.new ≤ 8300 }
{
    put_numbers(out, b"write", &[pid, addr]);
    put_hex(out, bytes);
}

/// The route of a call, by its parts.
fn route(pid: u32, sem: Semantics, dev: u32, port: u16, flow: Option<u32>) -> Route
    ensures { result ≡ record { pid = pid; sem = sem; dev = dev; port = port; flow = flow } }
{
    Route {
        pid,
        sem,
        dev,
        port,
        flow,
    }
}

#[tactic(auto, unfolding(crate::specs::Spelling::event_words))]
fn put_event(out: &mut LineBuffer, event: &Event)
    requires { out.old ≡ [] }
    ensures text { out.new ≡ spaced (event_words event.now) }
    ensures most { length out.new ≤ 8300 }
{
    match event {
        Event::Spawn { pid } => put_numbers(out, b"spawn", &[*pid]),
        Event::Fork { parent, child } => put_numbers(out, b"fork", &[*parent, *child]),
        Event::Exit { pid } => put_numbers(out, b"exit", &[*pid]),
        Event::Map { pid, page, pages } => put_numbers(out, b"map", &[*pid, *page, *pages]),
        Event::Alloc { pid, pages } => put_numbers(out, b"alloc", &[*pid, *pages]),
        Event::Unmap { pid, page } => put_numbers(out, b"unmap", &[*pid, *page]),
        Event::Protect {
            pid,
            page,
            writable,
        } => put_protect(out, *pid, *page, *writable),
        Event::Read { pid, addr, len } => put_numbers(out, b"read", &[*pid, *addr, *len]),
        Event::Write { pid, addr, bytes } => put_write(out, *pid, *addr, bytes.as_slice()),
        Event::Output {
            pid,
            sem,
            dev,
            port,
            flow,
            addr,
            len,
        } => { put_output(out, &route(*pid, *sem, *dev, *port, *flow), *addr, *len) }
        Event::Input {
            pid,
            sem,
            dev,
            port,
            flow,
            addr,
            len,
        } => { put_input(out, &route(*pid, *sem, *dev, *port, *flow), *addr, *len) }
        Event::Send { dev, len } => put_numbers(out, b"send", &[*dev, *len]),
        Event::Recv { dev, len } => put_numbers(out, b"recv", &[*dev, *len]),
        Event::Finish { id } => put_numbers(out, b"done", &[*id]),
        Event::Cancel { id } => put_numbers(out, b"cancel", &[*id]),
        Event::Pageout { pages } => put_numbers(out, b"pageout", &[*pages]),
    }
}

/// Writes the one spelling of a line, without a line end; a blank line is written as no byte.
#[tactic(auto, unfolding(crate::specs::Spelling::line_words))]
pub fn put_line(line: &Line, out: &mut LineBuffer)
    requires empty { out.old ≡ [] }
    // An input has an address exactly where the application allocates its buffer, and a write has a byte.
    requires whole { is_whole_line line.now ≡ true }
    ensures text { out.new ≡ line_text line.now }
    // So a script may have it.
    ensures most { length out.new ≤ 8300 }
{
    match line {
        Line::Blank => {}
        Line::Boot {
            page,
            frames,
            slots,
            cout,
            rcout,
        } => { put_numbers(out, b"boot", &[*page, *frames, *slots, *cout, *rcout]) }
        Line::Device(device) => put_device(out, device),
        Line::Event(event) => put_event(out, event),
    }
}
