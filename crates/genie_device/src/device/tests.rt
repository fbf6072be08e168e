//! Records that come in and go out, step by step.
ghost use Rattle.std.specs.Prelude.{◌≡◌, ◌<◌, ◌≤◌, [], None, IfOk, IsSome};
ghost use Rattle.genie_device.specs.Device.{IsReading, IsWriting};

use super::*;
use crate::BodyEnd;
use crate::laws::failed_steps_go_on;
use genie_base::overlay;
use genie_host::MemoryHost;
use std::test::*;

/// What came in, as bytes: of each datagram its payload, and a letter for its end.
type Log = ArrayVec<u8, 32>;

/// A place for payload bytes, and how often some were stored.
#[derive(Drop)]
struct Page {
    bytes: ArrayVec<u8, 4>,
    stores: u8,
}

impl Landing for Page {
    ghost use Rattle.std.specs.Prelude.{⊤};

    ghost content = { λ p. p.bytes.items };

    ghost count = { λ _. 0 };

    ghost is_ready = { λ _. ⊤ };

    ghost kept = { λ _ _. ⊤ };

    fn land(&mut self, at: u32, bytes: &[u8]) {
        overlay(self.bytes.as_mut_slice(), at as usize, bytes);
        self.stores = self.stores.saturating_add(1);
    }

    ghost reflexive = { λ _. tt };

    ghost transitive = { λ _ _ _ _ _. tt };
}

/// One way of moving bytes: the device's kind, the budget of each step, the most bytes of one call of the host (0: all
/// that there are), and where the host fails once.
#[derive(Clone, Copy)]
struct Case {
    kind: Kind,
    budget: u32,
    most: u32,
    fail_at: u64,
}

const NEVER: u64 = 1000;

fn note(log: &mut Log, bytes: &[u8]) {
    for byte in bytes {
        let _ = log.try_push(*byte);
    }
}

// Ends the present datagram, and notes its payload.
fn end(device: &mut Device, page: &Page, log: &mut Log, mark: u8)
    requires { IsSome device.old.present }
    ensures { device.new.config ≡ device.old.config }
{
    let moved = device.moved() as usize;
    match device.finish() {
        None => {
            let stored = page.bytes.as_slice();
            note(log, &stored[..moved.min(stored.len())]);
        }
        Some(buffer) => {
            note(log, device.arrived(buffer));
            device.release(buffer);
        }
    }
    note(log, &[mark]);
}

// A step of a header: whether it moved a byte or failed.
fn header_step<H: Host>(
    host: &mut H,
    device: &mut Device,
    page: &Page,
    log: &mut Log,
    n: u32,
) -> bool
    requires some { 1 ≤ n }
    requires absent { device.old.present ≡ None }
    requires reading { IsReading device.old.config.input (H.view host.old) }
    ensures { IsReading device.new.config.input (H.view host.new) }
{
    if device.is_bad() || device.is_full() {
        return false;
    }
    let step = device.recv_header(host, n);
    match step.end {
        HeaderEnd::More => step.moved > 0,
        HeaderEnd::Whole(header) => {
            if header.len == 0 {
                end(device, page, log, b'w');
            }
            true
        }
        HeaderEnd::Bad => true,
        HeaderEnd::Faulted => true,
    }
}

// A step of a payload.
fn body_step<H: Host>(host: &mut H, device: &mut Device, page: &mut Page, log: &mut Log, n: u32)
    requires some { 1 ≤ n }
    requires present { IsSome device.old.present }
    requires reading { IsReading device.old.config.input (H.view host.old) }
    ensures { IsReading device.new.config.input (H.view host.new) }
{
    let step = device.recv_body(host, page, n);
    match step.end {
        BodyEnd::Whole => end(device, page, log, b'w'),
        BodyEnd::Truncated => end(device, page, log, b't'),
        BodyEnd::More | BodyEnd::Faulted => {}
    }
}

fn receive_step<H: Host>(
    host: &mut H,
    device: &mut Device,
    page: &mut Page,
    log: &mut Log,
    n: u32,
) -> bool
    requires some { 1 ≤ n }
    requires reading { IsReading device.old.config.input (H.view host.old) }
    ensures { IsReading device.new.config.input (H.view host.new) }
{
    match device.present() {
        None => header_step(host, device, page, log, n),
        Some(_) => {
            body_step(host, device, page, log, n);
            true
        }
    }
}

fn receive_all<H: Host>(host: &mut H, device: &mut Device, log: &mut Log, n: u32)
    requires some { 1 ≤ n }
    requires reading { IsReading device.old.config.input (H.view host.old) }
{
    let mut page = Page {
        bytes: ArrayVec::from([0, 0, 0, 0]),
        stores: 0,
    };
    'steps: for _ in 0..100 {
        if !receive_step(host, device, &mut page, log, n) {
            break;
        }
    }
    note(log, &[b'e', page.stores]);
}

fn receive_named<H: Host>(alloc: Global, host: &mut H, kind: Kind, n: u32) -> Result<Log, NoMemory>
    requires some { 1 ≤ n }
    requires fresh { (H.view host.old).opened ≡ 0 }
{
    let Ok(handle) = host.open_read(b"in") else {
        return Err(NoMemory);
    };
    let config = DeviceConfig {
        kind,
        input: Some(handle),
        output: None,
        depth: 1,
        offset: 0,
    };
    let mut device = Device::new(alloc, &config, 16)?;
    let mut log = ArrayVec::new();
    receive_all(host, &mut device, &mut log, n);
    Ok(log)
}

fn host_with(alloc: Global, stream: &[u8], case: &Case) -> Result<MemoryHost, NoMemory>
    ensures { IfOk result (λ host. host.opened ≡ []) }
{
    let mut host = MemoryHost::new(alloc, 0)?;
    host.file(b"in", stream)?;
    if case.fail_at < NEVER {
        host.fail_at(b"in", case.fail_at)?;
    }
    if case.most > 0 {
        host.pieces(case.most);
    }
    Ok(host)
}

fn received(alloc: Global, stream: &[u8], case: &Case) -> Result<Log, NoMemory> {
    let mut host = host_with(alloc, stream, case)?;
    receive_named(alloc, &mut host, case.kind, case.budget.max(1))
}

impl Case {
    fn new(kind: Kind, budget: u32, most: u32, fail_at: u64) -> Case
        ensures { result.budget ≡ budget }
    {
        Case {
            kind,
            budget,
            most,
            fail_at,
        }
    }
}

// Three records: one of three bytes, one with a flow and two bytes, an empty one.
const STREAM: [u8; 33] = [
    0x47, 0x44, 0, 5, 0, 0, 0, 3, 1, 2, 3, 0x47, 0x45, 0, 6, 0, 0, 0, 2, 0, 0, 0, 7, 10, 11, 0x47,
    0x44, 0, 5, 0, 0, 0, 0,
];

#[test]
fn what_comes_in(rt: HostRuntime) -> Result<(), Fail> {
    let cases: [(usize, Case, &[u8]); 6] = [
        (8, Case::new(Kind::Early, 100, 0, NEVER), b"te\x00"),
        (10, Case::new(Kind::Early, 100, 0, NEVER), b"\x01\x02te\x01"),
        (
            33,
            Case::new(Kind::Early, 100, 0, NEVER),
            b"\x01\x02\x03w\x0a\x0bwwe\x02",
        ),
        (
            33,
            Case::new(Kind::Pooled, 3, 2, 9),
            b"\x01\x02\x03w\x0a\x0bwwe\x03",
        ),
        (
            33,
            Case::new(Kind::Early, 2, 1, 24),
            b"\x01\x02\x03w\x0a\x0bwwe\x05",
        ),
        (
            33,
            Case::new(Kind::Outboard, 2, 1, 9),
            b"\x01\x02\x03w\x0a\x0bwwe\x00",
        ),
    ];
    for (size, case, want) in cases {
        let log = received(rt.alloc(), &STREAM[..size], &case)?;
        assert_eq!(rt; log.as_slice(), want);
    }
    Ok(())
}

#[test]
fn one_read_takes_a_whole_payload(rt: HostRuntime) -> Result<(), Fail> {
    // A payload of 1,000 bytes, from a host that gives all at once, or 100 bytes at once.
    let mut stream = [0u8; 1008];
    stream[..8].copy_from_slice(&[0x47, 0x44, 0, 5, 0, 0, 3, 232]);
    for (most, stores) in [(0, 1), (100, 10)] {
        let case = Case::new(Kind::Early, 65536, most, NEVER);
        let log = received(rt.alloc(), &stream, &case)?;
        let want: &[u8] = &[0, 0, 0, 0, b'w', b'e', stores];
        assert_eq!(rt; log.as_slice(), want);
    }
    Ok(())
}

/// A payload that is lent in pieces of so many bytes.
#[derive(Drop)]
struct Parts {
    bytes: [u8; 5],
    size: usize,
}

impl Outgoing for Parts {
    ghost use Rattle.std.specs.Prelude.{◌<◌};

    ghost payload = { λ p. p.bytes };

    ghost is_ready = { λ p. 0 < p.size };

    fn piece(&self, at: u32) -> &[u8] {
        let at = (at as usize).min(5);
        let size = self.size.min(5 - at);
        &self.bytes[at..at + size]
    }
}

// One step that sends: whether some of the record is left.
fn send_once<H: Host>(
    host: &mut H,
    device: &mut Device,
    from: &Parts,
    header: &Header,
    n: u32,
) -> bool
    requires some { 1 ≤ n }
    requires ready { 0 < from.now.size }
    requires len { header.now.len ≡ 5 }
    requires room { 5 ≤ device.old.limit }
    requires writing { IsWriting device.old.config.output (H.view host.old) }
    ensures room { device.new.limit ≡ device.old.limit }
    ensures writing { IsWriting device.new.config.output (H.view host.new) }
{
    if device.sent() >= size_of(header) + header.len || device.staged() > header.len {
        return false;
    }
    let step = device.send_step(host, from, header, n);
    !step.whole
}

fn send_all<H: Host>(host: &mut H, device: &mut Device, from: &Parts, header: &Header, n: u32)
    requires some { 1 ≤ n }
    requires ready { 0 < from.now.size }
    requires len { header.now.len ≡ 5 }
    requires room { 5 ≤ device.old.limit }
    requires writing { IsWriting device.old.config.output (H.view host.old) }
{
    'steps: for _ in 0..40 {
        if !send_once(host, device, from, header, n) {
            break;
        }
    }
}

// The source changes once it was staged or sent for the first time.
fn send_named<H: Host>(
    alloc: Global,
    host: &mut H,
    case: &Case,
    flow: Option<u32>,
    size: usize,
) -> Result<(), NoMemory>
    requires some { 1 ≤ case.now.budget }
    requires ready { 0 < size }
    requires fresh { (H.view host.old).opened ≡ 0 }
{
    let Ok(handle) = host.open_write(b"out") else {
        return Err(NoMemory);
    };
    let config = DeviceConfig {
        kind: case.kind,
        input: None,
        output: Some(handle),
        depth: 1,
        offset: 0,
    };
    let mut device = Device::new(alloc, &config, 16)?;
    let header = Header {
        port: 9,
        flow,
        len: 5,
    };
    let from = Parts {
        bytes: [1, 2, 3, 4, 5],
        size,
    };
    let later = Parts {
        bytes: [21, 22, 23, 24, 25],
        size,
    };
    send_once(host, &mut device, &from, &header, case.budget);
    send_all(host, &mut device, &later, &header, case.budget);
    Ok(())
}

fn sink_with(alloc: Global, case: &Case) -> Result<MemoryHost, NoMemory>
    ensures { IfOk result (λ host. host.opened ≡ []) }
{
    let mut host = MemoryHost::new(alloc, 0)?;
    host.sink(b"out", 40)?;
    if case.fail_at < NEVER {
        host.fail_at(b"out", case.fail_at)?;
    }
    if case.most > 0 {
        host.pieces(case.most);
    }
    Ok(host)
}

fn is_sent(
    alloc: Global,
    case: &Case,
    flow: Option<u32>,
    size: usize,
    want: &[u8],
) -> Result<bool, NoMemory>
    requires some { 1 ≤ case.now.budget }
    requires ready { 0 < size }
{
    let mut host = sink_with(alloc, case)?;
    send_named(alloc, &mut host, case, flow, size)?;
    match host.written(b"out") {
        Some(bytes) => Ok(bytes == want),
        None => Ok(false),
    }
}

#[test]
fn what_goes_out(rt: HostRuntime) -> Result<(), Fail> {
    // With a budget of 9 an early device sends one payload byte at the first step; an outboard one stages them all.
    let early: &[u8] = &[0x47, 0x44, 0, 9, 0, 0, 0, 5, 1, 22, 23, 24, 25];
    let outboard: &[u8] = &[0x47, 0x45, 0, 9, 0, 0, 0, 5, 0, 0, 0, 8, 1, 2, 3, 4, 5];
    failed_steps_go_on();
    for (most, size) in [(1, 7), (3, 2), (8, 1)] {
        let early_case = Case::new(Kind::Early, 9, most, 12);
        assert!(rt; is_sent(rt.alloc(), &early_case, None, size, early)?);
        let outboard_case = Case::new(Kind::Outboard, 9, most, 10);
        assert!(rt; is_sent(rt.alloc(), &outboard_case, Some(8), size, outboard)?);
    }
    Ok(())
}
