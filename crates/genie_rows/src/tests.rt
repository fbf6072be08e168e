//! The worked scripts, run over a host in memory.
ghost use Rattle.std.specs.Prelude.{◌≡◌, ◌<◌, ◌≤◌, ◌+◌, [], IfOk, IfSome, OnOk};

use crate::datagrams::{datagrams, records};
use crate::marked::{MarkedRow, failures};
use crate::rows::{Row, accesses, devices, inputs, limits, modes, moves, outputs};
use genie_base::{Config, DeviceConfig, Kind, Mark, NoMemory, PageBuffer};
use genie_flat::Flat;
use genie_host::{Host, MemoryHost};
use genie_orderly::laws;
use genie_playing::costs::Listing;
use genie_replay::Status;
use genie_script::{Judged, LineBuffer, judge_event, put_reply};
use genie_store::MemoryStore;
use itoa::Buffer;
use std::alloc::{AllocError, Global};
use std::process::Abort;
use std::test::Fail;

// A host with a script, a sink for the device, and room for this many bytes of replies.
fn host_with(alloc: Global, script: &[u8], room: u64) -> Result<MemoryHost, NoMemory>
    ensures { IfOk result (λ host. host.opened ≡ []) }
{
    let mut host = MemoryHost::new(alloc, room)?;
    host.file(b"s", script)?;
    host.sink(b"o0", 4096)?;
    Ok(host)
}

// By which machine a script is run.
#[derive(Clone, Copy)]
enum Machine {
    Flat,
    Kernel,
}

const BOTH: [Machine; 2] = [Machine::Flat, Machine::Kernel];

fn run_by<H: Host>(machine: Machine, alloc: Global, host: &mut H) -> Status
    requires { (H.view host.old).opened ≡ 0 }
{
    match machine {
        Machine::Flat => genie_replay::replay(alloc, host, b"s"),
        Machine::Kernel => {
            let mut store = MemoryStore::new(alloc);
            genie_running::replay(alloc, Listing::Replies, b"s", host, &mut store).finish()
        }
    }
}

fn is_written(host: &MemoryHost, name: &[u8], want: &[u8]) -> bool {
    match host.written(name) {
        Some(bytes) => bytes == want,
        None => false,
    }
}

// A script that fills the table of transfers with outputs of no bytes, and the replies to it.
fn full_table(alloc: Global) -> Result<(Vec<u8>, Vec<u8>), AllocError> {
    let mut script = Vec::new(alloc);
    let mut replies = Vec::new(alloc);
    script.extend_from_slice(b"boot 16 32 64 16 8\ndevice 0 early - o0 1 0\nspawn 0\nmap 0 0 4\n")?;
    replies.extend_from_slice(b"ok\nok\nok\n")?;
    for id in 1..65u32 {
        script.extend_from_slice(b"out 0 c 0 5 0 0\n")?;
        replies.extend_from_slice(b"id ")?;
        replies.extend_from_slice(Buffer::new().format(id).as_bytes())?;
        replies.extend_from_slice(b"\n")?;
    }
    script.extend_from_slice(b"out 0 c 0 5 0 0\nsend 0 8\ndone 1\nout 0 c 0 5 0 0\n")?;
    replies.extend_from_slice(b"err transfers\nsent 8\nout 0\nid 65\n")?;
    Ok((script, replies))
}

#[test]
fn sixty_four_transfers(rt: HostRuntime) -> Result<(), Fail> {
    let (script, replies) = full_table(rt.alloc())?;
    for machine in BOTH {
        let mut host = host_with(rt.alloc(), script.as_slice(), 4096)?;
        // pieces of three bytes: reads and writes are taken up where they stopped
        host.pieces(3);
        assert_eq!(rt; run_by(machine, rt.alloc(), &mut host), Status::Done);
        assert!(rt; is_written(&host, b"", replies.as_slice()));
        assert!(rt; is_written(&host, b"o0", b"GD\x00\x05\x00\x00\x00\x00"));
    }
    Ok(())
}

// The bytes of a text in hex.
fn from_hex(alloc: Global, text: &str) -> Result<Vec<u8>, NoMemory> {
    match hex::decode(alloc, text) {
        Ok(bytes) => Ok(bytes),
        Err(_) => Err(NoMemory),
    }
}

// A host with the row's script and files.
fn host_for(alloc: Global, row: &Row) -> Result<MemoryHost, NoMemory>
    ensures { IfOk result (λ host. host.opened ≡ []) }
{
    let mut host = MemoryHost::new(alloc, 65536)?;
    host.file(b"s", row.script.as_bytes())?;
    add_files(alloc, &mut host, row)?;
    Ok(host)
}

fn add_files(alloc: Global, host: &mut MemoryHost, row: &Row) -> Result<(), NoMemory>
    ensures { OnOk result (host.new.opened ≡ host.old.opened) }
{
    'inputs: for (name, bytes) in row.inputs {
        let bytes = from_hex(alloc, bytes)?;
        host.file(name.as_bytes(), bytes.as_slice())?;
    }
    'outputs: for (name, _) in row.outputs {
        host.sink(name.as_bytes(), 4096)?;
    }
    Ok(())
}

fn outputs_are(alloc: Global, host: &MemoryHost, row: &Row) -> Result<bool, NoMemory> {
    for (name, bytes) in row.outputs {
        let bytes = from_hex(alloc, bytes)?;
        if !is_written(host, name.as_bytes(), bytes.as_slice()) {
            return Ok(false);
        }
    }
    Ok(true)
}

// Whether the row's run ends with its last line, and writes what it should.
fn is_as_worked(machine: Machine, alloc: Global, row: &Row) -> Result<bool, NoMemory> {
    let mut host = host_for(alloc, row)?;
    let status = run_by(machine, alloc, &mut host);
    if status != Status::Done || !is_written(&host, b"", row.replies.as_bytes()) {
        return Ok(false);
    }
    outputs_are(alloc, &host, row)
}

// Runs all of these, by both machines.
fn run_rows(rt: &impl Abort, alloc: Global, rows: &[Row]) -> Result<(), NoMemory> {
    for row in rows {
        assert!(rt; is_as_worked(Machine::Flat, alloc, row)?, "{}", row.about);
        assert!(rt;
            is_as_worked(Machine::Kernel, alloc, row)?,
            "by the kernel: {}",
            row.about
        );
    }
    Ok(())
}

#[test]
fn worked_scripts(rt: HostRuntime) -> Result<(), Fail> {
    run_rows(&rt, rt.alloc(), accesses())?;
    run_rows(&rt, rt.alloc(), outputs())?;
    run_rows(&rt, rt.alloc(), inputs())?;
    run_rows(&rt, rt.alloc(), moves())?;
    run_rows(&rt, rt.alloc(), devices())?;
    run_rows(&rt, rt.alloc(), limits())?;
    run_rows(&rt, rt.alloc(), modes())?;
    Ok(())
}

// A stream of one record of port 5, with 1,024 such bytes.
fn long_record(alloc: Global, byte: u8) -> Result<Vec<u8>, AllocError> {
    let mut stream = Vec::new(alloc);
    stream.extend_from_slice(b"GD\x00\x05\x00\x00\x04\x00")?;
    for _ in 0..1024 {
        stream.push(byte)?;
    }
    Ok(stream)
}

// Outputs of the longest datagrams, and an input that is longer than its device takes.
const LONG_OUTPUTS: &[u8] =
    b"boot 16 512 128 16 8\ndevice 0 early - o0 1 0\ndevice 1 pooled i1 - 1 0\nspawn 0\nmap 0 0 64\nout 0 ec 0 5 0 1024\nout 0 c 0 5 0 1025\nin 0 c 1 5 0 257\nsend 0 1032\ndone 1\n";

// Inputs of more frames than there are, and of fewer bytes than the record has.
const LONG_INPUTS: &[u8] =
    b"boot 16 64 128 16 8\ndevice 0 early i0 - 1 0\nspawn 0\nin 0 em 0 5 - 1024\nin 0 em 0 5 - 960\nrecv 0 2000\ndone 1\n";

#[test]
fn long_datagrams(rt: HostRuntime) -> Result<(), Fail> {
    for machine in BOTH {
        let mut host = host_with(rt.alloc(), LONG_OUTPUTS, 4096)?;
        host.file(b"i1", b"")?;
        assert_eq!(rt; run_by(machine, rt.alloc(), &mut host), Status::Done);
        assert!(rt;
            is_written(
                &host,
                b"",
                b"ok\nok\nok\nid 1\nerr range\nerr range\nsent 1032\nout 1024\n"
            )
        );
        assert!(rt; is_written(&host, b"o0", long_record(rt.alloc(), 0)?.as_slice()));
        let mut host = host_with(rt.alloc(), LONG_INPUTS, 4096)?;
        host.file(b"i0", long_record(rt.alloc(), 0xab)?.as_slice())?;
        assert_eq!(rt; run_by(machine, rt.alloc(), &mut host), Status::Done);
        assert!(rt;
            is_written(
                &host,
                b"",
                b"ok\nok\nerr frames\nid 1\ngot 1032\nin 8192 960 cut\n"
            )
        );
    }
    Ok(())
}

// A host with the script, and with an input and an output for each device.
fn host_of_datagrams(alloc: Global, script: &[u8], stream: &[u8]) -> Result<MemoryHost, NoMemory>
    ensures { IfOk result (λ host. host.opened ≡ []) }
{
    let mut host = MemoryHost::new(alloc, 65536)?;
    host.file(b"s", script)?;
    host.file(b"i0", stream)?;
    host.file(b"i1", stream)?;
    host.file(b"i2", stream)?;
    host.sink(b"o0", 1_000_000)?;
    host.sink(b"o1", 1_000_000)?;
    host.sink(b"o2", 1_000_000)?;
    Ok(host)
}

#[test]
fn forty_eight_datagrams(rt: HostRuntime) -> Result<(), Fail> {
    let (script, replies) = datagrams(rt.alloc())?;
    let stream = records(rt.alloc())?;
    for machine in BOTH {
        let mut host = host_of_datagrams(rt.alloc(), script.as_slice(), stream.as_slice())?;
        assert_eq!(rt; run_by(machine, rt.alloc(), &mut host), Status::Done);
        assert!(rt; is_written(&host, b"", replies.as_slice()));
        assert!(rt; is_written(&host, b"o0", stream.as_slice()));
        assert!(rt; is_written(&host, b"o1", stream.as_slice()));
        assert!(rt; is_written(&host, b"o2", stream.as_slice()));
    }
    Ok(())
}

// A machine with pages of 16 bytes, and one early device with this input.
fn booted(alloc: Global, input: &[u8]) -> Result<Flat, NoMemory>
    ensures { IfOk result (λ flat. IfSome flat (λ s. s.next ≤ 1)) }
{
    let device = DeviceConfig {
        kind: Kind::Early,
        input: Some(2),
        output: Some(3),
        depth: 1,
        offset: 0,
    };
    let config = Config {
        page: 16,
        frames: 32,
        slots: 64,
        cout: 16,
        rcout: 8,
        devices: [Some(device), None, None, None, None, None, None, None],
    };
    if !config.fits() {
        return Err(NoMemory);
    }
    let mut flat = Flat::boot(alloc, &config)?;
    flat.input(0, input)?;
    Ok(flat)
}

// Steps the event that a line says, and puts the reply's text; nothing where it says none.
fn step_line(
    flat: &mut Flat,
    most: u32,
    line: &str,
    mark: &Mark,
    out: &mut LineBuffer,
) -> Result<(), NoMemory>
    requires few { most < 100 }
    requires numbered { IfSome flat.old (λ s. s.next ≤ most) }
    ensures { IfSome flat.new (λ s. s.next ≤ most + 1) }
{
    laws::steps_grow();
    let mut said = PageBuffer::new();
    let mut answer = PageBuffer::new();
    out.clear();
    match judge_event(0, line.as_bytes(), &mut said) {
        Judged::Taken(event) => {
            let reply = flat.step(&event, mark, &mut answer)?;
            put_reply(&reply, out);
            Ok(())
        }
        _ => Ok(()),
    }
}

// Whether the row's lines give its replies, and its device has sent what it should.
fn steps_as_worked(alloc: Global, row: &MarkedRow) -> Result<bool, NoMemory> {
    let mut flat = booted(alloc, from_hex(alloc, row.input)?.as_slice())?;
    let mut out = LineBuffer::new();
    let mut most = 1;
    for (line, mark, reply) in row.lines {
        if most >= 99 {
            return Ok(false);
        }
        step_line(&mut flat, most, line, mark, &mut out)?;
        most += 1;
        if out.as_slice() != reply.as_bytes() {
            return Ok(false);
        }
    }
    Ok(flat.sent(0) == from_hex(alloc, row.sent)?.as_slice())
}

#[test]
fn steps_under_marks(rt: HostRuntime) -> Result<(), Fail> {
    for row in failures() {
        assert!(rt; steps_as_worked(rt.alloc(), row)?, "{}", row.about);
    }
    Ok(())
}
