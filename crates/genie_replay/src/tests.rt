//! Whole runs over a host in memory.
ghost use Rattle.std.specs.Prelude.{◌≡◌, [], IfOk, OnOk};

use crate::{Status, replay};
use genie_base::NoMemory;
use genie_host::MemoryHost;
use std::alloc::Global;
use std::test::Fail;

// What goes wrong at a host.
#[derive(Clone, Copy)]
enum Trouble {
    Nothing,
    // a call on the file of this name fails at this place
    FailAt(&'static [u8], u64),
    // no file of this name can be opened
    Refuse(&'static [u8]),
}

fn make_trouble(host: &mut MemoryHost, trouble: Trouble) -> Result<(), NoMemory>
    ensures { OnOk result (host.new.opened ≡ host.old.opened) }
{
    match trouble {
        Trouble::Nothing => Ok(()),
        Trouble::FailAt(name, at) => host.fail_at(name, at),
        Trouble::Refuse(name) => host.refuse(name),
    }
}

// A host with a script, and sinks for two devices.
fn host_with(alloc: Global, script: &[u8], trouble: Trouble) -> Result<MemoryHost, NoMemory>
    ensures { IfOk result (λ host. host.opened ≡ []) }
{
    let mut host = MemoryHost::new(alloc, 4096)?;
    host.file(b"s", script)?;
    host.sink(b"o0", 4096)?;
    host.sink(b"o1", 4096)?;
    make_trouble(&mut host, trouble)?;
    Ok(host)
}

fn is_written(host: &MemoryHost, name: &[u8], want: &[u8]) -> bool {
    match host.written(name) {
        Some(bytes) => bytes == want,
        None => false,
    }
}

// How a run ends, the replies, and what two devices send.
#[derive(Drop)]
struct Ends {
    status: Status,
    replies: &'static [u8],
    sent: [&'static [u8]; 2],
}

// Whether the script runs so over a host.
fn runs_so(alloc: Global, script: &[u8], trouble: Trouble, ends: &Ends) -> Result<bool, NoMemory> {
    let mut host = host_with(alloc, script, trouble)?;
    let status = replay(alloc, &mut host, b"s");
    Ok(
        status == ends.status
            && is_written(&host, b"", ends.replies)
            && is_written(&host, b"o0", ends.sent[0])
            && is_written(&host, b"o1", ends.sent[1]),
    )
}

// Without a byte sent.
fn quiet(status: Status, replies: &'static [u8]) -> Ends {
    Ends {
        status,
        replies,
        sent: [b"", b""],
    }
}

const FIRST: &[u8] =
    b"boot 16 32 64 16 8\ndevice 0 early - o0 1 0\nspawn 0\nmap 0 0 4\nwrite 0 0 aabb\nout 0 c 0 5 0 2\nsend 0 10\ndone 1\n";

const READS: &[u8] =
    b"# the boot part\nboot 16 32 64 16 8\n\ndevice 0 early - o0 1 0\nspawn 0\nmap 0 0 4\nread 0 14 4\nwrite 0 15 0102\nread 0 14 4\nread 0 63 2";

const TWO: &[u8] =
    b"boot 16 32 64 16 8\ndevice 1 early - o1 1 0\ndevice 0 early s o0 1 0\nspawn 0\nmap 0 0 1\nwrite 0 0 aabb\nout 0 c 1 5 0 1\nout 0 c 0 6.7 1 1\nsend 0 13\nsend 1 9\n";

#[test]
fn scripts_of_one_and_two_devices(rt: HostRuntime) -> Result<(), Fail> {
    let first = Ends {
        status: Status::Done,
        replies: b"ok\nok\nok\nok\nid 1\nsent 10\nout 2\n",
        sent: [b"GD\x00\x05\x00\x00\x00\x02\xaa\xbb", b""],
    };
    let reads = quiet(
        Status::Done,
        b"ok\nok\nok\ndata 00000000\nok\ndata 00010200\nerr range\n",
    );
    let two = Ends {
        status: Status::Done,
        replies: b"ok\nok\nok\nok\nid 1\nid 2\nsent 13\nsent 9\n",
        sent: [
            b"GE\x00\x06\x00\x00\x00\x01\x00\x00\x00\x07\xbb",
            b"GD\x00\x05\x00\x00\x00\x01\xaa",
        ],
    };
    for (script, ends) in [(FIRST, first), (READS, reads), (TWO, two)] {
        assert!(rt; runs_so(rt.alloc(), script, Trouble::Nothing, &ends)?);
    }
    Ok(())
}

// Scripts, how their runs end, and the replies.
const ENDINGS: &[(&[u8], Status, &[u8])] = &[
    (b"boot 16 32 64 16 8", Status::Done, b"ok\n"),
    (
        b"boot 16 32 64 16 8\nspawn 0\nread 0 0 01\n",
        Status::BadLine(3),
        b"ok\nok\n",
    ),
    (b"\n# a comment\n", Status::BadBoot(0), b""),
    (b"\ndevice 0 early - - 1 0\n", Status::BadLine(2), b""),
    (b"#\nboot 16 15 64 16 8\n", Status::BadBoot(2), b""),
    (
        b"boot 16 32 64 16 8\nspawn 0\ndevice 0 early - - 1 0\n",
        Status::BadLine(3),
        b"ok\nok\n",
    ),
    (
        b"boot 16 32 64 16 8\ndevices 0 early - - 1 0\n",
        Status::BadLine(2),
        b"ok\n",
    ),
    (b"boot 16 32 64 16 8\ndevice\n", Status::BadLine(2), b""),
    (
        b"boot 16 32 64 16 8\ndevice 8 early - - 1 0\n",
        Status::BadBoot(2),
        b"",
    ),
    (
        b"boot 16 32 64 16 8\ndevice 0 early - s 1 0\n",
        Status::BadBoot(2),
        b"",
    ),
    (
        b"boot 16 32 64 16 8\ndevice 0 early o0 - 1 0\ndevice 1 early - o0 1 0\n",
        Status::BadBoot(3),
        b"",
    ),
];

#[test]
fn scripts_that_end_early(rt: HostRuntime) -> Result<(), Fail> {
    for (script, status, replies) in ENDINGS {
        let ends = quiet(*status, *replies);
        assert!(rt; runs_so(rt.alloc(), script, Trouble::Nothing, &ends)?);
    }
    Ok(())
}

// A boot line, and a comment of so many bytes.
fn with_comment(alloc: Global, count: usize) -> Result<Vec<u8>, NoMemory> {
    let mut script = Vec::new(alloc);
    script.extend_from_slice(b"boot 16 32 64 16 8\n")?;
    for _ in 0..count {
        script.push(b'#')?;
    }
    Ok(script)
}

#[test]
fn lines_at_the_longest(rt: HostRuntime) -> Result<(), Fail> {
    for (count, status) in [(8300, Status::Done), (8301, Status::TooLong)] {
        let script = with_comment(rt.alloc(), count)?;
        let ends = quiet(status, b"ok\n");
        assert!(rt; runs_so(rt.alloc(), script.as_slice(), Trouble::Nothing, &ends)?);
    }
    Ok(())
}

// Troubles, and the replies that are written under them.
const TROUBLES: &[(Trouble, &[u8])] = &[
    (Trouble::FailAt(b"s", 40), b""),
    (Trouble::FailAt(b"s", 55), b"ok\nok\n"),
    (Trouble::FailAt(b"", 5), b"ok\nok"),
    (
        Trouble::FailAt(b"o0", 0),
        b"ok\nok\nok\nok\nid 1\nsent 10\nout 2\n",
    ),
    (Trouble::Refuse(b"s"), b""),
    (Trouble::Refuse(b"o0"), b""),
];

#[test]
fn hosts_that_fail(rt: HostRuntime) -> Result<(), Fail> {
    for (trouble, replies) in TROUBLES {
        let ends = quiet(Status::HostFault, *replies);
        assert!(rt; runs_so(rt.alloc(), FIRST, *trouble, &ends)?);
    }
    Ok(())
}
