//! Whole runs by the kernel, over a host and a store in memory.
ghost use Rattle.std.specs.Prelude.{◌≡◌, [], IfOk, OnOk};

use crate::replay;
use genie_base::NoMemory;
use genie_host::MemoryHost;
use genie_playing::costs::Listing;
use genie_replay::Status;
use genie_store::{FailingStore, MemoryStore, Store};
use std::alloc::Global;
use std::test::Fail;

// What goes wrong at a host.
#[derive(Clone, Copy)]
enum Trouble {
    Nothing,
    // a call on the file of this name fails at this place
    FailAt(&'static [u8], u64),
    // no file of this name can be opened
    Refuse(&'static [u8]),
}

// A run: how it ends, the replies, what the device sends, and whether a kernel is handed back.
#[derive(Drop)]
struct Row {
    script: &'static [u8],
    trouble: Trouble,
    status: Status,
    replies: &'static [u8],
    sent: &'static [u8],
    boots: bool,
}

fn make_trouble(host: &mut MemoryHost, trouble: Trouble) -> Result<(), NoMemory>
    ensures { OnOk result (host.new.opened ≡ host.old.opened) }
{
    match trouble {
        Trouble::Nothing => Ok(()),
        Trouble::FailAt(name, at) => host.fail_at(name, at),
        Trouble::Refuse(name) => host.refuse(name),
    }
}

// A host with a script, a datagram for the device, and a sink for what it sends.
fn host_with(alloc: Global, script: &[u8], trouble: Trouble) -> Result<MemoryHost, NoMemory>
    ensures { IfOk result (λ host. host.opened ≡ []) }
{
    let mut host = MemoryHost::new(alloc, 4096)?;
    host.file(b"s", script)?;
    host.file(b"i0", b"GD\x00\x05\x00\x00\x00\x02\xcc\xdd")?;
    host.sink(b"o0", 4096)?;
    make_trouble(&mut host, trouble)?;
    Ok(host)
}

fn is_written(host: &MemoryHost, name: &[u8], want: &[u8]) -> bool {
    match host.written(name) {
        Some(bytes) => bytes == want,
        None => false,
    }
}

// How a run ends, and whether a kernel is handed back, which is closed.
fn ends<S: Store>(alloc: Global, host: &mut MemoryHost, store: &mut S) -> (Status, bool)
    requires closed { host.old.opened ≡ [] }
    requires empty { (S.view store.old).count ≡ 0 }
{
    let mut ended = replay(alloc, Listing::Replies, b"s", host, store);
    let status = ended.finish();
    (status, ended.kernel.is_some())
}

// Whether the script runs so.
fn runs_so(alloc: Global, row: &Row) -> Result<bool, NoMemory> {
    let mut host = host_with(alloc, row.script, row.trouble)?;
    let mut store = MemoryStore::new(alloc);
    let (status, boots) = ends(alloc, &mut host, &mut store);
    Ok(
        status == row.status
            && boots == row.boots
            && is_written(&host, b"", row.replies)
            && is_written(&host, b"o0", row.sent),
    )
}

const BOTH: &[u8] =
    b"boot 16 32 64 16 8\ndevice 0 early i0 o0 1 0\nspawn 0\nmap 0 0 4\nwrite 0 0 aabb\nout 0 ec 0 5 0 2\nin 0 c 0 5 16 2\nrecv 0 20\ndone 2\nread 0 16 2\nsend 0 10\ndone 1\n";

const REPLIES: &[u8] = b"ok\nok\nok\nok\nid 1\nid 2\ngot 10\nin 2\ndata ccdd\nsent 10\nout 2\n";

const SENDS: &[u8] =
    b"boot 16 32 64 16 8\ndevice 0 early - o0 1 0\nspawn 0\nmap 0 0 4\nwrite 0 0 aabb\nout 0 c 0 5 0 2\nsend 0 10\n";

fn rows() -> [Row; 8] {
    [
        Row {
            script: BOTH,
            trouble: Trouble::Nothing,
            status: Status::Done,
            replies: REPLIES,
            sent: b"GD\x00\x05\x00\x00\x00\x02\xaa\xbb",
            boots: true,
        },
        Row {
            script: b"boot 16 32 64 16 8\nspawn 0\nread 0 0 01\n",
            trouble: Trouble::Nothing,
            status: Status::BadLine(3),
            replies: b"ok\nok\n",
            sent: b"",
            boots: true,
        },
        Row {
            script: b"boot 16 32 64 16 8\ndevice 8 early - - 1 0\n",
            trouble: Trouble::Nothing,
            status: Status::BadBoot(2),
            replies: b"",
            sent: b"",
            boots: false,
        },
        Row {
            script: BOTH,
            trouble: Trouble::FailAt(b"s", 55),
            status: Status::HostFault,
            replies: b"ok\nok\n",
            sent: b"",
            boots: true,
        },
        Row {
            script: BOTH,
            trouble: Trouble::FailAt(b"", 5),
            status: Status::HostFault,
            replies: b"ok\nok",
            sent: b"",
            boots: true,
        },
        Row {
            script: BOTH,
            trouble: Trouble::Refuse(b"o0"),
            status: Status::HostFault,
            replies: b"",
            sent: b"",
            boots: false,
        },
        Row {
            script: SENDS,
            trouble: Trouble::FailAt(b"o0", 4),
            status: Status::Done,
            replies: b"ok\nok\nok\nok\nid 1\nfault 4\n",
            sent: b"GD\x00\x05",
            boots: true,
        },
        Row {
            script: BOTH,
            trouble: Trouble::FailAt(b"i0", 4),
            status: Status::Done,
            replies: b"ok\nok\nok\nok\nid 1\nid 2\nfault 4\nerr state\ndata 0000\nsent 10\nout 2\n",
            sent: b"GD\x00\x05\x00\x00\x00\x02\xaa\xbb",
            boots: true,
        },
    ]
}

#[test]
fn scripts_run_so(rt: HostRuntime) -> Result<(), Fail> {
    for (number, row) in rows().iter().enumerate() {
        assert_eq!(rt; (number, runs_so(rt.alloc(), row)?), (number, true));
    }
    Ok(())
}

const PAGED: &[u8] =
    b"boot 16 32 64 16 8\nspawn 0\nmap 0 0 4\nwrite 0 0 aabb\npageout 1\npageout 1\nread 0 0 2\nread 0 0 2\n";

#[test]
fn a_store_fails_twice(rt: HostRuntime) -> Result<(), Fail> {
    let mut host = host_with(rt.alloc(), PAGED, Trouble::Nothing)?;
    let mut store = FailingStore::new(rt.alloc(), &[1, 3])?;
    assert_eq!(rt;
        ends(rt.alloc(), &mut host, &mut store),
        (Status::Done, true)
    );
    let replies = b"ok\nok\nok\nok\nfault store\nok\nfault store\ndata aabb\n";
    assert!(rt; is_written(&host, b"", replies));
    Ok(())
}
