//! Words, and what they do over a host and a store in memory.
ghost use Rattle.std.specs.Prelude.{◌≡◌, [], IfOk, OnOk};

use crate::run;
use genie_base::NoMemory;
use genie_host::MemoryHost;
use genie_replay::Status;
use genie_store::MemoryStore;
use std::alloc::Global;
use std::test::Fail;

const SCRIPT: &[u8] =
    b"boot 16 32 64 0 8\ndevice 0 early - o0 1 0\nspawn 0\nmap 0 0 4\nwrite 0 0 aabb\nout 0 ec 0 5 0 2\nsend 0 10\nsend 0 10\ndone 1\n";

const REPLAY: &[&str] = &["replay", "s"];

const COST: &[&str] = &["cost", "s"];

const MAKE: &[&str] = &["make", "1", "1"];

// The call on this file that fails, and at which place, if any.
type Trouble = Option<(&'static [u8], u64)>;

fn make_trouble(host: &mut MemoryHost, trouble: Trouble) -> Result<(), NoMemory>
    ensures { OnOk result (host.new.opened ≡ host.old.opened) }
{
    match trouble {
        None => Ok(()),
        Some((name, at)) => host.fail_at(name, at),
    }
}

// A host with the script, and a sink for its device.
fn host_with(alloc: Global, trouble: Trouble) -> Result<MemoryHost, NoMemory>
    ensures { IfOk result (λ host. host.opened ≡ []) }
{
    let mut host = MemoryHost::new(alloc, 4096)?;
    host.file(b"s", SCRIPT)?;
    host.sink(b"o0", 4096)?;
    make_trouble(&mut host, trouble)?;
    Ok(host)
}

fn list_of(alloc: Global, words: &[&str]) -> Result<Vec<String>, NoMemory> {
    let mut list = Vec::new(alloc);
    for word in words {
        list.push(String::from_str(alloc, word)?)?;
    }
    Ok(list)
}

fn is_written(host: &MemoryHost, name: &[u8], want: &[u8]) -> bool {
    match host.written(name) {
        Some(bytes) => bytes == want,
        None => false,
    }
}

// How a run ends, what is written to handle 0, and what the device sends.
#[derive(Drop)]
struct Ends {
    status: Status,
    replies: &'static [u8],
    sent: &'static [u8],
    has_kernel: bool,
}

// Whether the words run so, and the kernel that is handed back is closed with every frame free but one.
fn runs_so(alloc: Global, words: &[&str], trouble: Trouble, ends: &Ends) -> Result<bool, NoMemory> {
    let mut host = host_with(alloc, trouble)?;
    let mut store = MemoryStore::new(alloc);
    let list = list_of(alloc, words)?;
    let mut ended = run(alloc, list.as_slice(), &mut host, &mut store);
    Ok(
        ended.finish() == ends.status
            && ended.kernel.is_some() == ends.has_kernel
            && is_written(&host, b"", ends.replies)
            && is_written(&host, b"o0", ends.sent),
    )
}

// Without a byte sent, or a kernel.
fn quiet(status: Status) -> Ends {
    Ends {
        status,
        replies: b"",
        sent: b"",
        has_kernel: false,
    }
}

#[test]
fn words_that_are_no_command(rt: HostRuntime) -> Result<(), Fail> {
    let none: &[&str] = &[];
    for words in [none, &["replay", "-s"], &["make", "1", "0"], &["cost"]] {
        assert!(rt; runs_so(rt.alloc(), words, None, &quiet(Status::Usage))?);
    }
    Ok(())
}

#[test]
fn a_script_whose_device_fails_goes_on(rt: HostRuntime) -> Result<(), Fail> {
    let whole = Ends {
        status: Status::Done,
        replies: b"ok\nok\nok\nok\nid 1\nsent 10\nidle\nout 2\n",
        sent: b"GD\x00\x05\x00\x00\x00\x02\xaa\xbb",
        has_kernel: true,
    };
    assert!(rt; runs_so(rt.alloc(), REPLAY, None, &whole)?);
    let failed = Ends {
        status: Status::Done,
        replies: b"ok\nok\nok\nok\nid 1\nfault 9\nsent 1\nout 2\n",
        sent: b"GD\x00\x05\x00\x00\x00\x02\xaa\xbb",
        has_kernel: true,
    };
    assert!(rt; runs_so(rt.alloc(), REPLAY, Some((b"o0", 9)), &failed)?);
    let cut = Ends {
        status: Status::HostFault,
        replies: b"ok\nok\nok",
        sent: b"",
        has_kernel: true,
    };
    assert!(rt; runs_so(rt.alloc(), REPLAY, Some((b"", 8)), &cut)?);
    Ok(())
}

// The bytes that `write` stores stand in a page that it fills with zeros. Nothing of the output is copied.
const COSTS: &[u8] =
    b"ok\nok\n# read 0 written 0 copied 0 zeroed 0 puts 0 gets 0 taken 0\nok\n# read 0 written 0 copied 0 zeroed 0 puts 0 gets 0 taken 0\nok\n# read 0 written 2 copied 0 zeroed 16 puts 0 gets 0 taken 1\nid 1\n# read 0 written 0 copied 0 zeroed 0 puts 0 gets 0 taken 0\nsent 10\n# read 0 written 0 copied 0 zeroed 0 puts 0 gets 0 taken 0\nidle\n# read 0 written 0 copied 0 zeroed 0 puts 0 gets 0 taken 0\nout 2\n# read 0 written 0 copied 0 zeroed 0 puts 0 gets 0 taken 0\n";

#[test]
fn costs_are_listed(rt: HostRuntime) -> Result<(), Fail> {
    let whole = Ends {
        status: Status::Done,
        replies: COSTS,
        sent: b"GD\x00\x05\x00\x00\x00\x02\xaa\xbb",
        has_kernel: true,
    };
    assert!(rt; runs_so(rt.alloc(), COST, None, &whole)?);
    let cut = Ends {
        status: Status::HostFault,
        replies: &COSTS[..50],
        sent: b"",
        has_kernel: true,
    };
    assert!(rt; runs_so(rt.alloc(), COST, Some((b"", 50)), &cut)?);
    Ok(())
}

// The replies of this run were derived by hand from the script, and the digest is that of their text.
const SUMMARY: &[u8] =
    b"events 30\nerr 0\nfaults 0\nsent 119\ngot 99\nsha256 4d312fb3dd523634b74c3a2577dcea3bf6146b287a63bc2da2dd5d3b635eeeb6\n";

#[test]
fn a_made_run_is_summed_up(rt: HostRuntime) -> Result<(), Fail> {
    let done = Ends {
        status: Status::Done,
        replies: SUMMARY,
        sent: b"",
        has_kernel: true,
    };
    assert!(rt; runs_so(rt.alloc(), MAKE, None, &done)?);
    let cut = Ends {
        status: Status::HostFault,
        replies: &SUMMARY[..50],
        sent: b"",
        has_kernel: true,
    };
    assert!(rt; runs_so(rt.alloc(), MAKE, Some((b"", 50)), &cut)?);
    Ok(())
}
