//! The hosts, run once.
ghost use Rattle.std.specs.Prelude.{◌≡◌, ◌<◌, ◌≤◌, [], IfOk};
ghost use Rattle.genie_host.specs.Host.{Reading, Writing};

use crate::{Failed, FileHost, Host, MemoryHost, OpenRefused};
use genie_base::NoMemory;
use std::alloc::Global;
use std::fs;
use std::test::Fail;

/// A call that failed, in a list of counts.
const FAILED: usize = 99;

// How many bytes each of six reads into a buffer of four took.
fn reads<H: Host>(host: &mut H, handle: u32) -> [usize; 6]
    requires { ((H.view host.old).handle handle).mode ≡ Reading }
    ensures { (H.view host.new).opened ≡ (H.view host.old).opened }
{
    let mut counts = [0usize; 6];
    let mut into = [0u8; 4];
    for count in counts.iter_mut() {
        *count = match host.read(handle, &mut into) {
            Ok(count) => count,
            Err(Failed) => FAILED,
        };
    }
    counts
}

// How many of four bytes each of six writes appended.
fn writes<H: Host>(host: &mut H, handle: u32) -> [usize; 6]
    requires { ((H.view host.old).handle handle).mode ≡ Writing }
    ensures { (H.view host.new).opened ≡ (H.view host.old).opened }
{
    let mut counts = [0usize; 6];
    for count in counts.iter_mut() {
        *count = match host.write(handle, b"abcd") {
            Ok(count) => count,
            Err(Failed) => FAILED,
        };
    }
    counts
}

fn reads_named<H: Host>(host: &mut H, name: &[u8]) -> Result<[usize; 6], OpenRefused>
    requires { (H.view host.old).opened < 19 }
    ensures { (H.view host.new).opened < 20 }
{
    let handle = host.open_read(name)?;
    Ok(reads(host, handle))
}

fn writes_named<H: Host>(host: &mut H, name: &[u8]) -> Result<[usize; 6], OpenRefused>
    requires { (H.view host.old).opened < 18 }
    ensures { (H.view host.new).opened < 19 }
{
    let handle = host.open_write(name)?;
    Ok(writes(host, handle))
}

fn can_read<H: Host>(host: &mut H, name: &[u8]) -> bool
    requires { (H.view host.old).opened < 20 }
{
    host.open_read(name).is_ok()
}

// A host with a file of ten bytes, which fails once, a sink with room for ten, and a name that is refused.
fn prepared(alloc: Global) -> Result<MemoryHost, NoMemory>
    ensures { IfOk result (λ host. host.opened ≡ []) }
{
    let mut host = MemoryHost::new(alloc, 10)?;
    host.file(b"in", b"abcdefghij")?;
    host.fail_at(b"in", 3)?;
    host.sink(b"out", 10)?;
    host.file(b"shut", b"abc")?;
    host.refuse(b"shut")?;
    host.pieces(8);
    Ok(host)
}

fn is_written(host: &MemoryHost, name: &[u8], want: &[u8]) -> bool {
    match host.written(name) {
        Some(bytes) => bytes == want,
        None => false,
    }
}

#[test]
fn files_in_memory_are_written_and_read(rt: HostRuntime) -> Result<(), Fail> {
    let mut host = prepared(rt.alloc())?;
    assert_eq!(rt;
        writes_named(&mut host, b"out")?,
        [4, 4, 2, FAILED, FAILED, FAILED]
    );
    assert_eq!(rt; reads_named(&mut host, b"in")?, [3, FAILED, 4, 3, 0, 0]);
    assert!(rt; !can_read(&mut host, b"shut"));
    assert!(rt; is_written(&host, b"out", b"abcdabcdab"));
    assert_eq!(rt;
        [host.faults(1), host.faults(2), host.refusals()],
        [3, 1, 1]
    );
    Ok(())
}

// Six writes to a file, and then its first bytes and six reads of what is left.
fn writes_then_reads<H: Host>(
    host: &mut H,
    name: &[u8],
) -> Result<([usize; 6], [u8; 6], [usize; 6]), OpenRefused>
    requires { (H.view host.old).opened ≡ 0 }
{
    let written = host.open_write(name)?;
    let counts = writes(host, written);
    let read = host.open_read(name)?;
    let mut first = [0u8; 6];
    let _ = host.read(read, &mut first);
    Ok((counts, first, reads(host, read)))
}

#[test]
fn real_files_are_written_and_read(rt: HostRuntime) -> Result<(), Fail> {
    let name = "genie_host_test.tmp";
    let mut host = FileHost::new(&rt, rt.alloc())?;
    let (written, first, read) = writes_then_reads(&mut host, name.as_bytes())?;
    assert_eq!(rt; written, [4, 4, 4, 4, 4, 4]);
    assert_eq!(rt; first.as_slice(), b"abcdab".as_slice());
    assert_eq!(rt; read, [4, 4, 4, 4, 2, 0]);
    let mut host = FileHost::new(&rt, rt.alloc())?;
    assert!(rt; !can_read(&mut host, b"genie_host_missing.tmp"));
    fs::remove_file(&rt, name)?;
    Ok(())
}
