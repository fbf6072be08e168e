//! A console over a host in memory, and over real files.
ghost use Rattle.std.specs.Prelude.{◌≡◌, ◌<◌, [], IfOk};

use crate::{Console, ROOM};
use genie_base::NoMemory;
use genie_host::{Failed, FileHost, Host, MemoryHost, OpenRefused};
use std::alloc::Global;
use std::fs;
use std::test::Fail;

/// A call that failed, as a count.
const FAILED: usize = 99;

// How many bytes a write of replies took.
fn write<H: Host>(host: &mut H, bytes: &[u8]) -> usize
    ensures { (H.view host.new).opened ≡ (H.view host.old).opened }
{
    match host.write(0, bytes) {
        Ok(count) => count,
        Err(Failed) => FAILED,
    }
}

// Opens a name, and says how many of four bytes a read of it took.
fn read<H: Host>(host: &mut H, name: &[u8]) -> Result<usize, OpenRefused>
    requires { (H.view host.old).opened < 19 }
    ensures { (H.view host.new).opened < 20 }
{
    let mut into = [0u8; 4];
    let handle = host.open_read(name)?;
    match host.read(handle, &mut into) {
        Ok(count) => Ok(count),
        Err(Failed) => Ok(FAILED),
    }
}

// A host with a file, and room for so many bytes of replies. Its reply output fails once, behind three bytes.
fn prepared(alloc: Global, room: u64) -> Result<MemoryHost, NoMemory>
    ensures { IfOk result (λ host. host.opened ≡ []) }
{
    let mut host = MemoryHost::new(alloc, room)?;
    host.file(b"in", b"xyz")?;
    host.fail_at(b"", 3)?;
    Ok(host)
}

// Whether these bytes went to the host inside, and these wait.
fn stands(console: &Console<MemoryHost>, flushed: &[u8], waiting: &[u8]) -> bool {
    match console.inner().written(b"") {
        Some(bytes) => bytes == flushed && console.waiting() == waiting,
        None => false,
    }
}

#[test]
fn replies_wait_for_a_read_and_a_failure_is_answered(rt: HostRuntime) -> Result<(), Fail> {
    let mut console = Console::new(rt.alloc(), prepared(rt.alloc(), 8)?)?;
    assert_eq!(rt; write(&mut console, b"abc"), 3);
    assert_eq!(rt; write(&mut console, b"de"), 2);
    assert!(rt; stands(&console, b"", b"abcde"));
    assert_eq!(rt; read(&mut console, b"in")?, 3);
    assert!(rt; stands(&console, b"abc", b"de"));
    assert_eq!(rt; write(&mut console, b"f"), FAILED);
    assert_eq!(rt; write(&mut console, b"f"), 1);
    assert!(rt; console.finish().is_ok());
    assert!(rt; stands(&console, b"abcdef", b""));
    assert_eq!(rt; write(&mut console, b"ghi"), 3);
    assert!(rt; console.finish().is_err());
    assert!(rt; stands(&console, b"abcdefgh", b"i"));
    Ok(())
}

// Fills the room, and says how many bytes were taken.
fn fill<H: Host>(host: &mut H) -> usize {
    let piece = [7u8; 1000];
    let mut count = 0usize;
    for _ in 0..66 {
        count = count.saturating_add(write(host, &piece));
    }
    count
}

// How many bytes went to the host inside, and how many wait.
fn counts(console: &Console<MemoryHost>) -> (usize, usize) {
    match console.inner().written(b"") {
        Some(bytes) => (bytes.len(), console.waiting().len()),
        None => (FAILED, FAILED),
    }
}

#[test]
fn a_full_console_flushes(rt: HostRuntime) -> Result<(), Fail> {
    let mut inner = MemoryHost::new(rt.alloc(), 100_000)?;
    inner.pieces(5000);
    let mut console = Console::new(rt.alloc(), inner)?;
    assert_eq!(rt; fill(&mut console), ROOM);
    assert_eq!(rt; counts(&console), (0, ROOM));
    assert_eq!(rt; write(&mut console, b"z"), 1);
    assert_eq!(rt; counts(&console), (ROOM, 1));
    assert!(rt; console.finish().is_ok());
    assert_eq!(rt; counts(&console), (ROOM + 1, 0));
    Ok(())
}

// Writes to a file, and reads it.
fn copies<H: Host>(host: &mut H, name: &[u8]) -> Result<(usize, [u8; 4]), OpenRefused>
    requires { (H.view host.old).opened ≡ 0 }
{
    let written = host.open_write(name)?;
    let count = match host.write(written, b"abcd") {
        Ok(count) => count,
        Err(Failed) => FAILED,
    };
    let mut into = [0u8; 4];
    let read = host.open_read(name)?;
    let _ = host.read(read, &mut into);
    Ok((count, into))
}

#[test]
fn real_files_are_those_of_the_host_inside(rt: HostRuntime) -> Result<(), Fail> {
    let name = "genie_console_test.tmp";
    let mut console = Console::new(rt.alloc(), FileHost::new(&rt, rt.alloc())?)?;
    let (count, bytes) = copies(&mut console, name.as_bytes())?;
    assert_eq!(rt; count, 4);
    assert_eq!(rt; bytes.as_slice(), b"abcd".as_slice());
    assert!(rt; console.finish().is_ok());
    fs::remove_file(&rt, name)?;
    Ok(())
}
