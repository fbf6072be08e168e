//! Long runs.
ghost use Rattle.std.specs.Prelude.{◌≡◌};
ghost use Rattle.genie_host.specs.Host.{Reading};

use crate::scenes::{Input, Scene};
use crate::stepping::{Course, Ending, run};
use crate::wiring::Trouble;
use genie_gen::GenHost;
use genie_host::{Host, MemoryHost};
use genie_rows::datagrams::{datagrams, records};
use genie_store::MemoryStore;
use std::alloc::Global;
use std::test::Fail;

// Runs a script to its end, over inputs of these bytes.
fn run_whole(
    alloc: Global,
    script: &[u8],
    streams: [Vec<u8>; 3],
    swept: bool,
    room: u64,
) -> Result<Ending, Trouble> {
    let [first, second, third] = streams;
    let inputs = [
        Input {
            name: "i0",
            bytes: first,
        },
        Input {
            name: "i1",
            bytes: second,
        },
        Input {
            name: "i2",
            bytes: third,
        },
    ];
    let scene = Scene {
        script: str::from_utf8(script).unwrap_or(""),
        inputs: &inputs,
        failing: &[],
        room,
    };
    let course = Course {
        events: u32::MAX,
        swept,
        again: false,
    };
    run(alloc, &scene, &mut MemoryStore::new(alloc), &course)
}

fn is_written(host: &MemoryHost, name: &[u8], want: &[u8]) -> bool {
    match host.written(name) {
        Some(bytes) => bytes == want,
        None => false,
    }
}

#[test]
fn forty_eight_datagrams(rt: HostRuntime) -> Result<(), Fail> {
    let (script, replies) = datagrams(rt.alloc())?;
    let stream = records(rt.alloc())?;
    let streams = [
        records(rt.alloc())?,
        records(rt.alloc())?,
        records(rt.alloc())?,
    ];
    let ending = run_whole(rt.alloc(), script.as_slice(), streams, false, 1_000_000)?;
    assert!(rt; ending.log.replies == replies && ending.free.is_some());
    for name in [b"o0", b"o1", b"o2"] {
        assert!(rt; is_written(&ending.host, name, stream.as_slice()));
    }
    Ok(())
}

// The rest of a file.
fn read_all<H: Host>(alloc: Global, host: &mut H, handle: u32) -> Result<Vec<u8>, Trouble>
    requires { ((H.view host.old).handle handle).mode ≡ Reading }
{
    let mut bytes = Vec::new(alloc);
    let mut piece = [0; 4096];
    'pieces: for _ in 0..1_000_000u32 {
        let count = match host.read(handle, &mut piece) {
            Ok(count) => count,
            Err(_) => return Err(Trouble::File),
        };
        if count == 0 {
            return Ok(bytes);
        }
        match bytes.extend_from_slice(&piece[..count]) {
            Ok(()) => {}
            Err(_) => return Err(Trouble::Memory),
        }
    }
    Err(Trouble::Limits)
}

// A file of a made run of 300 rounds.
fn made(alloc: Global, name: &[u8]) -> Result<Vec<u8>, Trouble> {
    let mut host = GenHost::new(7, 300);
    match host.open_read(name) {
        Ok(handle) => read_all(alloc, &mut host, handle),
        Err(_) => Err(Trouble::File),
    }
}

#[test]
fn three_hundred_rounds(rt: HostRuntime) -> Result<(), Fail> {
    let script = made(rt.alloc(), b"made")?;
    let streams = [
        made(rt.alloc(), b"i0")?,
        made(rt.alloc(), b"i1")?,
        made(rt.alloc(), b"i2")?,
    ];
    let ending = run_whole(rt.alloc(), script.as_slice(), streams, false, 65536)?;
    assert_eq!(rt; ending.log.events, 8103);
    // no event of a made script is refused
    let replies = str::from_utf8(ending.log.replies.as_slice()).unwrap_or("err");
    assert!(rt; !replies.contains("err") && ending.free.is_some());
    Ok(())
}
