//! The worked scripts by the kernel, beside the plain machine.

use crate::scenes::{Scene, from_hex, inputs_of};
use crate::stepping::{Course, Ending, run};
use crate::wiring::Trouble;
use genie_base::NoMemory;
use genie_host::MemoryHost;
use genie_rows::marked::{MarkedRow, failures};
use genie_rows::rows::{Row, accesses, devices, inputs, limits, modes, moves, outputs};
use genie_store::{FailingStore, MemoryStore};
use std::alloc::Global;
use std::process::Abort;
use std::test::Fail;

// A run of the first events of a row.
fn run_row(alloc: Global, row: &Row, events: u32, swept: bool) -> Result<Ending, Trouble> {
    let inputs = inputs_of(alloc, row.inputs)?;
    let scene = Scene {
        script: row.script,
        inputs: inputs.as_slice(),
        failing: &[],
        room: 4096,
    };
    let course = Course {
        events,
        swept,
        again: false,
    };
    run(alloc, &scene, &mut MemoryStore::new(alloc), &course)
}

// Whether this was written to the output of this name.
fn is_written(alloc: Global, host: &MemoryHost, name: &str, text: &str) -> Result<bool, NoMemory> {
    let want = from_hex(alloc, text)?;
    match host.written(name.as_bytes()) {
        Some(bytes) => Ok(bytes == want.as_slice()),
        None => Ok(false),
    }
}

fn outputs_are(alloc: Global, host: &MemoryHost, row: &Row) -> Result<bool, NoMemory> {
    for (name, text) in row.outputs {
        if !is_written(alloc, host, name, text)? {
            return Ok(false);
        }
    }
    Ok(true)
}

// Whether the row's run gives what it should, and the kernel closes behind each prefix with nothing lent.
fn is_as_worked(alloc: Global, row: &Row, swept: bool) -> Result<bool, Trouble> {
    let whole = run_row(alloc, row, u32::MAX, swept)?;
    if whole.log.replies.as_slice() != row.replies.as_bytes()
        || !outputs_are(alloc, &whole.host, row)?
        || whole.free.is_none()
    {
        return Ok(false);
    }
    for events in 0..whole.log.events {
        if run_row(alloc, row, events, swept)?.free.is_none() {
            return Ok(false);
        }
    }
    Ok(true)
}

// Runs all of these.
fn run_rows(rt: &impl Abort, alloc: Global, rows: &[Row], swept: bool) -> Result<(), Trouble> {
    for row in rows {
        assert!(rt; is_as_worked(alloc, row, swept)?, "{}", row.about);
    }
    Ok(())
}

#[test]
fn worked_scripts(rt: HostRuntime) -> Result<(), Fail> {
    for swept in [false, true] {
        run_rows(&rt, rt.alloc(), accesses(), swept)?;
        run_rows(&rt, rt.alloc(), outputs(), swept)?;
        run_rows(&rt, rt.alloc(), inputs(), swept)?;
        run_rows(&rt, rt.alloc(), moves(), swept)?;
        run_rows(&rt, rt.alloc(), devices(), swept)?;
        run_rows(&rt, rt.alloc(), limits(), swept)?;
        run_rows(&rt, rt.alloc(), modes(), swept)?;
    }
    Ok(())
}

const BOOT: &[u8] = b"boot 16 32 64 16 8\ndevice 0 early i0 o0 1 0\n";

// The script of a row in which something fails, and the replies.
fn text_of(alloc: Global, row: &MarkedRow) -> Result<(Vec<u8>, Vec<u8>), NoMemory> {
    let mut script = Vec::new(alloc);
    let mut replies = Vec::new(alloc);
    script.extend_from_slice(BOOT)?;
    replies.extend_from_slice(b"ok\n")?;
    for (line, _, reply) in row.lines {
        script.extend_from_slice(line.as_bytes())?;
        script.push(b'\n')?;
        replies.extend_from_slice(reply.as_bytes())?;
    }
    Ok((script, replies))
}

// Whether the row's run over a host and a store that fail so gives what it should.
fn fails_as_worked(
    alloc: Global,
    row: &MarkedRow,
    failing: &[(&'static str, u64)],
    calls: &[u64],
) -> Result<bool, Trouble> {
    let (script, replies) = text_of(alloc, row)?;
    let inputs = inputs_of(alloc, &[("i0", row.input)])?;
    let scene = Scene {
        script: str::from_utf8(script.as_slice()).unwrap_or(""),
        inputs: inputs.as_slice(),
        failing,
        room: 4096,
    };
    let course = Course {
        events: u32::MAX,
        swept: false,
        again: false,
    };
    let mut store = FailingStore::new(alloc, calls)?;
    let ending = run(alloc, &scene, &mut store, &course)?;
    Ok(
        ending.log.replies == replies
            && is_written(alloc, &ending.host, "o0", row.sent)?
            && ending.free.is_some(),
    )
}

// Where the host, and in which call the store fails in each of those rows.
const FAILING: [(&[(&str, u64)], &[u64]); 3] = [
    (&[("o0", 3)], &[]),
    (&[], &[1]),
    (&[("i0", 10)], &[]),
];

#[test]
fn worked_failures(rt: HostRuntime) -> Result<(), Fail> {
    for (row, (failing, calls)) in failures().iter().zip(FAILING) {
        assert!(rt;
            fails_as_worked(rt.alloc(), row, failing, calls)?,
            "{}",
            row.about
        );
    }
    Ok(())
}
