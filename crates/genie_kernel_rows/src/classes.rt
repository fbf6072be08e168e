//! Each semantics on each kind of device, at three page sizes.

use crate::stepping::Course;
use crate::templates::{Case, KINDS, SEMANTICS, run_case};
use crate::wiring::Trouble;
use genie_store::MemoryStore;
use std::alloc::Global;
use std::process::Abort;
use std::test::Fail;

// How many events the scripts of an application's and of a system's buffers have.
const EVENTS: [u32; 2] = [59, 46];

// Whether the case runs to its end, by itself and with a sweep behind each event, and closes with nothing lent; and whether
// sweeps change no reply.
fn runs(alloc: Global, case: &Case) -> Result<bool, Trouble> {
    let course = Course {
        events: u32::MAX,
        swept: false,
        again: false,
    };
    let swept = Course {
        swept: true,
        ..course
    };
    let first = run_case(alloc, case, &[], &mut MemoryStore::new(alloc), &course)?;
    let second = run_case(alloc, case, &[], &mut MemoryStore::new(alloc), &swept)?;
    Ok(
        first.free.is_some()
            && second.free.is_some()
            && first.log.replies == second.log.replies
            && first.log.events == EVENTS[usize::from(case.system)],
    )
}

// Runs each semantics on each kind of device.
fn run_all(rt: &impl Abort, alloc: Global, page: u32) -> Result<(), Trouble> {
    for kind in KINDS {
        for (semantics, system) in SEMANTICS {
            let case = Case {
                page,
                kind,
                semantics,
                system,
            };
            assert!(rt; runs(alloc, &case)?, "{semantics} on {kind}, {page}");
        }
    }
    Ok(())
}

#[test]
fn every_class(rt: HostRuntime) -> Result<(), Fail> {
    run_all(&rt, rt.alloc(), 16)?;
    run_all(&rt, rt.alloc(), 64)?;
    run_all(&rt, rt.alloc(), 4096)?;
    Ok(())
}
