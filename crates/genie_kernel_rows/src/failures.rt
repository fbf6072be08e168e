//! Hosts and stores that fail once, at several places.

use crate::stepping::Course;
use crate::templates::{Case, KINDS, SEMANTICS, run_case};
use crate::wiring::Trouble;
use genie_base::NoMemory;
use genie_store::{FailingStore, MemoryStore};
use std::alloc::Global;
use std::process::Abort;
use std::test::Fail;

// Places in the output and in the input: in a header, at its end, in a payload, and at a payload's end.
const PLACES: [(u64, u64); 4] = [(0, 3), (3, 0), (8, 27), (51, 43)];

// Calls of the store.
const CALLS: [u64; 4] = [1, 3, 8, 15];

// Whether a host that fails at these two places gives two lines of failure.
fn host_fails(alloc: Global, case: &Case, output: u64, input: u64) -> Result<bool, Trouble> {
    let course = Course {
        events: u32::MAX,
        swept: false,
        again: true,
    };
    let failing = [("o0", output), ("i0", input)];
    let ending = run_case(alloc, case, &failing, &mut MemoryStore::new(alloc), &course)?;
    Ok(
        ending.log.device_faults == 2
            && ending.host.faults(1) == 1
            && ending.host.faults(2) == 1
            && ending.free.is_some(),
    )
}

// The replies without those that show a failure of the store.
fn without_faults(alloc: Global, replies: &[u8]) -> Result<Vec<u8>, NoMemory> {
    let mut rest = Vec::new(alloc);
    for line in str::from_utf8(replies).unwrap_or("").lines() {
        if line != "fault store" {
            rest.extend_from_slice(line.as_bytes())?;
            rest.push(b'\n')?;
        }
    }
    Ok(rest)
}

// Whether a store that fails in one call gives one line of failure, and else the same replies as one that never fails.
fn store_fails(alloc: Global, case: &Case, call: u64, replies: &[u8]) -> Result<bool, Trouble> {
    let course = Course {
        events: u32::MAX,
        swept: true,
        again: true,
    };
    let mut store = FailingStore::new(alloc, &[call])?;
    let ending = run_case(alloc, case, &[], &mut store, &course)?;
    Ok(
        ending.log.store_faults == 1
            && without_faults(alloc, ending.log.replies.as_slice())?.as_slice() == replies
            && ending.free.is_some(),
    )
}

fn stores_fail(rt: &impl Abort, alloc: Global, case: &Case) -> Result<(), Trouble> {
    let course = Course {
        events: u32::MAX,
        swept: false,
        again: false,
    };
    let whole = run_case(alloc, case, &[], &mut MemoryStore::new(alloc), &course)?;
    for call in CALLS {
        assert!(rt;
            store_fails(alloc, case, call, whole.log.replies.as_slice())?,
            "{} on {}, call {call}",
            case.semantics,
            case.kind
        );
    }
    Ok(())
}

fn hosts_fail(rt: &impl Abort, alloc: Global, case: &Case) -> Result<(), Trouble> {
    for (output, input) in PLACES {
        assert!(rt;
            host_fails(alloc, case, output, input)?,
            "{} on {}, {output} and {input}",
            case.semantics,
            case.kind
        );
    }
    Ok(())
}

#[test]
fn each_class_under_failures(rt: HostRuntime) -> Result<(), Fail> {
    for kind in KINDS {
        for (semantics, system) in SEMANTICS {
            let case = Case {
                page: 16,
                kind,
                semantics,
                system,
            };
            hosts_fail(&rt, rt.alloc(), &case)?;
            stores_fail(&rt, rt.alloc(), &case)?;
        }
    }
    Ok(())
}
