//! Scripts that boot a kernel, which is closed again.
ghost use Rattle.std.specs.Prelude.{◌≡◌, [], IfOk};

use crate::booting::{boot, judge_boot};
use crate::settling::settle;
use crate::wiring::Trouble;
use genie_base::NoMemory;
use genie_host::MemoryHost;
use genie_store::MemoryStore;
use std::alloc::Global;

const ALL_KINDS: &str =
    "boot 16 64 128 16 8\ndevice 0 early i0 o0 1 0\ndevice 5 pooled i1 - 2 5\ndevice 2 outboard - o2 2 0\nspawn 0\n";

// A host with the files of the devices.
fn host_for(alloc: Global) -> Result<MemoryHost, NoMemory>
    ensures { IfOk result (λ host. host.opened ≡ []) }
{
    let mut host = MemoryHost::new(alloc, 64)?;
    host.file(b"i0", b"")?;
    host.file(b"i1", b"")?;
    host.sink(b"o0", 64)?;
    host.sink(b"o2", 64)?;
    Ok(host)
}

// How many frames are free once the script has booted a kernel, and once that is closed.
fn free_frames(alloc: Global, script: &str) -> Result<(u32, Option<u32>), Trouble> {
    let Ok(mut host) = host_for(alloc) else {
        return Err(Trouble::Memory);
    };
    let mut store = MemoryStore::new(alloc);
    let part = judge_boot(alloc, script)?;
    let mut kernel = boot(alloc, &mut host, &mut store, &part)?;
    let free = kernel.memory.frames.free();
    Ok((free, settle(&mut kernel)))
}

#[test]
fn a_closed_kernel_has_all_frames_free(rt: HostRuntime) {
    let table = [
        (ALL_KINDS, Ok((30, Some(64)))),
        ("boot 16 32 64 16 8\n", Ok((32, Some(32)))),
        (
            "boot 16 32 64 16 8\ndevice 0 early i9 - 1 0\n",
            Err(Trouble::File),
        ),
        ("spawn 0\n", Err(Trouble::Script)),
    ];
    for (script, want) in table {
        assert_eq!(rt; free_frames(rt.alloc(), script), want);
    }
}
