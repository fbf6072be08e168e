//! A process writes its memory.
ghost use Rattle.std.specs.Prelude.{◌≡◌, ◌+◌, ◌≤◌, ◌^◌, None, length, OnOk, OnErr};
ghost use Rattle.genie_base.specs.Causes.{HasCause};
ghost use Rattle.genie_base.specs.Events.{mark_of};
ghost use Rattle.genie_base.specs.declared.event.Event.TheVariants as event;
ghost use Rattle.genie_host.specs.Host.{HostView};
ghost use Rattle.genie_object.specs.Costs.{AreBelow};
ghost use Rattle.genie_object.specs.Sound.{IsSized};
ghost use Rattle.genie_model.specs.Refusing.{refuse};
ghost use Rattle.genie_kernel.specs.Good.{IsGood};
ghost use Rattle.genie_kernel.specs.Kept.{Kept};
ghost use Rattle.genie_kernel.specs.Rising.{MetersRise};
ghost use Rattle.genie_kernel.specs.Steps.{StepsTold, StoreCause};
ghost use Rattle.genie_kernel.specs.View.{view, outline};
ghost use Rattle.genie_copying.specs.Bounds.{event_bound, KeepsToBound};
ghost use Rattle.genie_copying.specs.Getting.{pages_most};
ghost use Rattle.genie_copying.specs.Spending.{CopiesAtMost};
ghost use Rattle.genie_access.specs.Moving.{with_memory, KeepsSeen};
ghost use Rattle.genie_access.specs.Storing.{WritesAt};

use crate::reading::{find_place, make_two};
use crate::storing::write_range;
use genie_base::{PageBytes, Reply};
use genie_kernel::Kernel;
use genie_kernel::laws::{memory_calls_keep_good, view_is_tidy};
use genie_store::{Store, StoreFault};

// Stores the bytes of a write.
fn write_from<S: Store>(
    kernel: &mut Kernel,
    store: &mut S,
    pid: u32,
    addr: u32,
    bytes: &[u8],
) -> Result<(), StoreFault>
    requires good { IsGood kernel.old }
    requires sized { IsSized kernel.old.memory (S.view store.old) }
    requires meters { AreBelow (2 ^ 63) kernel.old.memory.frames.meters }
    requires short { length bytes.now ≤ 4096 }
    requires accepted { refuse (outline kernel.old) (event.Write pid addr bytes.now) ≡ None }
    ensures only { kernel.new ≡ with_memory kernel.old kernel.new.memory kernel.new.clock }
    ensures stored { OnOk result (WritesAt kernel.old kernel.new.memory (S.view store.old) (S.view store.new) pid addr bytes.now) }
    ensures failed { OnErr result (KeepsSeen kernel.old kernel.new.memory (S.view store.old) (S.view store.new)) }
    ensures cause { HasCause (S.view store.old).faults (S.view store.new).faults result }
    ensures rises { MetersRise (2 ^ 36) kernel.old.memory.frames kernel.new.memory.frames }
    ensures landed { kernel.new.memory.frames.landed ≡ kernel.old.memory.frames.landed }
    ensures gets { kernel.new.memory.frames.meters.gets ≤ kernel.old.memory.frames.meters.gets + pages_most kernel.old (event.Write pid addr bytes.now) }
    ensures copies { CopiesAtMost (event_bound kernel.old (event.Write pid addr bytes.now)) kernel.old.memory kernel.new.memory }
{
    let (object, off) = find_place(kernel, pid, addr, bytes.len() as u32);
    match make_two(kernel, store) {
        Ok(()) => {}
        Err(fault) => return Err(fault),
    }
    match write_range(&mut kernel.memory, store, object, off, bytes) {
        Ok(()) => Ok(()),
        Err(fault) => Err(fault),
    }
}

/// Stores bytes in a process's memory from address `addr` on, at most a page's length of them. Pages that are in no frame
/// come into one. Of a page that others share, or that a device sends as it was lent, the process gets a copy of its own.
/// Where the store fails, no byte is stored, and what processes and devices see is as before.
pub fn write<S: Store>(
    kernel: &mut Kernel,
    store: &mut S,
    pid: u32,
    addr: u32,
    bytes: &PageBytes<'_>,
) -> Reply<'static>
    requires good { IsGood kernel.old }
    requires sized { IsSized kernel.old.memory (S.view store.old) }
    requires meters { AreBelow (2 ^ 63) kernel.old.memory.frames.meters }
    requires accepted { refuse (outline kernel.old) (event.Write pid addr bytes.now) ≡ None }
    ensures good { IsGood kernel.new }
    ensures sized { IsSized kernel.new.memory (S.view store.new) }
    ensures kept { Kept kernel.old kernel.new }

    // Nothing of the kernel changes but the memory and the clock.
    ensures only { kernel.new ≡ with_memory kernel.old kernel.new.memory kernel.new.clock }
    ensures numbers { kernel.new.next ≡ kernel.old.next }
    ensures step { (host : HostView) → StepsTold (view kernel.old host (S.view store.old)) (event.Write pid addr bytes.now) (view kernel.new host (S.view store.new)) result }
    ensures cause { StoreCause (mark_of result) (S.view store.old).faults (S.view store.new).faults }

    // Only the bytes written are moved, and pages that can't be written in place are copied or zeroed.
    ensures copying { KeepsToBound kernel.old (event.Write pid addr bytes.now) kernel.new result }
    ensures rises { MetersRise (2 ^ 36) kernel.old.memory.frames kernel.new.memory.frames }

    // No byte of a device lands by it, and no more pages come from the store than it reaches.
    ensures landed { kernel.new.memory.frames.landed ≡ kernel.old.memory.frames.landed }
    ensures gets { kernel.new.memory.frames.meters.gets ≤ kernel.old.memory.frames.meters.gets + pages_most kernel.old (event.Write pid addr bytes.now) }
{
    memory_calls_keep_good();
    view_is_tidy();
    match write_from(kernel, store, pid, addr, bytes.as_slice()) {
        Ok(()) => Reply::Okay,
        Err(_) => Reply::StoreFault,
    }
}
