//! The output call.
ghost use Rattle.std.specs.Prelude.{◌+◌, ◌≤◌, ◌≡◌, ◌<◌, ◌-◌, ◌^◌, None};
ghost use Rattle.genie_base.specs.Events.{mark_of};
ghost use Rattle.genie_base.specs.declared.event.Event.TheVariants as event;
ghost use Rattle.genie_host.specs.Host.{HostView};
ghost use Rattle.genie_object.specs.Costs.{AreBelow};
ghost use Rattle.genie_object.specs.Sound.{IsSized};
ghost use Rattle.genie_model.specs.Refusing.{refuse};
ghost use Rattle.genie_kernel.specs.Good.{IsGood};
ghost use Rattle.genie_kernel.specs.Kept.{Kept};
ghost use Rattle.genie_kernel.specs.Rising.{MetersRise};
ghost use Rattle.genie_kernel.specs.Steps.{StepsTold, StoreCause};
ghost use Rattle.genie_kernel.specs.View.{view, outline};
ghost use Rattle.genie_copying.specs.Bounds.{KeepsToBound};
ghost use Rattle.genie_copying.specs.Getting.{pages_most};
ghost use Rattle.genie_outputs.specs.Lending.{LendsFrames};

use crate::call::is_plain;
use crate::hiding::out_hidden;
use crate::moving::out_moved;
use crate::plain::out_copied;
use crate::sharing::out_shared;
use crate::strong::out_lent;
use crate::weak_moving::out_moved_out;
use genie_base::{Class, Reply, Semantics};
use genie_kernel::Kernel;
use genie_store::Store;

/// An output call: `len` bytes of a process's memory from address `addr` on wait to be sent by a device. A strong call sends
/// the bytes that they are now, a weak one those that they are when the device comes to them. A move gives its region up,
/// and a weak move moves it out. The reply has the number of the transfer. Where the store fails, what processes and devices
/// see is as before.
pub fn out<S: Store>(
    kernel: &mut Kernel,
    store: &mut S,
    pid: u32,
    sem: Semantics,
    dev: u32,
    port: u16,
    flow: Option<u32>,
    addr: u32,
    len: u32,
) -> Reply<'static>
    requires good { IsGood kernel.old }
    requires sized { IsSized kernel.old.memory (S.view store.old) }
    requires meters { AreBelow (2 ^ 63) kernel.old.memory.frames.meters }

    // There is a number for the transfer.
    requires numbered { kernel.old.next < 2 ^ 32 - 1 }
    requires accepted { refuse (outline kernel.old) (event.Output pid sem dev port flow addr len) ≡ None }
    ensures good { IsGood kernel.new }
    ensures sized { IsSized kernel.new.memory (S.view store.new) }
    ensures kept { Kept kernel.old kernel.new }
    ensures config { kernel.new.config ≡ kernel.old.config }

    // The next number rises by one at most.
    ensures numbers { kernel.new.next ≤ kernel.old.next + 1 }
    ensures step { (host : HostView) → StepsTold (view kernel.old host (S.view store.old)) (event.Output pid sem dev port flow addr len) (view kernel.new host (S.view store.new)) result }
    ensures cause { StoreCause (mark_of result) (S.view store.old).faults (S.view store.new).faults }

    // A call that is a copy moves its bytes, and zeroes untouched pages. Every other one moves none but those of the pages that
    // it can't lend in place.
    ensures copying { KeepsToBound kernel.old (event.Output pid sem dev port flow addr len) kernel.new result }

    // A call that is a copy lends frames of its own. An emulated one above the threshold lends each page in its own frame, but
    // for those that a device reads or writes in place.
    ensures lends { LendsFrames kernel.old kernel.new (record { pid = pid; sem = sem; dev = dev; port = port; flow = flow; addr = addr; len = len }) result }
    ensures rises { MetersRise (2 ^ 36) kernel.old.memory.frames kernel.new.memory.frames }

    // No byte of a device lands by it, and no more pages come from the store than it reaches.
    ensures landed { kernel.new.memory.frames.landed ≡ kernel.old.memory.frames.landed }
    ensures gets { kernel.new.memory.frames.meters.gets ≤ kernel.old.memory.frames.meters.gets + pages_most kernel.old (event.Output pid sem dev port flow addr len) }
{
    match sem.class() {
        Class::Copy => {
            if is_plain(sem, len, kernel.config.cout) {
                out_copied(kernel, store, pid, sem, dev, port, flow, addr, len)
            } else {
                out_lent(kernel, store, pid, sem, dev, port, flow, addr, len)
            }
        }
        Class::Share => out_shared(kernel, store, pid, sem, dev, port, flow, addr, len),
        Class::Move => {
            if sem.emulated() {
                out_hidden(kernel, store, pid, sem, dev, port, flow, addr, len)
            } else {
                out_moved(kernel, store, pid, sem, dev, port, flow, addr, len)
            }
        }
        Class::WeakMove => out_moved_out(kernel, store, pid, sem, dev, port, flow, addr, len),
    }
}
