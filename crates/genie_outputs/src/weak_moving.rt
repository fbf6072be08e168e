//! Outputs whose buffer is moved out.
ghost use Rattle.std.specs.Prelude.{◌+◌, ◌≤◌, ◌≡◌, ◌<◌, ◌-◌, ◌^◌, None};
ghost use Rattle.genie_base.specs.Counts.{span};
ghost use Rattle.genie_base.specs.Events.{mark_of};
ghost use Rattle.genie_base.specs.Transfers.{class_of};
ghost use Rattle.genie_base.specs.declared.event.Event.TheVariants as event;
ghost use Rattle.genie_base.specs.declared.semantics.Class.TheVariants.{WeakMove};
ghost use Rattle.genie_host.specs.Host.{HostView};
ghost use Rattle.genie_object.specs.Costs.{AreBelow};
ghost use Rattle.genie_object.specs.Sound.{IsSized};
ghost use Rattle.genie_model.specs.Refusing.{refuse};
ghost use Rattle.genie_kernel.specs.Good.{IsGood};
ghost use Rattle.genie_kernel.specs.Kept.{Kept};
ghost use Rattle.genie_kernel.specs.Rising.{MetersRise};
ghost use Rattle.genie_kernel.specs.Steps.{StepsTold, StoreCause};
ghost use Rattle.genie_kernel.specs.View.{view, outline};
ghost use Rattle.genie_copying.specs.Bounds.{KeepsToBound};
ghost use Rattle.genie_copying.specs.Getting.{pages_most};
ghost use Rattle.genie_outputs.specs.Answering.{IsReady, IsAnswered, KeepsToRow};

use crate::begin::add_output;
use crate::call::Call;
use crate::laws::{moving_laws, output_laws};
use crate::lending::share;
use crate::room::make_ready;
use genie_base::{Reply, Semantics};
use genie_changes::moving_out::move_out;
use genie_kernel::Kernel;
use genie_object::Range;
use genie_region::Region;
use genie_store::Store;

// Lends the range's frames weakly, lets the call wait over them, and moves the region out.
fn begin_moved_out<S: Store>(
    kernel: &mut Kernel,
    store: &mut S,
    call: &Call,
    region: &Region,
    range: &Range,
) -> Reply<'static>
    requires ready { IsReady kernel.old call.now region.now range.now (S.view store.old) }
    requires class { class_of call.now.sem ≡ WeakMove }
    ensures answered { IsAnswered kernel.old call.now kernel.new (S.view store.old) (S.view store.new) result }
    ensures copies { KeepsToRow kernel.old call.now range.now kernel.new result }
    ensures rises { MetersRise (2 ^ 33) kernel.old.memory.frames kernel.new.memory.frames }
    ensures landed { kernel.new.memory.frames.landed ≡ kernel.old.memory.frames.landed }
    ensures gets { kernel.new.memory.frames.meters.gets ≤ kernel.old.memory.frames.meters.gets + span kernel.old.memory.frames.page range.now.off range.now.len }
{
    output_laws();
    moving_laws();
    let id = kernel.next;
    match share(kernel, store, call, region, range) {
        Ok(plan) => {
            add_output(kernel, call, region, range, plan);
            move_out(kernel, call.pid, region.id);
            Reply::Id { id }
        }
        Err(_) => Reply::StoreFault,
    }
}

/// An output call of class `WeakMove`: the frames of its pages are lent weakly, and wired unless the call is emulated, and
/// its region is moved out, behind the others in the weak queue of the process. The device sends the bytes that the pages
/// have when it comes to them. The reply has the number of the transfer. Where the store fails, what processes and devices
/// see is as before.
pub fn out_moved_out<S: Store>(
    kernel: &mut Kernel,
    store: &mut S,
    pid: u32,
    sem: Semantics,
    dev: u32,
    port: u16,
    flow: Option<u32>,
    addr: u32,
    len: u32,
) -> Reply<'static>
    requires good { IsGood kernel.old }
    requires sized { IsSized kernel.old.memory (S.view store.old) }
    requires meters { AreBelow (2 ^ 63) kernel.old.memory.frames.meters }

    // There is a number for the transfer.
    requires numbered { kernel.old.next < 2 ^ 32 - 1 }
    requires accepted { refuse (outline kernel.old) (event.Output pid sem dev port flow addr len) ≡ None }
    requires class { class_of sem ≡ WeakMove }
    ensures good { IsGood kernel.new }
    ensures sized { IsSized kernel.new.memory (S.view store.new) }
    ensures kept { Kept kernel.old kernel.new }
    ensures config { kernel.new.config ≡ kernel.old.config }

    // The next number rises by one at most.
    ensures numbers { kernel.new.next ≤ kernel.old.next + 1 }
    ensures step { (host : HostView) → StepsTold (view kernel.old host (S.view store.old)) (event.Output pid sem dev port flow addr len) (view kernel.new host (S.view store.new)) result }
    ensures cause { StoreCause (mark_of result) (S.view store.old).faults (S.view store.new).faults }
    ensures copying { KeepsToBound kernel.old (event.Output pid sem dev port flow addr len) kernel.new result }
    ensures rises { MetersRise (2 ^ 36) kernel.old.memory.frames kernel.new.memory.frames }
    ensures landed { kernel.new.memory.frames.landed ≡ kernel.old.memory.frames.landed }
    ensures gets { kernel.new.memory.frames.meters.gets ≤ kernel.old.memory.frames.meters.gets + pages_most kernel.old (event.Output pid sem dev port flow addr len) }
{
    output_laws();
    let call = Call {
        pid,
        sem,
        dev,
        port,
        flow,
        addr,
        len,
    };
    match make_ready(kernel, store, &call) {
        Ok((region, range)) => begin_moved_out(kernel, store, &call, &region, &range),
        Err(_) => Reply::StoreFault,
    }
}
