//! Input into a region that was moved out before.
ghost use Rattle.std.specs.Prelude.{◌≤◌, ◌≡◌, ◌+◌, ◌^◌, ◌<◌, [], IsSome, IsTrue, None, slice_index_or};
ghost use Rattle.genie_base.specs.Events.{mark_of};
ghost use Rattle.genie_base.specs.Transfers.{class_of};
ghost use Rattle.genie_base.specs.declared.semantics.Class.TheVariants.{WeakMove};
ghost use Rattle.genie_hiding.specs.Queues.{is_in};
ghost use Rattle.genie_object.specs.Costs.{AreBelow};
ghost use Rattle.genie_object.specs.Sound.{IsSized};
ghost use Rattle.genie_region.specs.Layouts.{region_of};
ghost use Rattle.genie_space.specs.Spaces.{is_alive, regions_of};
ghost use Rattle.genie_model.specs.Refusing.{refuse};
ghost use Rattle.genie_kernel.specs.Good.{IsGood};
ghost use Rattle.genie_kernel.specs.Rising.{MetersRise};
ghost use Rattle.genie_copying.specs.Bounds.{KeepsToBound};
ghost use Rattle.genie_copying.specs.Getting.{pages_most};
ghost use Rattle.genie_kernel.specs.Steps.{StoreCause};
ghost use Rattle.genie_kernel.specs.View.{outline};
ghost use Rattle.genie_inputs.specs.Calls.{input_event};
ghost use Rattle.genie_inputs.specs.Posting.{IsAnswered};
ghost use Rattle.genie_inputs.specs.Reusing.{IsReusable, moved_in};

use crate::call::Call;
use crate::in_place::lend_in_place;
use crate::laws::input_laws;
use crate::posting::post;
use genie_base::{RegionId, Reply, TransferId};
use genie_kernel::Kernel;
use genie_plan::laws::wires_show_what_was_seen;
use genie_region::{Region, RegionState};
use genie_spaces::laws::region_laws;
use genie_store::Store;

// The region is In, and leaves the weak queue of its process.
fn move_in(kernel: &mut Kernel, pid: u32, id: RegionId)
    requires number { pid < 16 }
    requires alive { IsTrue (is_alive pid kernel.old.spaces) }
    requires there { IsSome (region_of id (regions_of pid kernel.old.spaces)) }
    requires listed { IsTrue (is_in id.0 (slice_index_or kernel.old.queues pid [])) }
    ensures { kernel.new ≡ moved_in kernel.old pid id }
{
    let regions = kernel.spaces.regions_mut(pid);
    regions.set_state(id, RegionState::In);
    kernel.queues[pid as usize].remove(id);
}

/// Posts an input of weak move semantics into the region that the flat machine uses again: the oldest one of the process's
/// weak queue that has as many pages as the data needs, and that no pending transfer names. It leaves the queue, and its
/// pages are lent in place. The basic call wires them besides. Where the store fails, nothing is posted, and what processes
/// and devices see is as before.
pub fn refill<S: Store>(
    kernel: &mut Kernel,
    store: &mut S,
    call: Call,
    region: Region,
) -> Reply<'static>
    requires class { class_of call.sem ≡ WeakMove }
    requires good { IsGood kernel.old }
    requires sized { IsSized kernel.old.memory (S.view store.old) }
    requires meters { AreBelow (2 ^ 63) kernel.old.memory.frames.meters }
    requires numbered { kernel.old.next + 1 < 2 ^ 32 }
    requires accepted { refuse (outline kernel.old) (input_event call None) ≡ None }
    requires reusable { IsReusable kernel.old call region }
    ensures answered { IsAnswered kernel.old kernel.new (S.view store.old) (S.view store.new) (input_event call None) result }
    ensures cause { StoreCause (mark_of result) (S.view store.old).faults (S.view store.new).faults }
    ensures rises { MetersRise (2 ^ 36) kernel.old.memory.frames kernel.new.memory.frames }
    ensures landed { kernel.new.memory.frames.landed ≡ kernel.old.memory.frames.landed }
    ensures gets { kernel.new.memory.frames.meters.gets ≤ kernel.old.memory.frames.meters.gets + pages_most kernel.old (input_event call None) }
    ensures copying { KeepsToBound kernel.old (input_event call None) kernel.new result }
{
    input_laws();
    region_laws();
    wires_show_what_was_seen();
    let id = TransferId(kernel.next);
    let basic = !call.sem.emulated();
    match lend_in_place(kernel, store, region, 0, call.len, basic) {
        Ok(loans) => {
            move_in(kernel, call.pid, region.id);
            post(kernel, call.transfer(id, 0, Some(region.id), 0, loans));
            Reply::Id { id: id.0 }
        }
        Err(_) => Reply::StoreFault,
    }
}
