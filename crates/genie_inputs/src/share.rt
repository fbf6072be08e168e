//! Input that a device stores in the application's buffer at once.
ghost use Rattle.std.specs.Prelude.{◌≤◌, ◌≡◌, ◌+◌, ◌^◌, ◌<◌, None, Some};
ghost use Rattle.genie_base.specs.Events.{mark_of};
ghost use Rattle.genie_base.specs.Transfers.{class_of};
ghost use Rattle.genie_base.specs.declared.semantics.Class.TheVariants.{Share};
ghost use Rattle.genie_object.specs.Costs.{AreBelow};
ghost use Rattle.genie_object.specs.Sound.{IsSized};
ghost use Rattle.genie_model.specs.Refusing.{refuse};
ghost use Rattle.genie_kernel.specs.Good.{IsGood};
ghost use Rattle.genie_kernel.specs.Rising.{MetersRise};
ghost use Rattle.genie_copying.specs.Bounds.{KeepsToBound};
ghost use Rattle.genie_copying.specs.Getting.{pages_most};
ghost use Rattle.genie_kernel.specs.Steps.{StoreCause};
ghost use Rattle.genie_kernel.specs.View.{outline};
ghost use Rattle.genie_inputs.specs.Calls.{input_event};
ghost use Rattle.genie_inputs.specs.Posting.{IsAnswered};

use crate::call::Call;
use crate::in_place::lend_in_place;
use crate::laws::input_laws;
use crate::posting::post;
use crate::target::find_target;
use genie_base::{Reply, TransferId};
use genie_kernel::Kernel;
use genie_plan::laws::wires_show_what_was_seen;
use genie_store::Store;

/// Posts an input of share semantics for the buffer at address `addr`. The pages of the buffer are lent in place: what lands
/// is in the region at once. A page that isn't the region's own becomes so first, and one in a slot comes into a frame. The
/// basic call wires the pages besides, the emulated one holds them by its loans alone. Where the store fails, nothing is
/// posted, and what processes and devices see is as before.
pub fn share<S: Store>(kernel: &mut Kernel, store: &mut S, call: Call, addr: u32) -> Reply<'static>
    requires class { class_of call.sem ≡ Share }
    requires good { IsGood kernel.old }
    requires sized { IsSized kernel.old.memory (S.view store.old) }
    requires meters { AreBelow (2 ^ 63) kernel.old.memory.frames.meters }
    requires numbered { kernel.old.next + 1 < 2 ^ 32 }
    requires accepted { refuse (outline kernel.old) (input_event call (Some addr)) ≡ None }
    ensures answered { IsAnswered kernel.old kernel.new (S.view store.old) (S.view store.new) (input_event call (Some addr)) result }
    ensures cause { StoreCause (mark_of result) (S.view store.old).faults (S.view store.new).faults }
    ensures rises { MetersRise (2 ^ 36) kernel.old.memory.frames kernel.new.memory.frames }
    ensures landed { kernel.new.memory.frames.landed ≡ kernel.old.memory.frames.landed }
    ensures gets { kernel.new.memory.frames.meters.gets ≤ kernel.old.memory.frames.meters.gets + pages_most kernel.old (input_event call (Some addr)) }
    ensures copying { KeepsToBound kernel.old (input_event call (Some addr)) kernel.new result }
{
    input_laws();
    wires_show_what_was_seen();
    let id = TransferId(kernel.next);
    let (region, off) = find_target(kernel, call, addr);
    let basic = !call.sem.emulated();
    match lend_in_place(kernel, store, region, off, call.len, basic) {
        Ok(loans) => {
            post(kernel, call.transfer(id, 0, Some(region.id), off, loans));
            Reply::Id { id: id.0 }
        }
        Err(_) => Reply::StoreFault,
    }
}
