//! Input into a buffer of the application's, which the data is copied to when it has come.
ghost use Rattle.std.specs.Prelude.{◌≡◌, ◌+◌, ◌^◌, ◌<◌, None, Some};
ghost use Rattle.genie_base.specs.Events.{mark_of};
ghost use Rattle.genie_base.specs.Transfers.{class_of};
ghost use Rattle.genie_base.specs.declared.semantics.Class.TheVariants.{Copy};
ghost use Rattle.genie_object.specs.Costs.{AreBelow};
ghost use Rattle.genie_object.specs.Sound.{IsSized};
ghost use Rattle.genie_model.specs.Refusing.{refuse};
ghost use Rattle.genie_kernel.specs.Good.{IsGood};
ghost use Rattle.genie_kernel.specs.Rising.{MetersRise};
ghost use Rattle.genie_kernel.specs.Steps.{StoreCause};
ghost use Rattle.genie_kernel.specs.View.{outline};
ghost use Rattle.genie_copying.specs.Spending.{CopiesAtMost};
ghost use Rattle.genie_inputs.specs.Calls.{input_event};
ghost use Rattle.genie_inputs.specs.Posting.{IsAnswered};

use crate::buffer::lend_strongly;
use crate::call::Call;
use crate::laws::input_laws;
use crate::posting::post;
use genie_base::{Reply, TransferId};
use genie_kernel::Kernel;
use genie_store::Store;

/// Posts an input of copy semantics, basic or emulated, for the buffer at address `addr`. On an early device frames of the
/// system are lent for it, in which the bytes lie in their pages as in the buffer; on another device nothing is lent. Where
/// the store fails, nothing is posted, and what processes and devices see is as before.
pub fn copy<S: Store>(kernel: &mut Kernel, store: &mut S, call: Call, addr: u32) -> Reply<'static>
    requires class { class_of call.sem ≡ Copy }
    requires good { IsGood kernel.old }
    requires sized { IsSized kernel.old.memory (S.view store.old) }
    requires meters { AreBelow (2 ^ 63) kernel.old.memory.frames.meters }
    requires numbered { kernel.old.next + 1 < 2 ^ 32 }
    requires accepted { refuse (outline kernel.old) (input_event call (Some addr)) ≡ None }
    ensures answered { IsAnswered kernel.old kernel.new (S.view store.old) (S.view store.new) (input_event call (Some addr)) result }
    ensures cause { StoreCause (mark_of result) (S.view store.old).faults (S.view store.new).faults }
    ensures rises { MetersRise (2 ^ 36) kernel.old.memory.frames kernel.new.memory.frames }
    ensures landed { kernel.new.memory.frames.landed ≡ kernel.old.memory.frames.landed }
    ensures gets { kernel.new.memory.frames.meters.gets ≡ kernel.old.memory.frames.meters.gets }
    ensures copying { CopiesAtMost 0 kernel.old.memory kernel.new.memory }
{
    input_laws();
    let id = TransferId(kernel.next);
    match lend_strongly(kernel, store, id, call.dev, addr, call.len) {
        Ok(loans) => {
            post(kernel, call.transfer(id, addr, None, 0, loans));
            Reply::Id { id: id.0 }
        }
        Err(_) => Reply::StoreFault,
    }
}
