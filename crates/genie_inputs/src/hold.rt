//! Input into a new region, which the process sees once the data is in it.
ghost use Rattle.std.specs.Prelude.{◌≡◌, ◌+◌, ◌^◌, ◌<◌, None};
ghost use Rattle.genie_base.specs.Events.{mark_of};
ghost use Rattle.genie_base.specs.Transfers.{class_of};
ghost use Rattle.genie_base.specs.declared.semantics.Class.TheVariants.{Move};
ghost use Rattle.genie_object.specs.Costs.{AreBelow};
ghost use Rattle.genie_object.specs.Sound.{IsSized};
ghost use Rattle.genie_model.specs.Refusing.{refuse};
ghost use Rattle.genie_kernel.specs.Good.{IsGood};
ghost use Rattle.genie_kernel.specs.Rising.{MetersRise};
ghost use Rattle.genie_kernel.specs.Steps.{StoreCause};
ghost use Rattle.genie_kernel.specs.View.{outline};
ghost use Rattle.genie_copying.specs.Spending.{CopiesAtMost};
ghost use Rattle.genie_inputs.specs.Calls.{input_event};
ghost use Rattle.genie_inputs.specs.HiddenReuse.{ReusesHidden};
ghost use Rattle.genie_inputs.specs.Posting.{IsAnswered};

use crate::call::Call;
use crate::hidden::lend_held;
use crate::laws::input_laws;
use crate::place::{add_region, find_place};
use crate::posting::post;
use genie_base::{Reply, TransferId};
use genie_kernel::Kernel;
use genie_region::RegionState;
use genie_room::laws::objects_suffice;
use genie_spaces::laws::region_laws;
use genie_store::Store;

/// Posts an input of move semantics, basic or emulated. A region of zeros is reserved for it, held until the data has come,
/// at the lowest place in the system area. On an early device frames of the system are lent, from which the data moves into
/// the region; on another device nothing is lent. An emulated call on an early device takes these frames from a region that
/// its process moved out of the same place before, unless memory is short. Where the store fails, nothing is posted or
/// reserved, and what processes and devices see is as before.
pub fn hold<S: Store>(kernel: &mut Kernel, store: &mut S, call: Call) -> Reply<'static>
    requires class { class_of call.sem ≡ Move }
    requires good { IsGood kernel.old }
    requires sized { IsSized kernel.old.memory (S.view store.old) }
    requires meters { AreBelow (2 ^ 63) kernel.old.memory.frames.meters }
    requires numbered { kernel.old.next + 1 < 2 ^ 32 }
    requires accepted { refuse (outline kernel.old) (input_event call None) ≡ None }
    ensures answered { IsAnswered kernel.old kernel.new (S.view store.old) (S.view store.new) (input_event call None) result }
    ensures cause { StoreCause (mark_of result) (S.view store.old).faults (S.view store.new).faults }
    ensures rises { MetersRise (2 ^ 36) kernel.old.memory.frames kernel.new.memory.frames }
    ensures landed { kernel.new.memory.frames.landed ≡ kernel.old.memory.frames.landed }
    ensures gets { kernel.new.memory.frames.meters.gets ≡ kernel.old.memory.frames.meters.gets }
    ensures copying { CopiesAtMost 0 kernel.old.memory kernel.new.memory }
    ensures reuses { ReusesHidden kernel.old kernel.new call result }
{
    input_laws();
    region_laws();
    objects_suffice();
    let id = TransferId(kernel.next);
    let place = find_place(kernel, call);
    match lend_held(kernel, store, id, call, place) {
        Ok(loans) => {
            add_region(kernel, call.pid, place, RegionState::Held);
            post(kernel, call.transfer(id, 0, Some(place.id), 0, loans));
            Reply::Id { id: id.0 }
        }
        Err(_) => Reply::StoreFault,
    }
}
