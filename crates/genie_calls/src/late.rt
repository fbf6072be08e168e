//! Inputs that end on devices that aren't early.
ghost use Rattle.std.specs.Prelude.{◌≡◌, ◌^◌, ◌<◌, None};
ghost use Rattle.genie_base.specs.declared.config.Kind.TheVariants as kind;
ghost use Rattle.genie_base.specs.declared.event.Event.TheVariants as event;
ghost use Rattle.genie_object.specs.Costs.{AreBelow};
ghost use Rattle.genie_object.specs.Sound.{IsSized};
ghost use Rattle.genie_model.specs.Refusing.{refuse};
ghost use Rattle.genie_kernel.specs.Good.{IsGood};
ghost use Rattle.genie_kernel.specs.View.{outline};
ghost use Rattle.genie_calls.specs.Kinds.{EndsOn};
ghost use Rattle.genie_calls.specs.Serving.{ServedByStore};

use crate::kinds::class_at;
use genie_arrivals::{outboard, outboard_copy, outboard_move, pooled, pooled_copy, pooled_move};
use genie_base::{Class, Reply, TransferId};
use genie_changes::settled::paged_events_are_told;
use genie_kernel::Kernel;
use genie_store::Store;

// An input on a pooled device ends: what waits in its buffer is copied.
pub(crate) fn finish_pooled<S: Store>(kernel: &mut Kernel, store: &mut S, id: u32) -> Reply<'static>
    requires good { IsGood kernel.old }
    requires sized { IsSized kernel.old.memory (S.view store.old) }
    requires meters { AreBelow (2 ^ 63) kernel.old.memory.frames.meters }
    requires accepted { refuse (outline kernel.old) (event.Finish id) ≡ None }
    requires case { EndsOn kind.Pooled kernel.old id }
    ensures { ServedByStore kernel.old (event.Finish id) kernel.new (S.view store.old) (S.view store.new) result }
{
    paged_events_are_told();
    match class_at(kernel, id) {
        Class::Copy => pooled_copy::finish_copy_pooled(kernel, store, TransferId(id)),
        Class::Share => pooled::finish_share_pooled(kernel, TransferId(id)),
        Class::Move => pooled_move::finish_move_pooled(kernel, store, TransferId(id)),
        Class::WeakMove => pooled::finish_weak_move_pooled(kernel, TransferId(id)),
    }
}

// An input on an outboard device ends: what waits in its memory lands.
pub(crate) fn finish_outboard<S: Store>(
    kernel: &mut Kernel,
    store: &mut S,
    id: u32,
) -> Reply<'static>
    requires good { IsGood kernel.old }
    requires sized { IsSized kernel.old.memory (S.view store.old) }
    requires meters { AreBelow (2 ^ 63) kernel.old.memory.frames.meters }
    requires landed { kernel.old.memory.frames.landed < 2 ^ 63 }
    requires accepted { refuse (outline kernel.old) (event.Finish id) ≡ None }
    requires case { EndsOn kind.Outboard kernel.old id }
    ensures { ServedByStore kernel.old (event.Finish id) kernel.new (S.view store.old) (S.view store.new) result }
{
    paged_events_are_told();
    match class_at(kernel, id) {
        Class::Copy => outboard_copy::finish_copy_outboard(kernel, store, TransferId(id)),
        Class::Share => outboard::finish_share_outboard(kernel, TransferId(id)),
        Class::Move => outboard_move::finish_move_outboard(kernel, store, TransferId(id)),
        Class::WeakMove => outboard::finish_weak_move_outboard(kernel, TransferId(id)),
    }
}
