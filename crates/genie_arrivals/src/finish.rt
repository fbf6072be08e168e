//! The end of inputs, by device and class.
ghost use Rattle.std.specs.Prelude.{◌≡◌, ◌^◌, None, IfSome, IsSome, find};
ghost use Rattle.genie_base.specs.Events.{mark_of};
ghost use Rattle.genie_base.specs.Transfers.{class_of};
ghost use Rattle.genie_base.specs.declared.event.Event.TheVariants as event;
ghost use Rattle.genie_host.specs.Host.{HostView};
ghost use Rattle.genie_object.specs.Costs.{AreBelow};
ghost use Rattle.genie_object.specs.Sound.{IsSized};
ghost use Rattle.genie_model.specs.Refusing.{refuse};
ghost use Rattle.genie_kernel.specs.Calls.{has_number};
ghost use Rattle.genie_kernel.specs.Good.{IsGood};
ghost use Rattle.genie_kernel.specs.Kept.{Kept};
ghost use Rattle.genie_kernel.specs.Rising.{MetersRise};
ghost use Rattle.genie_kernel.specs.Steps.{StepsTold, StoreCause};
ghost use Rattle.genie_kernel.specs.View.{view, outline};
ghost use Rattle.genie_copying.specs.Bounds.{KeepsToBound};
ghost use Rattle.genie_arrivals.specs.Cases.{IsOnEarly};
ghost use Rattle.genie_arrivals.specs.Failing.{Serves};

use crate::copy::finish_copy_early;
use crate::held::finish_move_early;
use crate::share::finish_share_early;
use crate::weak_move::finish_weak_move_early;
use genie_base::{Class, Reply, TransferId};
use genie_changes::settled::paged_events_are_told;
use genie_kernel::laws::accepted_events_step;
use genie_kernel::{Kernel, Search};
use genie_store::Store;

// The class of a pending transfer.
fn class_at(kernel: &Kernel, id: TransferId) -> Class
    requires { IsSome (find (has_number id.0) kernel.now.transfers) }
    ensures { IfSome (find (has_number id.0) kernel.now.transfers) (λ t. class_of t.sem ≡ result) }
{
    match kernel.transfers.find(Search::Number(id.0)) {
        Some(transfer) => transfer.sem.class(),
        None => unreachable!(),
    }
}

// Ends an input by its class.
fn finish_by_class<S: Store>(kernel: &mut Kernel, store: &mut S, id: TransferId) -> Reply<'static>
    requires good { IsGood kernel.old }
    requires sized { IsSized kernel.old.memory (S.view store.old) }
    requires meters { AreBelow (2 ^ 63) kernel.old.memory.frames.meters }
    requires accepted { refuse (outline kernel.old) (event.Finish id.0) ≡ None }
    requires case { IsOnEarly kernel.old id.0 }
    ensures serves { Serves kernel.old (event.Finish id.0) kernel.new (S.view store.old) (S.view store.new) result }
    ensures copying { KeepsToBound kernel.old (event.Finish id.0) kernel.new result }
{
    accepted_events_step();
    paged_events_are_told();
    match class_at(kernel, id) {
        Class::Copy => finish_copy_early(kernel, store, id),
        Class::Share => finish_share_early(kernel, id),
        Class::Move => finish_move_early(kernel, id),
        Class::WeakMove => finish_weak_move_early(kernel, id),
    }
}

/// Ends a ready input on an early device, of whatever class: its bytes are where the class wants them, what was lent is
/// given back, and it is pending no more. It answers how many bytes were stored, of a move also the address of the region;
/// `lost` where the region is gone or may not be written, and `gone` where the process is gone. Only the end of a copy input
/// asks the store; where that fails nothing has changed, and the input is still pending.
pub fn finish_input_early<S: Store>(
    kernel: &mut Kernel,
    store: &mut S,
    id: TransferId,
) -> Reply<'static>
    requires good { IsGood kernel.old }
    requires sized { IsSized kernel.old.memory (S.view store.old) }
    requires meters { AreBelow (2 ^ 63) kernel.old.memory.frames.meters }
    requires accepted { refuse (outline kernel.old) (event.Finish id.0) ≡ None }
    requires case { IsOnEarly kernel.old id.0 }
    ensures good { IsGood kernel.new }
    ensures sized { IsSized kernel.new.memory (S.view store.new) }
    ensures kept { Kept kernel.old kernel.new }
    ensures config { kernel.new.config ≡ kernel.old.config }
    ensures numbers { kernel.new.next ≡ kernel.old.next }
    ensures step { (host : HostView) → StepsTold (view kernel.old host (S.view store.old)) (event.Finish id.0) (view kernel.new host (S.view store.new)) result }
    ensures cause { StoreCause (mark_of result) (S.view store.old).faults (S.view store.new).faults }

    // What the processor copies keeps to the table.
    ensures copying { KeepsToBound kernel.old (event.Finish id.0) kernel.new result }
    ensures rises { MetersRise (2 ^ 36) kernel.old.memory.frames kernel.new.memory.frames }
{
    finish_by_class(kernel, store, id)
}
