//! The end of copy inputs.
ghost use Rattle.std.specs.Prelude.{◌≡◌, ◌^◌, ◌+◌, ℕ, None, OnOk};
ghost use Rattle.genie_base.specs.Causes.{HasCause};
ghost use Rattle.genie_base.specs.declared.event.Event.TheVariants as event;
ghost use Rattle.genie_base.specs.declared.semantics.Class.TheVariants.{Copy};
ghost use Rattle.genie_object.specs.Costs.{AreBelow};
ghost use Rattle.genie_object.specs.Sound.{IsSized};
ghost use Rattle.genie_finish.specs.Ranges.{CanStoreRange};
ghost use Rattle.genie_model.specs.Refusing.{refuse};
ghost use Rattle.genie_kernel.specs.Good.{IsGood};
ghost use Rattle.genie_kernel.specs.Rising.{MetersRise};
ghost use Rattle.genie_changes.specs.Making.{IsMoved};
ghost use Rattle.genie_copying.specs.Bounds.{KeepsToBound};
ghost use Rattle.genie_copying.specs.Spending.{CopiesAtMost};
ghost use Rattle.genie_arrivals.specs.Cases.{IsEarlyInput};
ghost use Rattle.genie_arrivals.specs.EarlyCosts.{HoldsNoMore, few_of, ready_work};
ghost use Rattle.genie_kernel.specs.View.{outline};
ghost use Rattle.genie_arrivals.specs.Ends.{EndsAlone};
ghost use Rattle.genie_arrivals.specs.Failing.{Serves};
ghost use Rattle.genie_arrivals.specs.Targets.{IsTargetOf, HasNoTargetOf, IsPending};

use crate::back::give_back;
use crate::laws::{copy_laws, end_laws, swap_laws};
use crate::room::make_frames;
use crate::store::store_buffer;
use crate::target::find_target;
use genie_base::{Reply, Semantics, TransferId};
use genie_changes::settled::paged_events_are_told;
use genie_finish::laws::whole_pages_cost_nothing;
use genie_finish::ready_range;
use genie_kernel::laws::accepted_events_step;
use genie_kernel::{Kernel, Loans};
use genie_object::Range;
use genie_plan::page_count;
use genie_store::{Store, StoreFault};

// Makes the pages ready in which a copy input's bytes are stored.
fn make_ready<S: Store>(
    kernel: &mut Kernel,
    store: &mut S,
    id: TransferId,
    range: &Range,
) -> Result<(), StoreFault>
    requires good { IsGood kernel.old }
    requires sized { IsSized kernel.old.memory (S.view store.old) }
    requires meters { AreBelow (2 ^ 63) kernel.old.memory.frames.meters }
    requires pending { IsPending kernel.old id.0 }
    requires case { IsEarlyInput Copy kernel.old id.0 }
    requires target { IsTargetOf kernel.old id.0 range.now }
    ensures moved { IsMoved kernel.old kernel.new (S.view store.old) (S.view store.new) }
    ensures can { OnOk result ((few : ℕ) → CanStoreRange kernel.new.memory range.now.object.0 range.now.off range.now.len few) }
    ensures meters { AreBelow (2 ^ 63 + 2 ^ 22) kernel.new.memory.frames.meters }
    ensures rises { MetersRise (2 ^ 22) kernel.old.memory.frames kernel.new.memory.frames }
    ensures cause { HasCause (S.view store.old).faults (S.view store.new).faults result }
    ensures copies { CopiesAtMost (ready_work kernel.old.memory range.now.object.0 range.now.off range.now.len) kernel.old.memory kernel.new.memory }
    ensures held { HoldsNoMore kernel.old.memory kernel.new.memory }
{
    copy_laws();
    let page = kernel.spaces.page().get();
    match make_frames(kernel, store, page_count(page, range.off, range.len)) {
        Ok(()) => {}
        Err(fault) => return Err(fault),
    }
    match ready_range(&mut kernel.memory, store, range) {
        Ok(()) => Ok(()),
        Err(fault) => Err(fault),
    }
}

// At most so many bytes of a page are copied out, and more are swapped in: all parts of pages in a basic call.
pub(crate) fn few_bytes(kernel: &Kernel, sem: Semantics) -> u32
    ensures { result ≡ few_of kernel.now.config sem }
{
    if sem.emulated() {
        kernel.config.rcout
    } else {
        kernel.config.page
    }
}

// Stores what has come of a copy input, and ends it.
fn store_copy<S: Store>(
    kernel: &mut Kernel,
    store: &mut S,
    id: TransferId,
    range: &Range,
) -> Reply<'static>
    requires good { IsGood kernel.old }
    requires sized { IsSized kernel.old.memory (S.view store.old) }
    requires meters { AreBelow (2 ^ 63) kernel.old.memory.frames.meters }
    requires accepted { refuse (outline kernel.old) (event.Finish id.0) ≡ None }
    requires case { IsEarlyInput Copy kernel.old id.0 }
    requires target { IsTargetOf kernel.old id.0 range.now }
    ensures serves { Serves kernel.old (event.Finish id.0) kernel.new (S.view store.old) (S.view store.new) result }
    ensures copying { KeepsToBound kernel.old (event.Finish id.0) kernel.new result }
{
    end_laws();
    copy_laws();
    swap_laws();
    paged_events_are_told();
    whole_pages_cost_nothing();
    match make_ready(kernel, store, id, range) {
        Ok(()) => {}
        Err(_) => return Reply::StoreFault,
    }
    let transfer = kernel.transfers.remove(id);
    let few = few_bytes(kernel, transfer.sem);
    match &transfer.loans {
        Loans::Inward(plan) => {
            store_buffer(&mut kernel.memory, plan.loans.as_slice(), range, few);
        }
        Loans::Outward(_) => unreachable!(),
        Loans::Nothing => unreachable!(),
    }
    Reply::Input {
        at: None,
        n: transfer.stored,
        note: transfer.note,
    }
}

// Ends a copy input whose bytes can't be stored: they are thrown away, and its buffer is given back.
fn drop_copy(kernel: &mut Kernel, id: TransferId) -> Reply<'static>
    requires good { IsGood kernel.old }
    requires accepted { refuse (outline kernel.old) (event.Finish id.0) ≡ None }
    requires case { IsEarlyInput Copy kernel.old id.0 }
    requires target { HasNoTargetOf kernel.old id.0 }
    ensures { EndsAlone kernel.old id.0 kernel.new result }
{
    end_laws();
    let transfer = kernel.transfers.remove(id);
    give_back(&mut kernel.memory.frames, &transfer);
    kernel.memory.frames.len();
    match transfer.owner {
        Some(_) => Reply::Lost,
        None => Reply::Gone,
    }
}

/// Ends a copy input on an early device. Where its process may write its whole range now, what has come is stored there:
/// pages of which it has a part are brought in first, so that a failure of the store, after which it is still pending, comes
/// before the first stored byte. It answers how many bytes were stored, `lost` where the range may not be written, and `gone`
/// where the process is gone.
pub fn finish_copy_early<S: Store>(
    kernel: &mut Kernel,
    store: &mut S,
    id: TransferId,
) -> Reply<'static>
    requires good { IsGood kernel.old }
    requires sized { IsSized kernel.old.memory (S.view store.old) }
    requires meters { AreBelow (2 ^ 63) kernel.old.memory.frames.meters }
    requires accepted { refuse (outline kernel.old) (event.Finish id.0) ≡ None }
    requires case { IsEarlyInput Copy kernel.old id.0 }
    ensures serves { Serves kernel.old (event.Finish id.0) kernel.new (S.view store.old) (S.view store.new) result }

    // What the processor copies keeps to the table.
    ensures copying { KeepsToBound kernel.old (event.Finish id.0) kernel.new result }
{
    accepted_events_step();
    match find_target(kernel, id) {
        Some(range) => store_copy(kernel, store, id, &range),
        None => drop_copy(kernel, id),
    }
}
