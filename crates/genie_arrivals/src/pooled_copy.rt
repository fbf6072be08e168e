//! The end of copy inputs on pooled devices.
ghost use Rattle.std.specs.Prelude.{◌≡◌, ◌^◌, ◌+◌, None, Some, OnOk, IfSome, find, false};
ghost use Rattle.genie_base.specs.Causes.{HasCause};
ghost use Rattle.genie_base.specs.declared.event.Event.TheVariants as event;
ghost use Rattle.genie_base.specs.declared.semantics.Class.TheVariants.{Copy};
ghost use Rattle.genie_object.specs.Costs.{AreBelow};
ghost use Rattle.genie_object.specs.Sound.{IsSized};
ghost use Rattle.genie_finish.specs.Copies.{AreOwn};
ghost use Rattle.genie_model.specs.Refusing.{refuse};
ghost use Rattle.genie_kernel.specs.Good.{IsGood};
ghost use Rattle.genie_kernel.specs.Rising.{MetersRise};
ghost use Rattle.genie_kernel.specs.View.{outline};
ghost use Rattle.genie_changes.specs.Making.{IsMoved};
ghost use Rattle.genie_kernel.specs.Calls.{has_number};
ghost use Rattle.genie_copying.specs.Bounds.{KeepsToBound, fixed_bytes};
ghost use Rattle.genie_copying.specs.Ranges.{pages_at};
ghost use Rattle.genie_copying.specs.Spending.{CopiesAtMost};
ghost use Rattle.genie_arrivals.specs.LateCosts.{is_exchanged};
ghost use Rattle.genie_arrivals.specs.Failing.{Serves};
ghost use Rattle.genie_arrivals.specs.Pooled.{IsPooledInput};
ghost use Rattle.genie_arrivals.specs.Targets.{IsPending, IsTargetOf};

use crate::laws::{copy_laws, end_laws};
use crate::pooled::{copy_pending, is_gone};
use crate::pooled_room::own_pages;
use crate::room::make_frames;
use crate::target::find_target;
use crate::waiting::{end_waiting, finish_gone_late, finish_lost_late};
use genie_base::{Reply, TransferId};
use genie_changes::released::{buffers_are_released, buffers_show};
use genie_changes::settled::paged_events_are_told;
use genie_kernel::Kernel;
use genie_kernel::laws::accepted_events_step;
use genie_object::Range;
use genie_plan::page_count;
use genie_store::{Store, StoreFault};

// Makes the pages ready to which a copy input's bytes are copied.
fn make_own<S: Store>(
    kernel: &mut Kernel,
    store: &mut S,
    id: TransferId,
    range: &Range,
) -> Result<(), StoreFault>
    requires good { IsGood kernel.old }
    requires sized { IsSized kernel.old.memory (S.view store.old) }
    requires meters { AreBelow (2 ^ 63) kernel.old.memory.frames.meters }
    requires pending { IsPending kernel.old id.0 }
    requires case { IsPooledInput Copy kernel.old id.0 }
    requires target { IsTargetOf kernel.old id.0 range.now }
    ensures moved { IsMoved kernel.old kernel.new (S.view store.old) (S.view store.new) }
    ensures own { OnOk result (AreOwn kernel.new.memory range.now.object.0 range.now.off range.now.len) }
    ensures meters { AreBelow (2 ^ 63 + 2 ^ 22) kernel.new.memory.frames.meters }
    ensures rises { MetersRise (2 ^ 22) kernel.old.memory.frames kernel.new.memory.frames }
    ensures copies { CopiesAtMost (fixed_bytes kernel.old (Some (pages_at kernel.old.config.page range.now.object.0 range.now.off range.now.len))) kernel.old.memory kernel.new.memory }
    ensures cause { HasCause (S.view store.old).faults (S.view store.new).faults result }
{
    copy_laws();
    let page = kernel.spaces.page().get();
    let count = page_count(page, range.off, range.len);
    match make_frames(kernel, store, count) {
        Ok(()) => {}
        Err(fault) => return Err(fault),
    }
    match own_pages(
        &mut kernel.memory,
        store,
        range.object,
        range.off / page,
        count,
    ) {
        Ok(()) => Ok(()),
        Err(fault) => Err(fault),
    }
}

// Copies what is stored of a copy input to its range, and ends it.
fn copy_into<S: Store>(
    kernel: &mut Kernel,
    store: &mut S,
    id: TransferId,
    range: &Range,
) -> Reply<'static>
    requires good { IsGood kernel.old }
    requires sized { IsSized kernel.old.memory (S.view store.old) }
    requires meters { AreBelow (2 ^ 63) kernel.old.memory.frames.meters }
    requires accepted { refuse (outline kernel.old) (event.Finish id.0) ≡ None }
    requires case { IsPooledInput Copy kernel.old id.0 }
    requires target { IsTargetOf kernel.old id.0 range.now }
    ensures serves { Serves kernel.old (event.Finish id.0) kernel.new (S.view store.old) (S.view store.new) result }
    ensures copying { IfSome (find (has_number id.0) kernel.old.transfers) (λ t. is_exchanged kernel.old.config t ≡ false → KeepsToBound kernel.old (event.Finish id.0) kernel.new result) }
{
    end_laws();
    copy_laws();
    paged_events_are_told();
    buffers_show();
    buffers_are_released();
    match make_own(kernel, store, id, range) {
        Ok(()) => {}
        Err(_) => return Reply::StoreFault,
    }
    copy_pending(kernel, id, range);
    let transfer = end_waiting(kernel, id);
    Reply::Input {
        at: None,
        n: transfer.stored,
        note: transfer.note,
    }
}

/// Ends a copy input on a pooled device. Where its process may write its whole range now, what is stored is copied there from
/// its buffer: the pages of the range are brought in first, so that a failure of the store, after which it is still pending,
/// comes before the first stored byte. Its buffer is free then. It answers how many bytes were stored, `lost` where the range
/// may not be written, and `gone` where the process is gone.
pub fn finish_copy_pooled<S: Store>(
    kernel: &mut Kernel,
    store: &mut S,
    id: TransferId,
) -> Reply<'static>
    requires good { IsGood kernel.old }
    requires sized { IsSized kernel.old.memory (S.view store.old) }
    requires meters { AreBelow (2 ^ 63) kernel.old.memory.frames.meters }
    requires accepted { refuse (outline kernel.old) (event.Finish id.0) ≡ None }
    requires case { IsPooledInput Copy kernel.old id.0 }
    ensures serves { Serves kernel.old (event.Finish id.0) kernel.new (S.view store.old) (S.view store.new) result }

    // What the processor copies keeps to the table, unless the table has pages exchanged.
    ensures copying { IfSome (find (has_number id.0) kernel.old.transfers) (λ t. is_exchanged kernel.old.config t ≡ false → KeepsToBound kernel.old (event.Finish id.0) kernel.new result) }
{
    accepted_events_step();
    if is_gone(kernel, id) {
        return finish_gone_late(kernel, id);
    }
    match find_target(kernel, id) {
        Some(range) => copy_into(kernel, store, id, &range),
        None => finish_lost_late(kernel, id),
    }
}
