//! The end of copy inputs on outboard devices, whose bytes are stored then.
ghost use Rattle.std.specs.Prelude.{◌≡◌, ◌^◌, ◌<◌, ℕ, None, OnOk, length, IfSome, find};
ghost use Rattle.genie_base.specs.Causes.{HasCause};
ghost use Rattle.genie_base.specs.declared.event.Event.TheVariants as event;
ghost use Rattle.genie_base.specs.declared.semantics.Class.TheVariants.{Copy};
ghost use Rattle.genie_object.specs.Costs.{AreBelow};
ghost use Rattle.genie_object.specs.Sound.{IsSized};
ghost use Rattle.genie_model.specs.Refusing.{refuse};
ghost use Rattle.genie_kernel.specs.Good.{IsGood};
ghost use Rattle.genie_kernel.specs.Rising.{MetersRise};
ghost use Rattle.genie_kernel.specs.View.{outline};
ghost use Rattle.genie_changes.specs.Making.{IsMoved};
ghost use Rattle.genie_kernel.specs.Calls.{has_number};
ghost use Rattle.genie_copying.specs.Bounds.{KeepsToBound};
ghost use Rattle.genie_copying.specs.Spending.{CopiesAtMost};
ghost use Rattle.genie_arrivals.specs.EarlyCosts.{HoldsNoMore, few_of, ready_work, store_work};
ghost use Rattle.genie_arrivals.specs.Ends.{EndsAlone};
ghost use Rattle.genie_arrivals.specs.Failing.{Serves};
ghost use Rattle.genie_model.specs.Tables.{entry};
ghost use Rattle.genie_arrivals.specs.Outboard.{CanFetch, IsLateOutboard, waiting_bytes};
ghost use Rattle.genie_arrivals.specs.Targets.{HasNoTargetOf, IsPending, IsTargetOf};
ghost use Rattle.genie_arrivals.specs.FreshStored.{CanStoreBytes, OwnerIs, StoresBytes, StoresPending};

use crate::copy::few_bytes;
use crate::laws::{copy_laws, end_laws, swap_laws};
use crate::outboard::{land_bytes, waiting_bytes};
use crate::room::make_frames;
use crate::store::store_buffer;
use crate::target::find_target;
use crate::waiting::{end_waiting, finish_gone_late, finish_lost_late};
use genie_base::{Reply, TransferId};
use genie_changes::released::{buffers_are_released, buffers_show};
use genie_changes::settled::paged_events_are_told;
use genie_device::Device;
use genie_finish::laws::whole_pages_cost_nothing;
use genie_finish::ready_range;
use genie_input::aligned_buffer;
use genie_kernel::laws::accepted_events_step;
use genie_kernel::{Kernel, Search, Transfer};
use genie_object::{Memory, Range};
use genie_plan::laws::landings_show_nowhere_else;
use genie_plan::page_count;
use genie_room::laws::pending_are_available;
use genie_store::{Store, StoreFault};

/// Stores bytes that lie in a device's memory in a range, whose pages were made ready. They land in fresh frames of the
/// transfer first, which lie as the range's pages do; those of whole pages are swapped, and the others are free again.
pub(crate) fn store_bytes(
    memory: &mut Memory,
    id: TransferId,
    bytes: &[u8],
    range: &Range,
    few: u32,
)
    requires can { CanStoreBytes memory.old range.now.object.0 range.now.off range.now.len few }
    requires size { range.now.len ≡ length bytes.now }
    requires landed { memory.old.frames.landed < 2 ^ 63 }
    ensures stores { StoresBytes memory.old memory.new range.now.object.0 range.now.off bytes.now }
    ensures copies { CopiesAtMost (store_work memory.old range.now.object.0 range.now.off range.now.len few) memory.old memory.new }
{
    landings_show_nowhere_else();
    let plan = aligned_buffer(memory, id, range.off, range.len);
    land_bytes(&mut memory.frames, &plan, bytes);
    store_buffer(memory, plan.loans.as_slice(), range, few);
}

// Makes the pages ready in which a copy input's bytes are stored, and leaves a free frame for each.
fn make_ready<S: Store>(
    kernel: &mut Kernel,
    store: &mut S,
    id: TransferId,
    range: &Range,
) -> Result<(), StoreFault>
    requires good { IsGood kernel.old }
    requires sized { IsSized kernel.old.memory (S.view store.old) }
    requires meters { AreBelow (2 ^ 63) kernel.old.memory.frames.meters }
    requires pending { IsPending kernel.old id.0 }
    requires case { IsLateOutboard Copy kernel.old id.0 }
    requires target { IsTargetOf kernel.old id.0 range.now }
    ensures moved { IsMoved kernel.old kernel.new (S.view store.old) (S.view store.new) }
    ensures can { OnOk result ((few : ℕ) → CanStoreBytes kernel.new.memory range.now.object.0 range.now.off range.now.len few) }
    ensures rises { MetersRise (2 ^ 22) kernel.old.memory.frames kernel.new.memory.frames }
    ensures landed { kernel.new.memory.frames.landed ≡ kernel.old.memory.frames.landed }
    ensures copies { CopiesAtMost (ready_work kernel.old.memory range.now.object.0 range.now.off range.now.len) kernel.old.memory kernel.new.memory }
    ensures held { HoldsNoMore kernel.old.memory kernel.new.memory }
    ensures cause { HasCause (S.view store.old).faults (S.view store.new).faults result }
{
    copy_laws();
    pending_are_available();
    let page = kernel.spaces.page().get();
    let count = page_count(page, range.off, range.len);
    match make_frames(kernel, store, 2 * count) {
        Ok(()) => {}
        Err(fault) => return Err(fault),
    }
    match ready_range(&mut kernel.memory, store, range) {
        Ok(()) => Ok(()),
        Err(fault) => Err(fault),
    }
}

// How many bytes of a page are copied out for a pending input at most.
fn few_for(kernel: &Kernel, id: TransferId) -> u32
    requires pending { IsPending kernel.now id.0 }
    ensures { IfSome (find (has_number id.0) kernel.now.transfers) (λ t. result ≡ few_of kernel.now.config t.sem) }
{
    match kernel.transfers.find(Search::Number(id.0)) {
        Some(transfer) => few_bytes(kernel, transfer.sem),
        None => unreachable!(),
    }
}

// Stores what is stored of an input, as it lies in its device's memory, in the range.
fn store_waiting(
    devices: &[Option<Device>; 8],
    memory: &mut Memory,
    transfer: &Transfer,
    range: &Range,
    few: u32,
)
    requires number { transfer.now.dev < 8 }
    requires waiting { CanFetch transfer.now.stored (entry devices.now transfer.now.dev) transfer.now.buffer }
    requires can { CanStoreBytes memory.old range.now.object.0 range.now.off range.now.len few }
    requires size { range.now.len ≡ length (waiting_bytes devices.now transfer.now) }
    requires landed { memory.old.frames.landed < 2 ^ 63 }
    ensures stores { StoresBytes memory.old memory.new range.now.object.0 range.now.off (waiting_bytes devices.now transfer.now) }
    ensures copies { CopiesAtMost (store_work memory.old range.now.object.0 range.now.off range.now.len few) memory.old memory.new }
{
    let bytes = waiting_bytes(devices, transfer);
    store_bytes(memory, transfer.id, bytes, range, few);
}

// What has come of a pending copy input is stored in the range.
fn store_pending(kernel: &mut Kernel, id: TransferId, range: &Range)
    requires good { IsGood kernel.old }
    requires accepted { refuse (outline kernel.old) (event.Finish id.0) ≡ None }
    requires case { IsLateOutboard Copy kernel.old id.0 }
    requires target { IsTargetOf kernel.old id.0 range.now }
    requires can { (few : ℕ) → CanStoreBytes kernel.old.memory range.now.object.0 range.now.off range.now.len few }
    requires landed { kernel.old.memory.frames.landed < 2 ^ 63 }
    ensures stores { StoresPending id.0 range.now kernel.old kernel.new }
    ensures copies { IfSome (find (has_number id.0) kernel.old.transfers) (λ t. CopiesAtMost (store_work kernel.old.memory range.now.object.0 range.now.off range.now.len (few_of kernel.old.config t.sem)) kernel.old.memory kernel.new.memory) }
{
    let few = few_for(kernel, id);
    match kernel.transfers.find(Search::Number(id.0)) {
        Some(transfer) => {
            store_waiting(&kernel.devices, &mut kernel.memory, transfer, range, few)
        }
        None => unreachable!(),
    }
}

// Ends a copy input on an outboard device whose process may write its whole range now: what is stored of it goes there, and
// its buffer is free. Pages of which it has a part are brought in first, so that a failure of the store, after which it is
// still pending, comes before the first stored byte. It answers how many bytes were stored.
fn finish_copy_landed<S: Store>(
    kernel: &mut Kernel,
    store: &mut S,
    id: TransferId,
    range: &Range,
) -> Reply<'static>
    requires good { IsGood kernel.old }
    requires sized { IsSized kernel.old.memory (S.view store.old) }
    requires meters { AreBelow (2 ^ 63) kernel.old.memory.frames.meters }
    requires landed { kernel.old.memory.frames.landed < 2 ^ 63 }
    requires accepted { refuse (outline kernel.old) (event.Finish id.0) ≡ None }
    requires case { IsLateOutboard Copy kernel.old id.0 }
    requires target { IsTargetOf kernel.old id.0 range.now }
    ensures serves { Serves kernel.old (event.Finish id.0) kernel.new (S.view store.old) (S.view store.new) result }
    ensures copying { KeepsToBound kernel.old (event.Finish id.0) kernel.new result }
{
    end_laws();
    copy_laws();
    swap_laws();
    buffers_show();
    buffers_are_released();
    paged_events_are_told();
    whole_pages_cost_nothing();
    match make_ready(kernel, store, id, range) {
        Ok(()) => {}
        Err(_) => return Reply::StoreFault,
    }
    store_pending(kernel, id, range);
    let transfer = end_waiting(kernel, id);
    Reply::Input {
        at: None,
        n: transfer.stored,
        note: transfer.note,
    }
}

// The process of a pending transfer, if it has one.
fn owner_of(kernel: &Kernel, id: TransferId) -> Option<u32>
    requires pending { IsPending kernel.now id.0 }
    ensures { IfSome (find (has_number id.0) kernel.now.transfers) (OwnerIs result) }
{
    match kernel.transfers.find(Search::Number(id.0)) {
        Some(transfer) => transfer.owner,
        None => None,
    }
}

// Ends one whose bytes have nowhere to go.
fn drop_landed(kernel: &mut Kernel, id: TransferId) -> Reply<'static>
    requires good { IsGood kernel.old }
    requires accepted { refuse (outline kernel.old) (event.Finish id.0) ≡ None }
    requires case { IsLateOutboard Copy kernel.old id.0 }
    requires target { HasNoTargetOf kernel.old id.0 }
    ensures { EndsAlone kernel.old id.0 kernel.new result }
{
    match owner_of(kernel, id) {
        None => finish_gone_late(kernel, id),
        Some(_) => finish_lost_late(kernel, id),
    }
}

/// Ends a copy input on an outboard device. Where its process may write its whole range now, what is stored of it goes there:
/// pages of which it has a part are brought in first, so that a failure of the store, after which it is still pending, comes
/// before the first stored byte. Its buffer is free at its end. It answers how many bytes were stored, `lost` where the range
/// may not be written, and `gone` where the process is gone.
pub fn finish_copy_outboard<S: Store>(
    kernel: &mut Kernel,
    store: &mut S,
    id: TransferId,
) -> Reply<'static>
    requires good { IsGood kernel.old }
    requires sized { IsSized kernel.old.memory (S.view store.old) }
    requires meters { AreBelow (2 ^ 63) kernel.old.memory.frames.meters }
    requires landed { kernel.old.memory.frames.landed < 2 ^ 63 }
    requires accepted { refuse (outline kernel.old) (event.Finish id.0) ≡ None }
    requires case { IsLateOutboard Copy kernel.old id.0 }
    ensures serves { Serves kernel.old (event.Finish id.0) kernel.new (S.view store.old) (S.view store.new) result }

    // What the processor copies keeps to the table.
    ensures copying { KeepsToBound kernel.old (event.Finish id.0) kernel.new result }
{
    accepted_events_step();
    match find_target(kernel, id) {
        Some(range) => finish_copy_landed(kernel, store, id, &range),
        None => drop_landed(kernel, id),
    }
}
