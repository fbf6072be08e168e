//! The end of move inputs on outboard devices, whose bytes are stored then.
ghost use Rattle.std.specs.Prelude.{◌≡◌, ◌≢◌, ◌^◌, ◌<◌, ℕ, [], None, length};
ghost use Rattle.genie_base.specs.declared.event.Event.TheVariants as event;
ghost use Rattle.genie_base.specs.declared.semantics.Class.TheVariants.{Move};
ghost use Rattle.genie_object.specs.Costs.{AreBelow};
ghost use Rattle.genie_object.specs.Leaving.{IsUnheld};
ghost use Rattle.genie_object.specs.Objects.{object_at};
ghost use Rattle.genie_object.specs.Sound.{IsSized, IsSound};
ghost use Rattle.genie_model.specs.Refusing.{refuse};
ghost use Rattle.genie_model.specs.Tables.{entry};
ghost use Rattle.genie_kernel.specs.Good.{IsGood};
ghost use Rattle.genie_kernel.specs.View.{outline};
ghost use Rattle.genie_copying.specs.Bounds.{KeepsToBound};
ghost use Rattle.genie_copying.specs.Spending.{CopiesAtMost};
ghost use Rattle.genie_arrivals.specs.Failing.{Serves};
ghost use Rattle.genie_arrivals.specs.Outboard.{CanFetch, IsLateOutboard, waiting_bytes};
ghost use Rattle.genie_arrivals.specs.OutboardMove.{CanFill, FillsBytes, FillsPending};
ghost use Rattle.genie_arrivals.specs.Pooled.{GoesTo, IsOwned};

use crate::clear::{clear_object, forbid_each};
use crate::laws::{change_laws, copy_laws, end_laws, swap_laws};
use crate::live::make_live;
use crate::outboard::waiting_bytes;
use crate::outboard_copy::store_bytes;
use crate::owned::named_region;
use crate::pooled::{is_gone, region_range};
use crate::room::make_frames;
use crate::waiting::{end_waiting, finish_gone_late, finish_lost_late};
use genie_base::{Reply, TransferId};
use genie_changes::released::{buffers_are_released, buffers_show};
use genie_changes::settled::paged_events_are_told;
use genie_device::Device;
use genie_finish::laws::moves_end_in_zeros;
use genie_kernel::laws::accepted_events_step;
use genie_kernel::{Kernel, Search, Transfer};
use genie_object::{Memory, Range};
use genie_plan::page_count;
use genie_room::laws::pending_are_available;
use genie_store::Store;

// Empties an object, and stores bytes in a range of it through fresh frames: zeros stand besides. No entry permits writing
// then: a page is made writable when it is written.
fn fill_bytes(memory: &mut Memory, id: TransferId, bytes: &[u8], range: &Range)
    requires sound { IsSound memory.old }
    requires there { object_at memory.old.objects range.now.object.0 ≢ [] }
    requires unheld { (i : ℕ) → IsUnheld memory.old range.now.object.0 i }
    requires can { CanFill memory.old range.now }
    requires size { range.now.len ≡ length bytes.now }
    requires landed { memory.old.frames.landed < 2 ^ 63 }
    ensures fills { FillsBytes memory.old memory.new range.now.object.0 range.now.off bytes.now }
    ensures copies { range.now.off ≡ 0 → CopiesAtMost memory.old.frames.page memory.old memory.new }
{
    clear_object(memory, range.object);
    store_bytes(memory, id, bytes, range, 0);
    forbid_each(&mut memory.objects, range.object);
}

// Fills it with what is stored of an input, as it lies in its device's memory.
fn fill_waiting(
    devices: &[Option<Device>; 8],
    memory: &mut Memory,
    transfer: &Transfer,
    range: &Range,
)
    requires number { transfer.now.dev < 8 }
    requires waiting { CanFetch transfer.now.stored (entry devices.now transfer.now.dev) transfer.now.buffer }
    requires sound { IsSound memory.old }
    requires there { object_at memory.old.objects range.now.object.0 ≢ [] }
    requires unheld { (i : ℕ) → IsUnheld memory.old range.now.object.0 i }
    requires can { CanFill memory.old range.now }
    requires size { range.now.len ≡ length (waiting_bytes devices.now transfer.now) }
    requires landed { memory.old.frames.landed < 2 ^ 63 }
    ensures fills { FillsBytes memory.old memory.new range.now.object.0 range.now.off (waiting_bytes devices.now transfer.now) }
    ensures copies { range.now.off ≡ 0 → CopiesAtMost memory.old.frames.page memory.old memory.new }
{
    let bytes = waiting_bytes(devices, transfer);
    fill_bytes(memory, transfer.id, bytes, range);
}

// What has come of a pending move input fills the object of its region.
fn fill_pending(kernel: &mut Kernel, id: TransferId, range: &Range)
    requires good { IsGood kernel.old }
    requires accepted { refuse (outline kernel.old) (event.Finish id.0) ≡ None }
    requires case { IsLateOutboard Move kernel.old id.0 }
    requires place { GoesTo kernel.old id.0 range.now }
    requires can { CanFill kernel.old.memory range.now }
    requires landed { kernel.old.memory.frames.landed < 2 ^ 63 }
    ensures fills { FillsPending id.0 range.now kernel.old kernel.new }
    ensures copies { range.now.off ≡ 0 → CopiesAtMost kernel.old.memory.frames.page kernel.old.memory kernel.new.memory }
{
    match kernel.transfers.find(Search::Number(id.0)) {
        Some(transfer) => fill_waiting(&kernel.devices, &mut kernel.memory, transfer, range),
        None => unreachable!(),
    }
}

// Ends a move input whose bytes go to this range of its region.
fn finish_move_landed<S: Store>(
    kernel: &mut Kernel,
    store: &mut S,
    id: TransferId,
    range: &Range,
) -> Reply<'static>
    requires good { IsGood kernel.old }
    requires sized { IsSized kernel.old.memory (S.view store.old) }
    requires meters { AreBelow (2 ^ 63) kernel.old.memory.frames.meters }
    requires landed { kernel.old.memory.frames.landed < 2 ^ 63 }
    requires accepted { refuse (outline kernel.old) (event.Finish id.0) ≡ None }
    requires case { IsLateOutboard Move kernel.old id.0 }
    requires owner { IsOwned kernel.old id.0 }
    requires place { GoesTo kernel.old id.0 range.now }
    ensures serves { Serves kernel.old (event.Finish id.0) kernel.new (S.view store.old) (S.view store.new) result }
    ensures copying { KeepsToBound kernel.old (event.Finish id.0) kernel.new result }
{
    end_laws();
    change_laws();
    copy_laws();
    swap_laws();
    moves_end_in_zeros();
    buffers_show();
    buffers_are_released();
    pending_are_available();
    paged_events_are_told();
    let page = kernel.spaces.page().get();
    let count = page_count(page, range.off, range.len);
    match make_frames(kernel, store, count) {
        Ok(()) => {}
        Err(_) => return Reply::StoreFault,
    }
    fill_pending(kernel, id, range);
    let transfer = end_waiting(kernel, id);
    let Some(owned) = named_region(&kernel.spaces, &transfer) else {
        unreachable!()
    };
    make_live(kernel, owned.pid, owned.region.id);
    Reply::Input {
        at: Some(owned.region.start * page),
        n: transfer.stored,
        note: transfer.note,
    }
}

/// Ends a move input on an outboard device: the region that was held for it is Live, and has what is stored of it, and then
/// zeros. Frames are made free first, so that a failure of the store, after which it is still pending, comes before the region
/// is touched. Its buffer is free then. It answers the region's address and how many bytes were stored, `lost` where the
/// region is gone, and `gone` where the process is.
pub fn finish_move_outboard<S: Store>(
    kernel: &mut Kernel,
    store: &mut S,
    id: TransferId,
) -> Reply<'static>
    requires good { IsGood kernel.old }
    requires sized { IsSized kernel.old.memory (S.view store.old) }
    requires meters { AreBelow (2 ^ 63) kernel.old.memory.frames.meters }
    requires landed { kernel.old.memory.frames.landed < 2 ^ 63 }
    requires accepted { refuse (outline kernel.old) (event.Finish id.0) ≡ None }
    requires case { IsLateOutboard Move kernel.old id.0 }
    ensures serves { Serves kernel.old (event.Finish id.0) kernel.new (S.view store.old) (S.view store.new) result }

    // What the processor copies keeps to the table.
    ensures copying { KeepsToBound kernel.old (event.Finish id.0) kernel.new result }
{
    accepted_events_step();
    if is_gone(kernel, id) {
        return finish_gone_late(kernel, id);
    }
    match region_range(kernel, id) {
        Some(range) => finish_move_landed(kernel, store, id, &range),
        None => finish_lost_late(kernel, id),
    }
}
