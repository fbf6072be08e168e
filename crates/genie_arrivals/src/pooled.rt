//! The end of inputs on pooled devices: the bytes that wait in a buffer of the pool are copied to where they go.
ghost use Rattle.std.specs.Prelude.{◌≡◌, ◌<◌, ◌^◌, None, IfSome, IsSome, find, true, false};
ghost use Rattle.genie_base.specs.declared.event.Event.TheVariants as event;
ghost use Rattle.genie_base.specs.declared.semantics.Class.TheVariants.{Share, WeakMove};
ghost use Rattle.genie_object.specs.Costs.{AreBelow};
ghost use Rattle.genie_finish.specs.Copies.{CopiesRange};
ghost use Rattle.genie_model.specs.Refusing.{refuse};
ghost use Rattle.genie_model.specs.Tables.{entry};
ghost use Rattle.genie_kernel.specs.Calls.{has_number};
ghost use Rattle.genie_kernel.specs.Good.{IsGood};
ghost use Rattle.genie_kernel.specs.Regions.{owned_regions};
ghost use Rattle.genie_kernel.specs.View.{outline};
ghost use Rattle.genie_copying.specs.Bounds.{KeepsToBound};
ghost use Rattle.genie_arrivals.specs.Paging.{EndsPaged};
ghost use Rattle.genie_arrivals.specs.Pooled.{CanCopyPending, CanCopyTo, CopiesPending, GoesTo, IsBufferIn, IsOwned, IsPooledInput, frames_in, offset_of};
ghost use Rattle.genie_arrivals.specs.Replies.{is_there};

use crate::laws::{change_laws, copy_laws, end_laws};
use crate::live::make_live;
use crate::owned::named_region;
use crate::waiting::{end_waiting, finish_gone_late, finish_lost_late};
use genie_base::{DeviceConfig, Reply, TransferId};
use genie_changes::released::{buffers_are_released, buffers_show};
use genie_finish::copy_range;
use genie_input::Pool;
use genie_kernel::{Kernel, Search, Transfer};
use genie_object::{Memory, Range};

// The place in the first page of a buffer at which a device's datagrams begin.
fn offset_at(devices: &[Option<DeviceConfig>; 8], dev: u32) -> u32
    requires { dev < 8 }
    ensures { result ≡ offset_of (entry devices.now dev) }
{
    match &devices[dev as usize] {
        Some(device) => device.offset,
        None => 0,
    }
}

// Copies what is stored of an input, from place `first` of its pool's buffer on, to a range.
fn copy_waiting(
    memory: &mut Memory,
    pools: &[Option<Pool>; 8],
    transfer: &Transfer,
    first: u32,
    range: &Range,
)
    requires number { transfer.now.dev < 8 }
    requires buffer { IsBufferIn (entry pools.now transfer.now.dev) transfer.now.buffer }
    requires can { CanCopyTo memory.old range.now first (frames_in (entry pools.now transfer.now.dev) transfer.now.buffer) }
    ensures { CopiesRange memory.old memory.new range.now.object.0 range.now.off range.now.len first (frames_in (entry pools.now transfer.now.dev) transfer.now.buffer) }
{
    let Some(buffer) = transfer.buffer else {
        unreachable!()
    };
    match &pools[transfer.dev as usize] {
        Some(pool) => copy_range(memory, pool.loans(buffer), first, range),
        None => unreachable!(),
    }
}

/// Copies what waits of a pending input to a range.
pub(crate) fn copy_pending(kernel: &mut Kernel, id: TransferId, range: &Range)
    requires { CanCopyPending id.0 range.now kernel.old }
    ensures { CopiesPending id.0 range.now kernel.old kernel.new }
{
    match kernel.transfers.find(Search::Number(id.0)) {
        Some(transfer) => {
            let first = offset_at(&kernel.config.devices, transfer.dev);
            copy_waiting(&mut kernel.memory, &kernel.pools, transfer, first, range);
        }
        None => unreachable!(),
    }
}

/// The range of the region that an input names to which its bytes go, or `None` where no process has it.
pub(crate) fn region_range(kernel: &Kernel, id: TransferId) -> Option<Range>
    requires { IsSome (find (has_number id.0) kernel.now.transfers) }
    ensures some { IfSome result (GoesTo kernel.now id.0) }
    ensures none { result ≡ None → IfSome (find (has_number id.0) kernel.now.transfers) (λ t. is_there (owned_regions kernel.now.spaces.processes) t ≡ false) }
{
    match kernel.transfers.find(Search::Number(id.0)) {
        Some(transfer) => match named_region(&kernel.spaces, transfer) {
            Some(owned) => Some(Range {
                object: owned.region.object,
                off: transfer.offset,
                len: transfer.stored,
            }),
            None => None,
        },
        None => unreachable!(),
    }
}

// Ends a share input whose bytes go to this range: they are copied there, and its buffer is free.
fn share_into(kernel: &mut Kernel, id: TransferId, range: &Range) -> Reply<'static>
    requires good { IsGood kernel.old }
    requires meters { AreBelow (2 ^ 63) kernel.old.memory.frames.meters }
    requires accepted { refuse (outline kernel.old) (event.Finish id.0) ≡ None }
    requires case { IsPooledInput Share kernel.old id.0 }
    requires owner { IsOwned kernel.old id.0 }
    requires place { GoesTo kernel.old id.0 range.now }
    ensures ends { EndsPaged kernel.old id.0 kernel.new result }
    ensures copying { KeepsToBound kernel.old (event.Finish id.0) kernel.new result }
{
    end_laws();
    change_laws();
    copy_laws();
    buffers_show();
    buffers_are_released();
    copy_pending(kernel, id, range);
    let transfer = end_waiting(kernel, id);
    Reply::Input {
        at: None,
        n: transfer.stored,
        note: transfer.note,
    }
}

/// Whether the process is gone that made the call of a pending transfer.
pub(crate) fn is_gone(kernel: &Kernel, id: TransferId) -> bool
    requires { IsSome (find (has_number id.0) kernel.now.transfers) }
    ensures yes { result ≡ true → IfSome (find (has_number id.0) kernel.now.transfers) (λ t. t.owner ≡ None) }
    ensures no { result ≡ false → IsOwned kernel.now id.0 }
{
    match kernel.transfers.find(Search::Number(id.0)) {
        Some(transfer) => transfer.owner.is_none(),
        None => unreachable!(),
    }
}

/// Ends a share input on a pooled device: what is stored of it is copied from its buffer to the region, its buffer is free, and
/// what was lent is given back. It answers how many bytes are stored, `lost` where the region is gone, and `gone` where the
/// process is.
pub fn finish_share_pooled(kernel: &mut Kernel, id: TransferId) -> Reply<'static>
    requires good { IsGood kernel.old }
    requires meters { AreBelow (2 ^ 63) kernel.old.memory.frames.meters }
    requires accepted { refuse (outline kernel.old) (event.Finish id.0) ≡ None }
    requires case { IsPooledInput Share kernel.old id.0 }
    ensures ends { EndsPaged kernel.old id.0 kernel.new result }

    // What the processor copies keeps to the table.
    ensures copying { KeepsToBound kernel.old (event.Finish id.0) kernel.new result }
{
    if is_gone(kernel, id) {
        return finish_gone_late(kernel, id);
    }
    match region_range(kernel, id) {
        Some(range) => share_into(kernel, id, &range),
        None => finish_lost_late(kernel, id),
    }
}

// Ends a weak move input whose bytes go to this range: they are copied there, its buffer is free, and the region is Live.
fn weak_move_into(kernel: &mut Kernel, id: TransferId, range: &Range) -> Reply<'static>
    requires good { IsGood kernel.old }
    requires meters { AreBelow (2 ^ 63) kernel.old.memory.frames.meters }
    requires accepted { refuse (outline kernel.old) (event.Finish id.0) ≡ None }
    requires case { IsPooledInput WeakMove kernel.old id.0 }
    requires owner { IsOwned kernel.old id.0 }
    requires place { GoesTo kernel.old id.0 range.now }
    ensures ends { EndsPaged kernel.old id.0 kernel.new result }
    ensures copying { KeepsToBound kernel.old (event.Finish id.0) kernel.new result }
{
    end_laws();
    change_laws();
    copy_laws();
    buffers_show();
    buffers_are_released();
    copy_pending(kernel, id, range);
    let transfer = end_waiting(kernel, id);
    let Some(owned) = named_region(&kernel.spaces, &transfer) else {
        unreachable!()
    };
    let page = kernel.spaces.page().get();
    make_live(kernel, owned.pid, owned.region.id);
    Reply::Input {
        at: Some(owned.region.start * page),
        n: transfer.stored,
        note: transfer.note,
    }
}

/// Ends a weak move input on a pooled device: what is stored of it is copied from its buffer to the region, which is Live then,
/// its buffer is free, and what was lent is given back. It answers the region's address and how many bytes are stored, `lost`
/// where the region is gone, and `gone` where the process is.
pub fn finish_weak_move_pooled(kernel: &mut Kernel, id: TransferId) -> Reply<'static>
    requires good { IsGood kernel.old }
    requires meters { AreBelow (2 ^ 63) kernel.old.memory.frames.meters }
    requires accepted { refuse (outline kernel.old) (event.Finish id.0) ≡ None }
    requires case { IsPooledInput WeakMove kernel.old id.0 }
    ensures ends { EndsPaged kernel.old id.0 kernel.new result }

    // What the processor copies keeps to the table.
    ensures copying { KeepsToBound kernel.old (event.Finish id.0) kernel.new result }
{
    if is_gone(kernel, id) {
        return finish_gone_late(kernel, id);
    }
    match region_range(kernel, id) {
        Some(range) => weak_move_into(kernel, id, &range),
        None => finish_lost_late(kernel, id),
    }
}
