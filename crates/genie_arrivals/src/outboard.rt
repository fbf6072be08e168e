//! The end of weak inputs on outboard devices, whose bytes land then.
ghost use Rattle.std.specs.Prelude.{◌≡◌, ◌+◌, ◌^◌, ◌<◌, None, IfSome, IsSome, find, length};
ghost use Rattle.genie_base.specs.declared.event.Event.TheVariants as event;
ghost use Rattle.genie_base.specs.declared.semantics.Class.TheVariants.{Share, WeakMove};
ghost use Rattle.genie_plan.specs.Plans.{CanLand, input_frames};
ghost use Rattle.genie_model.specs.Refusing.{refuse};
ghost use Rattle.genie_model.specs.Tables.{entry};
ghost use Rattle.genie_kernel.specs.Calls.{has_number};
ghost use Rattle.genie_kernel.specs.Good.{IsGood};
ghost use Rattle.genie_kernel.specs.Regions.{owned_regions};
ghost use Rattle.genie_kernel.specs.View.{outline};
ghost use Rattle.genie_arrivals.specs.Outboard.{CanFetch, EndsLanded, GoesTo, IsLandedAtEnd, IsLateOutboard, IsWeakOutboard, LandsBytes, LandsIn, LandsPending, MayLandIn, waiting_bytes};

use crate::laws::{change_laws, end_laws};
use crate::live::make_live;
use crate::owned::{is_there, named_region};
use crate::waiting::{end_waiting, finish_gone_late, finish_lost_late};
use genie_base::{Reply, TransferId};
use genie_changes::released::{buffers_are_released, buffers_show};
use genie_device::{Device, Landing};
use genie_frame::Frames;
use genie_kernel::{Kernel, Loans, Search, Transfer};
use genie_plan::{FrameLanding, InPlan};

/// Where the bytes of a weak input go at its end.
#[derive(Clone, Copy, PartialEq, Eq)]
pub(crate) enum Destination {
    /// Nowhere: its process is gone.
    Gone,
    /// Nowhere: its process is there, and the region that it names is not.
    Lost,
    /// To that region.
    There,
}

// Where the bytes of a pending weak input go.
fn place_of_bytes(kernel: &Kernel, id: TransferId) -> Destination
    requires { IsSome (find (has_number id.0) kernel.now.transfers) }
    ensures { IfSome (find (has_number id.0) kernel.now.transfers) (GoesTo result (owned_regions kernel.now.spaces.processes)) }
{
    let Some(transfer) = kernel.transfers.find(Search::Number(id.0)) else {
        unreachable!()
    };
    match transfer.owner {
        None => Destination::Gone,
        Some(_) => {
            if is_there(&kernel.spaces, transfer) {
                Destination::There
            } else {
                Destination::Lost
            }
        }
    }
}

// Stores bytes in the frames that are lent for an input, from the first place of its range on.
pub(crate) fn land_bytes(frames: &mut Frames, plan: &InPlan, bytes: &[u8])
    requires ready { CanLand frames.old (input_frames plan.now.loans.items) plan.now.first plan.now.len }
    requires room { frames.old.landed + length bytes.now < 2 ^ 64 }
    ensures { LandsBytes plan.now bytes.now frames.old frames.new }
{
    let mut landing = FrameLanding {
        frames,
        loans: plan.loans.as_slice(),
        first: plan.first,
        len: plan.len,
    };
    landing.land(0, bytes);
}

// Lends the bytes that are stored of an input, as they lie in its device's memory.
pub(crate) fn waiting_bytes<'a>(devices: &'a [Option<Device>; 8], transfer: &Transfer) -> &'a [u8]
    requires number { transfer.now.dev < 8 }
    requires waiting { CanFetch transfer.now.stored (entry devices.now transfer.now.dev) transfer.now.buffer }
    ensures { result.now ≡ waiting_bytes devices.now transfer.now }
{
    let Some(buffer) = transfer.buffer else {
        unreachable!()
    };
    match &devices[transfer.dev as usize] {
        Some(device) => &device.arrived(buffer)[..transfer.stored as usize],
        None => unreachable!(),
    }
}

// Stores what is stored of an input in what is lent for it.
fn land_waiting(devices: &[Option<Device>; 8], frames: &mut Frames, transfer: &Transfer)
    requires number { transfer.now.dev < 8 }
    requires waiting { CanFetch transfer.now.stored (entry devices.now transfer.now.dev) transfer.now.buffer }
    requires ready { MayLandIn frames.old transfer.now.loans }
    requires room { frames.old.landed < 2 ^ 63 }
    ensures { LandsIn transfer.now.loans (waiting_bytes devices.now transfer.now) frames.old frames.new }
{
    let bytes = waiting_bytes(devices, transfer);
    match &transfer.loans {
        Loans::Inward(plan) => land_bytes(frames, plan, bytes),
        Loans::Nothing | Loans::Outward(_) => unreachable!(),
    }
}

// The bytes of a pending weak input land.
fn land_pending(kernel: &mut Kernel, id: TransferId)
    requires good { IsGood kernel.old }
    requires accepted { refuse (outline kernel.old) (event.Finish id.0) ≡ None }
    requires landed { kernel.old.memory.frames.landed < 2 ^ 63 }
    requires case { IfSome (find (has_number id.0) kernel.old.transfers) (IsWeakOutboard kernel.old.devices) }
    ensures { LandsPending id.0 kernel.old kernel.new }
{
    match kernel.transfers.find(Search::Number(id.0)) {
        Some(transfer) => land_waiting(&kernel.devices, &mut kernel.memory.frames, transfer),
        None => unreachable!(),
    }
}

// Ends one whose process and region are there: what is stored of it lands in the region now.
fn finish_share_landed(kernel: &mut Kernel, id: TransferId) -> Reply<'static>
    requires good { IsGood kernel.old }
    requires accepted { refuse (outline kernel.old) (event.Finish id.0) ≡ None }
    requires landed { kernel.old.memory.frames.landed < 2 ^ 63 }
    requires case { IsLandedAtEnd Share kernel.old id.0 }
    ensures { EndsLanded kernel.old id.0 kernel.new result }
{
    end_laws();
    buffers_show();
    buffers_are_released();
    land_pending(kernel, id);
    let transfer = end_waiting(kernel, id);
    Reply::Input {
        at: None,
        n: transfer.stored,
        note: transfer.note,
    }
}

// The same of a weak move input, whose region is Live then.
fn finish_weak_move_landed(kernel: &mut Kernel, id: TransferId) -> Reply<'static>
    requires good { IsGood kernel.old }
    requires accepted { refuse (outline kernel.old) (event.Finish id.0) ≡ None }
    requires landed { kernel.old.memory.frames.landed < 2 ^ 63 }
    requires case { IsLandedAtEnd WeakMove kernel.old id.0 }
    ensures { EndsLanded kernel.old id.0 kernel.new result }
{
    end_laws();
    change_laws();
    buffers_show();
    buffers_are_released();
    land_pending(kernel, id);
    let transfer = end_waiting(kernel, id);
    match named_region(&kernel.spaces, &transfer) {
        Some(owned) => {
            let page = kernel.spaces.page().get();
            make_live(kernel, owned.pid, owned.region.id);
            Reply::Input {
                at: Some(owned.region.start * page),
                n: transfer.stored,
                note: transfer.note,
            }
        }
        None => unreachable!(),
    }
}

/// Ends a share input on an outboard device: where its process and region are there, what is stored of it lands in the region
/// now. Its buffer is free, and what was lent is given back. It answers how many bytes are stored, `lost` where the region is
/// gone, and `gone` where the process is.
pub fn finish_share_outboard(kernel: &mut Kernel, id: TransferId) -> Reply<'static>
    requires good { IsGood kernel.old }
    requires accepted { refuse (outline kernel.old) (event.Finish id.0) ≡ None }
    requires landed { kernel.old.memory.frames.landed < 2 ^ 63 }
    requires case { IsLateOutboard Share kernel.old id.0 }
    ensures { EndsLanded kernel.old id.0 kernel.new result }
{
    match place_of_bytes(kernel, id) {
        Destination::Gone => finish_gone_late(kernel, id),
        Destination::Lost => finish_lost_late(kernel, id),
        Destination::There => finish_share_landed(kernel, id),
    }
}

/// Ends a weak move input on an outboard device: where its process and region are there, what is stored of it lands in the
/// region now, which is Live. Its buffer is free, and what was lent is given back. It answers the region's address and how many
/// bytes are stored, `lost` where the region is gone, and `gone` where the process is.
pub fn finish_weak_move_outboard(kernel: &mut Kernel, id: TransferId) -> Reply<'static>
    requires good { IsGood kernel.old }
    requires accepted { refuse (outline kernel.old) (event.Finish id.0) ≡ None }
    requires landed { kernel.old.memory.frames.landed < 2 ^ 63 }
    requires case { IsLateOutboard WeakMove kernel.old id.0 }
    ensures { EndsLanded kernel.old id.0 kernel.new result }
{
    match place_of_bytes(kernel, id) {
        Destination::Gone => finish_gone_late(kernel, id),
        Destination::Lost => finish_lost_late(kernel, id),
        Destination::There => finish_weak_move_landed(kernel, id),
    }
}
