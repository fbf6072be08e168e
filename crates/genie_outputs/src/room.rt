//! Frames for a call's pages.
ghost use Rattle.std.specs.Prelude.{◌≡◌, ◌≤◌, ◌<◌, ◌+◌, ◌-◌, ◌^◌, None, count_by, OnOk, IfOk};
ghost use Rattle.genie_base.specs.Causes.{HasCause};
ghost use Rattle.genie_frame.specs.FrameTable.{is_free};
ghost use Rattle.genie_hiding.specs.Hidden.{objects_of};
ghost use Rattle.genie_hiding.specs.Rooms.{available};
ghost use Rattle.genie_object.specs.Costs.{AreBelow};
ghost use Rattle.genie_object.specs.Sound.{IsSized};
ghost use Rattle.genie_model.specs.Refusing.{refuse};
ghost use Rattle.genie_kernel.specs.Good.{IsGood};
ghost use Rattle.genie_kernel.specs.Rising.{MetersRise};
ghost use Rattle.genie_kernel.specs.View.{outline};
ghost use Rattle.genie_changes.specs.Making.{IsMoved};
ghost use Rattle.genie_copying.specs.Spending.{CopiesAtMost, NoDearer, StayUnheld};
ghost use Rattle.genie_outputs.specs.Answering.{IsReady};
ghost use Rattle.genie_outputs.specs.Calls.{event_of};

use crate::call::Call;
use crate::laws::output_laws;
use crate::reach::{range_in, region_reached};
use genie_changes::making::memory_moves;
use genie_kernel::Kernel;
use genie_object::Range;
use genie_pageout::make_room;
use genie_plan::page_count;
use genie_region::Region;
use genie_room::laws::places_suffice;
use genie_store::{Store, StoreFault};

// Makes so many frames free.
fn make_frames<S: Store>(kernel: &mut Kernel, store: &mut S, frames: u32) -> Result<(), StoreFault>
    requires good { IsGood kernel.old }
    requires sized { IsSized kernel.old.memory (S.view store.old) }
    requires meters { AreBelow (2 ^ 63) kernel.old.memory.frames.meters }
    requires frames { frames ≤ available kernel.old.memory.frames }
    ensures moved { IsMoved kernel.old kernel.new (S.view store.old) (S.view store.new) }
    ensures free { OnOk result (frames ≤ count_by is_free kernel.new.memory.frames.owners) }
    ensures meters { AreBelow (2 ^ 63 + 2 ^ 20) kernel.new.memory.frames.meters }
    ensures cause { HasCause (S.view store.old).faults (S.view store.new).faults result }
    ensures rises { MetersRise (2 ^ 13) kernel.old.memory.frames kernel.new.memory.frames }
    ensures landed { kernel.new.memory.frames.landed ≡ kernel.old.memory.frames.landed }
    ensures gets { kernel.new.memory.frames.meters.gets ≡ kernel.old.memory.frames.meters.gets }
    ensures copies { CopiesAtMost 0 kernel.old.memory kernel.new.memory }
    ensures costs { NoDearer (objects_of kernel.old.hidden) kernel.old.memory kernel.new.memory }
    ensures unheld { StayUnheld (objects_of kernel.old.hidden) kernel.old.memory kernel.new.memory }
{
    places_suffice();
    memory_moves();
    match make_room(
        &mut kernel.memory,
        &mut kernel.hidden,
        &mut kernel.clock,
        store,
        frames,
    ) {
        Ok(()) => Ok(()),
        Err(fault) => Err(fault),
    }
}

// Makes a frame free for each page of the call, and answers the region that it reaches and the range of its object.
pub(crate) fn make_ready<S: Store>(
    kernel: &mut Kernel,
    store: &mut S,
    call: &Call,
) -> Result<(Region, Range), StoreFault>
    requires good { IsGood kernel.old }
    requires sized { IsSized kernel.old.memory (S.view store.old) }
    requires meters { AreBelow (2 ^ 63) kernel.old.memory.frames.meters }
    requires numbered { kernel.old.next < 2 ^ 32 - 1 }
    requires accepted { refuse (outline kernel.old) (event_of call.now) ≡ None }
    ensures moved { IsMoved kernel.old kernel.new (S.view store.old) (S.view store.new) }
    ensures ready { IfOk result (λ x. IsReady kernel.new call.now x.0 x.1 (S.view store.new)) }
    ensures cause { HasCause (S.view store.old).faults (S.view store.new).faults result }
    ensures rises { MetersRise (2 ^ 13) kernel.old.memory.frames kernel.new.memory.frames }
    ensures landed { kernel.new.memory.frames.landed ≡ kernel.old.memory.frames.landed }
    ensures gets { kernel.new.memory.frames.meters.gets ≡ kernel.old.memory.frames.meters.gets }
    ensures copies { CopiesAtMost 0 kernel.old.memory kernel.new.memory }
    ensures costs { NoDearer (objects_of kernel.old.hidden) kernel.old.memory kernel.new.memory }
    ensures unheld { StayUnheld (objects_of kernel.old.hidden) kernel.old.memory kernel.new.memory }
{
    output_laws();
    let region = region_reached(kernel, call);
    let page = kernel.spaces.page().get();
    let range = range_in(&region, call, page);
    match make_frames(kernel, store, page_count(page, range.off, range.len)) {
        Ok(()) => Ok((region, range)),
        Err(fault) => Err(fault),
    }
}
