//! The end of move inputs on pooled devices: the bytes that wait in a buffer of the pool are copied to pages of zeros.
ghost use Rattle.std.specs.Prelude.{◌≡◌, ◌^◌, ◌<◌, None};
ghost use Rattle.genie_base.specs.declared.event.Event.TheVariants as event;
ghost use Rattle.genie_base.specs.declared.semantics.Class.TheVariants.{Move};
ghost use Rattle.genie_object.specs.Costs.{AreBelow};
ghost use Rattle.genie_object.specs.Sound.{IsSized};
ghost use Rattle.genie_model.specs.Refusing.{refuse};
ghost use Rattle.genie_kernel.specs.Good.{IsGood};
ghost use Rattle.genie_kernel.specs.View.{outline};
ghost use Rattle.genie_arrivals.specs.Failing.{Serves};
ghost use Rattle.genie_arrivals.specs.Pooled.{GoesTo, IsOwned, IsPooledInput};

use crate::blanks::blank_object;
use crate::laws::{change_laws, copy_laws, end_laws};
use crate::live::make_live;
use crate::owned::named_region;
use crate::pooled::{copy_pending, is_gone, region_range};
use crate::room::make_frames;
use crate::waiting::{end_waiting, finish_gone_late, finish_lost_late};
use genie_base::{Reply, TransferId};
use genie_changes::released::{buffers_are_released, buffers_show};
use genie_changes::settled::paged_events_are_told;
use genie_kernel::Kernel;
use genie_kernel::laws::accepted_events_step;
use genie_object::Range;
use genie_plan::page_count;
use genie_room::laws::pending_are_available;
use genie_store::Store;

// Ends a move input whose bytes go to this range of its region.
fn move_into<S: Store>(
    kernel: &mut Kernel,
    store: &mut S,
    id: TransferId,
    range: &Range,
) -> Reply<'static>
    requires good { IsGood kernel.old }
    requires sized { IsSized kernel.old.memory (S.view store.old) }
    requires meters { AreBelow (2 ^ 63) kernel.old.memory.frames.meters }
    requires accepted { refuse (outline kernel.old) (event.Finish id.0) ≡ None }
    requires case { IsPooledInput Move kernel.old id.0 }
    requires owner { IsOwned kernel.old id.0 }
    requires place { GoesTo kernel.old id.0 range.now }
    ensures { Serves kernel.old (event.Finish id.0) kernel.new (S.view store.old) (S.view store.new) result }
{
    end_laws();
    change_laws();
    copy_laws();
    buffers_show();
    buffers_are_released();
    pending_are_available();
    paged_events_are_told();
    let page = kernel.spaces.page().get();
    let count = page_count(page, range.off, range.len);
    match make_frames(kernel, store, count) {
        Ok(()) => {}
        Err(_) => return Reply::StoreFault,
    }
    blank_object(&mut kernel.memory, range.object, count);
    copy_pending(kernel, id, range);
    let transfer = end_waiting(kernel, id);
    let Some(owned) = named_region(&kernel.spaces, &transfer) else {
        unreachable!()
    };
    make_live(kernel, owned.pid, owned.region.id);
    Reply::Input {
        at: Some(owned.region.start * page),
        n: transfer.stored,
        note: transfer.note,
    }
}

/// Ends a move input on a pooled device: the region that was held for it is Live, and has what is stored of it, copied from
/// its buffer, and then zeros. Frames are made free first, so that a failure of the store, after which it is still pending,
/// comes before the region is touched. Its buffer is free then. It answers the region's address and how many bytes were
/// stored, `lost` where the region is gone, and `gone` where the process is.
pub fn finish_move_pooled<S: Store>(
    kernel: &mut Kernel,
    store: &mut S,
    id: TransferId,
) -> Reply<'static>
    requires good { IsGood kernel.old }
    requires sized { IsSized kernel.old.memory (S.view store.old) }
    requires meters { AreBelow (2 ^ 63) kernel.old.memory.frames.meters }
    requires accepted { refuse (outline kernel.old) (event.Finish id.0) ≡ None }
    requires case { IsPooledInput Move kernel.old id.0 }
    ensures { Serves kernel.old (event.Finish id.0) kernel.new (S.view store.old) (S.view store.new) result }
{
    accepted_events_step();
    if is_gone(kernel, id) {
        return finish_gone_late(kernel, id);
    }
    match region_range(kernel, id) {
        Some(range) => move_into(kernel, store, id, &range),
        None => finish_lost_late(kernel, id),
    }
}
