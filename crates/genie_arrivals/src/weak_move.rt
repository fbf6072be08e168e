//! The end of weak move inputs.
ghost use Rattle.std.specs.Prelude.{◌≡◌, ◌*◌, ◌<◌, ◌^◌, None, Some};
ghost use Rattle.genie_base.specs.declared.event.Event.TheVariants as event;
ghost use Rattle.genie_base.specs.declared.semantics.Class.TheVariants.{WeakMove};
ghost use Rattle.genie_model.specs.Refusing.{refuse};
ghost use Rattle.genie_kernel.specs.Good.{IsGood};
ghost use Rattle.genie_kernel.specs.View.{outline};
ghost use Rattle.genie_copying.specs.Bounds.{KeepsToBound};
ghost use Rattle.genie_arrivals.specs.Cases.{IsEarlyInput};
ghost use Rattle.genie_arrivals.specs.Ends.{EndsAlone};

use crate::back::give_back;
use crate::laws::{change_laws, end_laws};
use crate::live::make_live;
use crate::owned::named_region;
use genie_base::{Reply, TransferId};
use genie_kernel::Kernel;

/// Ends a weak move input on an early device, whose bytes have landed: what was lent is given back, and the region is Live.
/// It answers the region's address and how many bytes have landed, `lost` where the region is gone, and `gone` where the
/// process is.
pub fn finish_weak_move_early(kernel: &mut Kernel, id: TransferId) -> Reply<'static>
    requires good { IsGood kernel.old }
    requires accepted { refuse (outline kernel.old) (event.Finish id.0) ≡ None }
    requires case { IsEarlyInput WeakMove kernel.old id.0 }
    ensures ends { EndsAlone kernel.old id.0 kernel.new result }

    // What the processor copies keeps to the table.
    ensures copying { KeepsToBound kernel.old (event.Finish id.0) kernel.new result }
{
    end_laws();
    change_laws();
    let transfer = kernel.transfers.remove(id);
    give_back(&mut kernel.memory.frames, &transfer);
    kernel.memory.frames.len();
    match transfer.owner {
        Some(_) => {}
        None => return Reply::Gone,
    }
    match named_region(&kernel.spaces, &transfer) {
        Some(owned) => {
            let page = kernel.spaces.page().get();
            make_live(kernel, owned.pid, owned.region.id);
            Reply::Input {
                at: Some(owned.region.start * page),
                n: transfer.stored,
                note: transfer.note,
            }
        }
        None => Reply::Lost,
    }
}
