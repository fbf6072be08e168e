//! The end of move inputs.
ghost use Rattle.std.specs.Prelude.{◌≡◌, ◌^◌, None};
ghost use Rattle.genie_base.specs.declared.event.Event.TheVariants as event;
ghost use Rattle.genie_base.specs.declared.semantics.Class.TheVariants.{Move};
ghost use Rattle.genie_object.specs.Costs.{AreBelow};
ghost use Rattle.genie_model.specs.Refusing.{refuse};
ghost use Rattle.genie_kernel.specs.Good.{IsGood};
ghost use Rattle.genie_kernel.specs.View.{outline};
ghost use Rattle.genie_copying.specs.Bounds.{KeepsToBound};
ghost use Rattle.genie_arrivals.specs.Cases.{IsEarlyInput};
ghost use Rattle.genie_arrivals.specs.Paging.{EndsPaged};

use crate::back::give_back;
use crate::fill::fill_object;
use crate::laws::{change_laws, copy_laws, end_laws, swap_laws};
use crate::live::make_live;
use crate::owned::named_region;
use genie_base::{Reply, TransferId};
use genie_finish::laws::moves_end_in_zeros;
use genie_kernel::{Kernel, Loans};

/// Ends a move input on an early device: the region that was held for it is Live, and has what has come, and then zeros. Its
/// frames are swapped into the region. It answers the region's address and how many bytes were stored, and `gone` where the
/// process is gone.
pub fn finish_move_early(kernel: &mut Kernel, id: TransferId) -> Reply<'static>
    requires good { IsGood kernel.old }
    requires meters { AreBelow (2 ^ 63) kernel.old.memory.frames.meters }
    requires accepted { refuse (outline kernel.old) (event.Finish id.0) ≡ None }
    requires case { IsEarlyInput Move kernel.old id.0 }
    ensures ends { EndsPaged kernel.old id.0 kernel.new result }

    // What the processor copies keeps to the table.
    ensures copying { KeepsToBound kernel.old (event.Finish id.0) kernel.new result }
{
    end_laws();
    change_laws();
    copy_laws();
    swap_laws();
    moves_end_in_zeros();
    let transfer = kernel.transfers.remove(id);
    match transfer.owner {
        Some(_) => {}
        None => {
            give_back(&mut kernel.memory.frames, &transfer);
            kernel.memory.frames.len();
            return Reply::Gone;
        }
    }
    let Some(owned) = named_region(&kernel.spaces, &transfer) else {
        give_back(&mut kernel.memory.frames, &transfer);
        kernel.memory.frames.len();
        return Reply::Lost;
    };
    let region = owned.region;
    match &transfer.loans {
        Loans::Inward(plan) => {
            fill_object(
                &mut kernel.memory,
                region.object,
                plan.loans.as_slice(),
                transfer.stored,
            );
        }
        Loans::Outward(_) => unreachable!(),
        Loans::Nothing => unreachable!(),
    }
    let page = kernel.spaces.page().get();
    make_live(kernel, owned.pid, region.id);
    Reply::Input {
        at: Some(region.start * page),
        n: transfer.stored,
        note: transfer.note,
    }
}
