//! The end of weak inputs.
ghost use Rattle.std.specs.Prelude.{◌≡◌, None};
ghost use Rattle.genie_base.specs.declared.event.Event.TheVariants as event;
ghost use Rattle.genie_base.specs.declared.semantics.Class.TheVariants.{Share};
ghost use Rattle.genie_model.specs.Refusing.{refuse};
ghost use Rattle.genie_kernel.specs.Good.{IsGood};
ghost use Rattle.genie_kernel.specs.View.{outline};
ghost use Rattle.genie_copying.specs.Bounds.{KeepsToBound};
ghost use Rattle.genie_arrivals.specs.Cases.{IsEarlyInput};
ghost use Rattle.genie_arrivals.specs.Ends.{EndsAlone};
ghost use Rattle.genie_arrivals.specs.Replies.{share_reply};

use crate::back::give_back;
use crate::laws::end_laws;
use crate::owned::is_there;
use genie_base::{Reply, TransferId};
use genie_kernel::{Kernel, Transfer};

// What is answered to the end of a share input: whether the region that it names is there.
fn share_reply(there: bool, transfer: &Transfer) -> Reply<'static>
    ensures { result ≡ share_reply there transfer.now transfer.now.owner }
{
    match transfer.owner {
        None => Reply::Gone,
        Some(_) => {
            if there {
                Reply::Input {
                    at: None,
                    n: transfer.stored,
                    note: transfer.note,
                }
            } else {
                Reply::Lost
            }
        }
    }
}

/// Ends a share input on an early device, whose bytes have landed: what was lent is given back. It answers how many bytes
/// have landed, `lost` where the region is gone, and `gone` where the process is.
pub fn finish_share_early(kernel: &mut Kernel, id: TransferId) -> Reply<'static>
    requires good { IsGood kernel.old }
    requires accepted { refuse (outline kernel.old) (event.Finish id.0) ≡ None }
    requires case { IsEarlyInput Share kernel.old id.0 }
    ensures ends { EndsAlone kernel.old id.0 kernel.new result }

    // What the processor copies keeps to the table.
    ensures copying { KeepsToBound kernel.old (event.Finish id.0) kernel.new result }
{
    end_laws();
    let transfer = kernel.transfers.remove(id);
    give_back(&mut kernel.memory.frames, &transfer);
    kernel.memory.frames.len();
    let there = is_there(&kernel.spaces, &transfer);
    share_reply(there, &transfer)
}
