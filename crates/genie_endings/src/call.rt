//! A transfer that ends.
ghost use Rattle.std.specs.Prelude.{IsSome, find};
ghost use Rattle.genie_kernel.specs.Calls.{has_number};
ghost use Rattle.genie_kernel.specs.Good.{IsGood};
ghost use Rattle.genie_endings.specs.Ends.{EndsCall};

use crate::laws::ending_laws;
use genie_base::TransferId;
use genie_changes::giving::give_back;
use genie_kernel::{Kernel, Transfer};

// Takes a transfer out, and gives its loans back.
pub(crate) fn end_call(kernel: &mut Kernel, id: TransferId) -> Transfer
    requires good { IsGood kernel.old }
    requires pending { IsSome (find (has_number id.0) kernel.old.transfers) }
    ensures { EndsCall id.0 kernel.old kernel.new result }
{
    ending_laws();
    let transfer = kernel.transfers.remove(id);
    give_back(&mut kernel.memory.frames, &transfer);
    kernel.memory.frames.len();
    transfer
}
