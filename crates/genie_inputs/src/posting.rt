//! A transfer is posted.
ghost use Rattle.std.specs.Prelude.{◌≡◌, ◌+◌, ◌^◌, ◌<◌};
ghost use Rattle.genie_inputs.specs.Posting.{with_input, CanPost};

use genie_kernel::{Kernel, Transfer};

// Posts a transfer, which has the next number, behind the others.
pub(crate) fn post(kernel: &mut Kernel, transfer: Transfer)
    requires room { CanPost kernel.old transfer.id.0 }
    requires numbered { kernel.old.next + 1 < 2 ^ 32 }
    ensures { kernel.new ≡ with_input kernel.old transfer }
{
    kernel
        .posted
        .post(transfer.dev, transfer.port, transfer.flow, transfer.id.0);
    kernel.transfers.add(transfer);
    kernel.next += 1;
}
