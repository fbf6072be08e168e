//! The end of inputs whose datagrams wait in buffers, where no bytes go anywhere.
ghost use Rattle.std.specs.Prelude.{◌≡◌, None, find, IfSome};
ghost use Rattle.genie_base.specs.declared.event.Event.TheVariants as event;
ghost use Rattle.genie_base.specs.declared.reply.Reply.TheVariants as reply;
ghost use Rattle.genie_model.specs.Refusing.{refuse};
ghost use Rattle.genie_kernel.specs.Calls.{has_number};
ghost use Rattle.genie_kernel.specs.Good.{IsGood};
ghost use Rattle.genie_kernel.specs.View.{outline};
ghost use Rattle.genie_arrivals.specs.Ends.{EndsAlone};
ghost use Rattle.genie_arrivals.specs.Waiting.{EndsWaiting, IsLateGone, IsLateLost, IsWaiting};

use crate::back::give_back;
use crate::laws::end_laws;
use crate::release::release;
use genie_base::{Reply, TransferId};
use genie_changes::released::{buffers_are_released, buffers_show};
use genie_kernel::{Kernel, Transfer};

// Takes an input out, gives back what was lent for it, and makes its buffer free.
pub(crate) fn end_waiting(kernel: &mut Kernel, id: TransferId) -> Transfer
    requires good { IsGood kernel.old }
    requires accepted { refuse (outline kernel.old) (event.Finish id.0) ≡ None }
    requires case { IfSome (find (has_number id.0) kernel.old.transfers) (IsWaiting kernel.old.devices) }
    ensures { EndsWaiting id.0 kernel.old kernel.new result }
{
    let transfer = kernel.transfers.remove(id);
    give_back(&mut kernel.memory.frames, &transfer);
    kernel.memory.frames.len();
    match transfer.buffer {
        Some(buffer) => release(&mut kernel.devices, &mut kernel.pools, transfer.dev, buffer),
        None => unreachable!(),
    }
    transfer
}

/// Ends an input of any class on a pooled or outboard device whose process is gone: its buffer is free, what was lent is given
/// back, and what has come is thrown away. It answers `gone`.
pub fn finish_gone_late(kernel: &mut Kernel, id: TransferId) -> Reply<'static>
    requires good { IsGood kernel.old }
    requires accepted { refuse (outline kernel.old) (event.Finish id.0) ≡ None }
    requires case { IsLateGone kernel.old id.0 }
    ensures ends { EndsAlone kernel.old id.0 kernel.new result }
    ensures gone { result ≡ reply.Gone }
{
    end_laws();
    buffers_show();
    buffers_are_released();
    let _transfer = end_waiting(kernel, id);
    Reply::Gone
}

/// Ends an input of any class on a pooled or outboard device whose bytes have nowhere to go: its process may not write the
/// whole range of a copy input now, or the region that another one names is gone. Its buffer is free, what was lent is given
/// back, and what has come is thrown away. It answers `lost`.
pub fn finish_lost_late(kernel: &mut Kernel, id: TransferId) -> Reply<'static>
    requires good { IsGood kernel.old }
    requires accepted { refuse (outline kernel.old) (event.Finish id.0) ≡ None }
    requires case { IsLateLost kernel.old id.0 }
    ensures ends { EndsAlone kernel.old id.0 kernel.new result }
    ensures lost { result ≡ reply.Lost }
{
    end_laws();
    buffers_show();
    buffers_are_released();
    let _transfer = end_waiting(kernel, id);
    Reply::Lost
}
