//! A device sends.
ghost use Rattle.std.specs.Prelude.{◌≡◌, None};
ghost use Rattle.genie_base.specs.Events.{mark_of};
ghost use Rattle.genie_base.specs.declared.event.Event.TheVariants as event;
ghost use Rattle.genie_host.specs.Host.{OnlyHandle};
ghost use Rattle.genie_store.specs.StoreView.{StoreView};
ghost use Rattle.genie_object.specs.Sound.{IsSized};
ghost use Rattle.genie_model.specs.Refusing.{refuse};
ghost use Rattle.genie_kernel.specs.Good.{IsGood};
ghost use Rattle.genie_kernel.specs.Handles.{HasHandles};
ghost use Rattle.genie_kernel.specs.Kept.{Kept};
ghost use Rattle.genie_kernel.specs.Searches.{IsFirst};
ghost use Rattle.genie_changes.specs.Filling.{StepsFilled};
ghost use Rattle.genie_kernel.specs.Steps.{StepsTold, DeviceCause};
ghost use Rattle.genie_kernel.specs.View.{view, outline};
ghost use Rattle.genie_kernel.specs.Calls.{waits_for};
ghost use Rattle.genie_sending.specs.Sending.{SendsNext};
ghost use Rattle.genie_sending.specs.Served.{HasPages, output_of};

use crate::laws::work_laws;
use crate::step::{end_where_whole, reply_of, step_at};
use genie_base::Reply;
use genie_host::Host;
use genie_kernel::{Kernel, Search};

// The device's step for output `i`, the first that waits for it.
fn send_next<H: Host>(
    kernel: &mut Kernel,
    host: &mut H,
    dev: u32,
    i: u32,
    budget: u32,
) -> Reply<'static>
    requires good { IsGood kernel.old }
    requires accepted { refuse (outline kernel.old) (event.Send dev budget) ≡ None }
    requires handles { HasHandles kernel.old.config (H.view host.old) }
    requires first { IsFirst (waits_for dev) kernel.old.transfers i }
    ensures { SendsNext dev budget (H.view host.old) (H.view host.new) kernel.old kernel.new result }
{
    let step = step_at(
        &mut kernel.devices,
        host,
        &kernel.memory.frames,
        kernel.transfers.at(i),
        dev,
        budget,
    );
    end_where_whole(&mut kernel.transfers, i, step.whole);
    reply_of(&step)
}

/// Sends the next bytes of a record on the output of device `dev`: of the first output that waits for it, and at most
/// `budget` of them. The record is a header, and then the payload. On an outboard device the payload is staged first, in
/// steps of their own, and goes out from outboard memory. What a strong output sends are the bytes that its call was made
/// with, and what a weak one sends or stages are those of its region at that moment, or of what is left of it. With the
/// record's last byte the transfer is ready; its loans stay until its process is done with it. `Idle` comes exactly where no
/// output waits. Where the device's host fails, the bytes before the failure are sent, and the next step goes on from there.
pub fn send<H: Host>(kernel: &mut Kernel, host: &mut H, dev: u32, budget: u32) -> Reply<'static>
    requires good { IsGood kernel.old }
    requires handles { HasHandles kernel.old.config (H.view host.old) }
    requires accepted { refuse (outline kernel.old) (event.Send dev budget) ≡ None }
    ensures good { IsGood kernel.new }
    ensures kept { Kept kernel.old kernel.new }
    ensures config { kernel.new.config ≡ kernel.old.config }

    // No transfer begins.
    ensures numbers { kernel.new.next ≡ kernel.old.next }

    // No byte of the memory moves, and no frame is lent or given back.
    ensures memory { kernel.new.memory ≡ kernel.old.memory }

    // Of the host, only the handle of the device's output changes, and each handle stays open in its direction.
    ensures only { OnlyHandle (output_of kernel.old.config dev) (H.view host.old) (H.view host.new) }
    ensures handles { HasHandles kernel.new.config (H.view host.new) }

    // It is one step of the flat machine, whatever store of the kernel's pages is behind it.
    ensures step { (store : StoreView) → IsSized kernel.old.memory store → HasPages store → StepsTold (view kernel.old (H.view host.old) store) (event.Send dev budget) (view kernel.new (H.view host.new) store) result }

    // So it is where the host tells some files and not others, over every bytes that the others may have.
    ensures filled { (store : StoreView) → IsSized kernel.old.memory store → HasPages store → StepsFilled kernel.old (event.Send dev budget) kernel.new result (H.view host.old) (H.view host.new) store store }
    ensures cause { DeviceCause (mark_of result) ((H.view host.old).handle (output_of kernel.old.config dev)).faults ((H.view host.new).handle (output_of kernel.old.config dev)).faults }
{
    work_laws();
    match kernel.transfers.first(Search::Waiting(dev)) {
        Some(i) => send_next(kernel, host, dev, i, budget),
        None => Reply::Idle,
    }
}
