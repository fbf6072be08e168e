//! One event.
ghost use Rattle.std.specs.Prelude.{◌≡◌, ◌+◌, ◌-◌, ◌^◌, ◌<◌, ◌≤◌, None, IsSome, IsTrue};
ghost use Rattle.genie_base.specs.Events.{is_whole, mark_of};
ghost use Rattle.genie_object.specs.Costs.{AreBelow};
ghost use Rattle.genie_object.specs.Sound.{IsSized};
ghost use Rattle.genie_model.specs.Refusing.{refuse};
ghost use Rattle.genie_kernel.specs.Good.{IsGood};
ghost use Rattle.genie_kernel.specs.Handles.{HasHandles, KeepsOthers};
ghost use Rattle.genie_kernel.specs.Kept.{Kept};
ghost use Rattle.genie_kernel.specs.Rising.{MetersRise};
ghost use Rattle.genie_kernel.specs.Steps.{StepsTold};
ghost use Rattle.genie_kernel.specs.View.{outline, view};
ghost use Rattle.genie_changes.specs.Filling.{StepsFilled};
ghost use Rattle.genie_copying.specs.Bounds.{KeepsToBound};
ghost use Rattle.genie_calls.specs.Serving.{GetsWithin, IsTabled, LandsWithin, Served, Touches, touched_by};
ghost use Rattle.genie_calls.specs.Sharing.{Shares};

use crate::access::{pageout, read, write};
use crate::devices::{recv, send};
use crate::endings::{cancel, finish};
use crate::spaces::{alloc, exit, fork, map, protect, spawn, unmap};
use crate::transfers::{input, output};
use genie_base::{Event, PageBuffer, Reply};
use genie_host::Host;
use genie_kernel::Kernel;
use genie_refusal::refuse;
use genie_store::Store;

// What an event does that isn't refused.
fn accept<'a, H: Host, S: Store>(
    kernel: &mut Kernel,
    host: &mut H,
    store: &mut S,
    event: &Event<'_>,
    into: &'a mut PageBuffer,
) -> Reply<'a>
    requires good { IsGood kernel.old }
    requires sized { IsSized kernel.old.memory (S.view store.old) }
    requires meters { AreBelow (2 ^ 63) kernel.old.memory.frames.meters }
    requires landed { kernel.old.memory.frames.landed < 2 ^ 63 }
    requires numbered { kernel.old.next < 2 ^ 32 - 1 }
    requires handles { HasHandles kernel.old.config (H.view host.old) }
    requires whole { IsTrue (is_whole event.now) }
    requires accepted { refuse (outline kernel.old) event.now ≡ None }
    ensures { Served kernel.old kernel.new event.now (H.view host.old) (H.view host.new) (S.view store.old) (S.view store.new) result }
{
    match event {
        Event::Spawn { pid } => spawn(kernel, *pid),
        Event::Fork { parent, child } => fork(kernel, store, *parent, *child),
        Event::Exit { pid } => exit(kernel, *pid),
        Event::Map { pid, page, pages } => map(kernel, *pid, *page, *pages),
        Event::Alloc { pid, pages } => alloc(kernel, *pid, *pages),
        Event::Unmap { pid, page } => unmap(kernel, *pid, *page),
        Event::Protect {
            pid,
            page,
            writable,
        } => protect(kernel, *pid, *page, *writable),
        Event::Read { pid, addr, len } => read(kernel, store, *pid, *addr, *len, into),
        Event::Write { pid, addr, bytes } => write(kernel, store, *pid, *addr, bytes),
        Event::Output {
            pid,
            sem,
            dev,
            port,
            flow,
            addr,
            len,
        } => { output(kernel, store, *pid, *sem, *dev, *port, *flow, *addr, *len) }
        Event::Input {
            pid,
            sem,
            dev,
            port,
            flow,
            addr,
            len,
        } => { input(kernel, store, *pid, *sem, *dev, *port, *flow, *addr, *len) }
        Event::Send { dev, len } => send(kernel, host, *dev, *len),
        Event::Recv { dev, len } => recv(kernel, host, *dev, *len),
        Event::Finish { id } => finish(kernel, store, *id),
        Event::Cancel { id } => cancel(kernel, *id),
        Event::Pageout { pages } => pageout(kernel, store, *pages),
    }
}

// Refuses an event, or does it.
fn serve<'a, H: Host, S: Store>(
    kernel: &mut Kernel,
    host: &mut H,
    store: &mut S,
    event: &Event<'_>,
    into: &'a mut PageBuffer,
) -> Reply<'a>
    requires good { IsGood kernel.old }
    requires sized { IsSized kernel.old.memory (S.view store.old) }
    requires meters { AreBelow (2 ^ 63) kernel.old.memory.frames.meters }
    requires landed { kernel.old.memory.frames.landed < 2 ^ 63 }
    requires numbered { kernel.old.next < 2 ^ 32 - 1 }
    requires handles { HasHandles kernel.old.config (H.view host.old) }
    requires whole { IsTrue (is_whole event.now) }
    ensures refused { IsSome (refuse (outline kernel.old) event.now) → kernel.new ≡ kernel.old }
    ensures served { Served kernel.old kernel.new event.now (H.view host.old) (H.view host.new) (S.view store.old) (S.view store.new) result }
{
    match refuse(kernel, event) {
        Some(refusal) => Reply::Err(refusal),
        None => accept(kernel, host, store, event, into),
    }
}

/// One event. It is refused, which leaves all as it is, or done: what the kernel stands for afterwards and the reply are those
/// of the flat machine's step. The bytes that a process reads are lent from `into`. It takes no memory.
pub fn step<'a, H: Host, S: Store>(
    kernel: &mut Kernel,
    host: &mut H,
    store: &mut S,
    event: &Event<'_>,
    into: &'a mut PageBuffer,
) -> Reply<'a>
    requires good { IsGood kernel.old }
    requires sized { IsSized kernel.old.memory (S.view store.old) }

    // The meters have room for what one event counts.
    requires meters { AreBelow (2 ^ 63) kernel.old.memory.frames.meters }
    requires landed { kernel.old.memory.frames.landed < 2 ^ 63 }

    // There is a number for a transfer.
    requires numbered { kernel.old.next < 2 ^ 32 - 1 }

    // The handles of the configuration are open in their directions, different from each other, and not 0.
    requires handles { HasHandles kernel.old.config (H.view host.old) }
    requires whole { IsTrue (is_whole event.now) }
    ensures good { IsGood kernel.new }
    ensures sized { IsSized kernel.new.memory (S.view store.new) }

    // No frame is freed or gets another owner while a device holds it.
    ensures kept { Kept kernel.old kernel.new }
    ensures config { kernel.new.config ≡ kernel.old.config }

    // An event gives out one number of a transfer at most.
    ensures numbers { kernel.new.next ≤ kernel.old.next + 1 }
    ensures step { StepsTold (view kernel.old (H.view host.old) (S.view store.old)) event.now (view kernel.new (H.view host.new) (S.view store.new)) result }

    // What the host tells of one file is used, whatever it tells of the others: the step is the flat machine's over every
    // bytes that these may have.
    ensures filled { StepsFilled kernel.old event.now kernel.new result (H.view host.old) (H.view host.new) (S.view store.old) (S.view store.new) }

    // A failure is shown only where the count of faults of the store, or of the device's handle, rose in this step.
    ensures causes { Touches (touched_by kernel.old.config event.now) (mark_of result) (H.view host.old) (H.view host.new) (S.view store.old) (S.view store.new) }

    // The handles stay open, and each that the configuration doesn't name stays as it is.
    ensures handles { HasHandles kernel.new.config (H.view host.new) }
    ensures others { KeepsOthers kernel.old.config (H.view host.old) (H.view host.new) }

    // So much at most is counted in one step: over a million steps from a boot the meters have room.
    ensures rises { MetersRise (2 ^ 36) kernel.old.memory.frames kernel.new.memory.frames }

    // A refusal changes nothing, and what the processor copies keeps to the table.
    ensures refused { IsSome (refuse (outline kernel.old) event.now) → kernel.new ≡ kernel.old }
    ensures copying { IsTabled kernel.old event.now → KeepsToBound kernel.old event.now kernel.new result }

    // No more bytes land than a receive step takes, and no more pages come from the store than the event names.
    ensures lands { LandsWithin kernel.old event.now kernel.new }
    ensures gets { GetsWithin kernel.old event.now kernel.new }

    // Pages are shared with a child, lent in their own frames, or used again, and not copied.
    ensures sharing { Shares kernel.old event.now kernel.new result }
{
    serve(kernel, host, store, event, into)
}
