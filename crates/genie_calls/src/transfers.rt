//! Calls for transfers.
ghost use Rattle.std.specs.Prelude.{◌≡◌, ◌-◌, ◌^◌, ◌<◌, None, IsTrue};
ghost use Rattle.genie_base.specs.Events.{is_whole};
ghost use Rattle.genie_base.specs.declared.event.Event.TheVariants as event;
ghost use Rattle.genie_object.specs.Costs.{AreBelow};
ghost use Rattle.genie_object.specs.Sound.{IsSized};
ghost use Rattle.genie_model.specs.Refusing.{refuse};
ghost use Rattle.genie_kernel.specs.Good.{IsGood};
ghost use Rattle.genie_kernel.specs.View.{outline};
ghost use Rattle.genie_calls.specs.Serving.{ServedByStore};

use genie_base::{Reply, Semantics};
use genie_kernel::Kernel;
use genie_store::Store;

// Bytes of a process wait to be sent.
pub(crate) fn output<S: Store>(
    kernel: &mut Kernel,
    store: &mut S,
    pid: u32,
    sem: Semantics,
    dev: u32,
    port: u16,
    flow: Option<u32>,
    addr: u32,
    len: u32,
) -> Reply<'static>
    requires good { IsGood kernel.old }
    requires sized { IsSized kernel.old.memory (S.view store.old) }
    requires meters { AreBelow (2 ^ 63) kernel.old.memory.frames.meters }
    requires numbered { kernel.old.next < 2 ^ 32 - 1 }
    requires accepted { refuse (outline kernel.old) (event.Output pid sem dev port flow addr len) ≡ None }
    ensures { ServedByStore kernel.old (event.Output pid sem dev port flow addr len) kernel.new (S.view store.old) (S.view store.new) result }
{
    genie_outputs::output::out(kernel, store, pid, sem, dev, port, flow, addr, len)
}

// A buffer of a process waits for a datagram.
pub(crate) fn input<S: Store>(
    kernel: &mut Kernel,
    store: &mut S,
    pid: u32,
    sem: Semantics,
    dev: u32,
    port: u16,
    flow: Option<u32>,
    addr: Option<u32>,
    len: u32,
) -> Reply<'static>
    requires good { IsGood kernel.old }
    requires sized { IsSized kernel.old.memory (S.view store.old) }
    requires meters { AreBelow (2 ^ 63) kernel.old.memory.frames.meters }
    requires numbered { kernel.old.next < 2 ^ 32 - 1 }
    requires whole { IsTrue (is_whole (event.Input pid sem dev port flow addr len)) }
    requires accepted { refuse (outline kernel.old) (event.Input pid sem dev port flow addr len) ≡ None }
    ensures { ServedByStore kernel.old (event.Input pid sem dev port flow addr len) kernel.new (S.view store.old) (S.view store.new) result }
{
    genie_inputs::input::input(kernel, store, pid, sem, dev, port, flow, addr, len)
}
