//! Events on memory.
ghost use Rattle.std.specs.Prelude.{◌≡◌, ◌^◌, None};
ghost use Rattle.genie_base.specs.declared.event.Event.TheVariants as event;
ghost use Rattle.genie_object.specs.Costs.{AreBelow};
ghost use Rattle.genie_object.specs.Sound.{IsSized};
ghost use Rattle.genie_model.specs.Refusing.{refuse};
ghost use Rattle.genie_kernel.specs.Good.{IsGood};
ghost use Rattle.genie_kernel.specs.View.{outline};
ghost use Rattle.genie_calls.specs.Serving.{ServedByStore};

use genie_base::{PageBuffer, PageBytes, Reply};
use genie_kernel::Kernel;
use genie_store::Store;

// A process reads its memory.
pub(crate) fn read<'a, S: Store>(
    kernel: &mut Kernel,
    store: &mut S,
    pid: u32,
    addr: u32,
    len: u32,
    into: &'a mut PageBuffer,
) -> Reply<'a>
    requires good { IsGood kernel.old }
    requires sized { IsSized kernel.old.memory (S.view store.old) }
    requires meters { AreBelow (2 ^ 63) kernel.old.memory.frames.meters }
    requires accepted { refuse (outline kernel.old) (event.Read pid addr len) ≡ None }
    ensures { ServedByStore kernel.old (event.Read pid addr len) kernel.new (S.view store.old) (S.view store.new) result }
{
    genie_access::reading::read(kernel, store, pid, addr, len, into)
}

// A process writes its memory.
pub(crate) fn write<S: Store>(
    kernel: &mut Kernel,
    store: &mut S,
    pid: u32,
    addr: u32,
    bytes: &PageBytes<'_>,
) -> Reply<'static>
    requires good { IsGood kernel.old }
    requires sized { IsSized kernel.old.memory (S.view store.old) }
    requires meters { AreBelow (2 ^ 63) kernel.old.memory.frames.meters }
    requires accepted { refuse (outline kernel.old) (event.Write pid addr bytes.now) ≡ None }
    ensures { ServedByStore kernel.old (event.Write pid addr bytes.now) kernel.new (S.view store.old) (S.view store.new) result }
{
    genie_access::writing::write(kernel, store, pid, addr, bytes)
}

// Pages go to the store.
pub(crate) fn pageout<S: Store>(kernel: &mut Kernel, store: &mut S, pages: u32) -> Reply<'static>
    requires good { IsGood kernel.old }
    requires sized { IsSized kernel.old.memory (S.view store.old) }
    requires meters { AreBelow (2 ^ 63) kernel.old.memory.frames.meters }
    ensures { ServedByStore kernel.old (event.Pageout pages) kernel.new (S.view store.old) (S.view store.new) result }
{
    genie_access::paging::pageout(kernel, store, pages)
}
