//! Events on address spaces.
ghost use Rattle.std.specs.Prelude.{◌≡◌, ◌^◌, None};
ghost use Rattle.genie_base.specs.declared.event.Event.TheVariants as event;
ghost use Rattle.genie_object.specs.Costs.{AreBelow};
ghost use Rattle.genie_object.specs.Sound.{IsSized};
ghost use Rattle.genie_model.specs.Refusing.{refuse};
ghost use Rattle.genie_kernel.specs.Good.{IsGood};
ghost use Rattle.genie_kernel.specs.View.{outline};
ghost use Rattle.genie_calls.specs.Serving.{ServedAlone, ServedByStore};

use genie_base::Reply;
use genie_changes::settled::paged_events_are_told;
use genie_kernel::Kernel;
use genie_store::Store;

// A process begins.
pub(crate) fn spawn(kernel: &mut Kernel, pid: u32) -> Reply<'static>
    requires good { IsGood kernel.old }
    requires accepted { refuse (outline kernel.old) (event.Spawn pid) ≡ None }
    ensures { ServedAlone kernel.old (event.Spawn pid) kernel.new result }
{
    genie_spaces::spawn::spawn(kernel, pid)
}

// A process begins as a copy of another one.
pub(crate) fn fork<S: Store>(
    kernel: &mut Kernel,
    store: &mut S,
    parent: u32,
    child: u32,
) -> Reply<'static>
    requires good { IsGood kernel.old }
    requires sized { IsSized kernel.old.memory (S.view store.old) }
    requires meters { AreBelow (2 ^ 63) kernel.old.memory.frames.meters }
    requires accepted { refuse (outline kernel.old) (event.Fork parent child) ≡ None }
    ensures { ServedByStore kernel.old (event.Fork parent child) kernel.new (S.view store.old) (S.view store.new) result }
{
    genie_spaces::fork::fork(kernel, store, parent, child)
}

// A process ends.
pub(crate) fn exit(kernel: &mut Kernel, pid: u32) -> Reply<'static>
    requires good { IsGood kernel.old }
    requires accepted { refuse (outline kernel.old) (event.Exit pid) ≡ None }
    ensures { ServedAlone kernel.old (event.Exit pid) kernel.new result }
{
    paged_events_are_told();
    genie_spaces::exit::exit(kernel, pid)
}

// A region begins in the application area.
pub(crate) fn map(kernel: &mut Kernel, pid: u32, page: u32, pages: u32) -> Reply<'static>
    requires good { IsGood kernel.old }
    requires accepted { refuse (outline kernel.old) (event.Map pid page pages) ≡ None }
    ensures { ServedAlone kernel.old (event.Map pid page pages) kernel.new result }
{
    genie_spaces::map::map(kernel, pid, page, pages)
}

// A region begins in the system area.
pub(crate) fn alloc(kernel: &mut Kernel, pid: u32, pages: u32) -> Reply<'static>
    requires good { IsGood kernel.old }
    requires accepted { refuse (outline kernel.old) (event.Alloc pid pages) ≡ None }
    ensures { ServedAlone kernel.old (event.Alloc pid pages) kernel.new result }
{
    genie_spaces::map::alloc(kernel, pid, pages)
}

// A region is removed.
pub(crate) fn unmap(kernel: &mut Kernel, pid: u32, page: u32) -> Reply<'static>
    requires good { IsGood kernel.old }
    requires accepted { refuse (outline kernel.old) (event.Unmap pid page) ≡ None }
    ensures { ServedAlone kernel.old (event.Unmap pid page) kernel.new result }
{
    paged_events_are_told();
    genie_spaces::unmap::unmap(kernel, pid, page)
}

// A region becomes read-only or read-write.
pub(crate) fn protect(kernel: &mut Kernel, pid: u32, page: u32, writable: bool) -> Reply<'static>
    requires good { IsGood kernel.old }
    requires accepted { refuse (outline kernel.old) (event.Protect pid page writable) ≡ None }
    ensures { ServedAlone kernel.old (event.Protect pid page writable) kernel.new result }
{
    genie_spaces::protect::protect(kernel, pid, page, writable)
}
