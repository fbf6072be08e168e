//! A process reads its memory.
ghost use Rattle.std.specs.Prelude.{◌≡◌, ◌+◌, ◌-◌, ◌*◌, ◌<◌, ◌≤◌, ◌^◌, [], None, length, count_by, OnOk};
ghost use Rattle.genie_base.specs.Causes.{HasCause};
ghost use Rattle.genie_base.specs.Events.{mark_of};
ghost use Rattle.genie_base.specs.declared.event.Event.TheVariants as event;
ghost use Rattle.genie_host.specs.Host.{HostView};
ghost use Rattle.genie_object.specs.Costs.{AreBelow};
ghost use Rattle.genie_object.specs.Sound.{IsSized};
ghost use Rattle.genie_model.specs.Refusing.{refuse};
ghost use Rattle.genie_kernel.specs.Good.{IsGood};
ghost use Rattle.genie_kernel.specs.Kept.{Kept};
ghost use Rattle.genie_kernel.specs.Rising.{MetersRise};
ghost use Rattle.genie_kernel.specs.Steps.{StepsTold, StoreCause};
ghost use Rattle.genie_kernel.specs.View.{view, outline};
ghost use Rattle.genie_hiding.specs.Hidden.{objects_of};
ghost use Rattle.genie_copying.specs.Bounds.{event_bound, KeepsToBound};
ghost use Rattle.genie_copying.specs.Getting.{pages_most};
ghost use Rattle.genie_copying.specs.Spending.{CopiesAtMost, NoDearer};
ghost use Rattle.genie_access.specs.Moving.{with_memory, KeepsSeen, HasTwo};
ghost use Rattle.genie_access.specs.Reached.{LeadsTo, ReadsAt};

use crate::ranges::read_range;
use genie_base::{ObjectId, PageBuffer, Reply};
use genie_kernel::Kernel;
use genie_kernel::laws::{memory_calls_keep_good, view_is_tidy};
use genie_pageout::make_room;
use genie_region::Region;
use genie_room::laws::{four_are_available, places_suffice, room_is_kept};
use genie_store::{Store, StoreFault};

// Where an address lies in a region.
fn place_in(region: &Region, addr: u32, page: u32) -> u32
    requires { region.now.start * page ≤ addr }
    ensures { result ≡ addr - region.now.start * page }
{
    addr - region.start * page
}

// The object of the region that an access reaches, and where in it the access begins.
pub(crate) fn find_place(kernel: &Kernel, pid: u32, addr: u32, len: u32) -> (ObjectId, u32)
    requires good { IsGood kernel.now }
    requires accepted { refuse (outline kernel.now) (event.Read pid addr len) ≡ None }
    ensures { LeadsTo kernel.now pid addr len result.0 result.1 }
{
    let page = kernel.spaces.page();
    let Some(region) = kernel.spaces.regions(pid).find(addr, len, page) else {
        unreachable!()
    };
    (region.object, place_in(&region, addr, page.get()))
}

// Makes two frames free.
pub(crate) fn make_two<S: Store>(kernel: &mut Kernel, store: &mut S) -> Result<(), StoreFault>
    requires good { IsGood kernel.old }
    requires sized { IsSized kernel.old.memory (S.view store.old) }
    requires meters { AreBelow (2 ^ 63) kernel.old.memory.frames.meters }
    ensures only { kernel.new ≡ with_memory kernel.old kernel.new.memory kernel.new.clock }
    ensures seen { KeepsSeen kernel.old kernel.new.memory (S.view store.old) (S.view store.new) }
    ensures room { OnOk result (HasTwo kernel.new.memory) }
    ensures meters { AreBelow (2 ^ 63 + 2 ^ 20) kernel.new.memory.frames.meters }
    ensures rises { MetersRise (2 ^ 13) kernel.old.memory.frames kernel.new.memory.frames }
    ensures landed { kernel.new.memory.frames.landed ≡ kernel.old.memory.frames.landed }
    ensures gets { kernel.new.memory.frames.meters.gets ≡ kernel.old.memory.frames.meters.gets }
    ensures copies { CopiesAtMost 0 kernel.old.memory kernel.new.memory }
    ensures costs { NoDearer (objects_of kernel.old.hidden) kernel.old.memory kernel.new.memory }
    ensures cause { HasCause (S.view store.old).faults (S.view store.new).faults result }
{
    four_are_available();
    places_suffice();
    room_is_kept();
    match make_room(
        &mut kernel.memory,
        &mut kernel.hidden,
        &mut kernel.clock,
        store,
        2,
    ) {
        Ok(()) => Ok(()),
        Err(fault) => Err(fault),
    }
}

// Appends the bytes of a read to an empty buffer.
fn read_into<S: Store>(
    kernel: &mut Kernel,
    store: &mut S,
    pid: u32,
    addr: u32,
    len: u32,
    into: &mut PageBuffer,
) -> Result<(), StoreFault>
    requires good { IsGood kernel.old }
    requires sized { IsSized kernel.old.memory (S.view store.old) }
    requires meters { AreBelow (2 ^ 63) kernel.old.memory.frames.meters }
    requires accepted { refuse (outline kernel.old) (event.Read pid addr len) ≡ None }
    requires empty { into.old ≡ [] }
    ensures only { kernel.new ≡ with_memory kernel.old kernel.new.memory kernel.new.clock }
    ensures seen { KeepsSeen kernel.old kernel.new.memory (S.view store.old) (S.view store.new) }
    ensures cause { HasCause (S.view store.old).faults (S.view store.new).faults result }
    ensures bytes { OnOk result (ReadsAt kernel.old (S.view store.old) pid addr len into.new) }
    ensures rises { MetersRise (2 ^ 36) kernel.old.memory.frames kernel.new.memory.frames }
    ensures landed { kernel.new.memory.frames.landed ≡ kernel.old.memory.frames.landed }
    ensures gets { kernel.new.memory.frames.meters.gets ≤ kernel.old.memory.frames.meters.gets + pages_most kernel.old (event.Read pid addr len) }
    ensures copies { CopiesAtMost (event_bound kernel.old (event.Read pid addr len)) kernel.old.memory kernel.new.memory }
{
    let (object, off) = find_place(kernel, pid, addr, len);
    match make_two(kernel, store) {
        Ok(()) => {}
        Err(fault) => return Err(fault),
    }
    match read_range(&mut kernel.memory, store, object, off, len, into) {
        Ok(()) => Ok(()),
        Err(fault) => Err(fault),
    }
}

/// Reads `len` bytes of a process's memory from address `addr` on, into a buffer whose bytes are answered. Pages that are
/// in no frame come into one. What processes and devices see is as before, also where the store fails.
pub fn read<'a, S: Store>(
    kernel: &mut Kernel,
    store: &mut S,
    pid: u32,
    addr: u32,
    len: u32,
    into: &'a mut PageBuffer,
) -> Reply<'a>
    requires good { IsGood kernel.old }
    requires sized { IsSized kernel.old.memory (S.view store.old) }
    requires meters { AreBelow (2 ^ 63) kernel.old.memory.frames.meters }
    requires accepted { refuse (outline kernel.old) (event.Read pid addr len) ≡ None }
    ensures good { IsGood kernel.new }
    ensures sized { IsSized kernel.new.memory (S.view store.new) }
    ensures kept { Kept kernel.old kernel.new }

    // Nothing of the kernel changes but the memory and the clock.
    ensures only { kernel.new ≡ with_memory kernel.old kernel.new.memory kernel.new.clock }
    ensures numbers { kernel.new.next ≡ kernel.old.next }
    ensures step { (host : HostView) → StepsTold (view kernel.old host (S.view store.old)) (event.Read pid addr len) (view kernel.new host (S.view store.new)) result }
    ensures cause { StoreCause (mark_of result) (S.view store.old).faults (S.view store.new).faults }

    // Only the bytes read are moved, and untouched pages are zeroed.
    ensures copying { KeepsToBound kernel.old (event.Read pid addr len) kernel.new result }
    ensures rises { MetersRise (2 ^ 36) kernel.old.memory.frames kernel.new.memory.frames }

    // No byte of a device lands by it, and no more pages come from the store than it reaches.
    ensures landed { kernel.new.memory.frames.landed ≡ kernel.old.memory.frames.landed }
    ensures gets { kernel.new.memory.frames.meters.gets ≤ kernel.old.memory.frames.meters.gets + pages_most kernel.old (event.Read pid addr len) }
{
    memory_calls_keep_good();
    view_is_tidy();
    into.clear();
    match read_into(kernel, store, pid, addr, len, into) {
        Ok(()) => Reply::Bytes(into.lend()),
        Err(_) => Reply::StoreFault,
    }
}
