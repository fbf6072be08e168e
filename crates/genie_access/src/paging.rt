//! Pages go to the store.
ghost use Rattle.std.specs.Prelude.{◌≡◌, ◌^◌};
ghost use Rattle.genie_base.specs.Causes.{HasCause};
ghost use Rattle.genie_base.specs.Events.{mark_of};
ghost use Rattle.genie_base.specs.declared.event.Event.TheVariants as event;
ghost use Rattle.genie_hiding.specs.Hidden.{objects_of};
ghost use Rattle.genie_host.specs.Host.{HostView};
ghost use Rattle.genie_object.specs.Costs.{AreBelow, Spends};
ghost use Rattle.genie_object.specs.Sound.{IsSized};
ghost use Rattle.genie_kernel.specs.Good.{IsGood};
ghost use Rattle.genie_kernel.specs.Kept.{Kept};
ghost use Rattle.genie_kernel.specs.Rising.{MetersRise};
ghost use Rattle.genie_kernel.specs.Steps.{StepsTold, StoreCause};
ghost use Rattle.genie_kernel.specs.View.{view};
ghost use Rattle.genie_pageout.specs.Going.{allowed};
ghost use Rattle.genie_copying.specs.Bounds.{KeepsToBound};
ghost use Rattle.genie_access.specs.Moving.{with_memory, KeepsSeen, PutsPages, reply_to};

use genie_base::Reply;
use genie_kernel::Kernel;
use genie_kernel::laws::{memory_calls_keep_good, view_is_tidy};
use genie_room::laws::places_suffice;
use genie_store::{Store, StoreFault};

// Puts at most `n` pages into slots.
fn put_pages<S: Store>(kernel: &mut Kernel, store: &mut S, n: u32) -> Result<(), StoreFault>
    requires good { IsGood kernel.old }
    requires sized { IsSized kernel.old.memory (S.view store.old) }
    requires meters { AreBelow (2 ^ 63) kernel.old.memory.frames.meters }
    ensures only { kernel.new ≡ with_memory kernel.old kernel.new.memory kernel.new.clock }
    ensures seen { KeepsSeen kernel.old kernel.new.memory (S.view store.old) (S.view store.new) }
    ensures cause { HasCause (S.view store.old).faults (S.view store.new).faults result }
    ensures puts { PutsPages n (allowed kernel.old.memory (objects_of kernel.old.hidden)) kernel.old.memory kernel.new.memory (reply_to result) }
    ensures meters { Spends 0 0 8192 0 kernel.old.memory.frames.meters kernel.new.memory.frames.meters }
    ensures rises { MetersRise (2 ^ 36) kernel.old.memory.frames kernel.new.memory.frames }
    ensures landed { kernel.new.memory.frames.landed ≡ kernel.old.memory.frames.landed }
    ensures gets { kernel.new.memory.frames.meters.gets ≡ kernel.old.memory.frames.meters.gets }
{
    places_suffice();
    match genie_pageout::pageout(
        &mut kernel.memory,
        &mut kernel.hidden,
        &mut kernel.clock,
        store,
        n,
    ) {
        Ok(_) => Ok(()),
        Err(fault) => Err(fault),
    }
}

// What an event answers that tells nothing but whether the store failed.
fn reply_to(done: Result<(), StoreFault>) -> Reply<'static>
    ensures { result ≡ reply_to done }
{
    match done {
        Ok(()) => Reply::Okay,
        Err(_) => Reply::StoreFault,
    }
}

/// Puts pages into slots, at most `n` of them, from the clock's frame on. Pages of hidden regions stay, and so do those
/// that a device reads or writes as they are. What processes and devices see is as before, also where the store fails.
pub fn pageout<S: Store>(kernel: &mut Kernel, store: &mut S, n: u32) -> Reply<'static>
    requires good { IsGood kernel.old }
    requires sized { IsSized kernel.old.memory (S.view store.old) }
    requires meters { AreBelow (2 ^ 63) kernel.old.memory.frames.meters }
    ensures good { IsGood kernel.new }
    ensures sized { IsSized kernel.new.memory (S.view store.new) }
    ensures kept { Kept kernel.old kernel.new }

    // Nothing of the kernel changes but the memory and the clock.
    ensures only { kernel.new ≡ with_memory kernel.old kernel.new.memory kernel.new.clock }
    ensures numbers { kernel.new.next ≡ kernel.old.next }
    ensures step { (host : HostView) → StepsTold (view kernel.old host (S.view store.old)) (event.Pageout n) (view kernel.new host (S.view store.new)) result }
    ensures cause { StoreCause (mark_of result) (S.view store.old).faults (S.view store.new).faults }

    // As many pages as were asked for go to the store, or all that may. No byte is moved by the processor.
    ensures puts { PutsPages n (allowed kernel.old.memory (objects_of kernel.old.hidden)) kernel.old.memory kernel.new.memory result }
    ensures meters { Spends 0 0 8192 0 kernel.old.memory.frames.meters kernel.new.memory.frames.meters }
    ensures rises { MetersRise (2 ^ 36) kernel.old.memory.frames kernel.new.memory.frames }

    // No byte of a device lands by it, and no page comes from the store.
    ensures landed { kernel.new.memory.frames.landed ≡ kernel.old.memory.frames.landed }
    ensures gets { kernel.new.memory.frames.meters.gets ≡ kernel.old.memory.frames.meters.gets }
    ensures copying { KeepsToBound kernel.old (event.Pageout n) kernel.new result }
{
    memory_calls_keep_good();
    view_is_tidy();
    reply_to(put_pages(kernel, store, n))
}
