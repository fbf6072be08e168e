//! Any input call.
ghost use Rattle.std.specs.Prelude.{◌≡◌, ◌+◌, ◌-◌, ◌^◌, ◌<◌, ◌≤◌, IsTrue, None, Some};
ghost use Rattle.genie_base.specs.Events.{is_whole, mark_of};
ghost use Rattle.genie_base.specs.Transfers.{class_of, is_strong};
ghost use Rattle.genie_base.specs.declared.event.Event.TheVariants as event;
ghost use Rattle.genie_base.specs.declared.semantics.Class.TheVariants.{WeakMove};
ghost use Rattle.genie_host.specs.Host.{HostView};
ghost use Rattle.genie_object.specs.Costs.{AreBelow};
ghost use Rattle.genie_object.specs.Sound.{IsSized};
ghost use Rattle.genie_model.specs.Refusing.{refuse};
ghost use Rattle.genie_kernel.specs.Good.{IsGood};
ghost use Rattle.genie_kernel.specs.Kept.{Kept};
ghost use Rattle.genie_kernel.specs.Rising.{MetersRise};
ghost use Rattle.genie_kernel.specs.Steps.{StepsTold, StoreCause};
ghost use Rattle.genie_kernel.specs.View.{outline, view};
ghost use Rattle.genie_copying.specs.Bounds.{KeepsToBound};
ghost use Rattle.genie_copying.specs.Getting.{pages_most};
ghost use Rattle.genie_inputs.specs.Calls.{input_event};
ghost use Rattle.genie_inputs.specs.HiddenReuse.{ReusesHidden};
ghost use Rattle.genie_inputs.specs.Posting.{IsAnswered};

use crate::call::Call;
use crate::copy::copy;
use crate::fill::fill;
use crate::hold::hold;
use crate::refill::refill;
use crate::reuse::find_reusable;
use crate::share::share;
use genie_base::{Class, Reply, Semantics};
use genie_kernel::Kernel;
use genie_store::Store;

// An input into the application's buffer.
fn input_at<S: Store>(kernel: &mut Kernel, store: &mut S, call: Call, addr: u32) -> Reply<'static>
    requires whole { IsTrue (is_whole (input_event call (Some addr))) }
    requires good { IsGood kernel.old }
    requires sized { IsSized kernel.old.memory (S.view store.old) }
    requires meters { AreBelow (2 ^ 63) kernel.old.memory.frames.meters }
    requires numbered { kernel.old.next + 1 < 2 ^ 32 }
    requires accepted { refuse (outline kernel.old) (input_event call (Some addr)) ≡ None }
    ensures answered { IsAnswered kernel.old kernel.new (S.view store.old) (S.view store.new) (input_event call (Some addr)) result }
    ensures cause { StoreCause (mark_of result) (S.view store.old).faults (S.view store.new).faults }
    ensures rises { MetersRise (2 ^ 36) kernel.old.memory.frames kernel.new.memory.frames }
    ensures landed { kernel.new.memory.frames.landed ≡ kernel.old.memory.frames.landed }
    ensures gets { kernel.new.memory.frames.meters.gets ≤ kernel.old.memory.frames.meters.gets + pages_most kernel.old (input_event call (Some addr)) }
    ensures copying { KeepsToBound kernel.old (input_event call (Some addr)) kernel.new result }
{
    match call.sem.class() {
        Class::Copy => copy(kernel, store, call, addr),
        Class::Share => share(kernel, store, call, addr),
        Class::Move => unreachable!(),
        Class::WeakMove => unreachable!(),
    }
}

// An input of weak move semantics.
fn input_weakly<S: Store>(kernel: &mut Kernel, store: &mut S, call: Call) -> Reply<'static>
    requires class { class_of call.sem ≡ WeakMove }
    requires good { IsGood kernel.old }
    requires sized { IsSized kernel.old.memory (S.view store.old) }
    requires meters { AreBelow (2 ^ 63) kernel.old.memory.frames.meters }
    requires numbered { kernel.old.next + 1 < 2 ^ 32 }
    requires accepted { refuse (outline kernel.old) (input_event call None) ≡ None }
    ensures answered { IsAnswered kernel.old kernel.new (S.view store.old) (S.view store.new) (input_event call None) result }
    ensures cause { StoreCause (mark_of result) (S.view store.old).faults (S.view store.new).faults }
    ensures rises { MetersRise (2 ^ 36) kernel.old.memory.frames kernel.new.memory.frames }
    ensures landed { kernel.new.memory.frames.landed ≡ kernel.old.memory.frames.landed }
    ensures gets { kernel.new.memory.frames.meters.gets ≤ kernel.old.memory.frames.meters.gets + pages_most kernel.old (input_event call None) }
    ensures copying { KeepsToBound kernel.old (input_event call None) kernel.new result }
{
    match find_reusable(kernel, call) {
        Some(region) => refill(kernel, store, call, region),
        None => fill(kernel, store, call),
    }
}

// An input into a buffer that the system finds or makes.
fn input_anywhere<S: Store>(kernel: &mut Kernel, store: &mut S, call: Call) -> Reply<'static>
    requires whole { IsTrue (is_whole (input_event call None)) }
    requires good { IsGood kernel.old }
    requires sized { IsSized kernel.old.memory (S.view store.old) }
    requires meters { AreBelow (2 ^ 63) kernel.old.memory.frames.meters }
    requires numbered { kernel.old.next + 1 < 2 ^ 32 }
    requires accepted { refuse (outline kernel.old) (input_event call None) ≡ None }
    ensures answered { IsAnswered kernel.old kernel.new (S.view store.old) (S.view store.new) (input_event call None) result }
    ensures cause { StoreCause (mark_of result) (S.view store.old).faults (S.view store.new).faults }
    ensures rises { MetersRise (2 ^ 36) kernel.old.memory.frames kernel.new.memory.frames }
    ensures landed { kernel.new.memory.frames.landed ≡ kernel.old.memory.frames.landed }
    ensures gets { kernel.new.memory.frames.meters.gets ≤ kernel.old.memory.frames.meters.gets + pages_most kernel.old (input_event call None) }
    ensures copying { KeepsToBound kernel.old (input_event call None) kernel.new result }
    ensures reuses { ReusesHidden kernel.old kernel.new call result }
{
    match call.sem.class() {
        Class::Copy => unreachable!(),
        Class::Share => unreachable!(),
        Class::Move => hold(kernel, store, call),
        Class::WeakMove => input_weakly(kernel, store, call),
    }
}

/// Posts an input, which takes one datagram of the port on the device. Where the application has the buffer, `addr` is its
/// address; else the system finds or makes a region for the data. Where the store fails, nothing is posted, and what
/// processes and devices see is as before.
pub fn input<S: Store>(
    kernel: &mut Kernel,
    store: &mut S,
    pid: u32,
    sem: Semantics,
    dev: u32,
    port: u16,
    flow: Option<u32>,
    addr: Option<u32>,
    len: u32,
) -> Reply<'static>
    requires whole { IsTrue (is_whole (event.Input pid sem dev port flow addr len)) }
    requires good { IsGood kernel.old }
    requires sized { IsSized kernel.old.memory (S.view store.old) }
    requires meters { AreBelow (2 ^ 63) kernel.old.memory.frames.meters }
    requires numbered { kernel.old.next < 2 ^ 32 - 1 }
    requires accepted { refuse (outline kernel.old) (event.Input pid sem dev port flow addr len) ≡ None }
    ensures good { IsGood kernel.new }
    ensures sized { IsSized kernel.new.memory (S.view store.new) }
    ensures kept { Kept kernel.old kernel.new }
    ensures config { kernel.new.config ≡ kernel.old.config }

    // The next number rises by one at most.
    ensures numbers { kernel.new.next ≤ kernel.old.next + 1 }
    ensures step { (host : HostView) → StepsTold (view kernel.old host (S.view store.old)) (event.Input pid sem dev port flow addr len) (view kernel.new host (S.view store.new)) result }
    ensures cause { StoreCause (mark_of result) (S.view store.old).faults (S.view store.new).faults }
    ensures rises { MetersRise (2 ^ 36) kernel.old.memory.frames kernel.new.memory.frames }

    // No byte of a device lands by it yet, and no more pages come from the store than a weak call names.
    ensures landed { kernel.new.memory.frames.landed ≡ kernel.old.memory.frames.landed }
    ensures gets { kernel.new.memory.frames.meters.gets ≤ kernel.old.memory.frames.meters.gets + pages_most kernel.old (event.Input pid sem dev port flow addr len) }

    // Before its bytes come, an input by copy or by move makes the processor move none, and a weak one those of the pages of
    // its buffer that can't be written in place.
    ensures copying { KeepsToBound kernel.old (event.Input pid sem dev port flow addr len) kernel.new result }

    // An input by emulated move uses the frames of a hidden region again.
    ensures reuses { ReusesHidden kernel.old kernel.new (record { pid = pid; sem = sem; dev = dev; port = port; flow = flow; len = len }) result }
{
    let call = Call {
        pid,
        sem,
        dev,
        port,
        flow,
        len,
    };
    match addr {
        Some(addr) => input_at(kernel, store, call, addr),
        None => input_anywhere(kernel, store, call),
    }
}
