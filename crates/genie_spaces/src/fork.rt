//! A process that begins as a copy of another one.
ghost use Rattle.std.specs.Prelude.{◌≡◌, ◌<◌, ◌^◌, IsTrue, None, OnErr, OnOk, count_by, false, length, sum_by};
ghost use Rattle.genie_base.specs.Causes.{HasCause};
ghost use Rattle.genie_base.specs.Events.{mark_of};
ghost use Rattle.genie_base.specs.declared.event.Event.TheVariants as event;
ghost use Rattle.genie_base.specs.declared.reply.Reply.TheVariants as reply;
ghost use Rattle.genie_hiding.specs.Hidden.{is_of, objects_of};
ghost use Rattle.genie_host.specs.Host.{HostView};
ghost use Rattle.genie_object.specs.Costs.{AreBelow, Spends};
ghost use Rattle.genie_object.specs.Sound.{IsSized};
ghost use Rattle.genie_sharing.specs.Copying.{Copies};
ghost use Rattle.genie_sharing.specs.Regions.{CopiesRegions, is_copied, region_work};
ghost use Rattle.genie_space.specs.Spaces.{is_alive, regions_of};
ghost use Rattle.genie_model.specs.Refusing.{refuse};
ghost use Rattle.genie_copying.specs.Bounds.{KeepsToBound};
ghost use Rattle.genie_kernel.specs.Good.{IsGood};
ghost use Rattle.genie_kernel.specs.Kept.{Kept};
ghost use Rattle.genie_kernel.specs.Rising.{MetersRise};
ghost use Rattle.genie_kernel.specs.Steps.{StepsTold, StoreCause};
ghost use Rattle.genie_kernel.specs.View.{outline, view};
ghost use Rattle.genie_spaces.specs.Clearing.{Clears};
ghost use Rattle.genie_spaces.specs.Forking.{Begins, CanCopyPages, SharesPages, fork_work, with_child};

use crate::copies::make_copies;
use crate::laws::region_laws;
use genie_base::Reply;
use genie_changes::given::regions_fit;
use genie_hiding::WeakQueue;
use genie_kernel::Kernel;
use genie_kernel::laws::{memory_calls_keep_good, states_are_alike};
use genie_region::Regions;
use genie_room::laws::{four_are_available, room_is_kept};
use genie_sharing::drop_objects;
use genie_store::{Store, StoreFault};

// Drops the hidden regions of a process.
fn drop_hidden(kernel: &mut Kernel, pid: u32)
    requires { IsGood kernel.old }
    ensures clears { Clears kernel.old kernel.new }
    ensures none { count_by (is_of pid) kernel.new.hidden ≡ 0 }
{
    kernel.hidden.discard(&mut kernel.memory, pid);
}

// Makes the regions of the child, with untouched pages. Nothing that a process can see changes.
fn begin(kernel: &mut Kernel, pid: u32, child: u32) -> Regions
    requires good { IsGood kernel.old }
    requires accepted { refuse (outline kernel.old) (event.Fork pid child) ≡ None }
    ensures { Begins kernel.old kernel.new pid child result }
{
    drop_hidden(kernel, child);
    make_copies(kernel, pid, child)
}

// Copies the pages of a process's regions to the copies, which are to be the regions of the child.
fn copy_pages<S: Store>(
    kernel: &mut Kernel,
    store: &mut S,
    pid: u32,
    child: u32,
    copies: &Regions,
) -> Result<(), StoreFault>
    requires ready { CanCopyPages kernel.old pid child copies.now }
    requires sized { IsSized kernel.old.memory (S.view store.old) }
    requires meters { AreBelow (2 ^ 63) kernel.old.memory.frames.meters }
    ensures only { kernel.new ≡ record kernel.old { memory = kernel.new.memory; clock = kernel.new.clock } }
    ensures copied { OnOk result (CopiesRegions (objects_of kernel.old.hidden) (regions_of pid kernel.old.spaces) copies.now kernel.old.memory kernel.new.memory (S.view store.old) (S.view store.new)) }
    ensures failed { OnErr result (Copies (objects_of kernel.old.hidden) (is_copied copies.now) kernel.old.memory kernel.new.memory (S.view store.old) (S.view store.new)) }
    ensures cause { HasCause (S.view store.old).faults (S.view store.new).faults result }
    ensures meters { Spends (sum_by (region_work kernel.old.memory (regions_of pid kernel.old.spaces)) copies.now) 0 (2 ^ 24) (2 ^ 11) kernel.old.memory.frames.meters kernel.new.memory.frames.meters }
{
    regions_fit();
    four_are_available();
    room_is_kept();
    match genie_sharing::copy_regions(
        &mut kernel.memory,
        &mut kernel.hidden,
        &mut kernel.clock,
        store,
        kernel.spaces.regions(pid),
        copies,
    ) {
        Ok(()) => Ok(()),
        Err(fault) => Err(fault),
    }
}

// The tables with one process more, which has these regions.
fn add_child(kernel: &mut Kernel, child: u32, copies: Regions)
    requires number { child < 16 }
    requires size { length kernel.old.spaces.processes ≡ 16 }
    requires new { is_alive child kernel.old.spaces ≡ false }
    ensures { kernel.new ≡ with_child kernel.old child copies }
{
    kernel.spaces.spawn(child);
    kernel.queues[child as usize] = WeakQueue::new();
    let regions = kernel.spaces.regions_mut(child);
    *regions = copies;
}

/// Makes a process that begins as a copy of another one. For each region that an access may reach it gets a Live region at
/// the same place, with the same mode and bytes, and with the least number that no region and no orphan has. Its pages are
/// those of the parent until either is written; a page that a device reads or writes in place is copied at once. Where the
/// new number isn't that of a process to come, or the pages have no room in the store, the event is refused.
///
/// Where the store fails there is no child, and what processes and devices see is as before.
pub fn fork<S: Store>(kernel: &mut Kernel, store: &mut S, pid: u32, child: u32) -> Reply<'static>
    requires good { IsGood kernel.old }
    requires sized { IsSized kernel.old.memory (S.view store.old) }
    requires meters { AreBelow (2 ^ 63) kernel.old.memory.frames.meters }
    requires accepted { refuse (outline kernel.old) (event.Fork pid child) ≡ None }
    ensures good { IsGood kernel.new }
    ensures sized { IsSized kernel.new.memory (S.view store.new) }
    ensures kept { Kept kernel.old kernel.new }
    ensures config { kernel.new.config ≡ kernel.old.config }
    ensures numbers { kernel.new.next ≡ kernel.old.next }
    ensures step { (host : HostView) → StepsTold (view kernel.old host (S.view store.old)) (event.Fork pid child) (view kernel.new host (S.view store.new)) result }
    ensures cause { StoreCause (mark_of result) (S.view store.old).faults (S.view store.new).faults }

    // Nothing is copied but what a device holds, no page is got, and no byte lands.
    ensures meters { Spends (fork_work kernel.new pid) 0 (2 ^ 24) (2 ^ 11) kernel.old.memory.frames.meters kernel.new.memory.frames.meters }
    ensures landed { kernel.new.memory.frames.landed ≡ kernel.old.memory.frames.landed }
    ensures rises { MetersRise (2 ^ 36) kernel.old.memory.frames kernel.new.memory.frames }
    ensures shared { result ≡ reply.Okay → SharesPages kernel.new pid child }

    // What the processor copies keeps to the table: the pages of the parent that a device holds.
    ensures copying { KeepsToBound kernel.old (event.Fork pid child) kernel.new result }
{
    region_laws();
    regions_fit();
    memory_calls_keep_good();
    states_are_alike();
    let copies = begin(kernel, pid, child);
    match copy_pages(kernel, store, pid, child, &copies) {
        Ok(()) => {
            add_child(kernel, child, copies);
            Reply::Okay
        }
        Err(_) => {
            drop_objects(&mut kernel.memory, &copies);
            Reply::StoreFault
        }
    }
}
