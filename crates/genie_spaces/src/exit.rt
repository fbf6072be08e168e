//! The end of a process.
ghost use Rattle.std.specs.Prelude.{◌≡◌, ◌+◌, ◌<◌, ◌≤◌, ℕ, [], AllPairs, IfSome, IsSome, IsTrue, None, false, find, length, map, true, slice_index_or, slice_set};
ghost use Rattle.std.specs.List.{list_any};
ghost use Rattle.genie_base.specs.declared.event.Event.TheVariants as event;
ghost use Rattle.genie_hiding.specs.Hidden.{others};
ghost use Rattle.genie_space.specs.Spaces.{is_alive, regions_of};
ghost use Rattle.genie_model.specs.Pending.{is_just};
ghost use Rattle.genie_model.specs.Refusing.{refuse};
ghost use Rattle.genie_kernel.specs.Calls.{has_number};
ghost use Rattle.genie_kernel.specs.Good.{IsGood};
ghost use Rattle.genie_kernel.specs.View.{outline};
ghost use Rattle.genie_kernel.specs.declared.transfer.Transfer.{Transfer as TransferView};
ghost use Rattle.genie_changes.specs.Gone.{disowned, left_named, without_process};
ghost use Rattle.genie_changes.specs.Settled.{IsSettled};
ghost use Rattle.genie_spaces.specs.Exiting.{Exits, IsPostedAt, is_posted_by};
ghost use Rattle.genie_spaces.specs.ServingPaged.{IsServedPaged};

use crate::laws::exit_laws;
use genie_base::{Class, RegionId, Reply, TransferId};
use genie_changes::giving::give_back;
use genie_changes::removal::remove_region;
use genie_hiding::WeakQueue;
use genie_kernel::{Change, Kernel, Transfer, Transfers};
use genie_model::Phase;

// Whether the process made the call.
fn is_owned_by(transfer: &Transfer, pid: u32) -> bool
    ensures { result ≡ is_just transfer.now.owner pid }
{
    match transfer.owner {
        Some(owner) => owner == pid,
        None => false,
    }
}

// Whether it is a posted input of the process.
fn is_posted_by(transfer: &Transfer, pid: u32) -> bool
    ensures { result ≡ is_posted_by pid transfer.now }
{
    is_owned_by(transfer, pid) && matches!(transfer.phase, Phase::Posted)
}

// The number of the first posted input of the process, or `None` exactly where it has none.
fn first_posted(transfers: &Transfers, pid: u32) -> Option<TransferId>
    ensures found { IfSome result (λ id. IsPostedAt pid id.0 transfers.now) }
    ensures none { result ≡ None → list_any (is_posted_by pid) transfers.now ≡ false }
{
    'each: for i in 0..transfers.len() {
        let transfer = transfers.at(i);
        if is_posted_by(transfer, pid) {
            return Some(transfer.id);
        }
    }
    None
}

// Ends a posted input of the process: its loans are given back, and it waits for a datagram no more.
fn end_posted(kernel: &mut Kernel, pid: u32, id: TransferId)
    requires settled { IsSettled kernel.old }
    requires posted { IsPostedAt pid id.0 kernel.old.transfers }
    ensures exits { Exits pid kernel.old kernel.new }
    ensures spaces { kernel.new.spaces ≡ kernel.old.spaces }
    ensures fewer { length kernel.new.transfers + 1 ≡ length kernel.old.transfers }
{
    exit_laws();
    let transfer = kernel.transfers.remove(id);
    give_back(&mut kernel.memory.frames, &transfer);
    kernel.memory.frames.len();
    let _posted = kernel.posted.cancel(id.0);
}

// Ends all posted inputs of the process: at most 64 transfers are pending.
fn end_all_posted(kernel: &mut Kernel, pid: u32)
    requires settled { IsSettled kernel.old }
    ensures exits { Exits pid kernel.old kernel.new }
    ensures spaces { kernel.new.spaces ≡ kernel.old.spaces }
    ensures none { list_any (is_posted_by pid) kernel.new.transfers ≡ false }
{
    kernel.transfers.len();
    'inputs: for _done in 0..65_u32 {
        let Some(id) = first_posted(&kernel.transfers, pid) else {
            return;
        };
        end_posted(kernel, pid, id);
    }
}

// Removes the first region of the process.
fn remove_first(kernel: &mut Kernel, pid: u32)
    requires settled { IsSettled kernel.old }
    requires alive { IsTrue (is_alive pid kernel.old.spaces) }
    requires some { 0 < length (regions_of pid kernel.old.spaces) }
    ensures exits { Exits pid kernel.old kernel.new }
    ensures transfers { kernel.new.transfers ≡ kernel.old.transfers }
    ensures fewer { length (regions_of pid kernel.new.spaces) + 1 ≡ length (regions_of pid kernel.old.spaces) }
{
    exit_laws();
    let region = kernel.spaces.regions(pid).at(0);
    remove_region(kernel, pid, region);
}

// Removes all regions of the process: it has at most 32.
fn remove_all(kernel: &mut Kernel, pid: u32)
    requires settled { IsSettled kernel.old }
    requires alive { IsTrue (is_alive pid kernel.old.spaces) }
    ensures exits { Exits pid kernel.old kernel.new }
    ensures transfers { kernel.new.transfers ≡ kernel.old.transfers }
    ensures none { regions_of pid kernel.new.spaces ≡ [] }
{
    kernel.spaces.regions(pid).len();
    'regions: for _done in 0..33_u32 {
        if kernel.spaces.regions(pid).len() == 0 {
            return;
        }
        remove_first(kernel, pid);
    }
}

// The region that a transfer still names once its process is gone.
fn left_named(transfer: &Transfer) -> Option<RegionId>
    ensures { result ≡ left_named transfer.now }
{
    match transfer.sem.class() {
        Class::Move => None,
        _ => transfer.region,
    }
}

// Takes the owner from a transfer of the process.
fn disown_at(transfers: &mut Transfers, pid: u32, i: u32)
    requires there { i < length transfers.old }
    requires rising { AllPairs (λ (x y : TransferView). x.id.0 < y.id.0) transfers.old }
    ensures { (d : TransferView) → slice_set transfers.old i (disowned pid (slice_index_or transfers.old i d)) ≡ transfers.new }
{
    let transfer = transfers.at(i);
    if !is_owned_by(transfer, pid) {
        return;
    }
    let id = transfer.id;
    let region = left_named(transfer);
    transfers.change(id, Change::Ownerless { region });
}

// Takes the owner from all transfers of the process.
fn disown(transfers: &mut Transfers, pid: u32)
    requires { AllPairs (λ (x y : TransferView). x.id.0 < y.id.0) transfers.old }
    ensures { transfers.new ≡ map (disowned pid) transfers.old }
{
    'each: for i in 0..transfers.len() {
        disown_at(transfers, pid, i);
    }
}

// Takes a process away that has no region.
fn end_process(kernel: &mut Kernel, pid: u32)
    requires number { pid < 16 }
    requires alive { IsTrue (is_alive pid kernel.old.spaces) }
    requires empty { regions_of pid kernel.old.spaces ≡ [] }
    requires rising { AllPairs (λ (x y : TransferView). x.id.0 < y.id.0) kernel.old.transfers }
    ensures { kernel.new ≡ without_process kernel.old pid }
{
    disown(&mut kernel.transfers, pid);
    kernel.spaces.drop_space(pid);
    kernel.queues[pid as usize] = WeakQueue::new();
}

/// Ends a process. Its posted inputs end, and its hidden regions are dropped. Its other transfers go on without an owner:
/// what devices need of them they keep, but a move no longer names its region. All its regions are removed, as `unmap`
/// does, and the process goes. Where there is no such process, the event is refused.
pub fn exit(kernel: &mut Kernel, pid: u32) -> Reply<'static>
    requires good { IsGood kernel.old }
    requires accepted { refuse (outline kernel.old) (event.Exit pid) ≡ None }
    ensures served { IsServedPaged kernel.old (event.Exit pid) kernel.new result }
    ensures hidden { kernel.new.hidden ≡ others pid kernel.old.hidden }
    ensures numbers { kernel.new.next ≡ kernel.old.next }
{
    exit_laws();
    kernel.hidden.discard(&mut kernel.memory, pid);
    end_all_posted(kernel, pid);
    remove_all(kernel, pid);
    end_process(kernel, pid);
    Reply::Okay
}
