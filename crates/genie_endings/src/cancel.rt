//! Posted inputs that are taken back.
ghost use Rattle.std.specs.Prelude.{◌≡◌, None, IfSome, IsSome, IsTrue, find};
ghost use Rattle.genie_base.specs.Transfers.{class_of};
ghost use Rattle.genie_base.specs.declared.event.Event.TheVariants as event;
ghost use Rattle.genie_base.specs.declared.semantics.Class.TheVariants.{Move, WeakMove};
ghost use Rattle.genie_model.specs.Refusing.{refuse};
ghost use Rattle.genie_kernel.specs.Calls.{has_number};
ghost use Rattle.genie_kernel.specs.Good.{IsGood};
ghost use Rattle.genie_kernel.specs.View.{outline};
ghost use Rattle.genie_endings.specs.Ends.{is_app};
ghost use Rattle.genie_endings.specs.Serving.{IsServed};

use crate::call::end_call;
use crate::laws::{ending_laws, removal_laws};
use crate::region::{move_out, named_region};
use genie_base::{Class, Reply, TransferId};
use genie_changes::removal::remove_region;
use genie_kernel::{Kernel, Search};
use genie_room::laws::queues_suffice;

// Takes back a posted input whose buffer is the application's, of copy or share semantics. Its region stays as it is.
fn cancel_app(kernel: &mut Kernel, id: u32) -> Reply<'static>
    requires good { IsGood kernel.old }
    requires accepted { refuse (outline kernel.old) (event.Cancel id) ≡ None }
    requires app { IfSome (find (has_number id) kernel.old.transfers) (λ t. IsTrue (is_app (class_of t.sem))) }
    ensures { IsServed kernel.old (event.Cancel id) kernel.new result }
{
    ending_laws();
    let _transfer = end_call(kernel, TransferId(id));
    let _posted = kernel.posted.cancel(id);
    Reply::Okay
}

// Takes back a posted weak move input. Its region is moved out, the last one of its process's queue.
fn cancel_weak_move(kernel: &mut Kernel, id: u32) -> Reply<'static>
    requires good { IsGood kernel.old }
    requires accepted { refuse (outline kernel.old) (event.Cancel id) ≡ None }
    requires class { IfSome (find (has_number id) kernel.old.transfers) (λ t. class_of t.sem ≡ WeakMove) }
    ensures { IsServed kernel.old (event.Cancel id) kernel.new result }
{
    ending_laws();
    queues_suffice();
    let transfer = end_call(kernel, TransferId(id));
    let _posted = kernel.posted.cancel(id);
    match named_region(kernel, &transfer) {
        Some(placed) => {
            move_out(kernel, placed.pid, placed.region);
            Reply::Okay
        }
        None => Reply::Okay,
    }
}

// Takes back a posted move input. The region that was held for it is removed.
fn cancel_move(kernel: &mut Kernel, id: u32) -> Reply<'static>
    requires good { IsGood kernel.old }
    requires accepted { refuse (outline kernel.old) (event.Cancel id) ≡ None }
    requires class { IfSome (find (has_number id) kernel.old.transfers) (λ t. class_of t.sem ≡ Move) }
    ensures { IsServed kernel.old (event.Cancel id) kernel.new result }
{
    ending_laws();
    removal_laws();
    let transfer = end_call(kernel, TransferId(id));
    let _posted = kernel.posted.cancel(id);
    match named_region(kernel, &transfer) {
        Some(placed) => {
            remove_region(kernel, placed.pid, placed.region);
            Reply::Okay
        }
        None => Reply::Okay,
    }
}

// The class of a pending transfer.
fn class_of_call(kernel: &Kernel, id: u32) -> Class
    requires { IsSome (find (has_number id) kernel.now.transfers) }
    ensures { IfSome (find (has_number id) kernel.now.transfers) (λ t. class_of t.sem ≡ result) }
{
    match kernel.transfers.find(Search::Number(id)) {
        Some(transfer) => transfer.sem.class(),
        None => unreachable!(),
    }
}

/// Takes back a posted input. Its loans are given back: a frame of its own is free then. What becomes of its buffer hangs on
/// its semantics: an application's region stays as it is, the region that was held for a move is removed, and that of a weak
/// move is moved out, the last one of its process's queue. Once a datagram has met the input, the event is refused.
pub fn cancel(kernel: &mut Kernel, id: u32) -> Reply<'static>
    requires good { IsGood kernel.old }
    requires accepted { refuse (outline kernel.old) (event.Cancel id) ≡ None }
    ensures { IsServed kernel.old (event.Cancel id) kernel.new result }
{
    match class_of_call(kernel, id) {
        Class::Copy | Class::Share => cancel_app(kernel, id),
        Class::Move => cancel_move(kernel, id),
        Class::WeakMove => cancel_weak_move(kernel, id),
    }
}
