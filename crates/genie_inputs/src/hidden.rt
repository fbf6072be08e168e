//! A region that was hidden, used again for an input by emulated move.
ghost use Rattle.std.specs.Prelude.{◌≡◌, ◌+◌, ◌^◌, ◌<◌, true, None, IfOk, IfSome, OnErr};
ghost use Rattle.genie_base.specs.Causes.{HasCause};
ghost use Rattle.genie_base.specs.Transfers.{class_of};
ghost use Rattle.genie_base.specs.declared.semantics.Class.TheVariants.{Move};
ghost use Rattle.genie_object.specs.Costs.{AreBelow};
ghost use Rattle.genie_object.specs.Sound.{IsSized};
ghost use Rattle.genie_model.specs.Refusing.{refuse};
ghost use Rattle.genie_kernel.specs.Good.{IsGood};
ghost use Rattle.genie_kernel.specs.Rising.{MetersRise};
ghost use Rattle.genie_kernel.specs.View.{outline};
ghost use Rattle.genie_copying.specs.Spending.{CopiesAtMost};
ghost use Rattle.genie_inputs.specs.Calls.{input_event};
ghost use Rattle.genie_inputs.specs.HiddenReuse.{oldest_hidden, may_reuse, HoldsBuffer, ReusesFrames, TakesHidden};
ghost use Rattle.genie_inputs.specs.Placing.{IsPlace};
ghost use Rattle.genie_inputs.specs.Ready.{IsReady};

use crate::buffer::{is_early_at, lend_strongly};
use crate::call::Call;
use crate::claim::lend_object;
use crate::laws::input_laws;
use crate::place::Placement;
use genie_base::TransferId;
use genie_changes::making::memory_moves;
use genie_kernel::{Kernel, Loans};
use genie_plan::page_count;
use genie_spaces::laws::hidden_regions_go;
use genie_spaces::room::make_room;
use genie_store::{Store, StoreFault};

// Whether the call may take the frames of a hidden region: an emulated one on an early device, where its buffer needs no
// frame but free ones.
fn may_reuse(kernel: &Kernel, call: Call) -> bool
    requires good { IsGood kernel.now }
    requires accepted { refuse (outline kernel.now) (input_event call None) ≡ None }
    ensures { result ≡ may_reuse kernel.now call }
{
    let pages = page_count(kernel.spaces.page().get(), 0, call.len);
    call.sem.emulated()
        && is_early_at(&kernel.config, call.dev)
        && pages <= kernel.memory.frames.free()
}

// Takes out the oldest hidden region of the place and the size of a new one, where there is one that the call may take, and
// lends a buffer in the place of its object.
fn take_hidden(kernel: &mut Kernel, id: TransferId, call: Call, place: Placement) -> Option<Loans>
    requires class { class_of call.sem ≡ Move }
    requires good { IsGood kernel.old }
    requires meters { AreBelow (2 ^ 63) kernel.old.memory.frames.meters }
    requires accepted { refuse (outline kernel.old) (input_event call None) ≡ None }
    requires place { IsPlace kernel.old call place }
    ensures takes { IfSome result (TakesHidden kernel.old kernel.new id.0 call place) }
    ensures none { result ≡ None → may_reuse kernel.old call ≡ true → oldest_hidden call.pid place.start place.pages kernel.old.hidden ≡ None }
    ensures unchanged { result ≡ None → kernel.new ≡ kernel.old }
    ensures rises { IfSome result (λ _. MetersRise (2 ^ 20) kernel.old.memory.frames kernel.new.memory.frames) }
    ensures landed { IfSome result (λ _. kernel.new.memory.frames.landed ≡ kernel.old.memory.frames.landed) }
    ensures gets { IfSome result (λ _. kernel.new.memory.frames.meters.gets ≡ kernel.old.memory.frames.meters.gets) }
    ensures copying { IfSome result (λ _. CopiesAtMost 0 kernel.old.memory kernel.new.memory) }
{
    if !may_reuse(kernel, call) {
        return None;
    }
    match kernel.hidden.reuse(call.pid, place.start, place.pages) {
        Some(region) => Some(Loans::Inward(lend_object(
            &mut kernel.memory,
            region.object,
            id,
            call.len,
        ))),
        None => None,
    }
}

// Makes room for a region and the buffer of an input, and lends the buffer.
fn lend_anew<S: Store>(
    kernel: &mut Kernel,
    store: &mut S,
    id: TransferId,
    call: Call,
) -> Result<Loans, StoreFault>
    requires class { class_of call.sem ≡ Move }
    requires good { IsGood kernel.old }
    requires sized { IsSized kernel.old.memory (S.view store.old) }
    requires meters { AreBelow (2 ^ 63) kernel.old.memory.frames.meters }
    requires accepted { refuse (outline kernel.old) (input_event call None) ≡ None }
    ensures holds { IfOk result (HoldsBuffer kernel.old kernel.new (S.view store.old) (S.view store.new) id.0 call) }
    ensures ready { OnErr result (IsReady kernel.old kernel.new (S.view store.old) (S.view store.new)) }
    ensures cause { HasCause (S.view store.old).faults (S.view store.new).faults result }
    ensures rises { MetersRise (2 ^ 20) kernel.old.memory.frames kernel.new.memory.frames }
    ensures landed { kernel.new.memory.frames.landed ≡ kernel.old.memory.frames.landed }
    ensures gets { kernel.new.memory.frames.meters.gets ≡ kernel.old.memory.frames.meters.gets }
    ensures copying { CopiesAtMost 0 kernel.old.memory kernel.new.memory }
{
    input_laws();
    make_room(kernel, call.pid);
    lend_strongly(kernel, store, id, call.dev, 0, call.len)
}

// Lends the buffer of an input by move, and makes room for its region. An emulated call takes the frames of a region that
// was hidden at the same place, unless memory is short.
pub(crate) fn lend_held<S: Store>(
    kernel: &mut Kernel,
    store: &mut S,
    id: TransferId,
    call: Call,
    place: Placement,
) -> Result<Loans, StoreFault>
    requires class { class_of call.sem ≡ Move }
    requires good { IsGood kernel.old }
    requires sized { IsSized kernel.old.memory (S.view store.old) }
    requires meters { AreBelow (2 ^ 63) kernel.old.memory.frames.meters }
    requires accepted { refuse (outline kernel.old) (input_event call None) ≡ None }
    requires place { IsPlace kernel.old call place }
    ensures holds { IfOk result (HoldsBuffer kernel.old kernel.new (S.view store.old) (S.view store.new) id.0 call) }
    ensures reuses { IfOk result (ReusesFrames kernel.old call place) }
    ensures ready { OnErr result (IsReady kernel.old kernel.new (S.view store.old) (S.view store.new)) }
    ensures cause { HasCause (S.view store.old).faults (S.view store.new).faults result }
    ensures rises { MetersRise (2 ^ 20) kernel.old.memory.frames kernel.new.memory.frames }
    ensures landed { kernel.new.memory.frames.landed ≡ kernel.old.memory.frames.landed }
    ensures gets { kernel.new.memory.frames.meters.gets ≡ kernel.old.memory.frames.meters.gets }
    ensures copying { CopiesAtMost 0 kernel.old.memory kernel.new.memory }
{
    memory_moves();
    hidden_regions_go();
    match take_hidden(kernel, id, call, place) {
        Some(loans) => Ok(loans),
        None => lend_anew(kernel, store, id, call),
    }
}
