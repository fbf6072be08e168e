//! Frames that are lent as they are, in place of copies.
ghost use Rattle.std.specs.Prelude.{◌≤◌, ◌≡◌, ◌≢◌, ℕ, ◌<◌, ◌+◌, ◌^◌, [], false, length, OnErr, IfOk};
ghost use Rattle.genie_base.specs.Causes.{HasCause};
ghost use Rattle.genie_base.specs.Transfers.{class_of, is_strong, is_emulated};
ghost use Rattle.genie_frame.specs.FrameTable.{counts_at};
ghost use Rattle.genie_object.specs.Costs.{writes_work};
ghost use Rattle.genie_object.specs.Memory.{seen_with};
ghost use Rattle.genie_object.specs.Objects.{object_at, entry_at};
ghost use Rattle.genie_object.specs.Sound.{IsSound, IsSized};
ghost use Rattle.genie_object.specs.Touching.{KeepsLoans};
ghost use Rattle.genie_plan.specs.Landings.{AreOfEntries};
ghost use Rattle.genie_plan.specs.Loans.{output_loans};
ghost use Rattle.genie_plan.specs.Loans as kind;
ghost use Rattle.genie_plan.specs.Plans.{CanSend, output_frames, times};
ghost use Rattle.genie_tcow.specs.Lending.{HasLent, IsTakenBack};
ghost use Rattle.genie_tcow.specs.Owning.{AreOwnFrames};
ghost use Rattle.genie_tcow.specs.Costs.{sends_work};
ghost use Rattle.genie_tcow.specs.Ranges.{CanPrepare, IsPlanOf, SendsRange, first_page, is_of_range, pages_of};
ghost use Rattle.genie_kernel.specs.Rising.{MetersRise};
ghost use Rattle.genie_copying.specs.Spending.{CopiesAtMost};
ghost use Rattle.genie_outputs.specs.Answering.{IsReady};
ghost use Rattle.genie_outputs.specs.Sharing.{IsShared, WiredUnless};
ghost use Rattle.genie_changes.specs.Making.{IsMoved};

use crate::call::Call;
use crate::laws::output_laws;
use genie_base::{Semantics, TransferId};
use genie_changes::guarding::guard;
use genie_frame::Frames;
use genie_kernel::Kernel;
use genie_object::{Memory, Range};
use genie_plan::{OutPlan, wire_outputs};
use genie_region::Region;
use genie_store::{Store, StoreFault};
use genie_tcow::{prepare_strong, prepare_weak};

// Lends the frames of a range strongly. An object that isn't to be written permits no writing afterwards.
pub(crate) fn lend_strong<S: Store>(
    memory: &mut Memory,
    store: &mut S,
    id: TransferId,
    range: &Range,
    writable: bool,
) -> Result<OutPlan, StoreFault>
    requires sound { IsSound memory.old }
    requires sized { IsSized memory.old (S.view store.old) }
    requires range { CanPrepare memory.old range.now }
    requires there { object_at memory.old.objects range.now.object.0 ≢ [] }
    ensures sized { IsSized memory.new (S.view store.new) }
    ensures cause { HasCause (S.view store.old).faults (S.view store.new).faults result }
    ensures plan { IfOk result (λ plan. IsPlanOf memory.old.frames.page range.now plan.loans.items plan.first plan.len) }
    ensures ready { IfOk result (λ plan. CanSend memory.new.frames plan.loans.items plan.first plan.len) }
    ensures bytes { IfOk result (λ plan. SendsRange memory.old memory.new (S.view store.old) range.now plan.loans.items plan.first plan.len) }
    ensures lent { IfOk result (λ plan. HasLent kind.Strong id.0 (is_of_range memory.old.frames.page range.now) (output_loans plan.loans.items) memory.old memory.new (S.view store.old) (S.view store.new)) }
    ensures own { IfOk result (λ plan. AreOwnFrames memory.old memory.new range.now.object.0 (first_page memory.old.frames.page range.now) (output_loans plan.loans.items)) }
    ensures failed { OnErr result (IsTakenBack (is_of_range memory.old.frames.page range.now) memory.old memory.new (S.view store.old) (S.view store.new)) }
    ensures rises { MetersRise (2 ^ 20) memory.old.frames memory.new.frames }
    ensures landed { memory.new.frames.landed ≡ memory.old.frames.landed }
    ensures gets { memory.new.frames.meters.gets ≤ memory.old.frames.meters.gets + pages_of memory.old.frames.page range.now }
    ensures copies { CopiesAtMost (sends_work memory.old range.now.object.0 (first_page memory.old.frames.page range.now) (pages_of memory.old.frames.page range.now)) memory.old memory.new }
    ensures shut { writable ≡ false → (i : ℕ) → (entry_at memory.new.objects range.now.object.0 i).writable ≡ false }
{
    match prepare_strong(memory, store, id, range) {
        Ok(plan) => {
            guard(&mut memory.objects, range.object, writable);
            Ok(plan)
        }
        Err(fault) => {
            guard(&mut memory.objects, range.object, writable);
            Err(fault)
        }
    }
}

// Lends the frames of a range weakly. An object that isn't to be written permits no writing afterwards.
fn lend_weak<S: Store>(
    memory: &mut Memory,
    store: &mut S,
    range: &Range,
    writable: bool,
) -> Result<OutPlan, StoreFault>
    requires sound { IsSound memory.old }
    requires sized { IsSized memory.old (S.view store.old) }
    requires range { CanPrepare memory.old range.now }
    requires there { object_at memory.old.objects range.now.object.0 ≢ [] }
    ensures sized { IsSized memory.new (S.view store.new) }
    ensures seen { seen_with memory.new (S.view store.new) ≡ seen_with memory.old (S.view store.old) }
    ensures cause { HasCause (S.view store.old).faults (S.view store.new).faults result }
    ensures keeps { KeepsLoans memory.old memory.new }
    ensures plan { IfOk result (λ plan. IsPlanOf memory.old.frames.page range.now plan.loans.items plan.first plan.len) }
    ensures frames { IfOk result (λ plan. AreOfEntries memory.new range.now.object.0 (first_page memory.old.frames.page range.now) (output_frames plan.loans.items)) }
    ensures lent { IfOk result (λ plan. HasLent kind.Weak 0 (is_of_range memory.old.frames.page range.now) (output_loans plan.loans.items) memory.old memory.new (S.view store.old) (S.view store.new)) }
    ensures failed { OnErr result (IsTakenBack (is_of_range memory.old.frames.page range.now) memory.old memory.new (S.view store.old) (S.view store.new)) }
    ensures rises { MetersRise (2 ^ 20) memory.old.frames memory.new.frames }
    ensures landed { memory.new.frames.landed ≡ memory.old.frames.landed }
    ensures gets { memory.new.frames.meters.gets ≤ memory.old.frames.meters.gets + pages_of memory.old.frames.page range.now }
    ensures copies { CopiesAtMost (writes_work memory.old range.now.object.0 (first_page memory.old.frames.page range.now) (pages_of memory.old.frames.page range.now)) memory.old memory.new }
    ensures shut { writable ≡ false → (i : ℕ) → (entry_at memory.new.objects range.now.object.0 i).writable ≡ false }
{
    match prepare_weak(memory, store, range) {
        Ok(plan) => {
            guard(&mut memory.objects, range.object, writable);
            Ok(plan)
        }
        Err(fault) => {
            guard(&mut memory.objects, range.object, writable);
            Err(fault)
        }
    }
}

// Wires the frames of a plan, unless the call is emulated.
fn wire_plan(frames: &mut Frames, plan: &OutPlan, sem: Semantics)
    requires there { (f : ℕ) → 0 < times (output_frames plan.now.loans.items) f → f < length frames.old.owners }
    requires room { (f : ℕ) → (counts_at frames.old f).wires + times (output_frames plan.now.loans.items) f < 2 ^ 32 }
    ensures { WiredUnless (is_emulated sem) (output_frames plan.now.loans.items) frames.old frames.new }
{
    if sem.emulated() {
        return;
    }
    wire_outputs(frames, plan.loans.as_slice());
}

// Lends the frames of a weak call's range, and wires them unless the call is emulated.
pub(crate) fn share<S: Store>(
    kernel: &mut Kernel,
    store: &mut S,
    call: &Call,
    region: &Region,
    range: &Range,
) -> Result<OutPlan, StoreFault>
    requires ready { IsReady kernel.old call.now region.now range.now (S.view store.old) }
    requires weak { is_strong (class_of call.now.sem) ≡ false }
    ensures only { kernel.new ≡ record kernel.old { memory = kernel.new.memory } }
    ensures shared { IfOk result (λ plan. IsShared kernel.old kernel.new.memory call.now region.now plan (S.view store.old) (S.view store.new)) }
    ensures failed { OnErr result (IsMoved kernel.old kernel.new (S.view store.old) (S.view store.new)) }
    ensures cause { HasCause (S.view store.old).faults (S.view store.new).faults result }
    ensures rises { MetersRise (2 ^ 20) kernel.old.memory.frames kernel.new.memory.frames }
    ensures landed { kernel.new.memory.frames.landed ≡ kernel.old.memory.frames.landed }
    ensures gets { kernel.new.memory.frames.meters.gets ≤ kernel.old.memory.frames.meters.gets + pages_of kernel.old.memory.frames.page range.now }
    ensures copies { CopiesAtMost (writes_work kernel.old.memory range.now.object.0 (first_page kernel.old.memory.frames.page range.now) (pages_of kernel.old.memory.frames.page range.now)) kernel.old.memory kernel.new.memory }
{
    output_laws();
    match lend_weak(&mut kernel.memory, store, range, region.writable) {
        Ok(plan) => {
            wire_plan(&mut kernel.memory.frames, &plan, call.sem);
            Ok(plan)
        }
        Err(fault) => Err(fault),
    }
}
