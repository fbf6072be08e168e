//! Input loans on the pages of a range.
ghost use Rattle.std.specs.Prelude.{◌≡◌, ℕ, ◌+◌, ◌-◌, ◌*◌, ◌/◌, ◌%◌, ◌^◌, ◌<◌, ◌≤◌, List, Some, length, count_by, true, false, Result, OnOk, OnErr, IfOk, [], ◌∷◌};
ghost use Rattle.genie_base.specs.Counts.{span};
ghost use Rattle.genie_base.specs.Causes.{HasCause};
ghost use Rattle.genie_frame.specs.FrameTable.{counts_at, is_free};
ghost use Rattle.genie_object.specs.Pages.{is_there};
ghost use Rattle.genie_object.specs.Objects.{object_at, entry_at};
ghost use Rattle.genie_object.specs.Memory.{seen_with, entry_frame};
ghost use Rattle.genie_object.specs.Sound.{IsSound, IsSized};
ghost use Rattle.genie_object.specs.Keeping.{IsReady};
ghost use Rattle.genie_object.specs.Touching.{KeepsLoans, Touches, is_in_range};
ghost use Rattle.genie_object.specs.Costs.{AreBelow, Spends, write_work, writes_work};
ghost use Rattle.genie_plan.specs.Loans.{input_loan, input_loans};
ghost use Rattle.genie_plan.specs.Loans as kind;
ghost use Rattle.genie_object.specs.Steps.{metered};
ghost use Rattle.genie_plan.specs.Plans.{input_frames};
ghost use Rattle.genie_input.specs.Lending.{lent_more, HasLent, LiesIn};

use arrayvec::ArrayVec;
use genie_base::ObjectId;
use genie_fault::resolve_write;
use genie_frame::{FrameId, InLoan};
use genie_object::{EntryRef, Memory, Range};
use genie_plan::{InPlan, end_inputs, page_count};
use genie_store::{Store, StoreFault};

// Lends the frame of an entry's own page.
#[tactic(auto, using(crate::proofs::Lent::lent_there))]
fn lend_ready(memory: &mut Memory, at: EntryRef, frame: FrameId) -> InLoan
    requires sound { IsSound memory.old }
    requires ready { IsReady memory.old at.object.0 at.index frame }
    requires room { (counts_at memory.old.frames frame.0).input < 2 ^ 32 - 1 }
    ensures loan { result ≡ record { frame = frame } }
    ensures lent { memory.new ≡ lent_more memory.old kind.Input frame.0 }
{
    memory.frames.lend_in(frame)
}

// Lends one page of an object.
fn lend_page<S: Store>(
    memory: &mut Memory,
    store: &mut S,
    at: EntryRef,
    from: u32,
    n: u32,
) -> Result<InLoan, StoreFault>
    requires sound { IsSound memory.old }
    requires sized { IsSized memory.old (S.view store.old) }
    requires there { at.index < length (object_at memory.old.objects at.object.0) }
    requires within { (from ≤ at.index) × (at.index < from + n) }
    requires free { 0 < count_by is_free memory.old.frames.owners }
    requires room { count_by is_there memory.old.pages.pages < memory.old.pages.most }
    requires meters { AreBelow (2 ^ 64 - 2 ^ 20) memory.old.frames.meters }
    requires few { (f : ℕ) → (counts_at memory.old.frames f).input < 2 ^ 32 - 1 }
    ensures sized { IsSized memory.new (S.view store.new) }
    ensures seen { seen_with memory.new (S.view store.new) ≡ seen_with memory.old (S.view store.old) }
    ensures cause { HasCause (S.view store.old).faults (S.view store.new).faults result }
    ensures lent { IfOk result (λ loan. HasLent kind.Input (is_in_range at.object.0 from n) at.object.0 at.index (input_loan loan ∷ []) memory.old memory.new) }
    ensures failed { OnErr result (memory.new ≡ metered memory.old memory.new.frames.meters) }
    ensures spends { Spends (write_work memory.old at.object.0 at.index) 1 0 1 memory.old.frames.meters memory.new.frames.meters }
{
    match resolve_write(memory, store, at) {
        Ok(frame) => Ok(lend_ready(memory, at, frame)),
        Err(fault) => Err(fault),
    }
}

// Lends `n` pages of an object, from page `first` on, as far as the store doesn't fail.
fn lend_pages<S: Store>(
    memory: &mut Memory,
    store: &mut S,
    object: ObjectId,
    first: u32,
    n: u32,
    loans: &mut ArrayVec<InLoan, 65>,
) -> Result<(), StoreFault>
    requires sound { IsSound memory.old }
    requires sized { IsSized memory.old (S.view store.old) }
    requires within { first + n ≤ length (object_at memory.old.objects object.0) }
    requires small { first + n < 2 ^ 32 }
    requires most { n ≤ 65 }
    requires free { n ≤ count_by is_free memory.old.frames.owners }
    requires room { count_by is_there memory.old.pages.pages + n ≤ memory.old.pages.most }
    requires meters { AreBelow (2 ^ 64 - 2 ^ 21) memory.old.frames.meters }
    requires few { (f : ℕ) → (counts_at memory.old.frames f).input < 2 ^ 31 }
    requires empty { loans.old.items ≡ [] }
    ensures lent { HasLent kind.Input (is_in_range object.0 first n) object.0 first (input_loans loans.new.items) memory.old memory.new }
    ensures number { OnOk result (length (input_loans loans.new.items) ≡ n) }
    ensures spends { Spends (writes_work memory.old object.0 first n) n 0 n memory.old.frames.meters memory.new.frames.meters }
    ensures sized { IsSized memory.new (S.view store.new) }
    ensures seen { seen_with memory.new (S.view store.new) ≡ seen_with memory.old (S.view store.old) }
    ensures cause { HasCause (S.view store.old).faults (S.view store.new).faults result }
{
    'each: for i in 0..n {
        let at = EntryRef {
            object,
            index: first + i,
        };
        match lend_page(memory, store, at, first, n) {
            Ok(loan) => loans.push(loan),
            Err(fault) => return Err(fault),
        }
    }
    Ok(())
}

/// Lends the frames of a range's pages to a device, which stores in them in place: what lands is in the range at once. A
/// page that is shared, strongly lent or untouched is copied or zeroed first, so that each page is the range's own, and
/// one in a slot is brought in. After a fault of the store every loan is taken back.
pub fn in_place<S: Store>(
    memory: &mut Memory,
    store: &mut S,
    range: &Range,
) -> Result<InPlan, StoreFault>
    requires sound { IsSound memory.old }
    requires sized { IsSized memory.old (S.view store.old) }
    requires fits { range.now.off + range.now.len < 2 ^ 32 }
    requires within { range.now.off / memory.old.frames.page + span memory.old.frames.page range.now.off range.now.len ≤ length (object_at memory.old.objects range.now.object.0) }
    requires most { span memory.old.frames.page range.now.off range.now.len ≤ 65 }
    requires free { span memory.old.frames.page range.now.off range.now.len ≤ count_by is_free memory.old.frames.owners }
    requires room { count_by is_there memory.old.pages.pages + span memory.old.frames.page range.now.off range.now.len ≤ memory.old.pages.most }
    requires meters { AreBelow (2 ^ 64 - 2 ^ 21) memory.old.frames.meters }
    requires few { (f : ℕ) → (counts_at memory.old.frames f).input < 2 ^ 31 }

    ensures sound { IsSound memory.new }
    ensures sized { IsSized memory.new (S.view store.new) }
    ensures seen { seen_with memory.new (S.view store.new) ≡ seen_with memory.old (S.view store.old) }
    ensures cause { HasCause (S.view store.old).faults (S.view store.new).faults result }

    // The plan lies on the range's pages, on each of which it has one loan more. After a fault no count has changed.
    ensures lies { IfOk result (λ plan. LiesIn memory.new range.now.object.0 range.now.off range.now.len (input_frames plan.loans.items) plan.first plan.len) }
    ensures lent { IfOk result (λ plan. HasLent kind.Input (is_in_range range.now.object.0 (range.now.off / memory.old.frames.page) (span memory.old.frames.page range.now.off range.now.len)) range.now.object.0 (range.now.off / memory.old.frames.page) (input_loans plan.loans.items) memory.old memory.new) }
    ensures counts { OnErr result ((f : ℕ) → counts_at memory.new.frames f ≡ counts_at memory.old.frames f) }

    // What the call leaves alone, and what it costs: only pages that can't be written in place are copied.
    ensures keeps { KeepsLoans memory.old memory.new }
    ensures touches { Touches (is_in_range range.now.object.0 (range.now.off / memory.old.frames.page) (span memory.old.frames.page range.now.off range.now.len)) memory.old memory.new }
    ensures landed { memory.new.frames.landed ≡ memory.old.frames.landed }
    ensures spends { let n = span memory.old.frames.page range.now.off range.now.len in Spends (writes_work memory.old range.now.object.0 (range.now.off / memory.old.frames.page) n) n 0 n memory.old.frames.meters memory.new.frames.meters }
{
    let page = memory.frames.page();
    let first = range.off / page;
    let count = page_count(page, range.off, range.len);
    let mut loans = ArrayVec::new();
    match lend_pages(memory, store, range.object, first, count, &mut loans) {
        Ok(()) => Ok(InPlan {
            loans,
            first: range.off % page,
            len: range.len,
        }),
        Err(fault) => {
            end_inputs(&mut memory.frames, loans.as_slice());
            memory.frames.len();
            Err(fault)
        }
    }
}
