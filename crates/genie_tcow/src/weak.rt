//! The pages of a range are lent to a device that sends them as they are then.
ghost use Rattle.std.specs.Prelude.{◌≡◌, ℕ, ◌+◌, ◌-◌, ◌^◌, ◌<◌, ◌≤◌, length, count_by, true, false, OnOk, OnErr, IfOk, [], ◌∷◌};
ghost use Rattle.genie_base.specs.Causes.{HasCause};
ghost use Rattle.genie_frame.specs.FrameTable.{counts_at, is_free};
ghost use Rattle.genie_object.specs.Pages.{is_there};
ghost use Rattle.genie_object.specs.Objects.{object_at};
ghost use Rattle.genie_object.specs.Memory.{seen_with};
ghost use Rattle.genie_object.specs.Sound.{IsSound, IsSized};
ghost use Rattle.genie_object.specs.Keeping.{IsReady};
ghost use Rattle.genie_object.specs.Steps.{metered};
ghost use Rattle.genie_object.specs.Touching.{KeepsLoans, is_in_range};
ghost use Rattle.genie_object.specs.Costs.{AreBelow, Spends, CostsNoMore, write_work, writes_work};
ghost use Rattle.genie_plan.specs.Loans.{output_loan, output_loans};
ghost use Rattle.genie_plan.specs.Loans as kind;
ghost use Rattle.genie_plan.specs.Landings.{AreOfEntries};
ghost use Rattle.genie_plan.specs.Plans.{CanSend, output_frames};
ghost use Rattle.genie_tcow.specs.Lending.{lent_more, HasLent, HasLentWeak, IsTakenBack};
ghost use Rattle.genie_tcow.specs.Ranges.{first_page, pages_of, is_of_range, CanPrepare, IsPlanOf, SendsRange};

use crate::back::take_back;
use arrayvec::ArrayVec;
use genie_base::ObjectId;
use genie_fault::resolve_write;
use genie_frame::{FrameId, OutLoan};
use genie_object::{EntryRef, Memory, Range};
use genie_plan::{OutPlan, page_count};
use genie_store::{Store, StoreFault};

// Lends the frame of an entry's own page.
#[tactic(auto, using(crate::proofs::Owned::ready_there))]
fn lend_ready(memory: &mut Memory, at: EntryRef, frame: FrameId) -> OutLoan
    requires sound { IsSound memory.old }
    requires ready { IsReady memory.old at.object.0 at.index frame }
    requires room { (counts_at memory.old.frames frame.0).weak < 2 ^ 32 - 1 }
    ensures loan { result ≡ record { frame = frame; strong = false } }
    ensures lent { memory.new ≡ lent_more memory.old kind.Weak frame.0 }
{
    memory.frames.lend_weak(frame)
}

// Lends one page of an object, which is the entry's own then.
fn lend_page<S: Store>(
    memory: &mut Memory,
    store: &mut S,
    at: EntryRef,
    from: u32,
    n: u32,
) -> Result<OutLoan, StoreFault>
    requires sound { IsSound memory.old }
    requires sized { IsSized memory.old (S.view store.old) }
    requires there { at.index < length (object_at memory.old.objects at.object.0) }
    requires within { (from ≤ at.index) × (at.index < from + n) }
    requires free { 0 < count_by is_free memory.old.frames.owners }
    requires room { count_by is_there memory.old.pages.pages < memory.old.pages.most }
    requires meters { AreBelow (2 ^ 64 - 2 ^ 20) memory.old.frames.meters }
    requires few { (f : ℕ) → (counts_at memory.old.frames f).weak < 2 ^ 32 - 1 }
    ensures sized { IsSized memory.new (S.view store.new) }
    ensures cause { HasCause (S.view store.old).faults (S.view store.new).faults result }
    ensures lent { IfOk result (λ loan. HasLentWeak (is_in_range at.object.0 from n) at.object.0 at.index (output_loan loan ∷ []) memory.old memory.new (S.view store.old) (S.view store.new)) }
    ensures failed { OnErr result (memory.new ≡ metered memory.old memory.new.frames.meters) }
    ensures seen { OnErr result (seen_with memory.new (S.view store.new) ≡ seen_with memory.old (S.view store.old)) }
    ensures spends { Spends (write_work memory.old at.object.0 at.index) 1 0 1 memory.old.frames.meters memory.new.frames.meters }
{
    match resolve_write(memory, store, at) {
        Ok(frame) => Ok(lend_ready(memory, at, frame)),
        Err(fault) => Err(fault),
    }
}

// Lends `n` pages of an object, from page `first` on, as far as the store doesn't fail.
fn lend_pages<S: Store>(
    memory: &mut Memory,
    store: &mut S,
    object: ObjectId,
    first: u32,
    n: u32,
    loans: &mut ArrayVec<OutLoan, 65>,
) -> Result<(), StoreFault>
    requires sound { IsSound memory.old }
    requires sized { IsSized memory.old (S.view store.old) }
    requires within { first + n ≤ length (object_at memory.old.objects object.0) }
    requires small { first + n < 2 ^ 32 }
    requires most { n ≤ 65 }
    requires free { n ≤ count_by is_free memory.old.frames.owners }
    requires room { count_by is_there memory.old.pages.pages + n ≤ memory.old.pages.most }
    requires meters { AreBelow (2 ^ 64 - 2 ^ 21) memory.old.frames.meters }
    requires few { (f : ℕ) → (counts_at memory.old.frames f).weak < 2 ^ 31 }
    requires empty { loans.old.items ≡ [] }
    ensures lent { HasLentWeak (is_in_range object.0 first n) object.0 first (output_loans loans.new.items) memory.old memory.new (S.view store.old) (S.view store.new) }
    ensures number { OnOk result (length (output_loans loans.new.items) ≡ n) }
    ensures spends { Spends (writes_work memory.old object.0 first n) n 0 n memory.old.frames.meters memory.new.frames.meters }
    ensures sized { IsSized memory.new (S.view store.new) }
    ensures cause { HasCause (S.view store.old).faults (S.view store.new).faults result }
{
    'each: for i in 0..n {
        let at = EntryRef {
            object,
            index: first + i,
        };
        match lend_page(memory, store, at, first, n) {
            Ok(loan) => loans.push(loan),
            Err(fault) => return Err(fault),
        }
    }
    Ok(())
}

/// Lends the frames of a range's pages to a device that sends the pages as they are then: what the process writes before
/// a byte is sent is sent. Each page is brought in, and is made the entry's own where it is shared or strongly lent.
/// After a fault of the store every loan is taken back.
pub fn prepare_weak<S: Store>(
    memory: &mut Memory,
    store: &mut S,
    range: &Range,
) -> Result<OutPlan, StoreFault>
    requires sound { IsSound memory.old }
    requires sized { IsSized memory.old (S.view store.old) }
    requires range { CanPrepare memory.old range.now }
    ensures sound { IsSound memory.new }
    ensures sized { IsSized memory.new (S.view store.new) }
    ensures seen { seen_with memory.new (S.view store.new) ≡ seen_with memory.old (S.view store.old) }
    ensures cause { HasCause (S.view store.old).faults (S.view store.new).faults result }
    ensures keeps { KeepsLoans memory.old memory.new }

    // The plan may be sent, and is on the frames of the range's pages, so that its bytes are the range's from then on.
    ensures plan { IfOk result (λ plan. IsPlanOf memory.old.frames.page range.now plan.loans.items plan.first plan.len) }
    ensures ready { IfOk result (λ plan. CanSend memory.new.frames plan.loans.items plan.first plan.len) }
    ensures frames { IfOk result (λ plan. AreOfEntries memory.new range.now.object.0 (first_page memory.old.frames.page range.now) (output_frames plan.loans.items)) }
    ensures bytes { IfOk result (λ plan. SendsRange memory.old memory.new (S.view store.old) range.now plan.loans.items plan.first plan.len) }

    // Its loans are weak, and beside them nothing has changed that a device holds.
    ensures lent { IfOk result (λ plan. HasLentWeak (is_of_range memory.old.frames.page range.now) range.now.object.0 (first_page memory.old.frames.page range.now) (output_loans plan.loans.items) memory.old memory.new (S.view store.old) (S.view store.new)) }

    // After a fault each frame has the counts that it had.
    ensures failed { OnErr result (IsTakenBack (is_of_range memory.old.frames.page range.now) memory.old memory.new (S.view store.old) (S.view store.new)) }

    // Bytes are moved for untouched, shared and strongly lent pages alone.
    ensures spends { Spends (writes_work memory.old range.now.object.0 (first_page memory.old.frames.page range.now) (pages_of memory.old.frames.page range.now)) (pages_of memory.old.frames.page range.now) 0 (pages_of memory.old.frames.page range.now) memory.old.frames.meters memory.new.frames.meters }
{
    let page = memory.frames.page();
    let first = range.off / page;
    let count = page_count(page, range.off, range.len);
    let mut loans = ArrayVec::new();
    match lend_pages(memory, store, range.object, first, count, &mut loans) {
        Ok(()) => Ok(OutPlan {
            loans,
            first: range.off % page,
            len: range.len,
        }),
        Err(fault) => {
            take_back(memory, loans.as_slice());
            Err(fault)
        }
    }
}
