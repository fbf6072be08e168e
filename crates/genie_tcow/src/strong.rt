//! Transient copy-on-write: the pages of a range are lent to a device as they are at the call.
ghost use Rattle.std.specs.Prelude.{◌≡◌, ℕ, ◌+◌, ◌-◌, ◌^◌, ◌<◌, ◌≤◌, length, count_by, Some, true, false, OnOk, OnErr, IfOk, [], ◌∷◌, if◌then◌else◌};
ghost use Rattle.genie_base.specs.Causes.{HasCause};
ghost use Rattle.genie_frame.specs.FrameTable.{owner_at, counts_at, bytes_at, is_free, is_held};
ghost use Rattle.genie_object.specs.Pages.{is_there};
ghost use Rattle.genie_object.specs.Objects.{object_at};
ghost use Rattle.genie_object.specs.Memory.{entry_frame, seen_with};
ghost use Rattle.genie_object.specs.Sound.{IsSound, IsSized};
ghost use Rattle.genie_object.specs.Steps.{metered, granted};
ghost use Rattle.genie_object.specs.Touching.{is_in_range};
ghost use Rattle.genie_object.specs.Costs.{AreBelow, Spends};
ghost use Rattle.genie_plan.specs.Loans.{output_loan, output_loans};
ghost use Rattle.genie_plan.specs.Loans as kind;
ghost use Rattle.genie_plan.specs.Plans.{CanSend};
ghost use Rattle.genie_tcow.specs.Costs.{send_work, sends_work, OthersNoDearer};
ghost use Rattle.genie_tcow.specs.Lending.{IsBroughtFor, lent_more, IsClaimed, IsOwn, HasLent, IsTakenBack};
ghost use Rattle.genie_tcow.specs.Owning.{AreOwnFrames, KeepsOthers};
ghost use Rattle.genie_tcow.specs.Ranges.{first_page, pages_of, is_of_range, CanPrepare, IsPlanOf, SendsRange, HoldsEntries};

use crate::back::take_back;
use arrayvec::ArrayVec;
use genie_base::{ObjectId, TransferId};
use genie_fault::resolve_read;
use genie_fault::settle::grant;
use genie_frame::{FrameId, OutLoan, Owner};
use genie_object::{EntryRef, Memory, Range};
use genie_plan::{OutPlan, page_count};
use genie_store::{Store, StoreFault};

// Lends the frame of an entry's page, and takes the permission to write away.
#[tactic(auto, using(crate::proofs::Owned::framed_there, crate::proofs::Owned::framed_owned))]
fn lend_own(memory: &mut Memory, at: EntryRef, frame: FrameId) -> OutLoan
    requires sound { IsSound memory.old }
    requires there { at.index < length (object_at memory.old.objects at.object.0) }
    requires framed { entry_frame memory.old at.object.0 at.index ≡ Some frame.0 }
    requires unheld { is_held (counts_at memory.old.frames frame.0) ≡ false }
    requires room { (counts_at memory.old.frames frame.0).strong < 2 ^ 32 - 1 }
    ensures loan { result ≡ record { frame = frame; strong = true } }
    ensures lent { memory.new ≡ lent_more (granted memory.old at.object.0 at.index false) kind.Strong frame.0 }
{
    grant(memory, at, false);
    memory.frames.lend_strong(frame)
}

// Lends a copy of a frame, in a frame of the transfer's own.
fn lend_copy(memory: &mut Memory, id: TransferId, frame: FrameId) -> OutLoan
    requires sound { IsSound memory.old }
    requires there { frame.0 < length memory.old.frames.owners }
    requires free { 0 < count_by is_free memory.old.frames.owners }
    requires taken { memory.old.frames.meters.taken + 1 < 2 ^ 64 }
    requires copied { memory.old.frames.meters.copied + memory.old.frames.page < 2 ^ 64 }
    ensures strong { result.strong ≡ true }
    ensures claimed { IsClaimed memory.old memory.new id.0 result.frame.0 (bytes_at memory.old.frames frame.0) }
    ensures meters { memory.new.frames.meters ≡ record memory.old.frames.meters { taken = memory.old.frames.meters.taken + 1; copied = memory.old.frames.meters.copied + memory.old.frames.page } }
{
    let page = memory.frames.page();
    let copy = memory.frames.take(Owner::System(id.0));
    memory.frames.copy(frame, 0, copy, 0, page);
    memory.frames.lend_strong(copy)
}

// Lends the frame of an entry's page, or a copy of it where a device holds it.
#[tactic(auto, using(crate::proofs::Owned::framed_there))]
fn lend_frame(memory: &mut Memory, id: TransferId, at: EntryRef, frame: FrameId) -> OutLoan
    requires sound { IsSound memory.old }
    requires there { at.index < length (object_at memory.old.objects at.object.0) }
    requires framed { entry_frame memory.old at.object.0 at.index ≡ Some frame.0 }
    requires room { (counts_at memory.old.frames frame.0).strong < 2 ^ 32 - 1 }
    requires free { is_held (counts_at memory.old.frames frame.0) ≡ true → 0 < count_by is_free memory.old.frames.owners }
    requires taken { memory.old.frames.meters.taken + 1 < 2 ^ 64 }
    requires copied { memory.old.frames.meters.copied + memory.old.frames.page < 2 ^ 64 }
    ensures strong { result.strong ≡ true }
    ensures own { is_held (counts_at memory.old.frames frame.0) ≡ false → IsOwn memory.old memory.new at.object.0 at.index frame.0 result.frame.0 }
    ensures claimed { is_held (counts_at memory.old.frames frame.0) ≡ true → IsClaimed memory.old memory.new id.0 result.frame.0 (bytes_at memory.old.frames frame.0) }
    ensures spends { Spends (if is_held (counts_at memory.old.frames frame.0) then memory.old.frames.page else 0) 0 0 (if is_held (counts_at memory.old.frames frame.0) then 1 else 0) memory.old.frames.meters memory.new.frames.meters }
{
    let counts = memory.frames.counts(frame);
    if counts.weak > 0 || counts.input > 0 {
        lend_copy(memory, id, frame)
    } else {
        lend_own(memory, at, frame)
    }
}

// Brings the page of an entry into a frame.
fn bring<S: Store>(memory: &mut Memory, store: &mut S, at: EntryRef) -> Result<FrameId, StoreFault>
    requires sound { IsSound memory.old }
    requires sized { IsSized memory.old (S.view store.old) }
    requires there { at.index < length (object_at memory.old.objects at.object.0) }
    requires free { 0 < count_by is_free memory.old.frames.owners }
    requires room { count_by is_there memory.old.pages.pages < memory.old.pages.most }
    requires meters { AreBelow (2 ^ 64 - 2 ^ 20) memory.old.frames.meters }
    ensures sized { IsSized memory.new (S.view store.new) }
    ensures cause { HasCause (S.view store.old).faults (S.view store.new).faults result }
    ensures brought { IfOk result (λ f. IsBroughtFor memory.old memory.new (S.view store.old) (S.view store.new) at.object.0 at.index f.0) }
    ensures failed { OnErr result (memory.new ≡ metered memory.old memory.new.frames.meters) }
    ensures seen { OnErr result (seen_with memory.new (S.view store.new) ≡ seen_with memory.old (S.view store.old)) }
    ensures costs { OnErr result (OthersNoDearer at.object.0 at.index memory.old memory.new) }
    ensures spends { OnErr result (Spends (send_work memory.old at.object.0 at.index) 1 0 1 memory.old.frames.meters memory.new.frames.meters) }
    ensures meters { OnOk result (memory.new.frames.meters.copied + memory.new.frames.page < 2 ^ 64) }
    ensures taken { OnOk result (memory.new.frames.meters.taken + 1 < 2 ^ 64) }
{
    match resolve_read(memory, store, at) {
        Ok(frame) => Ok(frame),
        Err(fault) => Err(fault),
    }
}

// Lends one page of an object, as it is now.
fn lend_page<S: Store>(
    memory: &mut Memory,
    store: &mut S,
    id: TransferId,
    at: EntryRef,
    from: u32,
    n: u32,
) -> Result<OutLoan, StoreFault>
    requires sound { IsSound memory.old }
    requires sized { IsSized memory.old (S.view store.old) }
    requires there { at.index < length (object_at memory.old.objects at.object.0) }
    requires within { (from ≤ at.index) × (at.index < from + n) }
    requires free { 0 < count_by is_free memory.old.frames.owners }
    requires room { count_by is_there memory.old.pages.pages < memory.old.pages.most }
    requires meters { AreBelow (2 ^ 64 - 2 ^ 20) memory.old.frames.meters }
    requires few { (f : ℕ) → (counts_at memory.old.frames f).strong < 2 ^ 32 - 1 }
    ensures sized { IsSized memory.new (S.view store.new) }
    ensures cause { HasCause (S.view store.old).faults (S.view store.new).faults result }
    ensures lent { IfOk result (λ loan. HasLent kind.Strong id.0 (is_in_range at.object.0 from n) (output_loan loan ∷ []) memory.old memory.new (S.view store.old) (S.view store.new)) }
    ensures bytes { IfOk result (λ loan. HoldsEntries memory.old (S.view store.old) at.object.0 at.index (output_loan loan ∷ []) memory.new.frames) }
    ensures failed { OnErr result (memory.new ≡ metered memory.old memory.new.frames.meters) }
    ensures seen { OnErr result (seen_with memory.new (S.view store.new) ≡ seen_with memory.old (S.view store.old)) }
    ensures own { IfOk result (λ loan. AreOwnFrames memory.old memory.new at.object.0 at.index (output_loan loan ∷ [])) }
    ensures others { KeepsOthers at.object.0 at.index memory.old memory.new }
    ensures owners { (f : ℕ) → is_free (owner_at memory.old.frames f) ≡ false → owner_at memory.new.frames f ≡ owner_at memory.old.frames f }
    ensures costs { OthersNoDearer at.object.0 at.index memory.old memory.new }
    ensures spends { Spends (send_work memory.old at.object.0 at.index) 1 0 1 memory.old.frames.meters memory.new.frames.meters }
{
    match bring(memory, store, at) {
        Ok(frame) => Ok(lend_frame(memory, id, at, frame)),
        Err(fault) => Err(fault),
    }
}

// Lends `n` pages of an object, from page `first` on, as far as the store doesn't fail.
fn lend_pages<S: Store>(
    memory: &mut Memory,
    store: &mut S,
    id: TransferId,
    object: ObjectId,
    first: u32,
    n: u32,
    loans: &mut ArrayVec<OutLoan, 65>,
) -> Result<(), StoreFault>
    requires sound { IsSound memory.old }
    requires sized { IsSized memory.old (S.view store.old) }
    requires within { first + n ≤ length (object_at memory.old.objects object.0) }
    requires small { first + n < 2 ^ 32 }
    requires most { n ≤ 65 }
    requires free { n ≤ count_by is_free memory.old.frames.owners }
    requires room { count_by is_there memory.old.pages.pages + n ≤ memory.old.pages.most }
    requires meters { AreBelow (2 ^ 64 - 2 ^ 21) memory.old.frames.meters }
    requires few { (f : ℕ) → (counts_at memory.old.frames f).strong < 2 ^ 31 }
    requires empty { loans.old.items ≡ [] }
    ensures lent { HasLent kind.Strong id.0 (is_in_range object.0 first n) (output_loans loans.new.items) memory.old memory.new (S.view store.old) (S.view store.new) }
    ensures bytes { HoldsEntries memory.old (S.view store.old) object.0 first (output_loans loans.new.items) memory.new.frames }
    ensures own { OnOk result (AreOwnFrames memory.old memory.new object.0 first (output_loans loans.new.items)) }
    ensures number { OnOk result (length (output_loans loans.new.items) ≡ n) }
    ensures spends { Spends (sends_work memory.old object.0 first n) n 0 n memory.old.frames.meters memory.new.frames.meters }
    ensures sized { IsSized memory.new (S.view store.new) }
    ensures cause { HasCause (S.view store.old).faults (S.view store.new).faults result }
{
    'each: for i in 0..n {
        let at = EntryRef {
            object,
            index: first + i,
        };
        match lend_page(memory, store, id, at, first, n) {
            Ok(loan) => loans.push(loan),
            Err(fault) => return Err(fault),
        }
    }
    Ok(())
}

/// Lends the pages of a range to a device that sends them as they are at the call.
///
/// This is transient copy-on-write (Brustoloni and Steenkiste, OSDI 1996). The frames of the range's pages are lent to
/// the device, and their entries lose the permission to write, so that nothing is copied as long as nobody writes. A
/// write meanwhile faults, finds the loan and gives the process a copy of the page in another frame; the lent frame
/// keeps the old bytes and is nobody's until the device is done. A write after that finds no loan, and goes on in place.
///
/// A page that isn't in a frame is brought in first. A page that a device writes or reads in place can't be kept from
/// changing: it is copied into a frame of transfer `id`, and that frame is lent. After a fault of the store every loan
/// is taken back.
pub fn prepare_strong<S: Store>(
    memory: &mut Memory,
    store: &mut S,
    id: TransferId,
    range: &Range,
) -> Result<OutPlan, StoreFault>
    requires sound { IsSound memory.old }
    requires sized { IsSized memory.old (S.view store.old) }
    requires range { CanPrepare memory.old range.now }
    ensures sound { IsSound memory.new }
    ensures sized { IsSized memory.new (S.view store.new) }
    ensures cause { HasCause (S.view store.old).faults (S.view store.new).faults result }

    // The plan may be sent, and has the bytes that the range had.
    ensures plan { IfOk result (λ plan. IsPlanOf memory.old.frames.page range.now plan.loans.items plan.first plan.len) }
    ensures ready { IfOk result (λ plan. CanSend memory.new.frames plan.loans.items plan.first plan.len) }
    ensures bytes { IfOk result (λ plan. SendsRange memory.old memory.new (S.view store.old) range.now plan.loans.items plan.first plan.len) }

    // A page that no device reads or writes in place is lent in its own frame.
    ensures own { IfOk result (λ plan. AreOwnFrames memory.old memory.new range.now.object.0 (first_page memory.old.frames.page range.now) (output_loans plan.loans.items)) }

    // Its loans are strong, and beside them nothing has changed that is seen or that a device holds.
    ensures lent { IfOk result (λ plan. HasLent kind.Strong id.0 (is_of_range memory.old.frames.page range.now) (output_loans plan.loans.items) memory.old memory.new (S.view store.old) (S.view store.new)) }

    // After a fault each frame has the counts that it had.
    ensures failed { OnErr result (IsTakenBack (is_of_range memory.old.frames.page range.now) memory.old memory.new (S.view store.old) (S.view store.new)) }

    // Bytes are moved for untouched and for weakly held pages alone.
    ensures spends { Spends (sends_work memory.old range.now.object.0 (first_page memory.old.frames.page range.now) (pages_of memory.old.frames.page range.now)) (pages_of memory.old.frames.page range.now) 0 (pages_of memory.old.frames.page range.now) memory.old.frames.meters memory.new.frames.meters }
{
    let page = memory.frames.page();
    let first = range.off / page;
    let count = page_count(page, range.off, range.len);
    let mut loans = ArrayVec::new();
    match lend_pages(memory, store, id, range.object, first, count, &mut loans) {
        Ok(()) => Ok(OutPlan {
            loans,
            first: range.off % page,
            len: range.len,
        }),
        Err(fault) => {
            take_back(memory, loans.as_slice());
            Err(fault)
        }
    }
}
