//! A range is copied into frames of the transfer's own, and these are lent.
ghost use Rattle.std.specs.Prelude.{◌≡◌, ℕ, ◌+◌, ◌-◌, ◌*◌, ◌^◌, ◌<◌, ◌≤◌, length, count_by, true, false, OnOk, OnErr, IfOk, IfSome, Some, None, [], ◌∷◌};
ghost use Rattle.genie_base.specs.Bytes.{part};
ghost use Rattle.genie_base.specs.Causes.{HasCause};
ghost use Rattle.genie_frame.specs.FrameTable.{bytes_at, is_free};
ghost use Rattle.genie_object.specs.Pages.{page_at};
ghost use Rattle.genie_object.specs.Objects.{object_at, entry_at};
ghost use Rattle.genie_object.specs.Memory.{bytes_of, seen_with, place_bytes};
ghost use Rattle.genie_object.specs.Sound.{IsSound, IsSized};
ghost use Rattle.genie_object.specs.Steps.{metered};
ghost use Rattle.genie_object.specs.Costs.{AreBelow, Spends, place_of, load_work, slot_gets, read_work};
ghost use Rattle.genie_object.specs.declared.pages.PageId.{PageId};
ghost use Rattle.genie_fault.specs.Resolving.{IsRead, IsKnown};
ghost use Rattle.genie_plan.specs.Loans.{output_loan, output_loans};
ghost use Rattle.genie_plan.specs.Loans as kind;
ghost use Rattle.genie_plan.specs.Plans.{CanSend};
ghost use Rattle.genie_tcow.specs.Costs.{reads_work};
ghost use Rattle.genie_tcow.specs.Lending.{IsFilled, IsClaimed, HasLent, IsTakenBack, no_entry};
ghost use Rattle.genie_tcow.specs.Owning.{AreTransfers};
ghost use Rattle.genie_tcow.specs.Ranges.{first_page, pages_of, CanPrepare, IsPlanOf, SendsRange, HoldsParts, piece_of};

use crate::back::take_back;
use arrayvec::ArrayVec;
use genie_base::{ObjectId, TransferId};
use genie_fault::load::take_loaded;
use genie_frame::{FrameId, OutLoan, Owner};
use genie_object::{EntryRef, Memory, Place, Range};
use genie_plan::{OutPlan, page_count};
use genie_store::{Store, StoreFault};

// How many of the bytes that are left lie in a page from a place on.
fn piece(page: u32, off: u32, left: u32) -> u32
    requires { off ≤ page }
    ensures { result ≡ piece_of page off left }
{
    if left < page - off { left } else { page - off }
}

// Where the entry's bytes are.
fn place_of(memory: &Memory, at: EntryRef) -> Place
    requires there { at.index < length (object_at memory.now.objects at.object.0) }
    requires pages { (p : PageId) → (entry_at memory.now.objects at.object.0 at.index).page ≡ Some p → 0 < (page_at memory.now.pages.pages p.0).shares }
    ensures { result ≡ place_of memory.now at.object.0 at.index }
{
    let entry = memory.objects.entry(at);
    match entry.page {
        Some(page) => memory.pages.place(page),
        None => Place::Zero,
    }
}

// Copies bytes of a frame to the same place of a frame of the transfer's own.
fn copy_frame(memory: &mut Memory, id: TransferId, from: FrameId, off: u32, n: u32) -> FrameId
    requires sound { IsSound memory.old }
    requires there { from.0 < length memory.old.frames.owners }
    requires range { off + n ≤ memory.old.frames.page }
    requires free { 0 < count_by is_free memory.old.frames.owners }
    requires meters { AreBelow (2 ^ 64 - 2 ^ 20) memory.old.frames.meters }
    ensures filled { IsFilled memory.old memory.new id.0 result.0 }
    ensures bytes { part off n (bytes_at memory.new.frames result.0) ≡ part off n (bytes_at memory.old.frames from.0) }
    ensures spends { Spends n 0 0 1 memory.old.frames.meters memory.new.frames.meters }
{
    let to = memory.frames.take(Owner::System(id.0));
    memory.frames.copy(from, off, to, off, n);
    to
}

// Loads a frame of the transfer's own with the bytes of a place.
fn load_frame<S: Store>(
    memory: &mut Memory,
    store: &mut S,
    id: TransferId,
    place: Place,
) -> Result<FrameId, StoreFault>
    requires sound { IsSound memory.old }
    requires known { IsKnown memory.old place }
    requires sized { IsSized memory.old (S.view store.old) }
    requires free { 0 < count_by is_free memory.old.frames.owners }
    requires meters { AreBelow (2 ^ 64 - 2 ^ 20) memory.old.frames.meters }
    ensures filled { IfOk result (λ f. IsFilled memory.old memory.new id.0 f.0) }
    ensures bytes { IfOk result (λ f. IfSome (S.view store.old).slots (λ slots. bytes_at memory.new.frames f.0 ≡ place_bytes memory.old.frames slots place)) }
    ensures unchanged { OnErr result (memory.new ≡ metered memory.old memory.new.frames.meters) }
    ensures read { IsRead (S.view store.old) (S.view store.new) result }
    ensures spends { Spends (load_work memory.old.frames.page place) (slot_gets place) 0 1 memory.old.frames.meters memory.new.frames.meters }
{
    match take_loaded(memory, store, place) {
        Ok(f) => {
            memory.frames.give(f, Owner::System(id.0));
            Ok(f)
        }
        Err(fault) => Err(fault),
    }
}

// Fills a frame of the transfer's own with the bytes of an entry from a place on, as many as are left or lie in the page.
fn fill_frame<S: Store>(
    memory: &mut Memory,
    store: &mut S,
    id: TransferId,
    at: EntryRef,
    off: u32,
    left: u32,
) -> Result<FrameId, StoreFault>
    requires sound { IsSound memory.old }
    requires sized { IsSized memory.old (S.view store.old) }
    requires there { at.index < length (object_at memory.old.objects at.object.0) }
    requires inside { off ≤ memory.old.frames.page }
    requires free { 0 < count_by is_free memory.old.frames.owners }
    requires meters { AreBelow (2 ^ 64 - 2 ^ 20) memory.old.frames.meters }
    ensures filled { IfOk result (λ f. IsFilled memory.old memory.new id.0 f.0) }
    ensures bytes { IfOk result (λ f. IfSome (bytes_of memory.old (S.view store.old) at.object.0 at.index) (λ b. part off left (bytes_at memory.new.frames f.0) ≡ part off left b)) }
    ensures unchanged { OnErr result (memory.new ≡ metered memory.old memory.new.frames.meters) }
    ensures read { IsRead (S.view store.old) (S.view store.new) result }
    ensures spends { Spends (piece_of memory.old.frames.page off left + read_work memory.old at.object.0 at.index) 1 0 1 memory.old.frames.meters memory.new.frames.meters }
{
    let n = piece(memory.frames.page(), off, left);
    match place_of(memory, at) {
        Place::Frame(from) => Ok(copy_frame(memory, id, from, off, n)),
        Place::Zero => load_frame(memory, store, id, Place::Zero),
        Place::Slot(slot) => load_frame(memory, store, id, Place::Slot(slot)),
    }
}

// Lends a copy of the bytes of one entry.
fn copy_page<S: Store>(
    memory: &mut Memory,
    store: &mut S,
    id: TransferId,
    at: EntryRef,
    off: u32,
    left: u32,
) -> Result<OutLoan, StoreFault>
    requires sound { IsSound memory.old }
    requires sized { IsSized memory.old (S.view store.old) }
    requires there { at.index < length (object_at memory.old.objects at.object.0) }
    requires inside { off ≤ memory.old.frames.page }
    requires free { 0 < count_by is_free memory.old.frames.owners }
    requires meters { AreBelow (2 ^ 64 - 2 ^ 20) memory.old.frames.meters }
    ensures strong { IfOk result (λ loan. loan.strong ≡ true) }
    ensures claimed { IfOk result (λ loan. IsClaimed memory.old memory.new id.0 loan.frame.0 (bytes_at memory.new.frames loan.frame.0)) }
    ensures bytes { IfOk result (λ loan. IfSome (bytes_of memory.old (S.view store.old) at.object.0 at.index) (λ b. part off left (bytes_at memory.new.frames loan.frame.0) ≡ part off left b)) }
    ensures unchanged { OnErr result (memory.new ≡ metered memory.old memory.new.frames.meters) }
    ensures read { IsRead (S.view store.old) (S.view store.new) result }
    ensures spends { Spends (piece_of memory.old.frames.page off left + read_work memory.old at.object.0 at.index) 1 0 1 memory.old.frames.meters memory.new.frames.meters }
{
    match fill_frame(memory, store, id, at, off, left) {
        Ok(f) => Ok(memory.frames.lend_strong(f)),
        Err(fault) => Err(fault),
    }
}

// Lends copies of `len` bytes from place `off` of page `first` of an object on, as far as the store doesn't fail.
fn copy_pages<S: Store>(
    memory: &mut Memory,
    store: &mut S,
    id: TransferId,
    object: ObjectId,
    first: u32,
    n: u32,
    place: u32,
    len: u32,
    loans: &mut ArrayVec<OutLoan, 65>,
) -> Result<(), StoreFault>
    requires sound { IsSound memory.old }
    requires sized { IsSized memory.old (S.view store.old) }
    requires within { first + n ≤ length (object_at memory.old.objects object.0) }
    requires small { first + n < 2 ^ 32 }
    requires most { n ≤ 65 }
    requires inside { place < memory.old.frames.page }
    requires fits { len ≤ memory.old.frames.page * n }
    requires free { n ≤ count_by is_free memory.old.frames.owners }
    requires meters { AreBelow (2 ^ 64 - 2 ^ 21) memory.old.frames.meters }
    requires empty { loans.old.items ≡ [] }
    ensures lent { HasLent kind.Strong id.0 no_entry (output_loans loans.new.items) memory.old memory.new (S.view store.old) (S.view store.new) }
    ensures system { AreTransfers id.0 (output_loans loans.new.items) memory.new.frames }
    ensures parts { HoldsParts memory.old (S.view store.old) object.0 first place len (output_loans loans.new.items) memory.new.frames }
    ensures only { memory.new ≡ record memory.old { frames = memory.new.frames } }
    ensures number { OnOk result (length (output_loans loans.new.items) ≡ n) }
    ensures spends { Spends (len + reads_work memory.old object.0 first n) n 0 n memory.old.frames.meters memory.new.frames.meters }
    ensures read { IsRead (S.view store.old) (S.view store.new) result }
{
    let page = memory.frames.page();
    let mut off = place;
    let mut left = len;
    'each: for i in 0..n {
        let at = EntryRef {
            object,
            index: first + i,
        };
        match copy_page(memory, store, id, at, off, left) {
            Ok(loan) => loans.push(loan),
            Err(fault) => return Err(fault),
        }
        left -= piece(page, off, left);
        off = 0;
    }
    Ok(())
}

/// Copies the bytes of a range into frames of transfer `id`, and lends these to a device that sends them. The entries
/// and their pages stay as they are: a page that isn't in a frame isn't brought in for it. After a fault of the store
/// every frame is given up.
pub fn prepare_copy<S: Store>(
    memory: &mut Memory,
    store: &mut S,
    id: TransferId,
    range: &Range,
) -> Result<OutPlan, StoreFault>
    requires sound { IsSound memory.old }
    requires sized { IsSized memory.old (S.view store.old) }
    requires range { CanPrepare memory.old range.now }
    ensures sound { IsSound memory.new }
    ensures sized { IsSized memory.new (S.view store.new) }
    ensures cause { HasCause (S.view store.old).faults (S.view store.new).faults result }
    ensures only { memory.new ≡ record memory.old { frames = memory.new.frames } }

    // The plan may be sent, and has the bytes that the range had.
    ensures plan { IfOk result (λ plan. IsPlanOf memory.old.frames.page range.now plan.loans.items plan.first plan.len) }
    ensures ready { IfOk result (λ plan. CanSend memory.new.frames plan.loans.items plan.first plan.len) }
    ensures bytes { IfOk result (λ plan. SendsRange memory.old memory.new (S.view store.old) range.now plan.loans.items plan.first plan.len) }

    // Its frames are the transfer's own.
    ensures system { IfOk result (λ plan. AreTransfers id.0 (output_loans plan.loans.items) memory.new.frames) }

    // Its loans are strong, and beside them nothing has changed that is seen or that a device holds.
    ensures lent { IfOk result (λ plan. HasLent kind.Strong id.0 no_entry (output_loans plan.loans.items) memory.old memory.new (S.view store.old) (S.view store.new)) }

    // After a fault each frame has the counts that it had.
    ensures failed { OnErr result (IsTakenBack no_entry memory.old memory.new (S.view store.old) (S.view store.new)) }

    // The range's bytes are copied, and an untouched page is zeroed.
    ensures spends { Spends (range.now.len + reads_work memory.old range.now.object.0 (first_page memory.old.frames.page range.now) (pages_of memory.old.frames.page range.now)) (pages_of memory.old.frames.page range.now) 0 (pages_of memory.old.frames.page range.now) memory.old.frames.meters memory.new.frames.meters }
{
    let page = memory.frames.page();
    let first = range.off / page;
    let place = range.off % page;
    let count = page_count(page, range.off, range.len);
    let mut loans = ArrayVec::new();
    match copy_pages(
        memory,
        store,
        id,
        range.object,
        first,
        count,
        place,
        range.len,
        &mut loans,
    ) {
        Ok(()) => Ok(OutPlan {
            loans,
            first: place,
            len: range.len,
        }),
        Err(fault) => {
            take_back(memory, loans.as_slice());
            Err(fault)
        }
    }
}
