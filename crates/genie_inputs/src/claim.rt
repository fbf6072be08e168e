//! The buffer of an input by emulated move, in the frames of a region that was hidden.
ghost use Rattle.std.specs.Prelude.{◌≡◌, ◌+◌, ◌^◌, ◌<◌, ◌≤◌, [], None, Some, IfSome, true, false, length, count_by};
ghost use Rattle.genie_base.specs.Counts.{span};
ghost use Rattle.genie_frame.specs.declared.frame.Owner.TheVariants.{System};
ghost use Rattle.genie_frame.specs.FrameTable.{owner_at, counts_at, is_free, is_lent};
ghost use Rattle.genie_object.specs.Objects.{object_at, entry_at};
ghost use Rattle.genie_object.specs.Pages.{page_at};
ghost use Rattle.genie_object.specs.Sound.{IsCached, IsSound};
ghost use Rattle.genie_plan.specs.Buffers.{taken_lent};
ghost use Rattle.genie_kernel.specs.declared.transfer.Loans.TheVariants.{Inward};
ghost use Rattle.genie_inputs.specs.Claiming.{claimed, FindsUnlent, IsUnlent, LendsEntry, LendsObject};

use arrayvec::ArrayVec;
use genie_base::{ObjectId, TransferId};
use genie_fault::leave::empty_entry;
use genie_frame::{FrameId, Frames, InLoan, Owner};
use genie_object::{Entry, EntryRef, Memory, PageId, Place};
use genie_plan::InPlan;

const EMPTY: Entry = Entry {
    page: None,
    readable: false,
    writable: false,
};

// A page, and its frame on which no loan is out.
#[derive(Clone, Copy, Debug, PartialEq, Eq)]
pub(crate) struct Unlent {
    pub page: PageId,
    pub frame: FrameId,
}

// The frame of a page, where no loan is out on it.
fn unlent_frame(memory: &Memory, page: PageId) -> Option<FrameId>
    requires sound { IsSound memory.now }
    requires page { 0 < (page_at memory.now.pages.pages page.0).shares }
    ensures place { IfSome result (λ f. (page_at memory.now.pages.pages page.0).place ≡ Place.Frame f) }
    ensures unlent { IfSome result (λ f. is_lent (counts_at memory.now.frames f.0) ≡ false) }
    ensures lent { result ≡ None → (f : FrameId) → (page_at memory.now.pages.pages page.0).place ≡ Place.Frame f → is_lent (counts_at memory.now.frames f.0) ≡ true }
{
    match memory.pages.place(page) {
        Place::Frame(f) => {
            let counts = memory.frames.counts(f);
            if counts.is_lent() { None } else { Some(f) }
        }
        Place::Zero => None,
        Place::Slot(_) => None,
    }
}

// The page of an entry and its frame, where it is in one on which no loan is out.
fn unlent_page(memory: &Memory, at: EntryRef) -> Option<Unlent>
    requires sound { IsSound memory.now }
    requires there { at.index < length (object_at memory.now.objects at.object.0) }
    ensures { FindsUnlent memory.now at.object.0 at.index result }
{
    let entry = memory.objects.entry(at);
    let Some(page) = entry.page else {
        return None;
    };
    match unlent_frame(memory, page) {
        Some(frame) => Some(Unlent { page, frame }),
        None => None,
    }
}

// Takes the page of an entry away, which is its own, and lends its frame, which is the transfer's then.
fn claim(memory: &mut Memory, at: EntryRef, unlent: Unlent, id: TransferId) -> InLoan
    requires sound { IsSound memory.old }
    requires found { IsUnlent memory.old at.object.0 at.index unlent }
    requires alone { (page_at memory.old.pages.pages unlent.page.0).shares ≡ 1 }
    ensures loan { result ≡ record { frame = unlent.frame } }
    ensures claimed { memory.new ≡ claimed memory.old at.object.0 at.index unlent id.0 }
{
    memory.frames.give(unlent.frame, Owner::System(id.0));
    memory.objects.replace(at, EMPTY);
    memory.pages.leave(unlent.page);
    memory.frames.lend_in(unlent.frame)
}

// Takes a free frame for the transfer and lends it.
#[tactic(auto, using(genie_plan::specs::Lemmas::Fresh::fresh_input, genie_plan::specs::Lemmas::Fresh::fresh_strong))]
fn lend_free(frames: &mut Frames, id: TransferId) -> InLoan
    requires free { 0 < count_by is_free frames.old.owners }
    requires meter { frames.old.meters.taken + 1 < 2 ^ 64 }
    ensures there { result.frame.0 < length frames.old.owners }
    ensures was_free { owner_at frames.old result.frame.0 ≡ Owner.Free }
    ensures frames { frames.new ≡ taken_lent frames.old result.frame.0 (System id.0) }
{
    frames.len();
    let frame = frames.take(Owner::System(id.0));
    frames.lend_in(frame)
}

// Empties an entry and lends a frame to the transfer: the one that the entry's page had, or another one where a loan is out
// on that.
fn lend_entry(memory: &mut Memory, at: EntryRef, id: TransferId) -> InLoan
    requires sound { IsSound memory.old }
    requires there { at.index < length (object_at memory.old.objects at.object.0) }
    requires own { (p : PageId) → (entry_at memory.old.objects at.object.0 at.index).page ≡ Some p → (page_at memory.old.pages.pages p.0).shares ≡ 1 }
    requires free { 0 < count_by is_free memory.old.frames.owners }
    requires meter { memory.old.frames.meters.taken + 1 < 2 ^ 64 }
    ensures { LendsEntry id.0 at.object.0 at.index memory.old memory.new result.frame.0 }
{
    match unlent_page(memory, at) {
        Some(unlent) => claim(memory, at, unlent, id),
        None => {
            empty_entry(memory, at);
            lend_free(&mut memory.frames, id)
        }
    }
}

// Takes an object away and lends a buffer of as many pages in its place. Each frame of the object's pages is one of the
// buffer's, unless a loan is out on it.
pub(crate) fn lend_object(memory: &mut Memory, object: ObjectId, id: TransferId, len: u32) -> InPlan
    requires sound { IsSound memory.old }
    requires cached { IsCached memory.old object.0 }
    requires pages { length (object_at memory.old.objects object.0) ≡ span memory.old.frames.page 0 len }
    requires free { span memory.old.frames.page 0 len ≤ count_by is_free memory.old.frames.owners }
    requires meter { memory.old.frames.meters.taken + 65 < 2 ^ 64 }
    ensures { LendsObject id.0 len object.0 memory.old memory.new (Inward result) }
{
    let pages = memory.objects.pages(object);
    let mut loans = ArrayVec::new();
    'entries: for index in 0..pages {
        memory.frames.len();
        loans.push(lend_entry(memory, EntryRef { object, index }, id));
    }
    memory.objects.remove(object);
    memory.frames.len();
    InPlan {
        loans,
        first: 0,
        len,
    }
}
