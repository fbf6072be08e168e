//! The steps that give an entry a page, a page a frame, and an entry permissions.
ghost use Rattle.std.specs.Prelude.{◌≡◌, ◌+◌, ◌<◌, ◌≤◌, ◌^◌, ℕ, length, count_by, IsTrue, true, false, Some};
ghost use Rattle.genie_frame.specs.FrameTable.{owner_at, counts_at, is_owned, is_lent};
ghost use Rattle.genie_store.specs.Slots.{slot_at};
ghost use Rattle.genie_object.specs.Objects.{object_at, entry_at};
ghost use Rattle.genie_object.specs.Pages.{page_at, is_there, no_page};
ghost use Rattle.genie_object.specs.Steps.{CanLeave, relocated, left_owners, left_slots, left_pages, renamed, granted};

use genie_frame::{FrameId, Owner};
use genie_object::{Entry, EntryRef, Memory, PageId, Place};

/// Gives up the place of a page.
pub fn leave_place(memory: &mut Memory, place: Place)
    requires frame { (f : FrameId) → place ≡ Place.Frame f → f.0 < length memory.old.frames.owners }
    requires owned { (f : FrameId) → place ≡ Place.Frame f → IsTrue (is_owned (owner_at memory.old.frames f.0)) }
    requires slot { (s : ℕ) → place ≡ Place.Slot s → slot_at memory.old.slots s ≡ true }
    ensures { memory.new ≡ record memory.old { frames = record (memory.old.frames) { owners = left_owners memory.old.frames.owners memory.old.frames.counts place }; slots = left_slots memory.old.slots place } }
{
    match place {
        Place::Zero => {}
        Place::Frame(f) => memory.frames.disown(f),
        Place::Slot(slot) => memory.slots.back(slot),
    }
}

/// Puts a page into a frame of the system.
pub fn settle(memory: &mut Memory, page: PageId, to: FrameId)
    requires page { 0 < (page_at memory.old.pages.pages page.0).shares }
    requires there { to.0 < length memory.old.frames.owners }
    requires owned { IsTrue (is_owned (owner_at memory.old.frames to.0)) }
    requires unlent { is_lent (counts_at memory.old.frames to.0) ≡ false }
    requires leaves { CanLeave memory.old (page_at memory.old.pages.pages page.0).place to.0 }
    ensures { memory.new ≡ relocated memory.old page.0 (Place.Frame to) }
{
    let from = memory.pages.place(page);
    memory.frames.give(to, Owner::Page(page.0));
    leave_place(memory, from);
    memory.pages.set_place(page, Place::Frame(to));
}

// Leaves a page that others share.
fn leave_shared(memory: &mut Memory, page: Option<PageId>)
    requires { (p : PageId) → page ≡ Some p → 1 < (page_at memory.old.pages.pages p.0).shares }
    ensures { memory.new ≡ record memory.old { pages = left_pages memory.old.pages page } }
{
    if let Some(page) = page {
        memory.pages.leave(page);
    }
}

/// Gives an entry an untouched page of its own. It leaves the page that it named to those that share it.
pub fn rename(memory: &mut Memory, at: EntryRef) -> PageId
    requires there { at.index < length (object_at memory.old.objects at.object.0) }
    requires many { (p : PageId) → (entry_at memory.old.objects at.object.0 at.index).page ≡ Some p → 1 < (page_at memory.old.pages.pages p.0).shares }
    requires room { count_by is_there memory.old.pages.pages < memory.old.pages.most }
    ensures there { result.0 < length memory.old.pages.pages }
    ensures spare { page_at memory.old.pages.pages result.0 ≡ no_page }
    ensures renamed { memory.new ≡ renamed memory.old at.object.0 at.index result.0 }
{
    let entry = memory.objects.entry(at);
    leave_shared(memory, entry.page);
    let page = memory.pages.add(Place::Zero);
    memory.objects.replace(
        at,
        Entry {
            page: Some(page),
            readable: false,
            writable: false,
        },
    );
    page
}

/// Permits an entry to be read, and to be written where that is asked for.
pub fn grant(memory: &mut Memory, at: EntryRef, writable: bool)
    requires { at.index < length (object_at memory.old.objects at.object.0) }
    ensures { memory.new ≡ granted memory.old at.object.0 at.index writable }
{
    let mut entry = memory.objects.entry(at);
    entry.readable = true;
    entry.writable = writable;
    memory.objects.replace(at, entry);
}
