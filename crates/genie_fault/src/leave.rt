//! An entry leaves its page, and an object is taken away with its pages.
ghost use Rattle.std.specs.Prelude.{◌≡◌, ◌≢◌, ◌<◌, ℕ, List, [], length, Some};
ghost use Rattle.genie_object.specs.Objects.{object_at, entry_at};
ghost use Rattle.genie_object.specs.Memory.{seen, see_entry, zeros};
ghost use Rattle.genie_object.specs.Sound.{IsSound};
ghost use Rattle.genie_object.specs.Touching.{KeepsLoans, is_entry};
ghost use Rattle.genie_object.specs.Leaving.{IsOwnPage, IsSharedPage, IsUnheld, IsEmpty, Empties, Removes, dropped, left, left_by, emptied_entry, is_object};

use crate::settle::leave_place;
use genie_object::{Entry, EntryRef, Memory, ObjectId, PageId};

const EMPTY: Entry = Entry {
    page: None,
    readable: false,
    writable: false,
};

/// Takes the page of an entry away, which is its own. Its frame is free then, or nobody's while it is lent.
pub fn drop_page(memory: &mut Memory, at: EntryRef, page: PageId)
    requires own { IsOwnPage memory.old at.object.0 at.index page }
    ensures { memory.new ≡ dropped memory.old at.object.0 at.index page.0 }
{
    memory.objects.replace(at, EMPTY);
    if let Some(place) = memory.pages.leave(page) {
        leave_place(memory, place);
    }
}

// Takes an entry's page away, which others share.
fn leave_shared(memory: &mut Memory, at: EntryRef, page: PageId)
    requires shared { IsSharedPage memory.old at.object.0 at.index page }
    ensures { memory.new ≡ left memory.old at.object.0 at.index page }
{
    memory.objects.replace(at, EMPTY);
    memory.pages.leave(page);
}

// Takes the page away that an entry names. The page goes with its last holder.
fn leave_page(memory: &mut Memory, at: EntryRef, page: PageId)
    requires sound { IsSound memory.old }
    requires named { (entry_at memory.old.objects at.object.0 at.index).page ≡ Some page }
    ensures { memory.new ≡ left_by memory.old at.object.0 at.index (Some page) }
{
    if memory.pages.shares(page) == 1 {
        drop_page(memory, at, page);
    } else {
        leave_shared(memory, at, page);
    }
}

// Empties an entry.
fn leave_entry(memory: &mut Memory, at: EntryRef)
    requires sound { IsSound memory.old }
    requires there { at.index < length (object_at memory.old.objects at.object.0) }
    ensures { memory.new ≡ emptied_entry memory.old at.object.0 at.index }
{
    let entry = memory.objects.entry(at);
    if let Some(page) = entry.page {
        leave_page(memory, at, page);
    }
}

/// Empties an entry. Its page stays with those that share it, and goes with its last holder: its slot is free then, and so
/// is its frame, unless a loan is out, which makes it nobody's until the loan is back.
pub fn empty_entry(memory: &mut Memory, at: EntryRef)
    requires sound { IsSound memory.old }
    requires there { at.index < length (object_at memory.old.objects at.object.0) }
    ensures emptied { memory.new ≡ emptied_entry memory.old at.object.0 at.index }
    ensures empty { IsEmpty memory.new at.object.0 at.index }
    ensures empties { Empties (is_entry at.object.0 at.index) memory.old memory.new }
    // Where no device holds the page, only the entry shows something else, and every loan is kept.
    ensures seen { IsUnheld memory.old at.object.0 at.index → (slots : ℕ → List ℕ) → seen memory.new slots ≡ see_entry (seen memory.old slots) at.object.0 at.index (zeros memory.old.frames) }
    ensures keeps { IsUnheld memory.old at.object.0 at.index → KeepsLoans memory.old memory.new }
{
    leave_entry(memory, at);
}

// Empties all entries of an object.
fn clear(memory: &mut Memory, object: ObjectId)
    requires sound { IsSound memory.old }
    requires there { object_at memory.old.objects object.0 ≢ [] }
    ensures empties { Empties (is_object object.0) memory.old memory.new }
    ensures empty { (i : ℕ) → i < length (object_at memory.old.objects object.0) → IsEmpty memory.new object.0 i }
{
    let pages = memory.objects.pages(object);
    for index in 0..pages {
        empty_entry(memory, EntryRef { object, index });
    }
}

/// Takes an object away with its pages. A frame that is lent is nobody's until its loans are back.
pub fn remove_object(memory: &mut Memory, object: ObjectId)
    requires sound { IsSound memory.old }
    requires there { object_at memory.old.objects object.0 ≢ [] }
    ensures { Removes object.0 memory.old memory.new }
{
    clear(memory, object);
    memory.objects.remove(object);
}
