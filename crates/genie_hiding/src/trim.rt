//! What of a region stays with it when it is hidden.
ghost use Rattle.std.specs.Prelude.{◌≡◌, ◌≢◌, ◌<◌, ℕ, [], true, false, length, Some};
ghost use Rattle.genie_object.specs.Objects.{object_at, entry_at};
ghost use Rattle.genie_object.specs.Pages.{page_at};
ghost use Rattle.genie_object.specs.Sound.{IsSound};
ghost use Rattle.genie_object.specs.Touching.{is_entry};
ghost use Rattle.genie_object.specs.Leaving.{Empties, is_object};
ghost use Rattle.genie_hiding.specs.Trimming.{MayStay, IsTrimmed, AllStay};

use genie_fault::empty_entry;
use genie_object::{EntryRef, Memory, ObjectId, PageId, Place};

// Whether the page may stay hidden.
fn may_stay(memory: &Memory, page: PageId) -> bool
    requires sound { IsSound memory.now }
    requires page { 0 < (page_at memory.now.pages.pages page.0).shares }
    ensures stays { result ≡ true → MayStay memory.now page.0 }
    ensures leaves { result ≡ false → MayStay memory.now page.0 → true ≡ false }
{
    if memory.pages.shares(page) > 1 {
        return false;
    }
    match memory.pages.place(page) {
        Place::Frame(f) => {
            let counts = memory.frames.counts(f);
            !counts.is_held()
        }
        Place::Zero => false,
        Place::Slot(_) => false,
    }
}

// Empties an entry, unless its page may stay hidden.
fn trim_entry(memory: &mut Memory, at: EntryRef)
    requires sound { IsSound memory.old }
    requires there { at.index < length (object_at memory.old.objects at.object.0) }
    ensures empties { Empties (is_entry at.object.0 at.index) memory.old memory.new }
    ensures trimmed { IsTrimmed memory.new at.object.0 at.index }
    ensures stays { (p : PageId) → (entry_at memory.old.objects at.object.0 at.index).page ≡ Some p → MayStay memory.old p.0 → memory.new ≡ memory.old }
{
    let entry = memory.objects.entry(at);
    if let Some(page) = entry.page {
        if !may_stay(memory, page) {
            empty_entry(memory, at);
        }
    }
}

/// Empties the entries of an object whose pages may not stay hidden: those that are shared, in no frame, or held by a
/// device.
pub fn trim(memory: &mut Memory, object: ObjectId)
    requires sound { IsSound memory.old }
    requires there { object_at memory.old.objects object.0 ≢ [] }
    ensures empties { Empties (is_object object.0) memory.old memory.new }
    ensures trimmed { (i : ℕ) → i < length (object_at memory.old.objects object.0) → IsTrimmed memory.new object.0 i }
    ensures stays { AllStay memory.old memory.new object.0 }
{
    let pages = memory.objects.pages(object);
    for index in 0..pages {
        trim_entry(memory, EntryRef { object, index });
    }
}
