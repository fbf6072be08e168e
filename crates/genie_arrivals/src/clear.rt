//! The object of a region that is held for a move input.
ghost use Rattle.std.specs.Prelude.{◌≡◌, ◌≢◌, ℕ, [], length};
ghost use Rattle.genie_object.specs.Leaving.{IsUnheld};
ghost use Rattle.genie_object.specs.Objects.{object_at};
ghost use Rattle.genie_object.specs.Sound.{IsSound};
ghost use Rattle.genie_arrivals.specs.Clearing.{ClearsObject, Forbids};

use genie_base::ObjectId;
use genie_fault::empty_entry;
use genie_object::{EntryRef, Memory, Objects};

/// Empties all entries of an object, none of whose pages a device holds.
pub(crate) fn clear_object(memory: &mut Memory, object: ObjectId)
    requires sound { IsSound memory.old }
    requires there { object_at memory.old.objects object.0 ≢ [] }
    requires unheld { (i : ℕ) → IsUnheld memory.old object.0 i }
    ensures { ClearsObject memory.old memory.new object.0 }
{
    let pages = memory.objects.pages(object);
    'entries: for index in 0..pages {
        empty_entry(memory, EntryRef { object, index });
    }
}

/// Takes the write permission from all entries of an object: a page is made writable again when it is written.
pub(crate) fn forbid_each(objects: &mut Objects, object: ObjectId)
    requires { object_at objects.old object.0 ≢ [] }
    ensures { Forbids object.0 (length (object_at objects.old object.0)) objects.old objects.new }
{
    let pages = objects.pages(object);
    'entries: for index in 0..pages {
        objects.forbid_writing(EntryRef { object, index });
    }
}
