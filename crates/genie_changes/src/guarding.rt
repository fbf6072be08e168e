//! Objects of read-only regions permit no writing.
ghost use Rattle.std.specs.Prelude.{◌≢◌, [], length};
ghost use Rattle.genie_object.specs.Objects.{object_at};
ghost use Rattle.genie_changes.specs.Guarding.{Forbids, Guards};

use genie_base::ObjectId;
use genie_object::{EntryRef, Objects};

// Takes the write permission from all entries of an object.
fn forbid_each(objects: &mut Objects, object: ObjectId)
    requires { object_at objects.old object.0 ≢ [] }
    ensures { Forbids object.0 (length (object_at objects.old object.0)) objects.old objects.new }
{
    let pages = objects.pages(object);
    'entries: for index in 0..pages {
        objects.forbid_writing(EntryRef { object, index });
    }
}

/// Takes the write permission from all entries of an object that isn't to be written: so a call may make pages the entries'
/// own, and the region stays read-only.
pub fn guard(objects: &mut Objects, object: ObjectId, writable: bool)
    requires { object_at objects.old object.0 ≢ [] }
    ensures { Guards object.0 writable objects.old objects.new }
{
    if !writable {
        forbid_each(objects, object);
    }
}
