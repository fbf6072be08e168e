//! The pages of a range are brought in before bytes are copied there.
ghost use Rattle.std.specs.Prelude.{◌≡◌, ◌+◌, ◌^◌, ◌<◌, ◌≤◌, length, count_by, OnOk};
ghost use Rattle.genie_base.specs.Causes.{HasCause};
ghost use Rattle.genie_frame.specs.FrameTable.{is_free};
ghost use Rattle.genie_object.specs.Costs.{AreBelow};
ghost use Rattle.genie_object.specs.Objects.{object_at};
ghost use Rattle.genie_object.specs.Pages.{is_there};
ghost use Rattle.genie_object.specs.Sound.{IsSized, IsSound};
ghost use Rattle.genie_arrivals.specs.PooledRoom.{ArePrivate, MakesOwn};

use genie_base::ObjectId;
use genie_fault::resolve_write;
use genie_object::{EntryRef, Memory};
use genie_store::{Store, StoreFault};

/// Brings `count` pages of an object in, from page `first` on, and makes them its own, so that nothing can fail any more once
/// the first byte is copied there. What is seen stays, also after a fault of the store.
pub(crate) fn own_pages<S: Store>(
    memory: &mut Memory,
    store: &mut S,
    object: ObjectId,
    first: u32,
    count: u32,
) -> Result<(), StoreFault>
    requires sound { IsSound memory.old }
    requires sized { IsSized memory.old (S.view store.old) }
    requires within { first + count ≤ length (object_at memory.old.objects object.0) }
    requires fits { first + count < 2 ^ 32 }
    requires most { count ≤ 65 }
    requires free { count ≤ count_by is_free memory.old.frames.owners }
    requires room { count_by is_there memory.old.pages.pages + count ≤ memory.old.pages.most }
    requires meters { AreBelow (2 ^ 63 + 2 ^ 20) memory.old.frames.meters }
    ensures owns { MakesOwn memory.old memory.new (S.view store.old) (S.view store.new) object.0 first count }
    ensures own { OnOk result (ArePrivate memory.new object.0 first count) }
    ensures cause { HasCause (S.view store.old).faults (S.view store.new).faults result }
{
    'pages: for k in 0..count {
        let at = EntryRef {
            object,
            index: first + k,
        };
        match resolve_write(memory, store, at) {
            Ok(_) => {}
            Err(fault) => return Err(fault),
        }
    }
    Ok(())
}
