//! Entries and objects that are copied.
ghost use Rattle.std.specs.Prelude.{◌≡◌, ◌≢◌, ℕ, ◌*◌, ◌+◌, ◌-◌, ◌<◌, ◌≤◌, ◌^◌, [], false, length, OnErr, OnOk};
ghost use Rattle.genie_base.specs.Causes.{HasCause};
ghost use Rattle.genie_hiding.specs.Hidden.{is_among, objects_of};
ghost use Rattle.genie_object.specs.Costs.{AreBelow, Spends};
ghost use Rattle.genie_object.specs.Leaving.{IsEmpty, is_object};
ghost use Rattle.genie_object.specs.Objects.{object_at};
ghost use Rattle.genie_object.specs.Sound.{FitsHidden, IsSized, IsSound};
ghost use Rattle.genie_object.specs.Touching.{is_entry};
ghost use Rattle.genie_sharing.specs.Copying.{Copies, CopiesEntry, CopiesObject, StaysRoomy, copies_work, copy_work};

use crate::entries::{held_frame, part_page, share_page};
use genie_hiding::HiddenCache;
use genie_object::{EntryRef, Memory, ObjectId};
use genie_pageout::{Clock, make_room};
use genie_store::{Store, StoreFault};

/// Copies an entry of an object to an empty entry of another one. The copy names the page that the entry names, and
/// neither may be written in place from then on. A page that a device holds is copied in a frame of its own, for which a
/// page may have to go to the store. Of an entry without a page the copy has none.
///
/// Where the store fails nothing of what is seen has changed.
pub fn copy_entry<S: Store>(
    memory: &mut Memory,
    hidden: &mut HiddenCache,
    clock: &mut Clock,
    store: &mut S,
    from: ObjectId,
    to: ObjectId,
    index: u32,
) -> Result<(), StoreFault>
    requires sound { IsSound memory.old }
    requires sized { IsSized memory.old (S.view store.old) }
    requires fits { FitsHidden memory.old (objects_of hidden.old) }
    requires from { index < length (object_at memory.old.objects from.0) }
    requires to { index < length (object_at memory.old.objects to.0) }
    requires apart { from.0 ≢ to.0 }
    requires empty { IsEmpty memory.old to.0 index }
    requires from_owned { is_among from.0 (objects_of hidden.old) ≡ false }
    requires to_owned { is_among to.0 (objects_of hidden.old) ≡ false }
    requires room { StaysRoomy (objects_of hidden.old) memory.old }
    requires meters { AreBelow (2 ^ 64 - 2 ^ 21) memory.old.frames.meters }
    ensures copies { OnOk result (CopiesEntry (objects_of hidden.old) from.0 to.0 index memory.old memory.new (S.view store.old) (S.view store.new)) }
    ensures failed { OnErr result (Copies (objects_of hidden.old) (is_entry to.0 index) memory.old memory.new (S.view store.old) (S.view store.new)) }
    ensures hidden { hidden.new ≡ hidden.old }
    ensures cause { HasCause (S.view store.old).faults (S.view store.new).faults result }
    ensures meters { Spends (copy_work memory.old from.0 index) 0 8192 1 memory.old.frames.meters memory.new.frames.meters }
{
    let source = EntryRef {
        object: from,
        index,
    };
    let copy = EntryRef { object: to, index };
    let entry = memory.objects.entry(source);
    match entry.page {
        None => Ok(()),
        Some(page) => match held_frame(memory, page) {
            None => {
                share_page(memory, source, copy, page);
                Ok(())
            }
            Some(frame) => match make_room(memory, hidden, clock, store, 1) {
                Ok(()) => {
                    part_page(memory, frame, copy);
                    Ok(())
                }
                Err(fault) => Err(fault),
            },
        },
    }
}

/// Copies all entries of an object to one of as many empty entries. Where the store fails only the copy's own entries have
/// changed.
pub fn copy_object<S: Store>(
    memory: &mut Memory,
    hidden: &mut HiddenCache,
    clock: &mut Clock,
    store: &mut S,
    from: ObjectId,
    to: ObjectId,
) -> Result<(), StoreFault>
    requires sound { IsSound memory.old }
    requires sized { IsSized memory.old (S.view store.old) }
    requires fits { FitsHidden memory.old (objects_of hidden.old) }
    requires there { object_at memory.old.objects from.0 ≢ [] }
    requires size { length (object_at memory.old.objects to.0) ≡ length (object_at memory.old.objects from.0) }
    requires page { memory.old.frames.page ≤ 4096 }
    requires apart { from.0 ≢ to.0 }
    requires empty { (i : ℕ) → IsEmpty memory.old to.0 i }
    requires from_owned { is_among from.0 (objects_of hidden.old) ≡ false }
    requires to_owned { is_among to.0 (objects_of hidden.old) ≡ false }
    requires room { StaysRoomy (objects_of hidden.old) memory.old }
    requires meters { AreBelow (2 ^ 64 - 2 ^ 22) memory.old.frames.meters }
    ensures copies { OnOk result (CopiesObject (objects_of hidden.old) from.0 to.0 memory.old memory.new (S.view store.old) (S.view store.new)) }
    ensures failed { OnErr result (Copies (objects_of hidden.old) (is_object to.0) memory.old memory.new (S.view store.old) (S.view store.new)) }
    ensures hidden { hidden.new ≡ hidden.old }
    ensures cause { HasCause (S.view store.old).faults (S.view store.new).faults result }
    ensures few { length (object_at memory.old.objects from.0) ≤ 64 }
    ensures meters { Spends (copies_work memory.old from.0 (length (object_at memory.old.objects from.0))) 0 (2 ^ 19) 64 memory.old.frames.meters memory.new.frames.meters }
{
    let pages = memory.objects.pages(from);
    'entries: for index in 0..pages {
        match copy_entry(memory, hidden, clock, store, from, to, index) {
            Ok(()) => {}
            Err(fault) => return Err(fault),
        }
    }
    Ok(())
}
