//! Bytes of a region's pages are read into a buffer.
ghost use Rattle.std.specs.Prelude.{◌≡◌, ℕ, true, ◌+◌, ◌*◌, ◌<◌, ◌≤◌, ◌^◌, length, count_by, OnOk};
ghost use Rattle.genie_base.specs.Causes.{HasCause};
ghost use Rattle.genie_base.specs.Counts.{span};
ghost use Rattle.genie_frame.specs.FrameTable.{is_free};
ghost use Rattle.genie_object.specs.Calls.{OnlyMoves};
ghost use Rattle.genie_object.specs.Costs.{AreBelow, is_untouched};
ghost use Rattle.genie_object.specs.Objects.{object_at, entry_at};
ghost use Rattle.genie_object.specs.Pages.{is_there};
ghost use Rattle.genie_object.specs.Sound.{IsSound, IsSized};
ghost use Rattle.genie_kernel.specs.Rising.{MetersRise};
ghost use Rattle.genie_copying.specs.Ranges.{count_in, pages_at};
ghost use Rattle.genie_copying.specs.Spending.{CopiesAtMost};
ghost use Rattle.genie_access.specs.Reading.{ReadsObject, is_of_object};

use crate::bytes::read_page;
use genie_base::{ObjectId, PageBuffer};
use genie_object::{EntryRef, Memory};
use genie_store::{Store, StoreFault};

/// Appends `n` bytes of an object's pages to a buffer, from place `off` of the object on, at most a page's length of them:
/// so they lie in two pages at most.
pub fn read_range<S: Store>(
    memory: &mut Memory,
    store: &mut S,
    object: ObjectId,
    off: u32,
    n: u32,
    into: &mut PageBuffer,
) -> Result<(), StoreFault>
    requires sound { IsSound memory.old }
    requires sized { IsSized memory.old (S.view store.old) }
    requires some { 1 ≤ n }
    requires most { n ≤ memory.old.frames.page }
    requires inside { off + n ≤ memory.old.frames.page * length (object_at memory.old.objects object.0) }
    requires free { 2 ≤ count_by is_free memory.old.frames.owners }
    requires room { count_by is_there memory.old.pages.pages + 2 ≤ memory.old.pages.most }
    requires meters { AreBelow (2 ^ 63 + 2 ^ 20) memory.old.frames.meters }
    requires buffer { length into.old + n ≤ 4096 }
    ensures moves { OnlyMoves (is_of_object object.0) memory.old memory.new (S.view store.old) (S.view store.new) }
    ensures cause { HasCause (S.view store.old).faults (S.view store.new).faults result }
    ensures narrow { (i : ℕ) → (entry_at memory.new.objects object.0 i).writable ≡ true → (entry_at memory.old.objects object.0 i).writable ≡ true }
    ensures bytes { OnOk result (ReadsObject memory.old (S.view store.old) object.0 off n into.old into.new) }
    ensures rises { MetersRise (2 ^ 15) memory.old.frames memory.new.frames }
    ensures landed { memory.new.frames.landed ≡ memory.old.frames.landed }
    ensures gets { memory.new.frames.meters.gets ≤ memory.old.frames.meters.gets + span memory.old.frames.page off n }
    ensures copies { CopiesAtMost (n + memory.old.frames.page * count_in is_untouched memory.old (pages_at memory.old.frames.page object.0 off n)) memory.old memory.new }
{
    let page = memory.frames.page();
    let index = off / page;
    let place = off % page;
    let first = n.min(page - place);
    let at = EntryRef { object, index };
    match read_page(memory, store, at, place, first, into) {
        Ok(()) => {}
        Err(fault) => return Err(fault),
    }
    if first == n {
        return Ok(());
    }
    let next = EntryRef {
        object,
        index: index + 1,
    };
    match read_page(memory, store, next, 0, n - first, into) {
        Ok(()) => Ok(()),
        Err(fault) => Err(fault),
    }
}
