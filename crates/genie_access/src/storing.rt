//! Bytes are stored in a region's pages.
ghost use Rattle.std.specs.Prelude.{◌≡◌, ◌+◌, ◌*◌, ◌≤◌, ◌^◌, length, count_by, OnOk, OnErr};
ghost use Rattle.genie_base.specs.Causes.{HasCause};
ghost use Rattle.genie_base.specs.Counts.{span};
ghost use Rattle.genie_frame.specs.FrameTable.{is_free};
ghost use Rattle.genie_object.specs.Calls.{OnlyMoves};
ghost use Rattle.genie_object.specs.Costs.{AreBelow};
ghost use Rattle.genie_object.specs.Objects.{object_at};
ghost use Rattle.genie_object.specs.Pages.{is_there};
ghost use Rattle.genie_object.specs.Sound.{IsSound, IsSized};
ghost use Rattle.genie_kernel.specs.Rising.{MetersRise};
ghost use Rattle.genie_copying.specs.Kinds.{is_fixed};
ghost use Rattle.genie_copying.specs.Ranges.{count_in, pages_at};
ghost use Rattle.genie_copying.specs.Spending.{CopiesAtMost};
ghost use Rattle.genie_access.specs.Reading.{is_of_object};
ghost use Rattle.genie_access.specs.Storing.{WritesObject};

use genie_base::ObjectId;
use genie_fault::resolve_write;
use genie_object::{EntryRef, Memory};
use genie_store::{Store, StoreFault};

/// Stores bytes in an object's pages, from place `off` of the object on, at most a page's length of them: so they lie in
/// two pages at most. Each page that isn't the object's own becomes so, and both are there before the first byte is
/// stored: a fault of the store leaves all bytes as they were.
pub fn write_range<S: Store>(
    memory: &mut Memory,
    store: &mut S,
    object: ObjectId,
    off: u32,
    bytes: &[u8],
) -> Result<(), StoreFault>
    requires sound { IsSound memory.old }
    requires sized { IsSized memory.old (S.view store.old) }
    requires some { 1 ≤ length bytes.now }
    requires most { length bytes.now ≤ memory.old.frames.page }
    requires short { length bytes.now ≤ 4096 }
    requires inside { off + length bytes.now ≤ memory.old.frames.page * length (object_at memory.old.objects object.0) }
    requires free { 2 ≤ count_by is_free memory.old.frames.owners }
    requires room { count_by is_there memory.old.pages.pages + 2 ≤ memory.old.pages.most }
    requires meters { AreBelow (2 ^ 63 + 2 ^ 20) memory.old.frames.meters }
    ensures stored { OnOk result (WritesObject memory.old memory.new (S.view store.old) (S.view store.new) object.0 off bytes.now) }
    ensures failed { OnErr result (OnlyMoves (is_of_object object.0) memory.old memory.new (S.view store.old) (S.view store.new)) }
    ensures cause { HasCause (S.view store.old).faults (S.view store.new).faults result }
    ensures rises { MetersRise (2 ^ 16) memory.old.frames memory.new.frames }
    ensures landed { memory.new.frames.landed ≡ memory.old.frames.landed }
    ensures gets { memory.new.frames.meters.gets ≤ memory.old.frames.meters.gets + span memory.old.frames.page off (length bytes.now) }
    ensures copies { CopiesAtMost (length bytes.now + memory.old.frames.page * count_in is_fixed memory.old (pages_at memory.old.frames.page object.0 off (length bytes.now))) memory.old memory.new }
{
    let page = memory.frames.page();
    let n = bytes.len() as u32;
    let index = off / page;
    let place = off % page;
    let first = n.min(page - place);
    let at = EntryRef { object, index };
    let f = match resolve_write(memory, store, at) {
        Ok(f) => f,
        Err(fault) => return Err(fault),
    };
    if first == n {
        memory.frames.write(f, place, bytes);
        return Ok(());
    }
    let next = EntryRef {
        object,
        index: index + 1,
    };
    let g = match resolve_write(memory, store, next) {
        Ok(g) => g,
        Err(fault) => return Err(fault),
    };
    memory.frames.write(f, place, &bytes[..first as usize]);
    memory.frames.write(g, 0, &bytes[first as usize..]);
    Ok(())
}
