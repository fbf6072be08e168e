//! The object of a region gets pages of zeros of its own.
ghost use Rattle.std.specs.Prelude.{◌≢◌, ◌^◌, ◌-◌, ◌<◌, ℕ, [], length, count_by};
ghost use Rattle.genie_frame.specs.FrameTable.{is_free};
ghost use Rattle.genie_object.specs.declared.memory.Memory.{Memory as MemoryView};
ghost use Rattle.genie_object.specs.Costs.{AreBelow};
ghost use Rattle.genie_object.specs.Leaving.{IsEmpty, IsUnheld};
ghost use Rattle.genie_object.specs.Objects.{object_at};
ghost use Rattle.genie_object.specs.Pages.{is_there};
ghost use Rattle.genie_object.specs.Sound.{IsSound};
ghost use Rattle.genie_arrivals.specs.Blanks.{BlanksObject, BlanksPage, BlanksSoFar, CanBlank};
ghost use Rattle.genie_arrivals.specs.Clearing.{ClearsObject};

use crate::clear::clear_object;
use genie_base::ObjectId;
use genie_fault::settle::rename;
use genie_frame::Owner;
use genie_object::{EntryRef, Memory, Place};

// Gives an empty entry a page of its own, of zeros, in a frame of its own. It permits nothing.
fn blank_page(memory: &mut Memory, at: EntryRef)
    requires sound { IsSound memory.old }
    requires there { at.index < length (object_at memory.old.objects at.object.0) }
    requires empty { IsEmpty memory.old at.object.0 at.index }
    requires free { 0 < count_by is_free memory.old.frames.owners }
    requires room { count_by is_there memory.old.pages.pages < memory.old.pages.most }
    requires meters { AreBelow (2 ^ 64 - 2 ^ 20) memory.old.frames.meters }
    ensures { BlanksPage memory.old memory.new at.object.0 at.index }
{
    let page = rename(memory, at);
    let frame = memory.frames.take(Owner::Page(page.0));
    let size = memory.frames.page();
    memory.frames.zero(frame, 0, size);
    memory.pages.set_place(page, Place::Frame(frame));
}

// Gives the first entries of an object without pages a page of zeros each.
fn blank_pages(memory: &mut Memory, object: ObjectId, count: u32)
    requires empty { (i : ℕ) → IsEmpty memory.old object.0 i }
    requires can { CanBlank memory.old object.0 count }
    ensures { BlanksSoFar memory.old memory.new object.0 count }
{
    'entries: for index in 0..count {
        blank_page(memory, EntryRef { object, index });
    }
}

/// Empties an object, none of whose pages a device holds, and gives its first `count` entries a page of zeros each. No entry
/// permits anything then, and zeros stand in the others too.
pub(crate) fn blank_object(memory: &mut Memory, object: ObjectId, count: u32)
    requires sound { IsSound memory.old }
    requires there { object_at memory.old.objects object.0 ≢ [] }
    requires unheld { (i : ℕ) → IsUnheld memory.old object.0 i }
    requires can { (m : MemoryView) → ClearsObject memory.old m object.0 → CanBlank m object.0 count }
    ensures { BlanksObject memory.old memory.new object.0 count }
{
    clear_object(memory, object);
    blank_pages(memory, object, count);
}
