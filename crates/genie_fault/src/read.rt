//! Faults on reading.
ghost use Rattle.std.specs.Prelude.{◌≡◌, ◌<◌, ◌^◌, ◌-◌, length, count_by, true, Some, OnErr, OnOk, IfOk};
ghost use Rattle.genie_base.specs.Causes.{HasCause};
ghost use Rattle.genie_frame.specs.FrameTable.{is_free};
ghost use Rattle.genie_object.specs.Objects.{object_at, entry_at};
ghost use Rattle.genie_object.specs.Pages.{is_there};
ghost use Rattle.genie_object.specs.Memory.{entry_frame};
ghost use Rattle.genie_object.specs.Sound.{IsSound, IsSized};
ghost use Rattle.genie_object.specs.Steps.{metered};
ghost use Rattle.genie_object.specs.Touching.{is_entry};
ghost use Rattle.genie_object.specs.Calls.{OnlyMoves, TakesAtMost};
ghost use Rattle.genie_object.specs.Costs.{AreBelow, Spends, read_work, gets_for};
ghost use Rattle.genie_fault.specs.Resolving.{IsRead, IsReadIn, BringsIn};

use crate::bring::{bring, part};
use crate::lookup::{frame_of, page_of};
use crate::settle::grant;
use genie_frame::FrameId;
use genie_object::{EntryRef, Memory, PageId};
use genie_store::{Store, StoreFault};

/// Makes an entry readable in place, and answers the frame of its page, which keeps its bytes. An untouched page gets a
/// frame of zeros, one in a slot is read into a frame, and one in a frame stays there, whoever shares it.
///
/// A fault of the store leaves the memory as it was but for the meters, and its frame free.
pub fn resolve_read<S: Store>(
    memory: &mut Memory,
    store: &mut S,
    at: EntryRef,
) -> Result<FrameId, StoreFault>
    requires sound { IsSound memory.old }
    requires sized { IsSized memory.old (S.view store.old) }
    requires there { at.index < length (object_at memory.old.objects at.object.0) }
    requires free { 0 < count_by is_free memory.old.frames.owners }
    requires room { count_by is_there memory.old.pages.pages < memory.old.pages.most }
    requires meters { AreBelow (2 ^ 64 - 2 ^ 20) memory.old.frames.meters }
    ensures moves { OnlyMoves (is_entry at.object.0 at.index) memory.old memory.new (S.view store.old) (S.view store.new) }
    ensures takes { TakesAtMost 1 1 memory.old memory.new }
    ensures meters { Spends (read_work memory.old at.object.0 at.index) (gets_for memory.old at.object.0 at.index) 0 1 memory.old.frames.meters memory.new.frames.meters }
    ensures cause { HasCause (S.view store.old).faults (S.view store.new).faults result }
    ensures framed { IfOk result (λ f. entry_frame memory.new at.object.0 at.index ≡ Some f.0) }
    ensures readable { OnOk result ((entry_at memory.new.objects at.object.0 at.index).readable ≡ true) }
    ensures narrow { (entry_at memory.new.objects at.object.0 at.index).writable ≡ true → (entry_at memory.old.objects at.object.0 at.index).writable ≡ true }
    ensures brings { IfOk result (λ f. BringsIn memory.old memory.new.frames at.object.0 at.index f.0) }
    ensures unchanged { OnErr result (memory.new ≡ metered memory.old memory.new.frames.meters) }
{
    match read_entry(memory, store, at) {
        Ok(f) => Ok(f),
        Err(fault) => Err(fault),
    }
}

// Makes an entry readable, and answers its frame.
fn read_entry<S: Store>(
    memory: &mut Memory,
    store: &mut S,
    at: EntryRef,
) -> Result<FrameId, StoreFault>
    requires sound { IsSound memory.old }
    requires sized { IsSized memory.old (S.view store.old) }
    requires there { at.index < length (object_at memory.old.objects at.object.0) }
    requires free { 0 < count_by is_free memory.old.frames.owners }
    requires room { count_by is_there memory.old.pages.pages < memory.old.pages.most }
    requires meters { AreBelow (2 ^ 64 - 2 ^ 20) memory.old.frames.meters }
    ensures resolved { IfOk result (λ f. IsReadIn memory.old memory.new (S.view store.old) at.object.0 at.index f) }
    ensures narrow { (entry_at memory.new.objects at.object.0 at.index).writable ≡ true → (entry_at memory.old.objects at.object.0 at.index).writable ≡ true }
    ensures unchanged { OnErr result (memory.new ≡ metered memory.old memory.new.frames.meters) }
    ensures read { IsRead (S.view store.old) (S.view store.new) result }
    ensures meters { Spends (read_work memory.old at.object.0 at.index) (gets_for memory.old at.object.0 at.index) 0 1 memory.old.frames.meters memory.new.frames.meters }
{
    match page_of(memory, at) {
        None => match part(memory, store, at) {
            Ok(f) => {
                grant(memory, at, false);
                Ok(f)
            }
            Err(fault) => Err(fault),
        },
        Some(page) => match read_page(memory, store, at, page) {
            Ok(f) => Ok(f),
            Err(fault) => Err(fault),
        },
    }
}

// Brings an entry's page into a frame.
fn read_page<S: Store>(
    memory: &mut Memory,
    store: &mut S,
    at: EntryRef,
    page: PageId,
) -> Result<FrameId, StoreFault>
    requires sound { IsSound memory.old }
    requires sized { IsSized memory.old (S.view store.old) }
    requires there { at.index < length (object_at memory.old.objects at.object.0) }
    requires named { (entry_at memory.old.objects at.object.0 at.index).page ≡ Some page }
    requires free { 0 < count_by is_free memory.old.frames.owners }
    requires meters { AreBelow (2 ^ 64 - 2 ^ 20) memory.old.frames.meters }
    ensures resolved { IfOk result (λ f. IsReadIn memory.old memory.new (S.view store.old) at.object.0 at.index f) }
    ensures narrow { (entry_at memory.new.objects at.object.0 at.index).writable ≡ true → (entry_at memory.old.objects at.object.0 at.index).writable ≡ true }
    ensures unchanged { OnErr result (memory.new ≡ metered memory.old memory.new.frames.meters) }
    ensures read { IsRead (S.view store.old) (S.view store.new) result }
    ensures meters { Spends (read_work memory.old at.object.0 at.index) (gets_for memory.old at.object.0 at.index) 0 1 memory.old.frames.meters memory.new.frames.meters }
{
    match frame_of(memory, page) {
        Some(f) => {
            let entry = memory.objects.entry(at);
            grant(memory, at, entry.writable);
            Ok(f)
        }
        None => match bring(memory, store, page) {
            Ok(f) => {
                grant(memory, at, false);
                Ok(f)
            }
            Err(fault) => Err(fault),
        },
    }
}
