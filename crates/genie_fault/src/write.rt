//! Faults on writing.
ghost use Rattle.std.specs.Prelude.{◌≡◌, ◌<◌, ◌^◌, ◌-◌, length, count_by, true, OnErr, OnOk, IfOk};
ghost use Rattle.genie_base.specs.Causes.{HasCause};
ghost use Rattle.genie_frame.specs.FrameTable.{is_free};
ghost use Rattle.genie_object.specs.Objects.{object_at, entry_at};
ghost use Rattle.genie_object.specs.Pages.{is_there};
ghost use Rattle.genie_object.specs.Sound.{IsSound, IsSized};
ghost use Rattle.genie_object.specs.Keeping.{IsReady};
ghost use Rattle.genie_object.specs.Steps.{metered};
ghost use Rattle.genie_object.specs.Touching.{is_entry};
ghost use Rattle.genie_object.specs.Calls.{OnlyMoves, TakesAtMost};
ghost use Rattle.genie_object.specs.Costs.{AreBelow, Spends, write_work, gets_for};
ghost use Rattle.genie_fault.specs.Resolving.{IsRead, IsWritten};

use crate::bring::{bring, part};
use crate::lookup::{own_page, unlent_frame};
use crate::settle::grant;
use genie_frame::FrameId;
use genie_object::{EntryRef, Memory};
use genie_store::{Store, StoreFault};

/// Makes an entry writable in place, and answers the frame of its page, which keeps its bytes.
///
/// An untouched page gets a frame of zeros, and one in a slot is read into a frame. A page that other entries share, or
/// that a device sends as it was lent, stays with them: the entry gets a copy of its own, as copy-on-write asks for. A
/// page that is alone in a frame without a strong loan is allowed again where it is, without a copy.
///
/// A fault of the store leaves the memory as it was but for the meters, and its frame free.
pub fn resolve_write<S: Store>(
    memory: &mut Memory,
    store: &mut S,
    at: EntryRef,
) -> Result<FrameId, StoreFault>
    requires sound { IsSound memory.old }
    requires sized { IsSized memory.old (S.view store.old) }
    requires there { at.index < length (object_at memory.old.objects at.object.0) }
    requires free { 0 < count_by is_free memory.old.frames.owners }
    requires room { count_by is_there memory.old.pages.pages < memory.old.pages.most }
    requires meters { AreBelow (2 ^ 64 - 2 ^ 20) memory.old.frames.meters }
    ensures moves { OnlyMoves (is_entry at.object.0 at.index) memory.old memory.new (S.view store.old) (S.view store.new) }
    ensures takes { TakesAtMost 1 1 memory.old memory.new }
    ensures meters { Spends (write_work memory.old at.object.0 at.index) (gets_for memory.old at.object.0 at.index) 0 1 memory.old.frames.meters memory.new.frames.meters }
    ensures cause { HasCause (S.view store.old).faults (S.view store.new).faults result }
    ensures ready { IfOk result (λ f. IsReady memory.new at.object.0 at.index f) }
    ensures writable { OnOk result ((entry_at memory.new.objects at.object.0 at.index).writable ≡ true) }
    ensures unchanged { OnErr result (memory.new ≡ metered memory.old memory.new.frames.meters) }
{
    match write_entry(memory, store, at) {
        Ok(f) => Ok(f),
        Err(fault) => Err(fault),
    }
}

// Makes an entry writable in place, and answers its frame.
fn write_entry<S: Store>(
    memory: &mut Memory,
    store: &mut S,
    at: EntryRef,
) -> Result<FrameId, StoreFault>
    requires sound { IsSound memory.old }
    requires sized { IsSized memory.old (S.view store.old) }
    requires there { at.index < length (object_at memory.old.objects at.object.0) }
    requires free { 0 < count_by is_free memory.old.frames.owners }
    requires room { count_by is_there memory.old.pages.pages < memory.old.pages.most }
    requires meters { AreBelow (2 ^ 64 - 2 ^ 20) memory.old.frames.meters }
    ensures written { IfOk result (λ f. IsWritten memory.old memory.new (S.view store.old) at.object.0 at.index f) }
    ensures unchanged { OnErr result (memory.new ≡ metered memory.old memory.new.frames.meters) }
    ensures read { IsRead (S.view store.old) (S.view store.new) result }
    ensures meters { Spends (write_work memory.old at.object.0 at.index) (gets_for memory.old at.object.0 at.index) 0 1 memory.old.frames.meters memory.new.frames.meters }
{
    match own_page(memory, at) {
        None => match part(memory, store, at) {
            Ok(f) => {
                grant(memory, at, true);
                Ok(f)
            }
            Err(fault) => Err(fault),
        },
        Some(page) => match unlent_frame(memory, page) {
            Some(f) => {
                grant(memory, at, true);
                Ok(f)
            }
            None => match bring(memory, store, page) {
                Ok(f) => {
                    grant(memory, at, true);
                    Ok(f)
                }
                Err(fault) => Err(fault),
            },
        },
    }
}
