//! Bytes of pages are read into a buffer.
ghost use Rattle.std.specs.Prelude.{◌≡◌, ℕ, true, ◌+◌, ◌-◌, ◌<◌, ◌≤◌, ◌^◌, ◌++◌, length, count_by, OnOk};
ghost use Rattle.genie_base.specs.Bytes.{part};
ghost use Rattle.genie_base.specs.Causes.{HasCause};
ghost use Rattle.genie_frame.specs.FrameTable.{bytes_at, is_free};
ghost use Rattle.genie_frame.specs.Frames.{more_read};
ghost use Rattle.genie_object.specs.Calls.{OnlyMoves, TakesAtMost};
ghost use Rattle.genie_object.specs.Costs.{AreBelow, Spends, read_work, gets_for};
ghost use Rattle.genie_object.specs.Objects.{object_at, entry_at};
ghost use Rattle.genie_object.specs.Pages.{is_there};
ghost use Rattle.genie_object.specs.Sound.{IsSound, IsSized};
ghost use Rattle.genie_object.specs.Touching.{is_entry};
ghost use Rattle.genie_access.specs.Reading.{ReadsEntry};

use genie_base::PageBuffer;
use genie_fault::resolve_read;
use genie_frame::{FrameId, Frames};
use genie_object::{EntryRef, Memory};
use genie_store::{Store, StoreFault};

// How many bytes are read at once.
const PIECE: u32 = 64;

// Appends at most 64 bytes of a page.
fn read_piece(frames: &mut Frames, f: FrameId, off: u32, n: u32, into: &mut PageBuffer)
    requires there { f.0 < length frames.old.owners }
    requires range { off + n ≤ frames.old.page }
    requires short { n ≤ 64 }
    requires room { length into.old + n ≤ 4096 }
    requires meter { frames.old.meters.read + n < 2 ^ 64 }
    ensures bytes { into.new ≡ into.old ++ part off n (bytes_at frames.old f.0) }
    ensures size { length into.new ≡ length into.old + n }
    ensures frames { frames.new ≡ more_read frames.old n }
{
    let mut bytes = [0; 64];
    let piece = &mut bytes[..n as usize];
    frames.read(f, off, piece);
    into.push_slice(piece);
}

// Appends bytes of a page, piece after piece.
fn read_run(frames: &mut Frames, f: FrameId, off: u32, n: u32, into: &mut PageBuffer)
    requires there { f.0 < length frames.old.owners }
    requires range { off + n ≤ frames.old.page }
    requires fits { off + n < 2 ^ 32 }
    requires room { length into.old + n ≤ 4096 }
    requires meter { frames.old.meters.read + n < 2 ^ 64 }
    ensures bytes { into.new ≡ into.old ++ part off n (bytes_at frames.old f.0) }
    ensures size { length into.new ≡ length into.old + n }
    ensures frames { frames.new ≡ more_read frames.old n }
{
    if n <= PIECE {
        read_piece(frames, f, off, n, into);
        return;
    }
    read_piece(frames, f, off, PIECE, into);
    read_run(frames, f, off + PIECE, n - PIECE, into);
}

/// Appends `n` bytes of an entry's page to a buffer, from place `off` of the page on. A fault of the store leaves the
/// buffer as it was.
pub fn read_page<S: Store>(
    memory: &mut Memory,
    store: &mut S,
    at: EntryRef,
    off: u32,
    n: u32,
    into: &mut PageBuffer,
) -> Result<(), StoreFault>
    requires sound { IsSound memory.old }
    requires sized { IsSized memory.old (S.view store.old) }
    requires there { at.index < length (object_at memory.old.objects at.object.0) }
    requires free { 0 < count_by is_free memory.old.frames.owners }
    requires room { count_by is_there memory.old.pages.pages < memory.old.pages.most }
    requires meters { AreBelow (2 ^ 64 - 2 ^ 20) memory.old.frames.meters }
    requires range { off + n ≤ memory.old.frames.page }
    requires buffer { length into.old + n ≤ 4096 }
    ensures moves { OnlyMoves (is_entry at.object.0 at.index) memory.old memory.new (S.view store.old) (S.view store.new) }
    ensures takes { TakesAtMost 1 1 memory.old memory.new }
    ensures meters { Spends (read_work memory.old at.object.0 at.index + n) (gets_for memory.old at.object.0 at.index) 0 1 memory.old.frames.meters memory.new.frames.meters }
    ensures cause { HasCause (S.view store.old).faults (S.view store.new).faults result }
    ensures bytes { OnOk result (ReadsEntry memory.old (S.view store.old) at.object.0 at.index off n into.old into.new) }
    ensures size { OnOk result (length into.new ≡ length into.old + n) }
    ensures narrow { (entry_at memory.new.objects at.object.0 at.index).writable ≡ true → (entry_at memory.old.objects at.object.0 at.index).writable ≡ true }
{
    match resolve_read(memory, store, at) {
        Ok(f) => {
            read_run(&mut memory.frames, f, off, n, into);
            Ok(())
        }
        Err(fault) => Err(fault),
    }
}
