//! Laws of room that is made, and of pages that only move.
ghost use Rattle.genie_changes.specs.Making.{RoomIsMade, MemoryIsMoved, MovesOn, KeptSinceMoved};

use genie_kernel::laws::memory_calls_keep_good;

/// The kernel stands for the same state once room was made, and once calls of the memory have left all as it was that is
/// seen and lent.
pub fn memory_moves()
    ensures room { RoomIsMade }
    ensures calls { MemoryIsMoved }
{
    memory_calls_keep_good();
}

/// Two such changes in a row are one, and what is kept after one is kept from before it on.
pub fn moves_join()
    ensures on { MovesOn }
    ensures kept { KeptSinceMoved }
{}
