//! The object of a region is filled with the bytes of a move input.
ghost use Rattle.std.specs.Prelude.{◌≢◌, ℕ, []};
ghost use Rattle.genie_object.specs.declared.memory.Memory.{Memory as MemoryView};
ghost use Rattle.genie_object.specs.Leaving.{IsUnheld};
ghost use Rattle.genie_object.specs.Objects.{object_at};
ghost use Rattle.genie_object.specs.Sound.{IsSound};
ghost use Rattle.genie_plan.specs.Plans.{input_frames};
ghost use Rattle.genie_copying.specs.Spending.{CopiesAtMost};
ghost use Rattle.genie_arrivals.specs.Clearing.{ClearsObject, FillsObject};
ghost use Rattle.genie_arrivals.specs.Stored.{CanStoreBuffer};

use crate::clear::{clear_object, forbid_each};
use crate::store::store_buffer;
use genie_base::ObjectId;
use genie_frame::InLoan;
use genie_object::{Memory, Range};

/// Empties an object, stores the first `len` bytes of a buffer at its start, and ends all loans of the buffer. Whole pages
/// are swapped, and zeros stand behind the bytes. No entry permits writing then: a page is made writable when it is written.
pub(crate) fn fill_object(memory: &mut Memory, object: ObjectId, loans: &[InLoan], len: u32)
    requires sound { IsSound memory.old }
    requires there { object_at memory.old.objects object.0 ≢ [] }
    requires unheld { (i : ℕ) → IsUnheld memory.old object.0 i }
    requires can { (m : MemoryView) → ClearsObject memory.old m object.0 → CanStoreBuffer m object.0 0 len 0 (input_frames loans.now) }
    ensures fills { FillsObject memory.old memory.new object.0 len (input_frames loans.now) }
    ensures copies { CopiesAtMost memory.old.frames.page memory.old memory.new }
{
    clear_object(memory, object);
    let range = Range {
        object,
        off: 0,
        len,
    };
    store_buffer(memory, loans, &range, 0);
    forbid_each(&mut memory.objects, object);
}
