//! One page of a buffer is stored.
ghost use Rattle.std.specs.Prelude.{◌≡◌, ◌≢◌, ℕ, ◌+◌, ◌-◌, ◌^◌, ◌<◌, ◌≤◌, List, Some, None, length, count_by, true, false, replicate};
ghost use Rattle.genie_base.specs.Bytes.{overlaid, part};
ghost use Rattle.genie_frame.specs.FrameTable.{counts_at, owner_at, bytes_at, is_held, is_system};
ghost use Rattle.genie_object.specs.Pages.{is_there, page_at};
ghost use Rattle.genie_object.specs.Objects.{object_at, entry_at};
ghost use Rattle.genie_object.specs.Sound.{IsSound, IsFramed, IsPrivate};
ghost use Rattle.genie_object.specs.Memory.{seen, entry_frame};
ghost use Rattle.genie_object.specs.Costs as cost;
ghost use Rattle.genie_object.specs.Costs.{AreBelow, Spends};
ghost use Rattle.genie_object.specs.Leaving.{IsUnheld};
ghost use Rattle.genie_finish.specs.Storing as spec;
ghost use Rattle.genie_input.specs.Buffers.{IsBuffer};
ghost use Rattle.genie_finish.specs.Storing.{CanStore, StoresPage, completed, stored_work};

use genie_copyout::{copy_out, reverse_copy_out};
use genie_frame::{FrameId, Frames, InLoan};
use genie_object::{EntryRef, Memory, Place};
use genie_plan::end_input;
use genie_swap::swap_in;

// Copies the bytes out, and lets the frame go.
fn copy_page(memory: &mut Memory, loan: InLoan, at: EntryRef, off: u32, n: u32)
    requires sound { IsSound memory.old }
    requires there { at.index < length (object_at memory.old.objects at.object.0) }
    requires own { IsPrivate memory.old.frames.counts memory.old.pages.pages (entry_at memory.old.objects at.object.0 at.index).page }
    requires buffer { IsBuffer memory.old.frames loan.frame.0 }
    requires range { off + n ≤ memory.old.frames.page }
    requires meters { AreBelow (2 ^ 64 - 2 ^ 20) memory.old.frames.meters }
    ensures stored { StoresPage memory.old memory.new at.object.0 at.index loan.frame.0 off n n }
{
    copy_out(memory, loan.frame, off, at, off, n);
    memory.frames.len();
    end_input(&mut memory.frames, loan);
    memory.frames.len();
}

// Whether the entry's page is nowhere, and so has zeros.
fn is_untouched(memory: &Memory, at: EntryRef) -> bool
    requires sound { IsSound memory.now }
    requires there { at.index < length (object_at memory.now.objects at.object.0) }
    ensures { result ≡ cost.is_untouched memory.now at.object.0 at.index }
{
    let Some(page) = memory.objects.entry(at).page else {
        return true;
    };
    match memory.pages.place(page) {
        Place::Zero => true,
        Place::Frame(_) => false,
        Place::Slot(_) => false,
    }
}

// Zeroes a frame but for its `n` bytes from place `off` on.
fn zero_around(frames: &mut Frames, frame: FrameId, off: u32, n: u32)
    requires there { frame.0 < length frames.old.owners }
    requires range { off + n ≤ frames.old.page }
    requires meters { AreBelow (2 ^ 64 - 2 ^ 20) frames.old.meters }
    ensures frames { frames.new ≡ completed frames.old frame.0 (bytes_at frames.new frame.0) frames.new.meters }
    ensures bytes { bytes_at frames.new frame.0 ≡ overlaid off (part off n (bytes_at frames.old frame.0)) (replicate frames.old.page 0) }
    ensures spends { Spends (frames.old.page - n) 0 0 0 frames.old.meters frames.new.meters }
{
    frames.len();
    let page = frames.page();
    let past = off + n;
    frames.zero(frame, 0, off);
    frames.zero(frame, past, page - past);
}

// Brings the bytes of an entry's page to a frame of the system, but for the `n` bytes from place `off` on.
fn complete(memory: &mut Memory, frame: FrameId, at: EntryRef, off: u32, n: u32)
    requires sound { IsSound memory.old }
    requires there { at.index < length (object_at memory.old.objects at.object.0) }
    requires frame { frame.0 < length memory.old.frames.owners }
    requires of_system { is_system (owner_at memory.old.frames frame.0) ≡ true }
    requires range { off + n ≤ memory.old.frames.page }
    requires framed { n < memory.old.frames.page → cost.is_untouched memory.old at.object.0 at.index ≡ false → IsFramed memory.old.pages.pages (entry_at memory.old.objects at.object.0 at.index).page }
    requires meters { AreBelow (2 ^ 64 - 2 ^ 20) memory.old.frames.meters }
    ensures frames { memory.new.frames ≡ completed memory.old.frames frame.0 (bytes_at memory.new.frames frame.0) memory.new.frames.meters }
    ensures bytes { (slots : ℕ → List ℕ) → ((s : ℕ) → length (slots s) ≡ memory.old.frames.page) → bytes_at memory.new.frames frame.0 ≡ overlaid off (part off n (bytes_at memory.old.frames frame.0)) ((seen memory.old slots).entry_bytes at.object.0 at.index) }
    ensures spends { Spends (memory.old.frames.page - n) 0 0 0 memory.old.frames.meters memory.new.frames.meters }
    ensures pages { memory.new.pages ≡ memory.old.pages }
    ensures objects { memory.new.objects ≡ memory.old.objects }
    ensures slots { memory.new.slots ≡ memory.old.slots }
{
    if n == memory.frames.page() {
        return;
    }
    if is_untouched(memory, at) {
        zero_around(&mut memory.frames, frame, off, n);
        return;
    }
    reverse_copy_out(memory, frame, at, off, n);
}

// Brings the rest of the page to the frame, and puts the frame in the place of the page.
fn swap_page(memory: &mut Memory, loan: InLoan, at: EntryRef, off: u32, n: u32)
    requires sound { IsSound memory.old }
    requires there { at.index < length (object_at memory.old.objects at.object.0) }
    requires framed { n < memory.old.frames.page → cost.is_untouched memory.old at.object.0 at.index ≡ false → IsFramed memory.old.pages.pages (entry_at memory.old.objects at.object.0 at.index).page }
    requires unheld { IsUnheld memory.old at.object.0 at.index }
    requires buffer { IsBuffer memory.old.frames loan.frame.0 }
    requires range { off + n ≤ memory.old.frames.page }
    requires room { count_by is_there memory.old.pages.pages < memory.old.pages.most }
    requires meters { AreBelow (2 ^ 64 - 2 ^ 20) memory.old.frames.meters }
    ensures stored { StoresPage memory.old memory.new at.object.0 at.index loan.frame.0 off n (memory.old.frames.page - n) }
    ensures placed { entry_frame memory.new at.object.0 at.index ≡ Some loan.frame.0 }
{
    memory.frames.back_in(loan);
    memory.frames.len();
    complete(memory, loan.frame, at, off, n);
    swap_in(memory, loan.frame, at);
}

// Whether a device holds the entry's page.
fn is_held_at(memory: &Memory, at: EntryRef) -> bool
    requires sound { IsSound memory.now }
    requires there { at.index < length (object_at memory.now.objects at.object.0) }
    ensures { result ≡ spec.is_held_at memory.now at.object.0 at.index }
{
    let Some(page) = memory.objects.entry(at).page else {
        return false;
    };
    let Place::Frame(frame) = memory.pages.place(page) else {
        return false;
    };
    memory.frames.counts(frame).is_held()
}

// Whether the bytes are copied out, and else the page is swapped.
fn is_copied(memory: &Memory, at: EntryRef, n: u32, few: u32) -> bool
    requires sound { IsSound memory.now }
    requires there { at.index < length (object_at memory.now.objects at.object.0) }
    ensures { result ≡ spec.is_copied memory.now at.object.0 at.index n few }
{
    is_held_at(memory, at) || n < memory.frames.page() && n <= few
}

/// Stores the `n` bytes of a buffer's page from place `off` on at the same place of an entry's page. A page that a device
/// holds stays where it is, and is copied to; so is a part of at most `few` bytes. Any other page is swapped: the rest of
/// a part is first brought to the buffer's frame (reverse copyout), or zeroed where the page is untouched, and then the
/// frame takes the place of the page. The frame has left the buffer afterwards.
pub fn store_page(memory: &mut Memory, loan: InLoan, at: EntryRef, off: u32, n: u32, few: u32)
    requires sound { IsSound memory.old }
    requires there { at.index < length (object_at memory.old.objects at.object.0) }
    requires can { CanStore memory.old at.object.0 at.index n few }
    requires buffer { IsBuffer memory.old.frames loan.frame.0 }
    requires range { off + n ≤ memory.old.frames.page }
    requires room { count_by is_there memory.old.pages.pages < memory.old.pages.most }
    requires meters { AreBelow (2 ^ 64 - 2 ^ 20) memory.old.frames.meters }
    ensures stored { StoresPage memory.old memory.new at.object.0 at.index loan.frame.0 off n (stored_work memory.old at.object.0 at.index n few) }
{
    if is_copied(memory, at, n, few) {
        copy_page(memory, loan, at, off, n);
    } else {
        swap_page(memory, loan, at, off, n);
    }
}
