//! What an empty entry gets of a page that another one names: the page itself, or the bytes of its frame.
ghost use Rattle.std.specs.Prelude.{◌≡◌, ◌+◌, ◌-◌, ◌<◌, ◌^◌, false, true, length, count_by, None, Some, IfSome};
ghost use Rattle.genie_frame.specs.FrameTable.{counts_at, is_free, is_held};
ghost use Rattle.genie_frame.specs.declared.frame.FrameId.{FrameId as FrameView};
ghost use Rattle.genie_object.specs.Costs.{AreBelow, Spends};
ghost use Rattle.genie_object.specs.Leaving.{IsEmpty};
ghost use Rattle.genie_object.specs.Objects.{object_at};
ghost use Rattle.genie_object.specs.Pages.{is_there, page_at};
ghost use Rattle.genie_object.specs.Sound.{IsSound};
ghost use Rattle.genie_object.specs.Steps.{forbidden, shared};
ghost use Rattle.genie_sharing.specs.Copying.{PartsFrom};

use genie_fault::settle::rename;
use genie_frame::{FrameId, Owner};
use genie_object::{Entry, EntryRef, Memory, PageId, Place};

// The frame of the page, where a device holds it.
pub(crate) fn held_frame(memory: &Memory, page: PageId) -> Option<FrameId>
    requires sound { IsSound memory.now }
    requires page { 0 < (page_at memory.now.pages.pages page.0).shares }
    ensures place { IfSome result (λ f. (page_at memory.now.pages.pages page.0).place ≡ Place.Frame f) }
    ensures held { IfSome result (λ f. is_held (counts_at memory.now.frames f.0) ≡ true) }
    ensures free { result ≡ None → (f : FrameView) → (page_at memory.now.pages.pages page.0).place ≡ Place.Frame f → is_held (counts_at memory.now.frames f.0) ≡ false }
{
    match memory.pages.place(page) {
        Place::Frame(f) => {
            if memory.frames.counts(f).is_held() {
                Some(f)
            } else {
                None
            }
        }
        Place::Zero => None,
        Place::Slot(_) => None,
    }
}

// Gives an empty entry the page that another one names. Neither may be written in place from then on.
pub(crate) fn share_page(memory: &mut Memory, from: EntryRef, to: EntryRef, page: PageId)
    requires from { from.index < length (object_at memory.old.objects from.object.0) }
    requires to { to.index < length (object_at memory.old.objects to.object.0) }
    requires some { 0 < (page_at memory.old.pages.pages page.0).shares }
    requires room { (page_at memory.old.pages.pages page.0).shares < 2 ^ 32 - 1 }
    ensures { memory.new ≡ shared (forbidden memory.old from.object.0 from.index) to.object.0 to.index page.0 }
{
    memory.objects.forbid_writing(from);
    memory.pages.share(page);
    memory.objects.replace(
        to,
        Entry {
            page: Some(page),
            readable: false,
            writable: false,
        },
    );
}

// Gives an empty entry a page of its own, in a frame of its own, with the bytes of another frame.
pub(crate) fn part_page(memory: &mut Memory, from: FrameId, to: EntryRef)
    requires sound { IsSound memory.old }
    requires from { from.0 < length memory.old.frames.owners }
    requires to { to.index < length (object_at memory.old.objects to.object.0) }
    requires empty { IsEmpty memory.old to.object.0 to.index }
    requires free { 0 < count_by is_free memory.old.frames.owners }
    requires room { count_by is_there memory.old.pages.pages < memory.old.pages.most }
    requires meters { AreBelow (2 ^ 64 - 2 ^ 20) memory.old.frames.meters }
    ensures parts { PartsFrom memory.old memory.new from.0 to.object.0 to.index }
    ensures meters { Spends memory.old.frames.page 0 0 1 memory.old.frames.meters memory.new.frames.meters }
{
    let page = rename(memory, to);
    let frame = memory.frames.take(Owner::Page(page.0));
    let size = memory.frames.page();
    memory.frames.copy(from, 0, frame, 0, size);
    memory.pages.set_place(page, Place::Frame(frame));
}
