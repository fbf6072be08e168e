//! What an entry and a page have.
ghost use Rattle.std.specs.Prelude.{◌≡◌, ◌<◌, true, false, length, Some, None, IfSome};
ghost use Rattle.genie_object.specs.Objects.{object_at, entry_at};
ghost use Rattle.genie_object.specs.Pages.{page_at};
ghost use Rattle.genie_object.specs.Sound.{IsSound, strong_at};
ghost use Rattle.genie_object.specs.Costs.{place_of};

use genie_frame::FrameId;
use genie_object::{EntryRef, Memory, PageId, Place};

// The page of the entry.
pub(crate) fn page_of(memory: &Memory, at: EntryRef) -> Option<PageId>
    requires there { at.index < length (object_at memory.now.objects at.object.0) }
    ensures { result ≡ (entry_at memory.now.objects at.object.0 at.index).page }
{
    let entry = memory.objects.entry(at);
    entry.page
}

// Where the entry's bytes are.
pub(crate) fn place_of(memory: &Memory, at: EntryRef) -> Place
    requires there { at.index < length (object_at memory.now.objects at.object.0) }
    requires pages { (p : PageId) → (entry_at memory.now.objects at.object.0 at.index).page ≡ Some p → 0 < (page_at memory.now.pages.pages p.0).shares }
    ensures { result ≡ place_of memory.now at.object.0 at.index }
{
    let entry = memory.objects.entry(at);
    match entry.page {
        Some(page) => memory.pages.place(page),
        None => Place::Zero,
    }
}

// The page of the entry, where no other entry names it.
pub(crate) fn own_page(memory: &Memory, at: EntryRef) -> Option<PageId>
    requires sound { IsSound memory.now }
    requires there { at.index < length (object_at memory.now.objects at.object.0) }
    ensures named { IfSome result (λ p. (entry_at memory.now.objects at.object.0 at.index).page ≡ Some p) }
    ensures alone { IfSome result (λ p. (page_at memory.now.pages.pages p.0).shares ≡ 1) }
    ensures many { result ≡ None → (p : PageId) → (entry_at memory.now.objects at.object.0 at.index).page ≡ Some p → 1 < (page_at memory.now.pages.pages p.0).shares }
{
    let entry = memory.objects.entry(at);
    match entry.page {
        Some(page) => {
            if memory.pages.shares(page) == 1 {
                Some(page)
            } else {
                None
            }
        }
        None => None,
    }
}

// The frame of the page, where it is in one.
pub(crate) fn frame_of(memory: &Memory, page: PageId) -> Option<FrameId>
    requires page { 0 < (page_at memory.now.pages.pages page.0).shares }
    ensures place { IfSome result (λ f. (page_at memory.now.pages.pages page.0).place ≡ Place.Frame f) }
    ensures none { result ≡ None → (f : FrameId) → (page_at memory.now.pages.pages page.0).place ≡ Place.Frame f → true ≡ false }
{
    match memory.pages.place(page) {
        Place::Frame(f) => Some(f),
        Place::Zero => None,
        Place::Slot(_) => None,
    }
}

// The frame of the page, where it isn't strongly lent.
pub(crate) fn unlent_frame(memory: &Memory, page: PageId) -> Option<FrameId>
    requires sound { IsSound memory.now }
    requires page { 0 < (page_at memory.now.pages.pages page.0).shares }
    ensures place { IfSome result (λ f. (page_at memory.now.pages.pages page.0).place ≡ Place.Frame f) }
    ensures unlent { IfSome result (λ f. strong_at memory.now.frames.counts f.0 ≡ 0) }
    ensures lent { result ≡ None → (f : FrameId) → (page_at memory.now.pages.pages page.0).place ≡ Place.Frame f → 0 < strong_at memory.now.frames.counts f.0 }
{
    match memory.pages.place(page) {
        Place::Frame(f) => {
            if memory.frames.counts(f).strong == 0 {
                Some(f)
            } else {
                None
            }
        }
        Place::Zero => None,
        Place::Slot(_) => None,
    }
}
