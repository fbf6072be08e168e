//! The memory: frames, logical pages, objects and slots.
ghost use Rattle.std.specs.Prelude.{◌≡◌, ◌≢◌, ◌<◌, ◌≤◌, ℕ, List, not, [], IsTrue, IfOk, count_by, length, replicate, slice_set};
ghost use Rattle.genie_base.specs.Counts.{is_page_size};
ghost use Rattle.genie_object.specs.Objects.{is_absent, no_entry, object_at};
ghost use Rattle.genie_object.specs.Memory.{seen};
ghost use Rattle.genie_object.specs.Sound.{IsSound, IsUnused};

use crate::objects::Objects;
use crate::pages::Pages;
use genie_base::{NoMemory, ObjectId};
use genie_frame::Frames;
use genie_store::Slots;
use std::alloc::Global;

/// The memory. `IsSound` says when its parts fit one another.
#[derive(Drop)]
pub struct Memory {
    pub frames: Frames,
    pub pages: Pages,
    pub objects: Objects,
    pub slots: Slots,
}

impl Memory {
    /// Memory of `frames` free frames with `page` bytes each, and of `slots` free slots. It has no object and no page yet,
    /// and room for a page in each frame and in each slot.
    pub fn new(alloc: Global, frames: u32, page: u32, slots: u32) -> Result<Memory, NoMemory>
        requires some { 1 ≤ frames }
        requires most { frames ≤ 4096 }
        requires size { IsTrue (is_page_size page) }
        requires slots { slots ≤ 8192 }
        ensures unused { IfOk result (λ m. IsUnused m frames page slots) }
        ensures sound { IfOk result (λ m. IsSound m) }
    {
        let frames_free = Frames::new(alloc, frames, page)?;
        let pages = Pages::new(alloc, frames + slots)?;
        let objects = Objects::new(alloc)?;
        let slots = Slots::new(alloc, slots)?;
        Ok(Memory {
            frames: frames_free,
            pages,
            objects,
            slots,
        })
    }

    /// Makes an object of `pages` untouched pages.
    pub fn make_object(&mut self, pages: u32) -> ObjectId
        requires sound { IsSound self.old }
        requires room { count_by (λ o. not (is_absent o)) self.old.objects < 512 }
        requires some { 1 ≤ pages }
        requires most { pages ≤ 64 }
        ensures was_absent { object_at self.old.objects result.0 ≡ [] }
        ensures made { self.new ≡ record self.old { objects = slice_set self.old.objects result.0 (replicate pages no_entry) } }
        ensures number { length (object_at self.new.objects result.0) ≡ pages }
        ensures sound { IsSound self.new }
        ensures seen { (slots : ℕ → List ℕ) → seen self.new slots ≡ seen self.old slots }
    {
        self.objects.make(pages)
    }
}
