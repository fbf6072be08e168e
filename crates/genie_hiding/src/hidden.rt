//! The cache of hidden regions.
ghost use Rattle.std.specs.Prelude.{◌≡◌, ◌≢◌, ◌+◌, ◌<◌, ◌≤◌, ◌++◌, ◌∷◌, ◌⊎◌, ◌&&◌, ℕ, [], true, false, not, length, map, count_by, slice_index_or, position, IfOk, IfSome, Some, None, vec_capacity};
ghost use Rattle.genie_frame.specs.FrameTable.{owner_at, counts_at, is_free};
ghost use Rattle.genie_frame.specs.FrameTable as table;
ghost use Rattle.genie_store.specs.StoreView.{StoreView};
ghost use Rattle.genie_object.specs.declared.memory.Memory.{Memory as MemoryView};
ghost use Rattle.genie_object.specs.Memory.{entry_frame};
ghost use Rattle.genie_object.specs.Objects.{object_at, entry_at, names};
ghost use Rattle.genie_object.specs.Pages.{page_at};
ghost use Rattle.genie_object.specs.Sound.{IsSound, FitsHidden};
ghost use Rattle.genie_hiding.specs.Discarding.{Discards, is_object_of};
ghost use Rattle.genie_object.specs.Leaving.{Empties, is_object};
ghost use Rattle.genie_hiding.specs.Trimming.{AllStay};
ghost use Rattle.genie_hiding.specs.Rooms.{MakesRoom, IsShed, AllShed};
ghost use Rattle.genie_hiding.specs.Hidden.{no_hidden, object_of, objects_of, others, is_of, is_hidden, is_among, has_hidden, is_same, region_at, without, AreFew, IsKept, IsTakenBack};
ghost use Rattle.genie_hiding.specs.Marking.{marked, is_marked, MarksObject};

use crate::trim::trim;
use genie_base::{NoMemory, ObjectId};
use genie_fault::leave::drop_page;
use genie_fault::remove_object;
use genie_frame::{FrameId, Owner};
use genie_object::{Entry, EntryRef, Memory, Objects, PageId, Place};
use genie_region::Region;
use std::alloc::Global;
use std::marker::Model;

/// A hidden region, and the number of the process that had it, below 16.
#[derive(Clone, Copy, Debug, PartialEq, Eq)]
pub struct Hidden {
    pub pid: u32,
    pub region: Region,
}

/// The hidden regions of all processes, at most 32 of each, the oldest first. All memory is reserved by `new`. Contracts
/// see the list.
#[derive(Drop)]
pub struct HiddenCache {
    kept: Vec<Hidden>,
}

impl Model for HiddenCache {
    ghost use Rattle.std.specs.Prelude.{List, vec_capacity};
    ghost use Rattle.genie_hiding.specs.declared.hidden.Hidden.{Hidden};
    ghost use Rattle.genie_hiding.specs.Hidden.{IsKept};

    ghost Value = { List Hidden };

    ghost view = { λ c. c.kept.items };

    ghost invariant = { λ c. IsKept c.kept.items (vec_capacity c.kept) };
}

// 32 regions of each of 16 processes.
const MOST_HIDDEN: usize = 512;

impl HiddenCache {
    /// No region.
    pub fn new(alloc: Global) -> Result<HiddenCache, NoMemory>
        ensures { IfOk result (λ cache. cache ≡ []) }
    {
        Ok(HiddenCache {
            kept: Vec::with_capacity(alloc, MOST_HIDDEN)?,
        })
    }

    /// How many regions of the process are kept.
    pub fn count(&self, pid: u32) -> u32
        ensures number { result ≡ count_by (is_of pid) self.now }
        ensures few { AreFew self.now }
    {
        self.kept.iter().filter(|h| is_of(**h, pid)).count() as u32
    }

    /// Keeps a region hidden, with those of its pages that are its own and in a frame that no device holds. Its other
    /// entries are emptied, and a page that only they named goes; a lent frame of such a page is nobody's until its loans
    /// are back.
    pub fn hide(&mut self, memory: &mut Memory, pid: u32, region: Region)
        requires process { pid < 16 }
        requires room { count_by (is_of pid) self.old < 32 }
        requires sound { IsSound memory.old }
        requires fits { FitsHidden memory.old (objects_of self.old) }
        requires there { object_at memory.old.objects region.object.0 ≢ [] }
        requires apart { is_among region.object.0 (objects_of self.old) ≡ false }
        ensures kept { self.new ≡ self.old ++ record { pid = pid; region = region } ∷ [] }
        ensures empties { Empties (is_object region.object.0) memory.old memory.new }
        ensures fits { FitsHidden memory.new (objects_of self.new) }
        ensures stays { AllStay memory.old memory.new region.object.0 }
    {
        trim(memory, region.object);
        self.kept.push_reserved(Hidden { pid, region });
    }

    /// Takes out the oldest hidden region of that process, start and size, and answers it. `None` comes exactly where
    /// there is none.
    pub fn reuse(&mut self, pid: u32, start: u32, pages: u32) -> Option<Region>
        ensures region { result ≡ region_at (position (is_same pid start pages) self.old) self.old }
        ensures kept { self.new ≡ without (position (is_same pid start pages) self.old) self.old }
        ensures fits { (m : MemoryView) → FitsHidden m (objects_of self.old) → FitsHidden m (objects_of self.new) }
        ensures taken { IfSome result (λ region. (m : MemoryView) → FitsHidden m (objects_of self.old) → IsTakenBack m self.new region) }
    {
        match place_of(self.kept.as_slice(), pid, start, pages) {
            Some(at) => Some(self.kept.remove(at).region),
            None => None,
        }
    }

    /// Drops all hidden regions of that process, with their objects. A lent frame of such a page is nobody's until its
    /// loans are back.
    pub fn discard(&mut self, memory: &mut Memory, pid: u32)
        requires sound { IsSound memory.old }
        requires fits { FitsHidden memory.old (objects_of self.old) }
        ensures kept { self.new ≡ others pid self.old }
        ensures gone { Discards (is_object_of pid self.old) memory.old memory.new }
        ensures fits { FitsHidden memory.new (objects_of self.new) }
    {
        discard_from(&mut self.kept, memory, pid);
    }

    /// Whether the frame's page is one of a hidden region. It looks through the cache.
    pub fn holds(&self, memory: &Memory, f: FrameId) -> bool
        requires there { f.0 < length memory.now.frames.owners }
        requires fits { FitsHidden memory.now (objects_of self.now) }
        ensures { result ≡ has_hidden memory.now.objects (objects_of self.now) (owner_at memory.now.frames f.0) }
    {
        match memory.frames.owner(f) {
            Owner::Page(page) => match self.find(&memory.objects, PageId(page)) {
                Some(_) => true,
                None => false,
            },
            _ => false,
        }
    }

    /// Frees a frame with a page of a hidden region, unless it is lent, and empties the page's entry. Answers whether it
    /// did; where it didn't, all is as before. It looks through the cache.
    pub fn shed(&mut self, memory: &mut Memory, f: FrameId) -> bool
        requires sound { IsSound memory.old }
        requires fits { FitsHidden memory.old (objects_of self.old) }
        requires there { f.0 < length memory.old.frames.owners }
        ensures answer { result ≡ (has_hidden memory.old.objects (objects_of self.old) (owner_at memory.old.frames f.0) && not (table.is_lent (counts_at memory.old.frames f.0))) }
        ensures kept { self.new ≡ self.old }
        ensures room { (v : StoreView) → MakesRoom (objects_of self.old) memory.old memory.new v v }
        ensures freed { result ≡ true → owner_at memory.new.frames f.0 ≡ Owner.Free }
        ensures meters { memory.new.frames.meters ≡ memory.old.frames.meters }
        ensures unchanged { result ≡ false → memory.new ≡ memory.old }
    {
        let Owner::Page(page) = memory.frames.owner(f) else {
            return false;
        };
        let counts = memory.frames.counts(f);
        if counts.is_lent() {
            return false;
        }
        match self.find(&memory.objects, PageId(page)) {
            Some(at) => {
                drop_page(memory, at, PageId(page));
                true
            }
            None => false,
        }
    }

    /// Sheds hidden pages that aren't lent, those of the oldest region first, until `k` frames are free. It does nothing
    /// where `k` are free already, and leaves no such page where too few are free afterwards. The regions stay.
    pub fn shed_until(&self, memory: &mut Memory, k: u32)
        requires sound { IsSound memory.old }
        requires fits { FitsHidden memory.old (objects_of self.now) }
        ensures room { (v : StoreView) → MakesRoom (objects_of self.now) memory.old memory.new v v }
        ensures idle { k ≤ count_by is_free memory.old.frames.owners → memory.new ≡ memory.old }
        ensures end { (k ≤ count_by is_free memory.new.frames.owners) ⊎ AllShed memory.new (objects_of self.now) }
        ensures meters { memory.new.frames.meters ≡ memory.old.frames.meters }
    {
        'regions: for at in 0..self.kept.len() {
            if memory.frames.free() >= k {
                return;
            }
            self.shed_object(memory, self.object(at));
        }
    }

    /// Marks each frame that has a page of a hidden region, by one walk through the cache.
    pub fn mark(&self, memory: &Memory, marks: &mut [bool])
        requires sound { IsSound memory.now }
        requires fits { FitsHidden memory.now (objects_of self.now) }
        requires room { length memory.now.frames.owners ≤ length marks.old }
        requires none { (f : ℕ) → is_marked marks.old f ≡ false }
        ensures size { length marks.new ≡ length marks.old }
        ensures marks { (f : ℕ) → is_marked marks.new f ≡ has_hidden memory.now.objects (objects_of self.now) (owner_at memory.now.frames f) }
    {
        'regions: for at in 0..self.kept.len() {
            mark_object(memory, self.object(at), marks);
        }
    }

    // The object of the region at this place, counted from the oldest.
    fn object(&self, at: usize) -> ObjectId
        requires { at < length self.now }
        ensures { result.0 ≡ slice_index_or (objects_of self.now) at 0 }
    {
        self.kept[at].region.object
    }

    // The entry of a hidden region that names the page.
    fn find(&self, objects: &Objects, page: PageId) -> Option<EntryRef>
        requires { (k : ℕ) → k < length self.now → object_at objects.now (slice_index_or (objects_of self.now) k 0) ≢ [] }
        ensures named { IfSome result (λ at. names page.0 (entry_at objects.now at.object.0 at.index) ≡ true) }
        ensures hidden { IfSome result (λ at. is_among at.object.0 (objects_of self.now) ≡ true) }
        ensures some { IfSome result (λ at. is_hidden objects.now (objects_of self.now) page.0 ≡ true) }
        ensures none { result ≡ None → is_hidden objects.now (objects_of self.now) page.0 ≡ false }
    {
        for k in 0..self.kept.len() {
            let object = self.object(k);
            if let Some(index) = index_of(objects, object, page) {
                return Some(EntryRef { object, index });
            }
        }
        None
    }

    // Sheds the pages of a hidden region.
    fn shed_object(&self, memory: &mut Memory, object: ObjectId)
        requires sound { IsSound memory.old }
        requires fits { FitsHidden memory.old (objects_of self.now) }
        requires hidden { is_among object.0 (objects_of self.now) ≡ true }
        requires there { object_at memory.old.objects object.0 ≢ [] }
        ensures room { (v : StoreView) → MakesRoom (objects_of self.now) memory.old memory.new v v }
        ensures shed { (i : ℕ) → IsShed memory.new object.0 i }
        ensures meters { memory.new.frames.meters ≡ memory.old.frames.meters }
    {
        let pages = memory.objects.pages(object);
        'entries: for index in 0..pages {
            self.shed_entry(memory, EntryRef { object, index });
        }
    }

    // Sheds the page of a hidden region's entry, unless its frame is lent.
    fn shed_entry(&self, memory: &mut Memory, at: EntryRef)
        requires sound { IsSound memory.old }
        requires fits { FitsHidden memory.old (objects_of self.now) }
        requires hidden { is_among at.object.0 (objects_of self.now) ≡ true }
        requires there { at.index < length (object_at memory.old.objects at.object.0) }
        ensures room { (v : StoreView) → MakesRoom (objects_of self.now) memory.old memory.new v v }
        ensures shed { IsShed memory.new at.object.0 at.index }
        ensures meters { memory.new.frames.meters ≡ memory.old.frames.meters }
    {
        let entry = memory.objects.entry(at);
        let Some(page) = entry.page else {
            return;
        };
        if is_lent(memory, page) {
            return;
        }
        drop_page(memory, at, page);
    }
}

// Drops the regions of a process, the oldest first.
fn discard_from(kept: &mut Vec<Hidden>, memory: &mut Memory, pid: u32)
    requires sound { IsSound memory.old }
    requires fits { FitsHidden memory.old (objects_of kept.old.items) }
    requires few { IsKept kept.old.items (vec_capacity kept.old) }
    ensures kept { kept.new.items ≡ others pid kept.old.items }
    ensures gone { Discards (is_object_of pid kept.old.items) memory.old memory.new }
    ensures fits { FitsHidden memory.new (objects_of kept.new.items) }
    ensures few { IsKept kept.new.items (vec_capacity kept.new) }
{
    'regions: for done in 0..kept.len() {
        let Some(at) = first_of(kept.as_slice(), pid) else {
            return;
        };
        let object = kept.remove(at).region.object;
        remove_object(memory, object);
    }
}

// Whether the page is in a lent frame.
fn is_lent(memory: &Memory, page: PageId) -> bool
    requires sound { IsSound memory.now }
    requires page { 0 < (page_at memory.now.pages.pages page.0).shares }
    ensures lent { (f : FrameId) → (page_at memory.now.pages.pages page.0).place ≡ Place.Frame f → result ≡ table.is_lent (counts_at memory.now.frames f.0) }
{
    match memory.pages.place(page) {
        Place::Frame(f) => {
            let counts = memory.frames.counts(f);
            counts.is_lent()
        }
        Place::Zero => false,
        Place::Slot(_) => false,
    }
}

// Marks the frames that have the pages of an object.
fn mark_object(memory: &Memory, object: ObjectId, marks: &mut [bool])
    requires sound { IsSound memory.now }
    requires there { object_at memory.now.objects object.0 ≢ [] }
    requires room { length memory.now.frames.owners ≤ length marks.old }
    ensures size { length marks.new ≡ length marks.old }
    ensures marks { MarksObject memory.now object.0 (length (object_at memory.now.objects object.0)) marks.old marks.new }
{
    let pages = memory.objects.pages(object);
    'entries: for index in 0..pages {
        mark_entry(memory, EntryRef { object, index }, marks);
    }
}

// Marks the frame that has an entry's page.
fn mark_entry(memory: &Memory, at: EntryRef, marks: &mut [bool])
    requires sound { IsSound memory.now }
    requires there { at.index < length (object_at memory.now.objects at.object.0) }
    requires room { length memory.now.frames.owners ≤ length marks.old }
    ensures size { length marks.new ≡ length marks.old }
    ensures marks { marks.new ≡ marked (entry_frame memory.now at.object.0 at.index) marks.old }
{
    let entry = memory.objects.entry(at);
    if let Some(page) = entry.page {
        if let Place::Frame(f) = memory.pages.place(page) {
            marks[f.0 as usize] = true;
        }
    }
}

// Whether the region was the process's.
fn is_of(hidden: Hidden, pid: u32) -> bool
    ensures { result ≡ is_of pid hidden }
{
    hidden.pid == pid
}

// Whether the region is of that process, start and size.
fn is_same(hidden: Hidden, pid: u32, start: u32, pages: u32) -> bool
    ensures { result ≡ is_same pid start pages hidden }
{
    hidden.pid == pid && hidden.region.start == start && hidden.region.pages == pages
}

// Where the first region of that process, start and size is.
fn place_of(kept: &[Hidden], pid: u32, start: u32, pages: u32) -> Option<usize>
    ensures { result ≡ position (is_same pid start pages) kept.now }
{
    kept.iter().position(|h| is_same(*h, pid, start, pages))
}

// Where the first region of the process is.
fn first_of(kept: &[Hidden], pid: u32) -> Option<usize>
    ensures { result ≡ position (is_of pid) kept.now }
{
    kept.iter().position(|h| is_of(*h, pid))
}

// Whether the entry names the page.
fn is_page(entry: Entry, page: PageId) -> bool
    ensures { result ≡ names page.0 entry }
{
    match entry.page {
        Some(named) => named.0 == page.0,
        None => false,
    }
}

// The first entry of the object that names the page.
fn index_of(objects: &Objects, object: ObjectId, page: PageId) -> Option<u32>
    requires { object_at objects.now object.0 ≢ [] }
    ensures named { IfSome result (λ i. names page.0 (entry_at objects.now object.0 i) ≡ true) }
    ensures none { result ≡ None → count_by (names page.0) (object_at objects.now object.0) ≡ 0 }
{
    let pages = objects.pages(object);
    for index in 0..pages {
        if is_page(objects.entry(EntryRef { object, index }), page) {
            return Some(index);
        }
    }
    None
}
