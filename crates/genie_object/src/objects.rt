//! The objects that hold the pages of regions.
ghost use Rattle.std.specs.Prelude.{◌≡◌, ◌≢◌, ◌<◌, ◌≤◌, not, false, [], All, None, length, map, replicate, count_by, slice_set, IfOk};
ghost use Rattle.genie_object.specs.Objects.{object_at, entry_at, set_entry, is_absent, no_entry, revoked};

use crate::object::Object;
use crate::pages::PageId;
use genie_base::{FreeList, NoMemory, ObjectId};
use std::alloc::{AllocError, Global};
use std::marker::Model;

/// What an object says of one of its pages: the page, where it was touched, and what may be done in place.
#[derive(Clone, Copy, Debug, PartialEq, Eq)]
pub struct Entry {
    pub page: Option<PageId>,
    pub readable: bool,
    pub writable: bool,
}

/// One entry of an object.
#[derive(Clone, Copy, Debug, PartialEq, Eq)]
pub struct EntryRef {
    pub object: ObjectId,
    pub index: u32,
}

/// The `len` bytes of an object from place `off` on.
#[derive(Clone, Copy, Debug, PartialEq, Eq)]
pub struct Range {
    pub object: ObjectId,
    pub off: u32,
    pub len: u32,
}

/// Room for 512 objects of 64 entries, reserved by `new`. Contracts see the entries of each object; one that isn't there
/// has none.
#[derive(Drop)]
pub struct Objects {
    items: Vec<Object>,
    // The numbers of the objects that aren't there, each once.
    free: FreeList,
}

impl Model for Objects {
    ghost use Rattle.std.specs.Prelude.{List};
    ghost use Rattle.genie_object.specs.declared.objects.Entry.{Entry};
    ghost use Rattle.genie_object.specs.Objects.{AreListed};

    ghost Value = { List (List Entry) };

    ghost view = { λ a. a.items.items };

    ghost invariant = { λ a. AreListed a.items.items a.free.list a.free.room };
}

impl Objects {
    /// No object.
    pub fn new(alloc: Global) -> Result<Objects, NoMemory>
        ensures { IfOk result (λ objects. objects ≡ replicate 512 []) }
    {
        let items = all_empty(alloc)?;
        let free = FreeList::below(alloc, OBJECTS)?;
        Ok(Objects { items, free })
    }

    /// Makes an object of `pages` empty entries.
    pub fn make(&mut self, pages: u32) -> ObjectId
        requires room { count_by (λ o. not (is_absent o)) self.old < 512 }
        requires some { 1 ≤ pages }
        requires most { pages ≤ 64 }
        ensures there { result.0 < length self.old }
        ensures was_absent { object_at self.old result.0 ≡ [] }
        ensures objects { self.new ≡ slice_set self.old result.0 (replicate pages no_entry) }
    {
        let object = self.free.take();
        let entries = &mut self.items[object as usize];
        entries.reset(pages as usize);
        ObjectId(object)
    }

    /// Takes an object away whose entries are all empty.
    pub fn remove(&mut self, object: ObjectId)
        requires there { object_at self.old object.0 ≢ [] }
        requires empty { All (λ e. e.page ≡ None) (object_at self.old object.0) }
        ensures { self.new ≡ slice_set self.old object.0 [] }
    {
        let entries = &mut self.items[object.0 as usize];
        entries.reset(0);
        self.free.give(object.0);
    }

    pub fn entry(&self, at: EntryRef) -> Entry
        requires { at.index < length (object_at self.now at.object.0) }
        ensures { result ≡ entry_at self.now at.object.0 at.index }
    {
        self.items[at.object.0 as usize].entry(at.index as usize)
    }

    /// Puts an entry in the place of another, and answers that one.
    pub fn replace(&mut self, at: EntryRef, entry: Entry) -> Entry
        requires { at.index < length (object_at self.old at.object.0) }
        ensures old { result ≡ entry_at self.old at.object.0 at.index }
        ensures objects { self.new ≡ set_entry self.old at.object.0 at.index entry }
    {
        let old = self.entry(at);
        let entries = &mut self.items[at.object.0 as usize];
        entries.set(at.index as usize, entry);
        old
    }

    /// Takes the write permission from one entry.
    pub fn forbid_writing(&mut self, at: EntryRef)
        requires { at.index < length (object_at self.old at.object.0) }
        ensures { self.new ≡ set_entry self.old at.object.0 at.index (record (entry_at self.old at.object.0 at.index) { writable = false }) }
    {
        let mut entry = self.entry(at);
        entry.writable = false;
        self.replace(at, entry);
    }

    /// How many entries the object has.
    pub fn pages(&self, object: ObjectId) -> u32
        requires { object_at self.now object.0 ≢ [] }
        ensures number { result ≡ length (object_at self.now object.0) }
        ensures most { result ≤ 64 }
    {
        self.items[object.0 as usize].len() as u32
    }

    /// Takes both permissions from each entry that names the page, as a page needs that leaves its frame. It looks at all
    /// entries, since many may share the page. Only the single entry of a page that isn't shared can permit writing, and
    /// `forbid_writing` is enough for that.
    pub fn revoke(&mut self, page: PageId)
        ensures { self.new ≡ map (map (revoked page.0)) self.old }
    {
        revoke_objects(&mut self.items, page);
    }
}

// 512 objects without entries.
fn all_empty(alloc: Global) -> Result<Vec<Object>, AllocError>
    ensures { IfOk result (λ v. v.items ≡ replicate 512 []) }
{
    let mut all = Vec::with_capacity(alloc, OBJECTS as usize)?;
    for _ in 0..OBJECTS {
        all.push_reserved(Object::empty(alloc)?);
    }
    Ok(all)
}

/// How many objects there may be.
pub const OBJECTS: u32 = 512;

#[tactic(auto, using(crate::proofs::Mapped::mapped_more))]
fn revoke_objects(objects: &mut [Object], page: PageId)
    ensures { objects.new ≡ map (map (revoked page.0)) objects.old }
{
    for object in objects.iter_mut() {
        object.revoke(page);
    }
}
