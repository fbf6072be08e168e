//! Each call of the pages and the objects, and permissions over several objects.
ghost use Rattle.std.specs.Prelude.{◌≡◌, ◌<◌, ℕ, not, length, count_by};
ghost use Rattle.genie_object.specs.Objects.{is_absent, object_at};

use crate::{Entry, EntryRef, Memory, ObjectId, Objects, PageId, Pages, Place};

// A page is shared by three, and gives its place up with the last of them.
#[test]
fn pages_come_and_go(rt: HostRuntime) {
    let mut pages = Pages::new(rt.alloc(), 2).expect(&rt, "memory");
    let page = pages.add(Place::Zero);
    pages.share(page);
    pages.share(page);
    assert_eq!(rt; pages.shares(page), 3);
    pages.set_place(page, Place::Slot(3));
    assert_eq!(rt; pages.leave(page), None);
    assert_eq!(rt; pages.leave(page), None);
    assert_eq!(rt; pages.shares(page), 1);
    assert_eq!(rt; pages.place(page), Place::Slot(3));
    assert_eq!(rt; pages.leave(page), Some(Place::Slot(3)));
}

#[test]
#[tactic(auto, using(crate::specs::Lemmas::ObjectLaws::made_there, crate::specs::Lemmas::ObjectLaws::made_empty))]
fn objects_come_and_go(rt: HostRuntime) {
    let mut objects = Objects::new(rt.alloc()).expect(&rt, "memory");
    let object = objects.make(2);
    assert_eq!(rt; objects.pages(object), 2);
    objects.remove(object);
}

// An entry that names the page and permits all.
fn permitted(page: PageId) -> Entry {
    Entry {
        page: Some(page),
        readable: true,
        writable: true,
    }
}

// Two objects of two entries.
fn two_objects(objects: &mut Objects) -> (ObjectId, ObjectId)
    requires none { count_by (λ o. not (is_absent o)) objects.old ≡ 0 }
    ensures first { length (object_at objects.new result.0.0) ≡ 2 }
    ensures second { length (object_at objects.new result.1.0) ≡ 2 }
{
    let first = objects.make(2);
    let second = objects.make(2);
    (first, second)
}

// Puts an entry that permits all.
#[tactic(auto, using(crate::specs::Lemmas::ObjectLaws::len_set))]
fn permit(objects: &mut Objects, object: ObjectId, index: u32, page: PageId)
    requires { index < length (object_at objects.old object.0) }
    ensures { (o : ℕ) → length (object_at objects.new o) ≡ length (object_at objects.old o) }
{
    let old = objects.replace(EntryRef { object, index }, permitted(page));
    let _ = old;
}

// Takes the permissions from each entry of the page.
#[tactic(auto, using(crate::specs::Lemmas::ObjectLaws::len_revoked))]
fn revoke(objects: &mut Objects, page: PageId)
    ensures { (o : ℕ) → length (object_at objects.new o) ≡ length (object_at objects.old o) }
{
    objects.revoke(page);
}

// The entry's page, and whether it permits all, or nothing.
fn permits(objects: &Objects, object: ObjectId, index: u32) -> (Option<PageId>, bool, bool)
    requires { index < length (object_at objects.now object.0) }
{
    let entry = objects.entry(EntryRef { object, index });
    (entry.page, entry.readable, entry.writable)
}

// A page that two objects share loses its permissions in both, and another page keeps its own.
#[test]
fn permissions_go_from_each_object(rt: HostRuntime) {
    let mut objects = Objects::new(rt.alloc()).expect(&rt, "memory");
    let (first, second) = two_objects(&mut objects);
    let (page, other) = (PageId(7), PageId(8));
    permit(&mut objects, first, 0, other);
    permit(&mut objects, first, 1, page);
    permit(&mut objects, second, 0, page);
    permit(&mut objects, second, 1, other);
    revoke(&mut objects, page);
    assert_eq!(rt; permits(&objects, first, 0), (Some(other), true, true));
    assert_eq!(rt; permits(&objects, first, 1), (Some(page), false, false));
    assert_eq!(rt; permits(&objects, second, 0), (Some(page), false, false));
    assert_eq!(rt; permits(&objects, second, 1), (Some(other), true, true));
}

// Fresh memory has all frames and slots free, and the pages of an object that is made there are untouched.
#[test]
fn memory_is_made(rt: HostRuntime) {
    let mut memory = Memory::new(rt.alloc(), 2, 16, 1).expect(&rt, "memory");
    assert_eq!(rt; (memory.frames.free(), memory.slots.free()), (2, 1));
    let object = memory.make_object(3);
    let last = memory.objects.entry(EntryRef { object, index: 2 });
    assert_eq!(rt; last.page, None);
}
