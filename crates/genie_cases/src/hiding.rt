//! A region that is hidden, with a page in a slot, one in a frame, a lent one, one that another object shares, and an
//! untouched one.
ghost use Rattle.std.specs.Prelude.{◌≡◌, ◌≢◌, ◌<◌, [], length, OnOk};
ghost use Rattle.genie_object.specs.declared.memory.Memory.{Memory as MemoryView};
ghost use Rattle.genie_object.specs.Objects.{object_at};
ghost use Rattle.genie_object.specs.Sound.{IsSound, FitsHidden};
ghost use Rattle.genie_hiding.specs.Hidden.{objects_of};
ghost use Rattle.genie_cases.specs.Benches.{IsWell, IsIdle, KeepsSizes};

use crate::bench::{Bench, Trouble, blank, is_young, share_page};
use genie_base::{Area, ObjectId, RegionId, RegionState};
use genie_hiding::HiddenCache;
use genie_object::{EntryRef, Memory, Place};
use genie_region::Region;
use genie_store::{MemoryStore, Store};

// Six pages from page 40 on.
fn region_of(object: ObjectId) -> Region
    ensures { result.object ≡ object }
{
    Region {
        id: RegionId(5),
        start: 40,
        pages: 6,
        area: Area::App,
        state: RegionState::Live,
        writable: true,
        object,
    }
}

// Whether no region of another process, start or size is taken back.
fn misses(hidden: &mut HiddenCache) -> bool
    ensures fits { (m : MemoryView) → FitsHidden m (objects_of hidden.old) → FitsHidden m (objects_of hidden.new) }
{
    let process = hidden.reuse(2, 40, 6).is_none();
    let start = hidden.reuse(3, 41, 6).is_none();
    let size = hidden.reuse(3, 40, 5).is_none();
    process && start && size
}

// Hides the region and answers how many frames and slots are free.
fn hide(memory: &mut Memory, hidden: &mut HiddenCache, object: ObjectId) -> (u32, u32)
    requires sound { IsSound memory.old }
    requires there { object_at memory.old.objects object.0 ≢ [] }
    requires none { hidden.old ≡ [] }
    ensures sound { IsSound memory.new }
    ensures fits { FitsHidden memory.new (objects_of hidden.new) }
    ensures sizes { KeepsSizes memory.old memory.new }
{
    hidden.hide(memory, 3, region_of(object));
    (memory.frames.free(), memory.slots.free())
}

// Sheds what may go, and answers how many frames are free.
fn shed(memory: &mut Memory, hidden: &HiddenCache) -> u32
    requires sound { IsSound memory.old }
    requires fits { FitsHidden memory.old (objects_of hidden.now) }
    ensures sound { IsSound memory.new }
    ensures fits { FitsHidden memory.new (objects_of hidden.now) }
    ensures sizes { KeepsSizes memory.old memory.new }
{
    hidden.shed_until(memory, 100);
    memory.frames.free()
}

// Leaves pages 0 and 1 in slots, page 2 in a frame, page 3 strongly lent, page 4 in a frame that another object shares, and
// page 5 untouched.
fn make_pages<S: Store>(
    bench: &mut Bench<S>,
    hidden: &mut HiddenCache,
    other: ObjectId,
) -> Result<(), Trouble>
    requires well { IsWell bench.old.memory (S.view bench.old.store) bench.old.object.0 bench.old.entries bench.old.pages bench.old.most }
    requires idle { IsIdle bench.old.memory }
    requires none { hidden.old ≡ [] }
    requires other { 0 < length (object_at bench.old.memory.objects other.0) }
    ensures sound { OnOk result (IsSound bench.new.memory) }
    ensures there { OnOk result (object_at bench.new.memory.objects bench.new.object.0 ≢ []) }
    ensures other { OnOk result (0 < length (object_at bench.new.memory.objects other.0)) }
    ensures none { hidden.new ≡ [] }
{
    bench.write(0, 1)?;
    bench.write(1, 2)?;
    bench.make_room(hidden, 8)?;
    bench.write(2, 3)?;
    bench.write(3, 4)?;
    bench.write(4, 5)?;
    if bench.entries < 6 {
        return Err(Trouble::Limits);
    }
    let from = EntryRef {
        object: bench.object,
        index: 4,
    };
    let to = EntryRef {
        object: other,
        index: 0,
    };
    if !share_page(&mut bench.memory, from, to) {
        return Err(Trouble::Limits);
    }
    bench.lend(true, 48, 16)?;
    Ok(())
}

// The first byte of an object's first page, where that is in a frame.
fn first_byte(memory: &mut Memory, object: ObjectId) -> Option<u8>
    requires sound { IsSound memory.old }
    requires there { 0 < length (object_at memory.old.objects object.0) }
{
    if !is_young(memory) {
        return None;
    }
    let page = memory.objects.entry(EntryRef { object, index: 0 }).page?;
    let Place::Frame(frame) = memory.pages.place(page) else {
        return None;
    };
    let mut byte = [0];
    memory.frames.read(frame, 0, &mut byte);
    Some(byte[0])
}

// Hides a region, looks for others, sheds its pages, and takes it back or discards it. Answers whether each step left what
// it should: the page that another object shares stays with that, and so do its bytes.
fn comes_and_goes<S: Store>(
    bench: &mut Bench<S>,
    hidden: &mut HiddenCache,
    other: ObjectId,
    takes_back: bool,
) -> Result<bool, Trouble>
    requires well { IsWell bench.old.memory (S.view bench.old.store) bench.old.object.0 bench.old.entries bench.old.pages bench.old.most }
    requires idle { IsIdle bench.old.memory }
    requires none { hidden.old ≡ [] }
    requires other { length (object_at bench.old.memory.objects other.0) ≡ 1 }
{
    make_pages(bench, hidden, other)?;
    let hides = hide(&mut bench.memory, hidden, bench.object) == (5, 8);
    let misses = misses(hidden);
    let sheds = shed(&mut bench.memory, hidden) == 6;
    let keeps = hidden.count(3) == 1;
    if takes_back {
        let same = hidden.reuse(3, 40, 6) == Some(region_of(bench.object));
        let shared = first_byte(&mut bench.memory, other) == Some(5);
        return Ok(hides && misses && sheds && keeps && same && shared && hidden.count(3) == 0);
    }
    hidden.discard(&mut bench.memory, 3);
    Ok(hides && misses && sheds && keeps && hidden.count(3) == 0)
}

#[test]
fn a_region_is_hidden(rt: HostRuntime) {
    for takes_back in [true, false] {
        let store = MemoryStore::new(rt.alloc());
        let mut pages = blank(rt.alloc(), store, 8, 8, 6).expect(&rt, "memory");
        let mut hidden = HiddenCache::new(rt.alloc()).expect(&rt, "memory");
        let other = pages.make_other();
        assert_eq!(rt;
            comes_and_goes(&mut pages, &mut hidden, other, takes_back),
            Ok(true)
        );
    }
}
