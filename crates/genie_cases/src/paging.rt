//! More pages than frames: they go to the store and come back.
ghost use Rattle.std.specs.Prelude.{◌≡◌, [], OnOk};
ghost use Rattle.genie_cases.specs.Benches.{IsFit, IsWell, IsIdle};

use crate::bench::{Bench, Trouble, blank};
use genie_hiding::HiddenCache;
use genie_store::{FailingStore, MemoryStore, Store};

// Writes each page from this one on with its number, after room was made for two.
fn write_each<S: Store>(
    bench: &mut Bench<S>,
    hidden: &mut HiddenCache,
    index: u32,
) -> Result<(), Trouble>
    requires well { IsWell bench.old.memory (S.view bench.old.store) bench.old.object.0 bench.old.entries bench.old.pages bench.old.most }
    requires idle { IsIdle bench.old.memory }
    requires none { hidden.old ≡ [] }
    ensures well { IsWell bench.new.memory (S.view bench.new.store) bench.new.object.0 bench.new.entries bench.new.pages bench.new.most }
    ensures idle { IsIdle bench.new.memory }
    ensures none { hidden.new ≡ [] }
{
    if index >= 20 {
        return Ok(());
    }
    bench.make_room(hidden, 2)?;
    bench.write(index, index as u8)?;
    write_each(bench, hidden, index + 1)
}

// Whether each page from this one on has its number, where each is read after room was made for two.
fn read_each<S: Store>(
    bench: &mut Bench<S>,
    hidden: &mut HiddenCache,
    index: u32,
) -> Result<bool, Trouble>
    requires well { IsWell bench.old.memory (S.view bench.old.store) bench.old.object.0 bench.old.entries bench.old.pages bench.old.most }
    requires idle { IsIdle bench.old.memory }
    requires none { hidden.old ≡ [] }
    ensures well { IsWell bench.new.memory (S.view bench.new.store) bench.new.object.0 bench.new.entries bench.new.pages bench.new.most }
    ensures idle { IsIdle bench.new.memory }
    ensures none { hidden.new ≡ [] }
{
    if index >= 20 {
        return Ok(true);
    }
    bench.make_room(hidden, 2)?;
    if bench.read(index)? != [index as u8; 16] {
        return Ok(false);
    }
    read_each(bench, hidden, index + 1)
}

#[test]
fn twenty_pages_in_sixteen_frames(rt: HostRuntime) {
    let store = MemoryStore::new(rt.alloc());
    let mut pages = blank(rt.alloc(), store, 16, 24, 20).expect(&rt, "memory");
    let mut hidden = HiddenCache::new(rt.alloc()).expect(&rt, "memory");
    assert_eq!(rt; write_each(&mut pages, &mut hidden, 0), Ok(()));
    assert_eq!(rt; read_each(&mut pages, &mut hidden, 0), Ok(true));
    assert!(rt; pages.memory.frames.meters().puts >= 4);
}

// The first call of the store fails, and the same step then works.
#[test]
fn the_store_fails_once(rt: HostRuntime) {
    let store = FailingStore::new(rt.alloc(), &[1]).expect(&rt, "memory");
    let mut pages = blank(rt.alloc(), store, 16, 24, 20).expect(&rt, "memory");
    let mut hidden = HiddenCache::new(rt.alloc()).expect(&rt, "memory");
    assert_eq!(rt; write_each(&mut pages, &mut hidden, 0), Err(Trouble::Store));
    assert_eq!(rt; pages.memory.frames.meters().puts, 1);
    assert_eq!(rt; write_each(&mut pages, &mut hidden, 15), Ok(()));
    assert_eq!(rt; read_each(&mut pages, &mut hidden, 0), Ok(true));
}

// Whether each page from this one on has its number, where it is.
fn has_each<S: Store>(bench: &mut Bench<S>, index: u32) -> Result<bool, Trouble>
    requires fit { IsFit bench.old.memory (S.view bench.old.store) bench.old.object.0 bench.old.entries }
{
    if index >= 20 {
        return Ok(true);
    }
    if bench.peek(index)? != [index as u8; 16] {
        return Ok(false);
    }
    has_each(bench, index + 1)
}

// Writes 20 pages, lends three of them, and puts none, two, all that may go, and one more. Answers how many went.
fn puts_by_turns<S: Store>(
    bench: &mut Bench<S>,
    hidden: &mut HiddenCache,
    is_strong: bool,
) -> Result<[u32; 4], Trouble>
    requires well { IsWell bench.old.memory (S.view bench.old.store) bench.old.object.0 bench.old.entries bench.old.pages bench.old.most }
    requires idle { IsIdle bench.old.memory }
    requires none { hidden.old ≡ [] }
    ensures fit { OnOk result (IsFit bench.new.memory (S.view bench.new.store) bench.new.object.0 bench.new.entries) }
{
    write_each(bench, hidden, 0)?;
    bench.lend(is_strong, 5, 40)?;
    let none = bench.put_out(hidden, 0)?;
    let two = bench.put_out(hidden, 2)?;
    let rest = bench.put_out(hidden, 100)?;
    let more = bench.put_out(hidden, 1)?;
    Ok([none, two, rest, more])
}

// Whether so many pages went by turns, and each page is left with its number.
fn puts_and_keeps<S: Store>(
    bench: &mut Bench<S>,
    hidden: &mut HiddenCache,
    is_strong: bool,
    want: [u32; 4],
) -> Result<bool, Trouble>
    requires well { IsWell bench.old.memory (S.view bench.old.store) bench.old.object.0 bench.old.entries bench.old.pages bench.old.most }
    requires idle { IsIdle bench.old.memory }
    requires none { hidden.old ≡ [] }
{
    let went = puts_by_turns(bench, hidden, is_strong)?;
    if went != want {
        return Ok(false);
    }
    has_each(bench, 0)
}

// Strongly lent pages go, too, and their frames are nobody's.
#[test]
fn strongly_lent_pages_go(rt: HostRuntime) {
    let store = MemoryStore::new(rt.alloc());
    let mut pages = blank(rt.alloc(), store, 32, 40, 20).expect(&rt, "memory");
    let mut hidden = HiddenCache::new(rt.alloc()).expect(&rt, "memory");
    assert_eq!(rt;
        puts_by_turns(&mut pages, &mut hidden, true),
        Ok([0, 2, 18, 0])
    );
    assert_eq!(rt; pages.memory.frames.free(), 29);
    assert_eq!(rt; pages.memory.frames.meters().puts, 20);
}

// Weakly lent pages stay.
#[test]
fn weakly_lent_pages_stay(rt: HostRuntime) {
    let store = MemoryStore::new(rt.alloc());
    let mut pages = blank(rt.alloc(), store, 32, 40, 20).expect(&rt, "memory");
    let mut hidden = HiddenCache::new(rt.alloc()).expect(&rt, "memory");
    assert_eq!(rt;
        puts_by_turns(&mut pages, &mut hidden, false),
        Ok([0, 2, 15, 0])
    );
    assert_eq!(rt; pages.memory.frames.free(), 29);
    assert_eq!(rt; pages.memory.frames.meters().puts, 17);
}
