//! Output of three pages: one untouched, one in a slot, one in a frame that another entry shares.
ghost use Rattle.std.specs.Prelude.{◌≡◌, ◌<◌, ◌≤◌, []};
ghost use Rattle.genie_plan.specs.Plans.{CanSend};
ghost use Rattle.genie_cases.specs.Benches.{IsFit, IsWell, IsIdle};

use crate::bench::{Bench, Trouble, blank};
use genie_device::Outgoing;
use genie_frame::{Counts, FrameId, Frames};
use genie_hiding::HiddenCache;
use genie_plan::{FrameSource, OutPlan};
use genie_store::{FailingStore, MemoryStore, Store};

// What 40 bytes from place 5 of the three pages on have.
const BEFORE: [u8; 40] = [
    0, 0, 0, 0, 0, 0, 0, 0, 0, 0, 0, 7, 7, 7, 7, 7, 7, 7, 7, 7, 7, 7, 7, 7, 7, 7, 7, 9, 9, 9, 9, 9,
    9, 9, 9, 9, 9, 9, 9, 9,
];

// Leaves page 0 untouched, page 1 in a slot, and page 2 in a frame, shared by the fourth entry.
fn make_pages<S: Store>(bench: &mut Bench<S>, hidden: &mut HiddenCache) -> Result<(), Trouble>
    requires well { IsWell bench.old.memory (S.view bench.old.store) bench.old.object.0 bench.old.entries bench.old.pages bench.old.most }
    requires idle { IsIdle bench.old.memory }
    requires none { hidden.old ≡ [] }
    ensures well { IsWell bench.new.memory (S.view bench.new.store) bench.new.object.0 bench.new.entries bench.new.pages bench.new.most }
    ensures idle { IsIdle bench.new.memory }
    ensures none { hidden.new ≡ [] }
{
    bench.write(1, 7)?;
    bench.make_room(hidden, 8)?;
    bench.write(2, 9)?;
    bench.share(2, 3)
}

// Whether the device sends these bytes, from a place on.
fn sends(frames: &Frames, plan: &OutPlan, want: &[u8; 40], at: u32) -> bool
    requires ready { CanSend frames.now plan.now.loans.items plan.now.first plan.now.len }
{
    if at >= 40 {
        return at == plan.len;
    }
    let source = FrameSource {
        frames,
        loans: plan.loans.as_slice(),
        first: plan.first,
        len: plan.len,
    };
    let piece = source.piece(at);
    let end = at as usize + piece.len().min(40);
    if piece.is_empty() || end > 40 {
        return false;
    }
    let part = &want[at as usize..end];
    piece == part && sends(frames, plan, want, end as u32)
}

// Writes a one to each byte of the three pages.
fn write_ones<S: Store>(bench: &mut Bench<S>) -> Result<(), Trouble>
    requires well { IsWell bench.old.memory (S.view bench.old.store) bench.old.object.0 bench.old.entries bench.old.pages bench.old.most }
    ensures well { IsWell bench.new.memory (S.view bench.new.store) bench.new.object.0 bench.new.entries bench.new.pages bench.new.most }
    ensures idle { IsIdle bench.old.memory → IsIdle bench.new.memory }
    ensures counts { bench.new.memory.frames.counts ≡ bench.old.memory.frames.counts }
{
    bench.write(0, 1)?;
    bench.write(1, 1)?;
    bench.write(2, 1)
}

// Whether the three pages have these bytes.
fn shows<S: Store>(bench: &mut Bench<S>, first: u8, second: u8, third: u8) -> Result<bool, Trouble>
    requires well { IsWell bench.old.memory (S.view bench.old.store) bench.old.object.0 bench.old.entries bench.old.pages bench.old.most }
    ensures well { IsWell bench.new.memory (S.view bench.new.store) bench.new.object.0 bench.new.entries bench.new.pages bench.new.most }
    ensures counts { bench.new.memory.frames.counts ≡ bench.old.memory.frames.counts }
{
    let a = bench.read(0)?;
    let b = bench.read(1)?;
    let c = bench.read(2)?;
    Ok(a == [first; 16] && b == [second; 16] && c == [third; 16])
}

// Whether no loan is out on any frame from this one on.
fn is_unlent(frames: &Frames, f: u32) -> bool {
    if f >= frames.len() {
        return true;
    }
    let none = Counts {
        strong: 0,
        weak: 0,
        input: 0,
        wires: 0,
    };
    frames.counts(FrameId(f)) == none && is_unlent(frames, f + 1)
}

// Lends the range, writes to its pages, and tells whether the device sends these bytes, the process sees its own, and the
// fourth entry what it shared.
fn sends_while_written<S: Store>(
    bench: &mut Bench<S>,
    hidden: &mut HiddenCache,
    is_strong: bool,
    want: &[u8; 40],
) -> Result<bool, Trouble>
    requires well { IsWell bench.old.memory (S.view bench.old.store) bench.old.object.0 bench.old.entries bench.old.pages bench.old.most }
    requires idle { IsIdle bench.old.memory }
    requires none { hidden.old ≡ [] }
{
    make_pages(bench, hidden)?;
    let plan = bench.lend(is_strong, 5, 40)?;
    if !sends(&bench.memory.frames, &plan, &BEFORE, 0) {
        return Ok(false);
    }
    write_ones(bench)?;
    if !shows(bench, 1, 1, 1)? || bench.read(3)? != [9; 16] {
        return Ok(false);
    }
    Ok(sends(&bench.memory.frames, &plan, want, 0))
}

#[test]
fn strong_output_sends_what_was_lent(rt: HostRuntime) {
    let store = MemoryStore::new(rt.alloc());
    let mut pages = blank(rt.alloc(), store, 8, 8, 4).expect(&rt, "memory");
    let mut hidden = HiddenCache::new(rt.alloc()).expect(&rt, "memory");
    assert_eq!(rt;
        sends_while_written(&mut pages, &mut hidden, true, &BEFORE),
        Ok(true)
    );
}

#[test]
fn weak_output_sends_what_is_there(rt: HostRuntime) {
    let store = MemoryStore::new(rt.alloc());
    let mut pages = blank(rt.alloc(), store, 8, 8, 4).expect(&rt, "memory");
    let mut hidden = HiddenCache::new(rt.alloc()).expect(&rt, "memory");
    assert_eq!(rt;
        sends_while_written(&mut pages, &mut hidden, false, &[1; 40]),
        Ok(true)
    );
}

// Whether each page from this one on has ones, where it is.
fn has_ones<S: Store>(bench: &mut Bench<S>, index: u32) -> Result<bool, Trouble>
    requires fit { IsFit bench.old.memory (S.view bench.old.store) bench.old.object.0 bench.old.entries }
{
    if index >= 3 {
        return Ok(true);
    }
    if bench.peek(index)? != [1; 16] {
        return Ok(false);
    }
    has_ones(bench, index + 1)
}

// Puts all three pages to the store, and lends the range while the store fails. Tells whether all is as before then.
fn takes_back<S: Store>(
    bench: &mut Bench<S>,
    hidden: &mut HiddenCache,
    is_strong: bool,
) -> Result<bool, Trouble>
    requires well { IsWell bench.old.memory (S.view bench.old.store) bench.old.object.0 bench.old.entries bench.old.pages bench.old.most }
    requires idle { IsIdle bench.old.memory }
    requires none { hidden.old ≡ [] }
{
    write_ones(bench)?;
    bench.make_room(hidden, 8)?;
    let refused = bench.lend(is_strong, 5, 40).is_err();
    Ok(refused && is_unlent(&bench.memory.frames, 0) && has_ones(bench, 0)?)
}

// The store is asked three times to put a page, and then to get one: each of the gets fails in turn.
#[test]
fn loans_are_taken_back(rt: HostRuntime) {
    for call in [4, 5, 6] {
        for is_strong in [true, false] {
            let store = FailingStore::new(rt.alloc(), &[call]).expect(&rt, "memory");
            let mut pages = blank(rt.alloc(), store, 8, 8, 3).expect(&rt, "memory");
            let mut hidden = HiddenCache::new(rt.alloc()).expect(&rt, "memory");
            assert_eq!(rt; takes_back(&mut pages, &mut hidden, is_strong), Ok(true));
        }
    }
}
