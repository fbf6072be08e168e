//! Frames of all kinds at once, of which pages go to the store.
ghost use Rattle.std.specs.Prelude.{◌≡◌, ◌<◌, [], length, OnOk};
ghost use Rattle.genie_object.specs.Objects.{object_at};
ghost use Rattle.genie_object.specs.Sound.{FitsHidden};
ghost use Rattle.genie_hiding.specs.Hidden.{objects_of};
ghost use Rattle.genie_cases.specs.Benches.{IsWell, IsIdle, KeepsSizes};

use crate::bench::{Bench, Trouble, blank, is_young};
use crate::ends::lend_buffer;
use genie_base::{Area, ObjectId, RegionId, RegionState};
use genie_hiding::HiddenCache;
use genie_input::{Pool, in_place};
use genie_object::Range;
use genie_plan::laws::wires_show_what_was_seen;
use genie_plan::{OutPlan, page_count};
use genie_region::Region;
use genie_store::{MemoryStore, Store};

// Lends the second page for input in place.
fn lend_in<S: Store>(bench: &mut Bench<S>) -> Result<(), Trouble>
    requires well { IsWell bench.old.memory (S.view bench.old.store) bench.old.object.0 bench.old.entries bench.old.pages bench.old.most }
    requires idle { IsIdle bench.old.memory }
    ensures well { OnOk result (IsWell bench.new.memory (S.view bench.new.store) bench.new.object.0 bench.new.entries bench.new.pages bench.new.most) }
    ensures sizes { KeepsSizes bench.old.memory bench.new.memory }
{
    let page = bench.memory.frames.page();
    let count = page_count(page, 16, 16);
    if count > 65 || 16 / page + count > bench.entries || !is_young(&bench.memory) {
        return Err(Trouble::Limits);
    }
    if count > bench.memory.frames.free() || bench.most < 65 {
        return Err(Trouble::Limits);
    }
    if bench.pages > bench.most - 65 || count > bench.most - bench.pages {
        return Err(Trouble::Limits);
    }
    let range = Range {
        object: bench.object,
        off: 16,
        len: 16,
    };
    let Ok(plan) = in_place(&mut bench.memory, &mut bench.store, &range) else {
        return Err(Trouble::Store);
    };
    let number = plan.loans.len();
    if number > 65 {
        return Err(Trouble::Limits);
    }
    bench.pages += number as u32;
    Ok(())
}

// Wires the first page of an output that a device reads as it is.
fn wire_first<S: Store>(bench: &mut Bench<S>, plan: &OutPlan) -> Result<(), Trouble>
    requires well { IsWell bench.old.memory (S.view bench.old.store) bench.old.object.0 bench.old.entries bench.old.pages bench.old.most }
    ensures well { IsWell bench.new.memory (S.view bench.new.store) bench.new.object.0 bench.new.entries bench.new.pages bench.new.most }
    ensures sizes { KeepsSizes bench.old.memory bench.new.memory }
{
    wires_show_what_was_seen();
    if plan.loans.is_empty() {
        return Err(Trouble::Limits);
    }
    let frame = plan.loans[0].frame;
    if frame.0 >= bench.memory.frames.len() {
        return Err(Trouble::Limits);
    }
    let counts = bench.memory.frames.counts(frame);
    if !counts.is_held() || counts.wires > 100 {
        return Err(Trouble::Limits);
    }
    bench.memory.frames.wire(frame);
    Ok(())
}

// Makes the buffers of a pooled device.
fn make_pool<S: Store>(bench: &mut Bench<S>) -> Result<Pool, Trouble>
    requires well { IsWell bench.old.memory (S.view bench.old.store) bench.old.object.0 bench.old.entries bench.old.pages bench.old.most }
    ensures well { IsWell bench.new.memory (S.view bench.new.store) bench.new.object.0 bench.new.entries bench.new.pages bench.new.most }
    ensures sizes { KeepsSizes bench.old.memory bench.new.memory }
{
    if bench.memory.frames.free() < 17 || !is_young(&bench.memory) {
        return Err(Trouble::Limits);
    }
    Ok(Pool::make(&mut bench.memory, 0, 1))
}

// Writes the page of another object.
fn write_other<S: Store>(bench: &mut Bench<S>, other: ObjectId) -> Result<(), Trouble>
    requires well { IsWell bench.old.memory (S.view bench.old.store) bench.old.object.0 bench.old.entries bench.old.pages bench.old.most }
    requires idle { IsIdle bench.old.memory }
    requires other { length (object_at bench.old.memory.objects other.0) ≡ 1 }
    ensures well { IsWell bench.new.memory (S.view bench.new.store) bench.new.object.0 bench.new.entries bench.new.pages bench.new.most }
    ensures idle { IsIdle bench.new.memory }
    ensures sizes { KeepsSizes bench.old.memory bench.new.memory }
{
    let (own, entries) = (bench.object, bench.entries);
    bench.object = other;
    bench.entries = 1;
    let done = bench.write(0, 9);
    bench.object = own;
    bench.entries = entries;
    done
}

// Hides a region of one page.
fn hide_other<S: Store>(bench: &mut Bench<S>, hidden: &mut HiddenCache, other: ObjectId)
    requires well { IsWell bench.old.memory (S.view bench.old.store) bench.old.object.0 bench.old.entries bench.old.pages bench.old.most }
    requires other { 0 < length (object_at bench.old.memory.objects other.0) }
    requires none { hidden.old ≡ [] }
    ensures well { IsWell bench.new.memory (S.view bench.new.store) bench.new.object.0 bench.new.entries bench.new.pages bench.new.most }
    ensures fits { FitsHidden bench.new.memory (objects_of hidden.new) }
{
    hidden.hide(
        &mut bench.memory,
        3,
        Region {
            id: RegionId(5),
            start: 40,
            pages: 1,
            area: Area::Sys,
            state: RegionState::Live,
            writable: true,
            object: other,
        },
    );
}

// How a page is lent.
#[derive(Clone, Copy)]
enum Lent {
    Strong,
    Weak,
    Wired,
    Input,
}

// Lends the second page.
fn lend_second<S: Store>(bench: &mut Bench<S>, lent: Lent) -> Result<(), Trouble>
    requires well { IsWell bench.old.memory (S.view bench.old.store) bench.old.object.0 bench.old.entries bench.old.pages bench.old.most }
    requires idle { IsIdle bench.old.memory }
    ensures well { OnOk result (IsWell bench.new.memory (S.view bench.new.store) bench.new.object.0 bench.new.entries bench.new.pages bench.new.most) }
    ensures sizes { KeepsSizes bench.old.memory bench.new.memory }
{
    match lent {
        Lent::Strong => {
            bench.lend(true, 16, 16)?;
            Ok(())
        }
        Lent::Weak => {
            bench.lend(false, 16, 16)?;
            Ok(())
        }
        Lent::Wired => {
            let plan = bench.lend(false, 16, 16)?;
            wire_first(bench, &plan)
        }
        Lent::Input => lend_in(bench),
    }
}

// Writes four pages and one of another object, lends one of the four, lends frames of the system and of a pool for input,
// and hides the other object's region.
fn fill_all<S: Store>(
    bench: &mut Bench<S>,
    hidden: &mut HiddenCache,
    other: ObjectId,
    lent: Lent,
) -> Result<(), Trouble>
    requires well { IsWell bench.old.memory (S.view bench.old.store) bench.old.object.0 bench.old.entries bench.old.pages bench.old.most }
    requires idle { IsIdle bench.old.memory }
    requires none { hidden.old ≡ [] }
    requires other { length (object_at bench.old.memory.objects other.0) ≡ 1 }
    ensures well { OnOk result (IsWell bench.new.memory (S.view bench.new.store) bench.new.object.0 bench.new.entries bench.new.pages bench.new.most) }
    ensures fits { OnOk result (FitsHidden bench.new.memory (objects_of hidden.new)) }
{
    write_other(bench, other)?;
    bench.write(0, 1)?;
    bench.write(1, 2)?;
    bench.write(2, 3)?;
    bench.write(3, 4)?;
    lend_second(bench, lent)?;
    lend_buffer(bench)?;
    make_pool(bench)?;
    hide_other(bench, hidden, other);
    Ok(())
}

// Puts no page, two pages, all that may go, and one more. Answers how many went by turns, how many frames are free then,
// and how many pages were ever put.
fn puts_beside<S: Store>(
    bench: &mut Bench<S>,
    hidden: &mut HiddenCache,
    other: ObjectId,
    lent: Lent,
) -> Result<([u32; 4], u32, u64), Trouble>
    requires well { IsWell bench.old.memory (S.view bench.old.store) bench.old.object.0 bench.old.entries bench.old.pages bench.old.most }
    requires idle { IsIdle bench.old.memory }
    requires none { hidden.old ≡ [] }
    requires other { length (object_at bench.old.memory.objects other.0) ≡ 1 }
{
    fill_all(bench, hidden, other, lent)?;
    let none = bench.put_out(hidden, 0)?;
    let two = bench.put_out(hidden, 2)?;
    let rest = bench.put_out(hidden, 100)?;
    let more = bench.put_out(hidden, 1)?;
    let frames = &bench.memory.frames;
    Ok(([none, two, rest, more], frames.free(), frames.meters().puts))
}

// A strongly lent page goes, and its frame is nobody's. One that a device reads or writes as it is stays, wired or not, and
// so do a hidden page and the frames of the system and of a pool.
#[test]
fn frames_that_are_held_stay(rt: HostRuntime) {
    for (lent, want) in [
        (Lent::Strong, ([0, 2, 2, 0], 18, 4)),
        (Lent::Weak, ([0, 2, 1, 0], 18, 3)),
        (Lent::Wired, ([0, 2, 1, 0], 18, 3)),
        (Lent::Input, ([0, 2, 1, 0], 18, 3)),
    ] {
        let store = MemoryStore::new(rt.alloc());
        let mut pages = blank(rt.alloc(), store, 40, 80, 4).expect(&rt, "memory");
        let mut hidden = HiddenCache::new(rt.alloc()).expect(&rt, "memory");
        let other = pages.make_other();
        assert_eq!(rt; puts_beside(&mut pages, &mut hidden, other, lent), Ok(want));
    }
}
