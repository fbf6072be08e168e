//! Pages are put to the store as they are asked for.
ghost use Rattle.std.specs.Prelude.{◌≡◌, ◌+◌, ◌-◌, ◌<◌, ◌≤◌, ◌^◌, ◌⊎◌, ◌&&◌, min, ℕ, true, false, not, length, count_by, IfSome, IfOk, OnOk, None};
ghost use Rattle.genie_base.specs.Causes.{HasCause};
ghost use Rattle.genie_frame.specs.FrameTable.{owner_at, counts_at, is_page};
ghost use Rattle.genie_frame.specs.FrameTable as table;
ghost use Rattle.genie_object.specs.Costs.{AreBelow, Spends};
ghost use Rattle.genie_object.specs.Sound.{IsSound, IsSized, FitsHidden};
ghost use Rattle.genie_hiding.specs.Hidden.{objects_of, has_hidden};
ghost use Rattle.genie_hiding.specs.Marking.{is_marked};
ghost use Rattle.genie_hiding.specs.Rooms.{MakesRoom, visible_pages};
ghost use Rattle.genie_pageout.specs.Going.{allowed, may_go_from, AreGone, AreMarks, StayGone};
ghost use Rattle.genie_pageout.specs.Rounds.{PutsOn, Passes};

use crate::clock::Clock;
use crate::evict::evict;
use genie_frame::{FrameId, Owner};
use genie_hiding::HiddenCache;
use genie_object::{Memory, PageId};
use genie_store::{Store, StoreFault};

// How many frames there may be.
const MOST_FRAMES: usize = 4096;

/// Puts pages into slots, at most `n` of them, from the clock's frame on, and answers how many went. A page of a hidden
/// region and one that a device reads or writes as it is stay. A strongly lent page may go; its frame is nobody's until
/// the loan is back. The clock moves past the frames that were looked at, each once at most.
pub fn pageout<S: Store>(
    memory: &mut Memory,
    hidden: &mut HiddenCache,
    clock: &mut Clock,
    store: &mut S,
    n: u32,
) -> Result<u32, StoreFault>
    requires sound { IsSound memory.old }
    requires sized { IsSized memory.old (S.view store.old) }
    requires fits { FitsHidden memory.old (objects_of hidden.old) }
    requires slots { visible_pages memory.old (objects_of hidden.old) ≤ count_by not memory.old.slots }
    requires meters { AreBelow (2 ^ 64 - 2 ^ 20) memory.old.frames.meters }
    ensures number { IfOk result (λ r. r ≡ min n (allowed memory.old (objects_of hidden.old))) }
    ensures puts { IfOk result (λ r. memory.new.frames.meters.puts ≡ memory.old.frames.meters.puts + r) }
    ensures room { MakesRoom (objects_of hidden.old) memory.old memory.new (S.view store.old) (S.view store.new) }
    ensures hidden { hidden.new ≡ hidden.old }
    ensures clock { OnOk result (PutsOn (objects_of hidden.old) memory.old memory.new clock.old clock.new) }
    ensures cause { HasCause (S.view store.old).faults (S.view store.new).faults result }
    ensures meters { Spends 0 0 8192 0 memory.old.frames.meters memory.new.frames.meters }
{
    let mut marks = no_marks();
    hidden.mark(memory, &mut marks);
    match put_all(memory, hidden, &marks, clock, store, n) {
        Ok(done) => Ok(done),
        Err(fault) => Err(fault),
    }
}

// A mark for each frame that there may be, none of them set.
fn no_marks() -> [bool; 4096]
    ensures none { (f : ℕ) → is_marked result f ≡ false }
    ensures all { length result ≡ 4096 }
{
    [false; MOST_FRAMES]
}

// Goes once around the frames, from the clock's on, until n pages went. Frames with hidden pages are marked.
fn put_all<S: Store>(
    memory: &mut Memory,
    hidden: &HiddenCache,
    marks: &[bool],
    clock: &mut Clock,
    store: &mut S,
    n: u32,
) -> Result<u32, StoreFault>
    requires sound { IsSound memory.old }
    requires sized { IsSized memory.old (S.view store.old) }
    requires fits { FitsHidden memory.old (objects_of hidden.now) }
    requires marks { AreMarks memory.old (objects_of hidden.now) marks.now }
    requires slots { visible_pages memory.old (objects_of hidden.now) ≤ count_by not memory.old.slots }
    requires meters { AreBelow (2 ^ 64 - 2 ^ 20) memory.old.frames.meters }
    ensures number { IfOk result (λ r. r ≡ min n (allowed memory.old (objects_of hidden.now))) }
    ensures puts { IfOk result (λ r. memory.new.frames.meters.puts ≡ memory.old.frames.meters.puts + r) }
    ensures room { MakesRoom (objects_of hidden.now) memory.old memory.new (S.view store.old) (S.view store.new) }
    ensures clock { OnOk result (PutsOn (objects_of hidden.now) memory.old memory.new clock.old clock.new) }
    ensures cause { HasCause (S.view store.old).faults (S.view store.new).faults result }
    ensures meters { Spends 0 0 8192 0 memory.old.frames.meters memory.new.frames.meters }
{
    let frames = memory.frames.len();
    let place = clock.place(frames);
    let first = match put_range(memory, hidden, marks, clock, store, n, place, frames) {
        Ok(first) => first,
        Err(fault) => return Err(fault),
    };
    match put_range(memory, hidden, marks, clock, store, n - first, 0, place) {
        Ok(second) => Ok(first + second),
        Err(fault) => Err(fault),
    }
}

// Goes over the frames of a range, until n pages went, and moves the clock past those that it has looked at.
fn put_range<S: Store>(
    memory: &mut Memory,
    hidden: &HiddenCache,
    marks: &[bool],
    clock: &mut Clock,
    store: &mut S,
    n: u32,
    from: u32,
    to: u32,
) -> Result<u32, StoreFault>
    requires sound { IsSound memory.old }
    requires sized { IsSized memory.old (S.view store.old) }
    requires fits { FitsHidden memory.old (objects_of hidden.now) }
    requires marks { AreMarks memory.old (objects_of hidden.now) marks.now }
    requires order { from ≤ to }
    requires range { to ≤ length memory.old.frames.owners }
    requires slots { visible_pages memory.old (objects_of hidden.now) ≤ count_by not memory.old.slots }
    requires meters { AreBelow (2 ^ 64 - 2 ^ 18) memory.old.frames.meters }
    ensures few { IfOk result (λ r. r ≤ n) }
    ensures went { IfOk result (λ r. allowed memory.new (objects_of hidden.now) + r ≡ allowed memory.old (objects_of hidden.now)) }
    ensures end { IfOk result (λ r. (r ≡ n) ⊎ AreGone memory.new (objects_of hidden.now) from to) }
    ensures gone { OnOk result (StayGone (objects_of hidden.now) memory.old memory.new) }
    ensures marks { OnOk result (AreMarks memory.new (objects_of hidden.now) marks.now) }
    ensures puts { IfOk result (λ r. memory.new.frames.meters.puts ≡ memory.old.frames.meters.puts + r) }
    ensures room { MakesRoom (objects_of hidden.now) memory.old memory.new (S.view store.old) (S.view store.new) }
    ensures cause { HasCause (S.view store.old).faults (S.view store.new).faults result }
    ensures passes { IfOk result (λ r. Passes (may_go_from memory.new (objects_of hidden.now)) (n ≡ 0) (r ≡ n) memory.old memory.new from to clock.old clock.new) }
    ensures meters { Spends 0 0 4096 0 memory.old.frames.meters memory.new.frames.meters }
{
    let mut done = 0;
    'frames: for f in from..to {
        if done == n {
            return Ok(done);
        }
        match put_visible(memory, hidden, marks, store, FrameId(f)) {
            Ok(one) => done += one,
            Err(fault) => return Err(fault),
        }
        clock.set(f + 1);
    }
    Ok(done)
}

// Puts the page in a frame into a slot, unless it is a hidden region's or a device holds it. Answers how many went.
fn put_visible<S: Store>(
    memory: &mut Memory,
    hidden: &HiddenCache,
    marks: &[bool],
    store: &mut S,
    f: FrameId,
) -> Result<u32, StoreFault>
    requires sound { IsSound memory.old }
    requires sized { IsSized memory.old (S.view store.old) }
    requires fits { FitsHidden memory.old (objects_of hidden.now) }
    requires marks { AreMarks memory.old (objects_of hidden.now) marks.now }
    requires there { f.0 < length memory.old.frames.owners }
    requires slots { visible_pages memory.old (objects_of hidden.now) ≤ count_by not memory.old.slots }
    requires meters { AreBelow (2 ^ 64 - 2 ^ 16) memory.old.frames.meters }
    ensures small { IfOk result (λ r. r ≤ 1) }
    ensures went { IfOk result (λ r. allowed memory.new (objects_of hidden.now) + r ≡ allowed memory.old (objects_of hidden.now)) }
    ensures here { OnOk result (may_go_from memory.new (objects_of hidden.now) f.0 ≡ false) }
    ensures gone { OnOk result (StayGone (objects_of hidden.now) memory.old memory.new) }
    ensures marks { OnOk result (AreMarks memory.new (objects_of hidden.now) marks.now) }
    ensures puts { IfOk result (λ r. memory.new.frames.meters.puts ≡ memory.old.frames.meters.puts + r) }
    ensures room { MakesRoom (objects_of hidden.now) memory.old memory.new (S.view store.old) (S.view store.new) }
    ensures cause { HasCause (S.view store.old).faults (S.view store.new).faults result }
    ensures meters { Spends 0 0 1 0 memory.old.frames.meters memory.new.frames.meters }
{
    let Some(page) = page_unheld(memory, f) else {
        return Ok(0);
    };
    if marks[f.0 as usize] {
        return Ok(0);
    }
    match evict(memory, store, page, f) {
        Ok(()) => Ok(1),
        Err(fault) => Err(fault),
    }
}

// The page in the frame, where no device holds it.
fn page_unheld(memory: &Memory, f: FrameId) -> Option<PageId>
    requires { f.0 < length memory.now.frames.owners }
    ensures page { IfSome result (λ p. owner_at memory.now.frames f.0 ≡ Owner.Page p.0) }
    ensures unheld { IfSome result (λ p. table.is_held (counts_at memory.now.frames f.0) ≡ false) }
    ensures none { result ≡ None → (is_page (owner_at memory.now.frames f.0) && not (table.is_held (counts_at memory.now.frames f.0))) ≡ false }
{
    let Owner::Page(page) = memory.frames.owner(f) else {
        return None;
    };
    let counts = memory.frames.counts(f);
    if counts.is_held() {
        return None;
    }
    Some(PageId(page))
}
