//! The end of an input: 40 bytes from place 5 on are stored in three pages, of which a device holds one.
ghost use Rattle.std.specs.Prelude.{◌≡◌, ℕ, OnOk, IfOk};
ghost use Rattle.genie_plan.specs.Plans.{input_frames};
ghost use Rattle.genie_input.specs.Buffers.{AreBuffers};
ghost use Rattle.genie_finish.specs.Ranges.{CanStoreRange};
ghost use Rattle.genie_cases.specs.Benches.{IsFit, IsWell, IsIdle, KeepsSizes};

use crate::bench::{Bench, Trouble, blank, is_young};
use genie_base::TransferId;
use genie_fault::resolve_write;
use genie_finish::{copy_range, ready_range, store_range};
use genie_frame::InLoan;
use genie_input::aligned_buffer;
use genie_input::laws::buffers_stay;
use genie_object::{EntryRef, Range};
use genie_plan::{InPlan, page_count};
use genie_store::{MemoryStore, Store};

// What the buffer's frames have: before place 5 and from place 45 on these are no bytes of the input.
const BUFFER: [[u8; 16]; 3] = [
    [
        100, 101, 102, 103, 104, 105, 106, 107, 108, 109, 110, 111, 112, 113, 114, 115,
    ],
    [
        116, 117, 118, 119, 120, 121, 122, 123, 124, 125, 126, 127, 128, 129, 130, 131,
    ],
    [
        132, 133, 134, 135, 136, 137, 138, 139, 140, 141, 142, 143, 144, 145, 146, 147,
    ],
];

// What the pages have once it is stored.
const AFTER: [[u8; 16]; 3] = [
    [
        1, 1, 1, 1, 1, 105, 106, 107, 108, 109, 110, 111, 112, 113, 114, 115,
    ],
    [
        116, 117, 118, 119, 120, 121, 122, 123, 124, 125, 126, 127, 128, 129, 130, 131,
    ],
    [
        132, 133, 134, 135, 136, 137, 138, 139, 140, 141, 142, 143, 144, 3, 3, 3,
    ],
];

/// Lends frames for 40 bytes that lie as those from place 5 on do.
pub fn lend_buffer<S: Store>(bench: &mut Bench<S>) -> Result<InPlan, Trouble>
    requires well { IsWell bench.old.memory (S.view bench.old.store) bench.old.object.0 bench.old.entries bench.old.pages bench.old.most }
    ensures well { OnOk result (IsWell bench.new.memory (S.view bench.new.store) bench.new.object.0 bench.new.entries bench.new.pages bench.new.most) }
    ensures sizes { KeepsSizes bench.old.memory bench.new.memory }
    ensures buffers { IfOk result (λ plan. AreBuffers bench.new.memory.frames (input_frames plan.loans.items)) }
{
    let page = bench.memory.frames.page();
    let count = page_count(page, 5, 40);
    if count > 65 || count > bench.memory.frames.free() || !is_young(&bench.memory) {
        return Err(Trouble::Limits);
    }
    Ok(aligned_buffer(&mut bench.memory, TransferId(2), 5, 40))
}

// Fills one of the buffer's frames.
fn fill_frame<S: Store>(bench: &mut Bench<S>, loans: &[InLoan], k: usize) -> Result<(), Trouble>
    requires well { IsWell bench.old.memory (S.view bench.old.store) bench.old.object.0 bench.old.entries bench.old.pages bench.old.most }
    requires buffers { AreBuffers bench.old.memory.frames (input_frames loans.now) }
    ensures well { IsWell bench.new.memory (S.view bench.new.store) bench.new.object.0 bench.new.entries bench.new.pages bench.new.most }
    ensures buffers { AreBuffers bench.new.memory.frames (input_frames loans.now) }
{
    if k >= loans.len() || k >= 3 {
        return Err(Trouble::Limits);
    }
    let frame = loans[k].frame;
    if frame.0 >= bench.memory.frames.len() || !is_young(&bench.memory) {
        return Err(Trouble::Limits);
    }
    bench.memory.frames.write(frame, 0, &BUFFER[k]);
    Ok(())
}

// Fills the buffer's frames from this one on.
fn fill<S: Store>(bench: &mut Bench<S>, loans: &[InLoan], k: usize) -> Result<(), Trouble>
    requires well { IsWell bench.old.memory (S.view bench.old.store) bench.old.object.0 bench.old.entries bench.old.pages bench.old.most }
    requires buffers { AreBuffers bench.old.memory.frames (input_frames loans.now) }
    ensures well { IsWell bench.new.memory (S.view bench.new.store) bench.new.object.0 bench.new.entries bench.new.pages bench.new.most }
    ensures buffers { AreBuffers bench.new.memory.frames (input_frames loans.now) }
{
    if k >= 3 {
        return Ok(());
    }
    fill_frame(bench, loans, k)?;
    fill(bench, loans, k + 1)
}

// Makes the pages ready for the buffer.
fn ready<S: Store>(bench: &mut Bench<S>, loans: &[InLoan]) -> Result<(), Trouble>
    requires well { IsWell bench.old.memory (S.view bench.old.store) bench.old.object.0 bench.old.entries bench.old.pages bench.old.most }
    requires buffers { AreBuffers bench.old.memory.frames (input_frames loans.now) }
    ensures well { OnOk result (IsWell bench.new.memory (S.view bench.new.store) bench.new.object.0 bench.new.entries bench.new.pages bench.new.most) }
    ensures buffers { OnOk result (AreBuffers bench.new.memory.frames (input_frames loans.now)) }
    ensures can { OnOk result ((few : ℕ) → CanStoreRange bench.new.memory bench.new.object.0 5 40 few) }
{
    let page = bench.memory.frames.page();
    let count = page_count(page, 5, 40);
    if count > 65 || 5 / page + count > bench.entries || !is_young(&bench.memory) {
        return Err(Trouble::Limits);
    }
    if count > bench.memory.frames.free() || count > bench.most {
        return Err(Trouble::Limits);
    }
    if bench.pages > bench.most - count {
        return Err(Trouble::Limits);
    }
    let range = Range {
        object: bench.object,
        off: 5,
        len: 40,
    };
    let Ok(()) = ready_range(&mut bench.memory, &mut bench.store, &range) else {
        return Err(Trouble::Store);
    };
    buffers_stay();
    bench.pages += count;
    Ok(())
}

// Stores the buffer in the pages.
fn store<S: Store>(bench: &mut Bench<S>, loans: &[InLoan], few: u32) -> Result<(), Trouble>
    requires well { IsWell bench.old.memory (S.view bench.old.store) bench.old.object.0 bench.old.entries bench.old.pages bench.old.most }
    requires buffers { AreBuffers bench.old.memory.frames (input_frames loans.now) }
    requires can { (n : ℕ) → CanStoreRange bench.old.memory bench.old.object.0 5 40 n }
    ensures fit { OnOk result (IsFit bench.new.memory (S.view bench.new.store) bench.new.object.0 bench.new.entries) }
{
    let page = bench.memory.frames.page();
    let count = page_count(page, 5, 40);
    if count > 65 || 5 / page + count > bench.entries || !is_young(&bench.memory) {
        return Err(Trouble::Limits);
    }
    if loans.len() != count as usize || count > bench.most {
        return Err(Trouble::Limits);
    }
    if bench.pages > bench.most - count {
        return Err(Trouble::Limits);
    }
    let range = Range {
        object: bench.object,
        off: 5,
        len: 40,
    };
    store_range(&mut bench.memory, loans, &range, few);
    Ok(())
}

// Whether each page from this one on has what it should have, where it is.
fn has_after<S: Store>(bench: &mut Bench<S>, index: u32) -> Result<bool, Trouble>
    requires fit { IsFit bench.old.memory (S.view bench.old.store) bench.old.object.0 bench.old.entries }
{
    if index >= 3 {
        return Ok(true);
    }
    if bench.peek(index)? != AFTER[index as usize] {
        return Ok(false);
    }
    has_after(bench, index + 1)
}

// Writes three pages, lends the one at this place weakly, and stores a buffer in them. Answers whether the pages then have
// what they should, so many bytes were copied, nothing else was zeroed, put or got, and every other frame is free.
fn ends<S: Store>(bench: &mut Bench<S>, held: u32, few: u32, copied: u64) -> Result<bool, Trouble>
    requires well { IsWell bench.old.memory (S.view bench.old.store) bench.old.object.0 bench.old.entries bench.old.pages bench.old.most }
    requires idle { IsIdle bench.old.memory }
{
    bench.write(0, 1)?;
    bench.write(1, 2)?;
    bench.write(2, 3)?;
    bench.lend(false, held, 16)?;
    let plan = lend_buffer(bench)?;
    fill(bench, plan.loans.as_slice(), 0)?;
    ready(bench, plan.loans.as_slice())?;
    store(bench, plan.loans.as_slice(), few)?;
    let meters = bench.memory.frames.meters();
    let rest = [meters.zeroed, meters.puts, meters.gets, meters.taken];
    if meters.copied != copied || rest != [48, 0, 0, 6] {
        return Ok(false);
    }
    Ok(bench.memory.frames.free() == 7 && has_after(bench, 0)?)
}

// The pages take 11, 16 and 13 bytes. A page that is held is copied to; of the others a whole page is swapped, a part of
// more bytes than the threshold costs the rest of the page, and any other its own bytes.
#[test]
fn a_page_of_three_is_held(rt: HostRuntime) {
    for (held, few, copied) in [
        (0, 0, 11 + 3),
        (0, 8, 11 + 3),
        (0, 16, 11 + 13),
        (16, 0, 5 + 16 + 3),
        (16, 8, 5 + 16 + 3),
        (16, 10, 5 + 16 + 3),
        (16, 11, 11 + 16 + 3),
        (16, 13, 11 + 16 + 13),
        (16, 16, 11 + 16 + 13),
        (32, 0, 5 + 13),
        (32, 8, 5 + 13),
        (32, 16, 11 + 13),
    ] {
        let store = MemoryStore::new(rt.alloc());
        let mut pages = blank(rt.alloc(), store, 10, 8, 3).expect(&rt, "memory");
        assert_eq!(rt; ends(&mut pages, held, few, copied), Ok(true));
    }
}

// Copies eight bytes of the buffer, from place 12 of its first frame on, to place 5 of the first page.
fn copy_eight<S: Store>(bench: &mut Bench<S>, loans: &[InLoan]) -> Result<(), Trouble>
    requires well { IsWell bench.old.memory (S.view bench.old.store) bench.old.object.0 bench.old.entries bench.old.pages bench.old.most }
    requires buffers { AreBuffers bench.old.memory.frames (input_frames loans.now) }
    ensures fit { OnOk result (IsFit bench.new.memory (S.view bench.new.store) bench.new.object.0 bench.new.entries) }
{
    if bench.entries == 0 || bench.pages >= bench.most || loans.len() < 2 {
        return Err(Trouble::Limits);
    }
    if bench.memory.frames.free() == 0 || !is_young(&bench.memory) {
        return Err(Trouble::Limits);
    }
    let at = EntryRef {
        object: bench.object,
        index: 0,
    };
    let Ok(_) = resolve_write(&mut bench.memory, &mut bench.store, at) else {
        return Err(Trouble::Store);
    };
    if !is_young(&bench.memory) {
        return Err(Trouble::Limits);
    }
    buffers_stay();
    let range = Range {
        object: bench.object,
        off: 5,
        len: 8,
    };
    copy_range(&mut bench.memory, loans, 12, &range);
    Ok(())
}

// Copies a part of the buffer over a page, and answers the page and how many bytes were copied.
fn copies<S: Store>(bench: &mut Bench<S>) -> Result<([u8; 16], u64), Trouble>
    requires well { IsWell bench.old.memory (S.view bench.old.store) bench.old.object.0 bench.old.entries bench.old.pages bench.old.most }
{
    bench.write(0, 1)?;
    let plan = lend_buffer(bench)?;
    fill(bench, plan.loans.as_slice(), 0)?;
    copy_eight(bench, plan.loans.as_slice())?;
    let copied = bench.memory.frames.meters().copied;
    Ok((bench.peek(0)?, copied))
}

// The bytes are those of two frames of the buffer.
#[test]
fn bytes_are_copied_wherever_they_lie(rt: HostRuntime) {
    let store = MemoryStore::new(rt.alloc());
    let mut pages = blank(rt.alloc(), store, 10, 8, 3).expect(&rt, "memory");
    let want = [
        1, 1, 1, 1, 1, 112, 113, 114, 115, 116, 117, 118, 119, 1, 1, 1,
    ];
    assert_eq!(rt; copies(&mut pages), Ok((want, 8)));
}
