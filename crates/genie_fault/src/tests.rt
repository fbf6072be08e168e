//! Pages that are read, written in place, shared and lent.
ghost use Rattle.std.specs.Prelude.{◌≡◌, ◌+◌, ◌-◌, ◌<◌, ◌≤◌, ◌^◌, true, false, length, count_by, IfOk, IfSome};
ghost use Rattle.genie_frame.specs.FrameTable.{is_free};
ghost use Rattle.genie_store.specs.MemoryView.{memory_view};
ghost use Rattle.genie_object.specs.Objects.{object_at};
ghost use Rattle.genie_frame.specs.FrameTable.{counts_at, is_held};
ghost use Rattle.genie_frame.specs.declared.frame.FrameId.{FrameId as FrameView};
ghost use Rattle.genie_object.specs.Pages.{is_there, page_at};
ghost use Rattle.genie_object.specs.Steps.{CanShare, shared};
ghost use Rattle.genie_fault.specs.Benches.{IsBench};
ghost use Rattle.genie_object.specs.Sound.{IsSound, IsSized};
ghost use Rattle.genie_object.specs.Costs.{AreBelow};

use crate::{resolve_read, resolve_write};
use genie_base::NoMemory;
use genie_frame::{FrameId, Meters, OutLoan, Owner};
use genie_object::{Entry, EntryRef, Memory, PageId, Place};
use genie_store::{MemoryStore, Store, StoreFault};
use std::alloc::Global;

// Makes an entry readable and then writable, and answers the frames.
fn read_and_write<S: Store>(
    memory: &mut Memory,
    store: &mut S,
    at: EntryRef,
) -> (Result<FrameId, StoreFault>, Result<FrameId, StoreFault>)
    requires sound { IsSound memory.old }
    requires sized { IsSized memory.old (S.view store.old) }
    requires there { at.index < length (object_at memory.old.objects at.object.0) }
    requires free { 2 ≤ count_by is_free memory.old.frames.owners }
    requires room { count_by is_there memory.old.pages.pages + 2 ≤ memory.old.pages.most }
    requires meters { AreBelow (2 ^ 64 - 2 ^ 21) memory.old.frames.meters }
{
    let read = resolve_read(memory, store, at);
    let written = resolve_write(memory, store, at);
    (read, written)
}

// An object of three pages in memory of four frames, over a store of four slots.
fn three_pages(alloc: Global) -> Result<(Memory, MemoryStore, EntryRef), NoMemory>
    ensures sound { IfOk result (λ r. IsSound r.0) }
    ensures sized { IfOk result (λ r. IsSized r.0 (memory_view r.1)) }
    ensures there { IfOk result (λ r. r.2.index < length (object_at r.0.objects r.2.object.0)) }
    ensures free { IfOk result (λ r. count_by is_free r.0.frames.owners ≡ 4) }
    ensures room { IfOk result (λ r. count_by is_there r.0.pages.pages + 2 ≤ r.0.pages.most) }
    ensures meters { IfOk result (λ r. AreBelow (2 ^ 64 - 2 ^ 21) r.0.frames.meters) }
    ensures bench { IfOk result (λ r. IsBench r.2.object.0 6 r.0 (memory_view r.1)) }
{
    let mut memory = Memory::new(alloc, 4, 16, 4)?;
    let mut store = MemoryStore::new(alloc);
    match store.size(4, 16) {
        Ok(()) => {}
        Err(_) => return Err(NoMemory),
    }
    let object = memory.make_object(3);
    Ok((memory, store, EntryRef { object, index: 1 }))
}

#[test]
fn a_page_is_read_and_then_written_in_place(rt: HostRuntime) {
    let (mut memory, mut store, at) = three_pages(rt.alloc()).expect(&rt, "memory");
    let (read, written) = read_and_write(&mut memory, &mut store, at);
    assert!(rt; read.is_ok() && written == read);
    let meters = memory.frames.meters();
    assert_eq!(rt; (meters.zeroed, meters.copied, meters.taken), (16, 0, 1));
}

// Below this no meter is near its end.
const LOW: u64 = 4_294_967_296;

fn is_low(meters: Meters) -> bool
    ensures { result ≡ true → AreBelow (2 ^ 32) meters }
{
    meters.read < LOW
        && meters.written < LOW
        && meters.copied < LOW
        && meters.zeroed < LOW
        && meters.puts < LOW
        && meters.gets < LOW
        && meters.taken < LOW
}

// Whether no device holds the page.
fn is_unheld(memory: &Memory, page: PageId) -> bool
    requires sound { IsSound memory.now }
    requires page { 0 < (page_at memory.now.pages.pages page.0).shares }
    ensures { result ≡ true → (f : FrameView) → (page_at memory.now.pages.pages page.0).place ≡ Place.Frame f → is_held (counts_at memory.now.frames f.0) ≡ false }
{
    match memory.pages.place(page) {
        Place::Frame(f) => {
            let counts = memory.frames.counts(f);
            !counts.is_held()
        }
        Place::Zero => true,
        Place::Slot(_) => true,
    }
}

// Stores bytes at the start of an entry's page, and answers how many bytes were copied so far.
fn store_first<S: Store>(
    memory: &mut Memory,
    store: &mut S,
    at: EntryRef,
    bytes: &[u8],
    left: u32,
) -> Option<u64>
    requires bench { IsBench at.object.0 left memory.old (S.view store.old) }
    requires there { at.index < 3 }
    requires some { 1 ≤ left }
    requires few { length bytes.now ≤ 2 }
    ensures bench { IsBench at.object.0 (left - 1) memory.new (S.view store.new) }
{
    if memory.frames.free() == 0 || !is_low(memory.frames.meters()) {
        return None;
    }
    let Ok(f) = resolve_write(memory, store, at) else {
        return None;
    };
    memory.frames.write(f, 0, bytes);
    Some(memory.frames.meters().copied)
}

// The first two bytes of an entry's page, where it is in a frame.
fn first_two<S: Store>(memory: &mut Memory, store: &S, at: EntryRef, left: u32) -> Option<[u8; 2]>
    requires bench { IsBench at.object.0 left memory.old (S.view store.now) }
    requires there { at.index < 3 }
    ensures bench { IsBench at.object.0 left memory.new (S.view store.now) }
{
    if !is_low(memory.frames.meters()) {
        return None;
    }
    let page = memory.objects.entry(at).page?;
    let Place::Frame(f) = memory.pages.place(page) else {
        return None;
    };
    let mut two = [0; 2];
    memory.frames.read(f, 0, &mut two);
    Some(two)
}

// An empty entry comes to name the page, which nobody may write.
fn share_page(memory: &mut Memory, at: EntryRef, page: PageId)
    requires can { CanShare memory.old at.object.0 at.index page.0 }
    requires few { (page_at memory.old.pages.pages page.0).shares < 2 ^ 32 - 1 }
    ensures { memory.new ≡ shared memory.old at.object.0 at.index page.0 }
{
    memory.pages.share(page);
    memory.objects.replace(
        at,
        Entry {
            page: Some(page),
            readable: false,
            writable: false,
        },
    );
}

// Another entry of the object shares the page of one, as fork has it.
fn share<S: Store>(memory: &mut Memory, store: &S, from: EntryRef, index: u32, left: u32) -> bool
    requires bench { IsBench from.object.0 left memory.old (S.view store.now) }
    requires from { from.index < 3 }
    requires to { index < 3 }
    ensures bench { IsBench from.object.0 left memory.new (S.view store.now) }
{
    let to = EntryRef { index, ..from };
    let Some(page) = memory.objects.entry(from).page else {
        return false;
    };
    let None = memory.objects.entry(to).page else {
        return false;
    };
    if !is_unheld(memory, page) || memory.pages.shares(page) > 3 {
        return false;
    }
    memory.objects.forbid_writing(from);
    share_page(memory, to, page);
    true
}

// Fork's shape: a page that three entries share is copied for the first two that write, and the last holder writes it
// where it is.
#[test]
fn the_last_holder_of_a_shared_page_writes_without_a_copy(rt: HostRuntime) {
    let (mut memory, mut store, middle) = three_pages(rt.alloc()).expect(&rt, "memory");
    let (first, last) = (
        EntryRef { index: 0, ..middle },
        EntryRef { index: 2, ..middle },
    );
    assert_eq!(rt;
        store_first(&mut memory, &mut store, first, &[7, 9], 6),
        Some(0)
    );
    assert!(rt; share(&mut memory, &store, first, 1, 5));
    assert!(rt; share(&mut memory, &store, first, 2, 5));
    assert_eq!(rt;
        store_first(&mut memory, &mut store, first, &[1], 5),
        Some(16)
    );
    assert_eq!(rt;
        store_first(&mut memory, &mut store, middle, &[2], 4),
        Some(32)
    );
    assert_eq!(rt;
        store_first(&mut memory, &mut store, last, &[3], 3),
        Some(32)
    );
    assert_eq!(rt; first_two(&mut memory, &store, first, 2), Some([1, 9]));
    assert_eq!(rt; first_two(&mut memory, &store, middle, 2), Some([2, 9]));
    assert_eq!(rt; first_two(&mut memory, &store, last, 2), Some([3, 9]));
}

// Lends the frame of an entry's own page strongly, as an output has it: nobody may write the page.
fn lend<S: Store>(memory: &mut Memory, store: &S, at: EntryRef, left: u32) -> Option<OutLoan>
    requires bench { IsBench at.object.0 left memory.old (S.view store.now) }
    requires there { at.index < 3 }
    ensures bench { IsBench at.object.0 left memory.new (S.view store.now) }
    ensures strong { IfSome result (λ loan. loan.strong ≡ true) }
{
    let page = memory.objects.entry(at).page?;
    let Place::Frame(f) = memory.pages.place(page) else {
        return None;
    };
    let counts = memory.frames.counts(f);
    if counts.is_held() || counts.strong > 3 {
        return None;
    }
    memory.objects.forbid_writing(at);
    Some(memory.frames.lend_strong(f))
}

// Ends a strong loan on a page's frame.
fn back<S: Store>(memory: &mut Memory, store: &S, at: EntryRef, loan: OutLoan, left: u32) -> bool
    requires bench { IsBench at.object.0 left memory.old (S.view store.now) }
    requires strong { loan.strong ≡ true }
    ensures bench { IsBench at.object.0 left memory.new (S.view store.now) }
{
    let f = loan.frame;
    if f.0 >= memory.frames.len() {
        return false;
    }
    let Owner::Page(_) = memory.frames.owner(f) else {
        return false;
    };
    let counts = memory.frames.counts(f);
    if counts.is_held() || counts.strong == 0 {
        return false;
    }
    memory.frames.back_out(loan);
    true
}

// A page that two outputs send is copied for the first write, and not for the second.
#[test]
fn a_page_under_two_strong_loans_is_copied_once(rt: HostRuntime) {
    let (mut memory, mut store, at) = three_pages(rt.alloc()).expect(&rt, "memory");
    assert_eq!(rt; store_first(&mut memory, &mut store, at, &[7], 6), Some(0));
    assert!(rt; lend(&mut memory, &store, at, 5).is_some());
    assert!(rt; lend(&mut memory, &store, at, 5).is_some());
    assert_eq!(rt; store_first(&mut memory, &mut store, at, &[8], 5), Some(16));
    assert_eq!(rt; store_first(&mut memory, &mut store, at, &[9], 4), Some(16));
}

// A page is written without a copy once the outputs that sent it are over.
#[test]
fn a_page_is_written_in_place_after_its_loans(rt: HostRuntime) {
    let (mut memory, mut store, at) = three_pages(rt.alloc()).expect(&rt, "memory");
    assert_eq!(rt; store_first(&mut memory, &mut store, at, &[7], 6), Some(0));
    let one = lend(&mut memory, &store, at, 5).expect(&rt, "a loan");
    let two = lend(&mut memory, &store, at, 5).expect(&rt, "a loan");
    assert!(rt; back(&mut memory, &store, at, one, 5));
    assert!(rt; back(&mut memory, &store, at, two, 5));
    assert_eq!(rt; store_first(&mut memory, &mut store, at, &[8], 5), Some(0));
}
