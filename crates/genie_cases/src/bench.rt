//! A memory of which a case is made.
ghost use Rattle.std.specs.Prelude.{◌≡◌, ℕ, ◌-◌, ◌^◌, ◌≤◌, ◌<◌, List, [], true, length, count_by, not, IfOk, OnOk};
ghost use Rattle.genie_object.specs.Costs.{AreBelow};
ghost use Rattle.genie_object.specs.Objects.{object_at, is_absent};
ghost use Rattle.genie_object.specs.Pages.{page_at};
ghost use Rattle.genie_object.specs.Sound.{IsSound, FitsHidden};
ghost use Rattle.genie_object.specs.Steps.{CanShare, shared};
ghost use Rattle.genie_hiding.specs.Hidden.{objects_of};
ghost use Rattle.genie_hiding.specs.Rooms.{visible_pages};
ghost use Rattle.genie_cases.specs.Benches.{IsFit, IsWell, IsIdle, KeepsSizes, OnlyShares};
ghost use Rattle.genie_plan.specs.Plans.{CanSend};

use genie_base::{ObjectId, TransferId};
use genie_fault::{resolve_read, resolve_write};
use genie_hiding::HiddenCache;
use genie_object::{Entry, EntryRef, Memory, PageId, Place, Range};
use genie_pageout::{Clock, make_room, pageout};
use genie_plan::{OutPlan, page_count};
use genie_store::Store;
use genie_tcow::{prepare_strong, prepare_weak};
use std::alloc::Global;
use thiserror::Error;

/// Why a step of a case wasn't done.
#[derive(Clone, Copy, Debug, PartialEq, Eq, Error)]
pub enum Trouble {
    #[error("no memory")]
    Memory,
    #[error("the backing store has failed")]
    Store,
    /// The case asks for more than its memory has.
    #[error("past the limits of the case")]
    Limits,
}

/// A memory of pages of 16 bytes over a store, with one object.
#[derive(Drop)]
pub struct Bench<S> {
    pub memory: Memory,
    pub clock: Clock,
    pub store: S,
    pub object: ObjectId,
    pub entries: u32,
    /// At most so many pages are there.
    pub pages: u32,
    /// There is room for so many pages.
    pub most: u32,
}

/// An object of untouched pages in free frames, over a store that isn't sized yet.
pub fn blank<S: Store + Drop>(
    alloc: Global,
    mut store: S,
    frames: u32,
    slots: u32,
    entries: u32,
) -> Result<Bench<S>, Trouble>
    requires fresh { (S.view store).count ≡ 0 }
    requires frames { (1 ≤ frames) × (frames ≤ 4096) }
    requires slots { (1 ≤ slots) × (slots ≤ 8192) }
    requires entries { (1 ≤ entries) × (entries ≤ 64) }
    ensures well { IfOk result (λ b. IsWell b.memory (S.view b.store) b.object.0 b.entries b.pages b.most) }
    ensures idle { IfOk result (λ b. IsIdle b.memory) }
    ensures some { IfOk result (λ b. 1 ≤ b.entries) }
    ensures objects { IfOk result (λ b. count_by (λ o. not (is_absent o)) b.memory.objects < 512) }
{
    let Ok(mut memory) = Memory::new(alloc, frames, 16, slots) else {
        return Err(Trouble::Memory);
    };
    let Ok(()) = store.size(slots, 16) else {
        return Err(Trouble::Store);
    };
    let object = memory.make_object(entries);
    Ok(Bench {
        memory,
        clock: Clock::new(),
        store,
        object,
        entries,
        pages: 0,
        most: frames + slots,
    })
}

/// Whether no meter is near its end.
pub fn is_young(memory: &Memory) -> bool
    ensures { result ≡ true → AreBelow (2 ^ 64 - 2 ^ 21) memory.now.frames.meters }
{
    let most = 0x100_0000_0000;
    let meters = memory.frames.meters();
    if meters.read >= most || meters.written >= most || meters.copied >= most {
        return false;
    }
    if meters.zeroed >= most || meters.puts >= most {
        return false;
    }
    meters.gets < most && meters.taken < most
}

impl<S: Store> Bench<S> {
    /// Makes another object, of one page.
    pub fn make_other(&mut self) -> ObjectId
        requires well { IsWell self.old.memory (S.view self.old.store) self.old.object.0 self.old.entries self.old.pages self.old.most }
        requires idle { IsIdle self.old.memory }
        requires some { 1 ≤ self.old.entries }
        requires objects { count_by (λ o. not (is_absent o)) self.old.memory.objects < 512 }
        ensures well { IsWell self.new.memory (S.view self.new.store) self.new.object.0 self.new.entries self.new.pages self.new.most }
        ensures idle { IsIdle self.new.memory }
        ensures other { length (object_at self.new.memory.objects result.0) ≡ 1 }
    {
        self.memory.make_object(1)
    }

    /// Writes a page of one byte's value, as a process does.
    pub fn write(&mut self, index: u32, byte: u8) -> Result<(), Trouble>
        requires well { IsWell self.old.memory (S.view self.old.store) self.old.object.0 self.old.entries self.old.pages self.old.most }
        ensures well { IsWell self.new.memory (S.view self.new.store) self.new.object.0 self.new.entries self.new.pages self.new.most }
        ensures idle { IsIdle self.old.memory → IsIdle self.new.memory }
        ensures sizes { KeepsSizes self.old.memory self.new.memory }
        ensures counts { self.new.memory.frames.counts ≡ self.old.memory.frames.counts }
    {
        if index >= self.entries || self.pages >= self.most {
            return Err(Trouble::Limits);
        }
        if self.memory.frames.free() == 0 || !is_young(&self.memory) {
            return Err(Trouble::Limits);
        }
        let at = EntryRef {
            object: self.object,
            index,
        };
        let Ok(frame) = resolve_write(&mut self.memory, &mut self.store, at) else {
            return Err(Trouble::Store);
        };
        self.pages += 1;
        if frame.0 >= self.memory.frames.len() || !is_young(&self.memory) {
            return Err(Trouble::Limits);
        }
        self.memory.frames.write(frame, 0, &[byte; 16]);
        Ok(())
    }

    /// Reads a page, as a process does.
    pub fn read(&mut self, index: u32) -> Result<[u8; 16], Trouble>
        requires well { IsWell self.old.memory (S.view self.old.store) self.old.object.0 self.old.entries self.old.pages self.old.most }
        ensures well { IsWell self.new.memory (S.view self.new.store) self.new.object.0 self.new.entries self.new.pages self.new.most }
        ensures idle { IsIdle self.old.memory → IsIdle self.new.memory }
        ensures counts { self.new.memory.frames.counts ≡ self.old.memory.frames.counts }
    {
        if index >= self.entries || self.pages >= self.most {
            return Err(Trouble::Limits);
        }
        if self.memory.frames.free() == 0 || !is_young(&self.memory) {
            return Err(Trouble::Limits);
        }
        let at = EntryRef {
            object: self.object,
            index,
        };
        let Ok(frame) = resolve_read(&mut self.memory, &mut self.store, at) else {
            return Err(Trouble::Store);
        };
        self.pages += 1;
        if frame.0 >= self.memory.frames.len() || !is_young(&self.memory) {
            return Err(Trouble::Limits);
        }
        let mut page = [0; 16];
        self.memory.frames.read(frame, 0, &mut page);
        Ok(page)
    }

    /// Makes frames free, where no region is hidden.
    pub fn make_room(&mut self, hidden: &mut HiddenCache, k: u32) -> Result<(), Trouble>
        requires well { IsWell self.old.memory (S.view self.old.store) self.old.object.0 self.old.entries self.old.pages self.old.most }
        requires idle { IsIdle self.old.memory }
        requires none { hidden.old ≡ [] }
        ensures well { IsWell self.new.memory (S.view self.new.store) self.new.object.0 self.new.entries self.new.pages self.new.most }
        ensures idle { IsIdle self.old.memory → IsIdle self.new.memory }
        ensures sizes { KeepsSizes self.old.memory self.new.memory }
        ensures none { hidden.new ≡ [] }
    {
        if k > self.memory.frames.len() {
            return Err(Trouble::Limits);
        }
        if !has_slots(&self.memory) || !is_young(&self.memory) {
            return Err(Trouble::Limits);
        }
        if self.memory.frames.free() >= k {
            return Ok(());
        }
        match make_room(
            &mut self.memory,
            hidden,
            &mut self.clock,
            &mut self.store,
            k,
        ) {
            Ok(()) => Ok(()),
            Err(_) => Err(Trouble::Store),
        }
    }

    /// Puts pages to the store. Answers how many went.
    pub fn put_out(&mut self, hidden: &mut HiddenCache, n: u32) -> Result<u32, Trouble>
        requires well { IsWell self.old.memory (S.view self.old.store) self.old.object.0 self.old.entries self.old.pages self.old.most }
        requires fits { FitsHidden self.old.memory (objects_of hidden.old) }
        ensures well { IsWell self.new.memory (S.view self.new.store) self.new.object.0 self.new.entries self.new.pages self.new.most }
        ensures fits { FitsHidden self.new.memory (objects_of hidden.new) }
    {
        if !has_slots(&self.memory) || !is_young(&self.memory) {
            return Err(Trouble::Limits);
        }
        match pageout(
            &mut self.memory,
            hidden,
            &mut self.clock,
            &mut self.store,
            n,
        ) {
            Ok(number) => Ok(number),
            Err(_) => Err(Trouble::Store),
        }
    }

    /// Lends bytes of the object for output, strongly or weakly.
    pub fn lend(&mut self, is_strong: bool, off: u32, len: u32) -> Result<OutPlan, Trouble>
        requires well { IsWell self.old.memory (S.view self.old.store) self.old.object.0 self.old.entries self.old.pages self.old.most }
        requires idle { IsIdle self.old.memory }
        ensures fit { IsFit self.new.memory (S.view self.new.store) self.new.object.0 self.new.entries }
        ensures well { OnOk result (IsWell self.new.memory (S.view self.new.store) self.new.object.0 self.new.entries self.new.pages self.new.most) }
        ensures sizes { KeepsSizes self.old.memory self.new.memory }
        ensures object { self.new.object ≡ self.old.object }
        ensures ready { IfOk result (λ plan. CanSend self.new.memory.frames plan.loans.items plan.first plan.len) }
    {
        if off > 1024 || len > 1024 || !is_young(&self.memory) {
            return Err(Trouble::Limits);
        }
        let page = self.memory.frames.page();
        let count = page_count(page, off, len);
        if off / page + count > self.entries || count > 65 {
            return Err(Trouble::Limits);
        }
        if count > self.most || self.pages > self.most - count {
            return Err(Trouble::Limits);
        }
        if count > self.memory.frames.free() {
            return Err(Trouble::Limits);
        }
        let range = Range {
            object: self.object,
            off,
            len,
        };
        let prepared = if is_strong {
            prepare_strong(&mut self.memory, &mut self.store, TransferId(1), &range)
        } else {
            prepare_weak(&mut self.memory, &mut self.store, &range)
        };
        self.pages += count;
        match prepared {
            Ok(plan) => Ok(plan),
            Err(_) => Err(Trouble::Store),
        }
    }

    /// An empty entry comes to share the page of another one.
    pub fn share(&mut self, from: u32, to: u32) -> Result<(), Trouble>
        requires well { IsWell self.old.memory (S.view self.old.store) self.old.object.0 self.old.entries self.old.pages self.old.most }
        requires idle { IsIdle self.old.memory }
        ensures well { IsWell self.new.memory (S.view self.new.store) self.new.object.0 self.new.entries self.new.pages self.new.most }
        ensures idle { IsIdle self.new.memory }
    {
        if from >= self.entries || to >= self.entries {
            return Err(Trouble::Limits);
        }
        let from = EntryRef {
            object: self.object,
            index: from,
        };
        let to = EntryRef {
            object: self.object,
            index: to,
        };
        if share_page(&mut self.memory, from, to) {
            Ok(())
        } else {
            Err(Trouble::Limits)
        }
    }

    /// The bytes of a page where they are, without a fault of the process.
    pub fn peek(&mut self, index: u32) -> Result<[u8; 16], Trouble>
        requires fit { IsFit self.old.memory (S.view self.old.store) self.old.object.0 self.old.entries }
        ensures fit { IsFit self.new.memory (S.view self.new.store) self.new.object.0 self.new.entries }
    {
        if index >= self.entries || !is_young(&self.memory) {
            return Err(Trouble::Limits);
        }
        let at = EntryRef {
            object: self.object,
            index,
        };
        let mut bytes = [0; 16];
        let Some(page) = self.memory.objects.entry(at).page else {
            return Ok(bytes);
        };
        match self.memory.pages.place(page) {
            Place::Zero => Ok(bytes),
            Place::Frame(frame) => {
                self.memory.frames.read(frame, 0, &mut bytes);
                Ok(bytes)
            }
            Place::Slot(slot) => match self.store.get(slot, &mut bytes) {
                Ok(()) => Ok(bytes),
                Err(_) => Err(Trouble::Store),
            },
        }
    }
}

// Whether there is a free slot for each frame that isn't free.
fn has_slots(memory: &Memory) -> bool
    ensures { result ≡ true → (hidden : List ℕ) → visible_pages memory.now hidden ≤ count_by not memory.now.slots }
{
    let taken = memory.frames.len() - memory.frames.free();
    if taken > memory.slots.free() {
        return false;
    }
    true
}

// An empty entry comes to name the page, which nobody may write.
fn name_page(memory: &mut Memory, at: EntryRef, page: PageId)
    requires can { CanShare memory.old at.object.0 at.index page.0 }
    requires few { (page_at memory.old.pages.pages page.0).shares < 2 ^ 32 - 1 }
    ensures { memory.new ≡ shared memory.old at.object.0 at.index page.0 }
{
    memory.pages.share(page);
    memory.objects.replace(
        at,
        Entry {
            page: Some(page),
            readable: false,
            writable: false,
        },
    );
}

/// An empty entry comes to share the page of another one, as fork has it, and neither may be written then. Answers whether
/// it did: not where the other one is empty too, or this one isn't.
pub fn share_page(memory: &mut Memory, from: EntryRef, to: EntryRef) -> bool
    requires sound { IsSound memory.old }
    requires idle { IsIdle memory.old }
    requires from { from.index < length (object_at memory.old.objects from.object.0) }
    requires to { to.index < length (object_at memory.old.objects to.object.0) }
    ensures { OnlyShares memory.old memory.new }
{
    let Some(page) = memory.objects.entry(from).page else {
        return false;
    };
    let None = memory.objects.entry(to).page else {
        return false;
    };
    if memory.pages.shares(page) > 3 {
        return false;
    }
    memory.objects.forbid_writing(from);
    name_page(memory, to, page);
    true
}
