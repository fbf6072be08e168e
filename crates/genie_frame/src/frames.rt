//! The page frames.
ghost use Rattle.std.specs.Prelude.{◌≡◌, ℕ, ◌+◌, ◌-◌, ◌^◌, ◌<◌, ◌≤◌, ◌≢◌, ◌⊎◌, ◌||◌, not, true, false, [], ◌∷◌, ◌++◌, length, replicate, count_by, IsTrue, IfOk, if◌then◌else◌};
ghost use Rattle.genie_base.specs.Counts.{is_page_size};
ghost use Rattle.genie_base.specs.Bytes.{part};
ghost use Rattle.genie_frame.specs.FrameTable as table;
ghost use Rattle.genie_frame.specs.FrameTable.{owner_at, counts_at, bytes_at, set_owner, set_counts, is_owned, is_system, is_held, is_lent, IsShaped, AreLoansOwned, Agree, KeepsLent};
ghost use Rattle.genie_frame.specs.Frames.{stored, loan_ended, unowned, outputs, one_output_less, one_strong_more, one_weak_more, one_input_more, one_input_less, one_wire_more, one_wire_less, more_read, more_written, more_copied, more_zeroed, more_taken, more_landed};

use crate::copy::copy_run;
use crate::frame::{Counts, FrameId, InLoan, Meters, OutLoan, Owner};
use genie_base::{FixedBytes, FreeList, NoMemory};
use std::alloc::Global;
use std::marker::Model;

/// The page frames. All memory is reserved by `new`, and no other call refuses. Contracts see a list for each thing
/// that a frame has.
#[derive(Drop)]
pub struct Frames {
    page: u32,
    owners: Vec<Owner>,
    counts: Vec<Counts>,
    bytes: Vec<FixedBytes>,
    // The numbers of the free frames, each once.
    free: FreeList,
    meters: Meters,
    landed: u64,
}

impl Model for Frames {
    ghost use Rattle.genie_frame.specs.FrameTable.{FrameTable};
    ghost use Rattle.genie_frame.specs.Frames.{IsKept};

    ghost Value = { FrameTable };

    ghost view = { λ a. record { page = a.page; owners = a.owners.items; counts = a.counts.items; bytes = a.bytes.items; meters = a.meters; landed = a.landed } };

    ghost invariant = { λ a. IsKept a.page a.owners.items a.counts.items a.bytes.items a.free.list a.free.room };
}

impl Frames {
    ghost use Rattle.std.specs.Borrow.{sem};
    ghost use Rattle.genie_frame.specs.Lending.{LendsPage, ShowsPage};

    /// `n` free frames of `page` bytes each, all of them 0.
    pub fn new(alloc: Global, n: u32, page: u32) -> Result<Frames, NoMemory>
        requires some { 1 ≤ n }
        requires most { n ≤ 4096 }
        requires size { IsTrue (is_page_size page) }
        ensures { IfOk result (λ frames. frames ≡ table.free_frames n page) }
    {
        let frames = n as usize;
        Ok(Frames {
            page,
            owners: vec![in alloc; Owner::Free; frames]?,
            counts: vec![in alloc; NO_COUNTS; frames]?,
            bytes: blank(alloc, frames, page as usize)?,
            free: FreeList::below(alloc, n)?,
            meters: NO_METERS,
            landed: 0,
        })
    }

    /// The number of frames.
    pub fn len(&self) -> u32
        ensures number { result ≡ length self.now.owners }
        ensures shaped { IsShaped self.now.page self.now.owners self.now.counts self.now.bytes }
        ensures lent { AreLoansOwned self.now.owners self.now.counts }
    {
        self.owners.len() as u32
    }

    /// The page size, in bytes.
    pub fn page(&self) -> u32
        ensures size { result ≡ self.now.page }
        ensures shaped { IsShaped self.now.page self.now.owners self.now.counts self.now.bytes }
    {
        self.page
    }

    /// The number of free frames.
    pub fn free(&self) -> u32
        ensures { result ≡ count_by table.is_free self.now.owners }
    {
        self.free.len()
    }

    pub fn owner(&self, f: FrameId) -> Owner
        requires { f.0 < length self.now.owners }
        ensures { result ≡ owner_at self.now f.0 }
    {
        self.owners[f.0 as usize]
    }

    pub fn counts(&self, f: FrameId) -> Counts
        requires { f.0 < length self.now.owners }
        ensures { result ≡ counts_at self.now f.0 }
    {
        self.counts[f.0 as usize]
    }

    pub fn meters(&self) -> Meters
        ensures { result ≡ self.now.meters }
    {
        self.meters
    }

    /// How many bytes `dma_in` has stored since `new`.
    pub fn landed(&self) -> u64
        ensures { result ≡ self.now.landed }
    {
        self.landed
    }

    /// Hands out a free frame, in constant time. Which one isn't said.
    pub fn take(&mut self, owner: Owner) -> FrameId
        requires free { 0 < count_by table.is_free self.old.owners }
        requires owner { IsTrue (is_owned owner) }
        requires meter { self.old.meters.taken + 1 < 2 ^ 64 }
        ensures there { result.0 < length self.old.owners }
        ensures was_free { owner_at self.old result.0 ≡ Owner.Free }
        ensures frames { self.new ≡ more_taken (set_owner self.old result.0 owner) }
        ensures lent { KeepsLent self.old self.new }
    {
        let f = self.free.take();
        self.owners[f as usize] = owner;
        self.meters.taken += 1;
        FrameId(f)
    }

    /// Takes the owner away: the frame is free, or nobody's where a loan is out.
    pub fn disown(&mut self, f: FrameId)
        requires there { f.0 < length self.old.owners }
        requires owned { IsTrue (is_owned (owner_at self.old f.0)) }
        ensures frames { self.new ≡ set_owner self.old f.0 (unowned (counts_at self.old f.0)) }
        ensures lent { KeepsLent self.old self.new }
    {
        let counts = self.counts(f);
        self.settle(f, counts.unowned(), counts);
    }

    /// Gives a frame without a loan to another owner.
    pub fn give(&mut self, f: FrameId, owner: Owner)
        requires there { f.0 < length self.old.owners }
        requires owned { IsTrue (is_owned (owner_at self.old f.0)) }
        requires unlent { is_lent (counts_at self.old f.0) ≡ false }
        requires owner { IsTrue (is_owned owner) }
        ensures frames { self.new ≡ set_owner self.old f.0 owner }
        ensures lent { KeepsLent self.old self.new }
    {
        let counts = self.counts(f);
        self.settle(f, owner, counts);
    }

    /// Lends a frame to a device that sends it, whose page may not be written before the loan ends.
    pub fn lend_strong(&mut self, f: FrameId) -> OutLoan
        requires there { f.0 < length self.old.owners }
        requires owned { IsTrue (is_owned (owner_at self.old f.0)) }
        requires unheld { IsTrue (is_system (owner_at self.old f.0) || not (is_held (counts_at self.old f.0))) }
        requires room { (counts_at self.old f.0).strong < 2 ^ 32 - 1 }
        ensures loan { result ≡ record { frame = f; strong = true } }
        ensures frames { self.new ≡ set_counts self.old f.0 (one_strong_more (counts_at self.old f.0)) }
    {
        let mut counts = self.counts(f);
        counts.strong += 1;
        self.recount(f, counts);
        OutLoan {
            frame: f,
            strong: true,
        }
    }

    /// Lends a frame to a device that sends it, as its page is at the moment of the sending.
    pub fn lend_weak(&mut self, f: FrameId) -> OutLoan
        requires there { f.0 < length self.old.owners }
        requires owned { IsTrue (is_owned (owner_at self.old f.0)) }
        requires unlent { (counts_at self.old f.0).strong ≡ 0 }
        requires room { (counts_at self.old f.0).weak < 2 ^ 32 - 1 }
        ensures loan { result ≡ record { frame = f; strong = false } }
        ensures frames { self.new ≡ set_counts self.old f.0 (one_weak_more (counts_at self.old f.0)) }
    {
        let mut counts = self.counts(f);
        counts.weak += 1;
        self.recount(f, counts);
        OutLoan {
            frame: f,
            strong: false,
        }
    }

    /// Lends a frame to a device that stores in it.
    pub fn lend_in(&mut self, f: FrameId) -> InLoan
        requires there { f.0 < length self.old.owners }
        requires owned { IsTrue (is_owned (owner_at self.old f.0)) }
        requires unlent { (counts_at self.old f.0).strong ≡ 0 }
        requires room { (counts_at self.old f.0).input < 2 ^ 32 - 1 }
        ensures loan { result ≡ record { frame = f } }
        ensures frames { self.new ≡ set_counts self.old f.0 (one_input_more (counts_at self.old f.0)) }
    {
        let mut counts = self.counts(f);
        counts.input += 1;
        self.recount(f, counts);
        InLoan { frame: f }
    }

    /// Ends an output loan. A frame of nobody is free with its last loan.
    pub fn back_out(&mut self, loan: OutLoan)
        requires there { loan.frame.0 < length self.old.owners }
        requires out { 0 < outputs loan.strong (counts_at self.old loan.frame.0) }
        ensures frames { self.new ≡ loan_ended self.old loan.frame.0 (one_output_less loan.strong (counts_at self.old loan.frame.0)) }
        ensures lent { KeepsLent self.old self.new }
    {
        let left = self.counts(loan.frame).without_output(loan.strong);
        self.end_loan(loan.frame, left);
    }

    /// Ends an input loan. A frame of nobody is free with its last loan.
    pub fn back_in(&mut self, loan: InLoan)
        requires there { loan.frame.0 < length self.old.owners }
        requires out { 0 < (counts_at self.old loan.frame.0).input }
        ensures frames { self.new ≡ loan_ended self.old loan.frame.0 (one_input_less (counts_at self.old loan.frame.0)) }
        ensures lent { KeepsLent self.old self.new }
    {
        let mut left = self.counts(loan.frame);
        left.input -= 1;
        self.end_loan(loan.frame, left);
    }

    /// Wires a frame once more.
    pub fn wire(&mut self, f: FrameId)
        requires there { f.0 < length self.old.owners }
        requires room { (counts_at self.old f.0).wires < 2 ^ 32 - 1 }
        ensures { self.new ≡ set_counts self.old f.0 (one_wire_more (counts_at self.old f.0)) }
    {
        let mut counts = self.counts(f);
        counts.wires += 1;
        self.recount(f, counts);
    }

    /// Takes one wire away.
    pub fn unwire(&mut self, f: FrameId)
        requires there { f.0 < length self.old.owners }
        requires wired { 0 < (counts_at self.old f.0).wires }
        ensures { self.new ≡ set_counts self.old f.0 (one_wire_less (counts_at self.old f.0)) }
    {
        let mut counts = self.counts(f);
        counts.wires -= 1;
        self.recount(f, counts);
    }

    /// Lends `n` bytes of a lent page to the device that sends them.
    pub fn dma_out(&self, loan: &OutLoan, off: u32, n: u32) -> &[u8]
        requires there { loan.now.frame.0 < length self.now.owners }
        requires out { 0 < outputs loan.now.strong (counts_at self.now loan.now.frame.0) }
        requires range { off + n ≤ self.now.page }
        ensures { result.now ≡ part off n (bytes_at self.now loan.now.frame.0) }
    {
        self.bytes[loan.frame.0 as usize].run(off as usize, n as usize)
    }

    /// Stores what a device has received in a lent page.
    pub fn dma_in(&mut self, loan: &InLoan, off: u32, from: &[u8])
        requires there { loan.now.frame.0 < length self.old.owners }
        requires out { 0 < (counts_at self.old loan.now.frame.0).input }
        requires range { off + length from.now ≤ self.old.page }
        requires meter { self.old.landed + length from.now < 2 ^ 64 }
        ensures { self.new ≡ more_landed (stored self.old loan.now.frame.0 off from.now) (length from.now) }
    {
        self.store(loan.frame, off, from);
        self.landed += from.len() as u64;
    }

    /// Reads bytes of a page, as many as `into` has places.
    pub fn read(&mut self, f: FrameId, off: u32, into: &mut [u8])
        requires there { f.0 < length self.old.owners }
        requires range { off + length into.old ≤ self.old.page }
        requires meter { self.old.meters.read + length into.old < 2 ^ 64 }
        ensures bytes { into.new ≡ part off (length into.old) (bytes_at self.old f.0) }
        ensures frames { self.new ≡ more_read self.old (length into.old) }
    {
        into.copy_from_slice(self.bytes[f.0 as usize].run(off as usize, into.len()));
        self.meters.read += into.len() as u64;
    }

    /// Writes bytes to a page.
    pub fn write(&mut self, f: FrameId, off: u32, from: &[u8])
        requires there { f.0 < length self.old.owners }
        requires range { off + length from.now ≤ self.old.page }
        requires meter { self.old.meters.written + length from.now < 2 ^ 64 }
        ensures { self.new ≡ more_written (stored self.old f.0 off from.now) (length from.now) }
    {
        self.store(f, off, from);
        self.meters.written += from.len() as u64;
    }

    /// Copies `n` bytes from one page to another, or within one, where the ranges may overlap.
    pub fn copy(&mut self, from: FrameId, from_off: u32, to: FrameId, to_off: u32, n: u32)
        requires from_there { from.0 < length self.old.owners }
        requires to_there { to.0 < length self.old.owners }
        requires from_range { from_off + n ≤ self.old.page }
        requires to_range { to_off + n ≤ self.old.page }
        requires meter { self.old.meters.copied + n < 2 ^ 64 }
        ensures { self.new ≡ more_copied (stored self.old to.0 to_off (part from_off n (bytes_at self.old from.0))) n }
    {
        copy_run(
            &mut self.bytes,
            from.0 as usize,
            from_off as usize,
            to.0 as usize,
            to_off as usize,
            n as usize,
        );
        self.meters.copied += u64::from(n);
    }

    /// Writes `n` zeros to a page.
    pub fn zero(&mut self, f: FrameId, off: u32, n: u32)
        requires there { f.0 < length self.old.owners }
        requires range { off + n ≤ self.old.page }
        requires meter { self.old.meters.zeroed + n < 2 ^ 64 }
        ensures { self.new ≡ more_zeroed (stored self.old f.0 off (replicate n 0)) n }
    {
        let bytes = &mut self.bytes[f.0 as usize];
        bytes.zero(off as usize, n as usize);
        self.meters.zeroed += u64::from(n);
    }

    /// Lends a page to the backing store, to be put there.
    pub fn page_out(&mut self, f: FrameId) -> &[u8]
        requires there { f.0 < length self.old.owners }
        requires meter { self.old.meters.puts + 1 < 2 ^ 64 }
        ensures* frames { sem 𝓛 (ShowsPage self.entry) }
        ensures bytes { result.now ≡ bytes_at self.old f.0 }
        ensures page { length result.now ≡ self.old.page }
    {
        self.meters.puts += 1;
        self.bytes[f.0 as usize].as_slice()
    }

    /// Lends a page to the backing store, to be filled from there.
    pub fn page_in(&mut self, f: FrameId) -> &mut [u8]
        requires there { f.0 < length self.old.owners }
        requires meter { self.old.meters.gets + 1 < 2 ^ 64 }
        ensures* frames { sem 𝓛 (LendsPage self.entry f.0 result) }
        ensures bytes { result.now ≡ bytes_at self.old f.0 }
        ensures page { length result.now ≡ self.old.page }
    {
        self.meters.gets += 1;
        let bytes = &mut self.bytes[f.0 as usize];
        bytes.as_mut_slice()
    }

    // Ends a loan and leaves these counts.
    fn end_loan(&mut self, f: FrameId, left: Counts)
        requires there { f.0 < length self.old.owners }
        requires lent { is_lent (counts_at self.old f.0) ≡ true }
        ensures frames { self.new ≡ loan_ended self.old f.0 left }
        ensures lent { KeepsLent self.old self.new }
    {
        let owner = self.owners[f.0 as usize].after_loan(left);
        self.settle(f, owner, left);
    }

    // Gives a frame that isn't free another owner, and counts that go with it.
    fn settle(&mut self, f: FrameId, owner: Owner, counts: Counts)
        requires there { f.0 < length self.old.owners }
        requires taken { table.is_free (owner_at self.old f.0) ≡ false }
        requires agree { Agree owner counts }
        ensures { self.new ≡ set_owner (set_counts self.old f.0 counts) f.0 owner }
    {
        self.counts[f.0 as usize] = counts;
        self.owners[f.0 as usize] = owner;
        list_free(&mut self.free, f.0, owner);
    }

    // Gives a frame counts that go with its owner, where the old ones did.
    fn recount(&mut self, f: FrameId, counts: Counts)
        requires there { f.0 < length self.old.owners }
        requires agree { Agree (owner_at self.old f.0) (counts_at self.old f.0) → Agree (owner_at self.old f.0) counts }
        ensures { self.new ≡ set_counts self.old f.0 counts }
    {
        self.counts[f.0 as usize] = counts;
    }

    // Stores bytes in a page.
    fn store(&mut self, f: FrameId, off: u32, from: &[u8])
        requires there { f.0 < length self.old.owners }
        requires range { off + length from.now ≤ self.old.page }
        ensures { self.new ≡ stored self.old f.0 off from.now }
    {
        let bytes = &mut self.bytes[f.0 as usize];
        bytes.store(off as usize, from);
    }
}

const NO_COUNTS: Counts = Counts {
    strong: 0,
    weak: 0,
    input: 0,
    wires: 0,
};

const NO_METERS: Meters = Meters {
    read: 0,
    written: 0,
    copied: 0,
    zeroed: 0,
    puts: 0,
    gets: 0,
    taken: 0,
};

// So many frames of zeros.
fn blank(alloc: Global, frames: usize, page: usize) -> Result<Vec<FixedBytes>, NoMemory>
    ensures { IfOk result (λ v. v.items ≡ replicate frames (replicate page 0)) }
{
    let mut all = Vec::with_capacity(alloc, frames)?;
    for _ in 0..frames {
        all.push_reserved(FixedBytes::zeros(alloc, page)?);
    }
    Ok(all)
}

// Lists the frame where its owner says that it is free.
fn list_free(free: &mut FreeList, f: u32, owner: Owner)
    requires { length free.old.list < free.old.room }
    ensures { free.new ≡ record { list = if table.is_free owner then free.old.list ++ f ∷ [] else free.old.list; room = free.old.room } }
{
    if owner.is_free() {
        free.give(f);
    }
}
