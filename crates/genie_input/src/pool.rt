//! The buffers that a pooled device holds.
ghost use Rattle.std.specs.Prelude.{◌≡◌, ℕ, ◌+◌, ◌*◌, ◌^◌, ◌<◌, ◌≤◌, [], ◌∷◌, Some, None, IsSome, true, length, count_by, position, replicate, slice_index_or, slice_set};
ghost use Rattle.genie_frame.specs.FrameTable.{counts_at, owner_at, is_system, is_free as is_free_frame};
ghost use Rattle.genie_object.specs.Sound.{IsSound};
ghost use Rattle.genie_plan.specs.Plans.{input_frames};
ghost use Rattle.genie_plan.specs.Buffers.{AreLentFresh};
ghost use Rattle.genie_plan.specs.Fresh.{ShowsBesides};
ghost use Rattle.genie_input.specs.Pools as spec;
ghost use Rattle.genie_input.specs.Buffers.{one_input};
ghost use Rattle.genie_input.specs.Pools.{ArePooled, AreFreed, ShowsFreed, buffer_loans, loan_at, set_buffer, set_loan};

use arrayvec::ArrayVec;
use genie_frame::{Frames, InLoan, Owner};
use genie_object::Memory;
use genie_plan::lend_fresh;
use std::marker::Model;
use std::mem;

/// How many loans a buffer has: one for each page that a datagram of 16 pages may touch.
pub const BUFFER_LOANS: u32 = 17;

/// What a buffer is doing.
#[derive(Clone, Copy, Debug, Default, PartialEq, Eq)]
pub enum BufferState {
    #[default]
    Free,
    /// The device stores a datagram in it.
    Filling,
    /// It holds a datagram that has arrived.
    Held,
}

/// The buffers of a pooled device: at most four, of 17 input loans each. Contracts see what each buffer is doing, and the
/// loans of all buffers, one buffer after the other.
#[derive(Drop)]
pub struct Pool {
    buffers: ArrayVec<BufferState, 4>,
    loans: ArrayVec<InLoan, 68>,
}

impl Model for Pool {
    ghost use Rattle.genie_input.specs.Pools.{PoolState, IsPool};

    ghost Value = { PoolState };

    ghost view = { λ p. record { buffers = p.buffers.items; loans = p.loans.items } };

    ghost invariant = { λ p. IsPool p.buffers.items p.loans.items };
}

fn is_free(state: BufferState) -> bool
    ensures { result ≡ spec.is_free state }
{
    matches!(state, BufferState::Free)
}

fn is_filling(state: BufferState) -> bool
    ensures { result ≡ spec.is_filling state }
{
    matches!(state, BufferState::Filling)
}

// The first free buffer.
fn first_free(buffers: &[BufferState]) -> Option<usize>
    ensures { result ≡ position spec.is_free buffers.now }
{
    buffers.iter().position(|state| is_free(*state))
}

// The buffer that is filling.
fn first_filling(buffers: &[BufferState]) -> Option<usize>
    ensures { result ≡ position spec.is_filling buffers.now }
{
    buffers.iter().position(|state| is_filling(*state))
}

// `depth` free buffers.
fn free_buffers(depth: u32) -> ArrayVec<BufferState, 4>
    requires { depth ≤ 4 }
    ensures { result.items ≡ replicate depth BufferState.Free }
{
    let mut buffers = ArrayVec::new();
    'each: for _ in 0..depth {
        buffers.push(BufferState::Free);
    }
    buffers
}

// Ends a loan of a pool, whose frame is free then.
fn end_loan(frames: &mut Frames, loan: InLoan)
    requires owned { is_system (owner_at frames.old loan.frame.0) ≡ true }
    requires counts { counts_at frames.old loan.frame.0 ≡ one_input }
    ensures freed { AreFreed (loan.frame.0 ∷ []) frames.old frames.new }
{
    frames.len();
    frames.back_in(loan);
    frames.disown(loan.frame);
}

// Ends the loans of a pool.
fn end_loans(frames: &mut Frames, dev: u32, loans: &[InLoan])
    requires pooled { ArePooled frames.old dev (input_frames loans.now) }
    ensures freed { AreFreed (input_frames loans.now) frames.old frames.new }
{
    'each: for i in 0..loans.len() {
        end_loan(frames, loans[i]);
    }
}

// Says what a buffer is doing.
fn set_state(buffers: &mut ArrayVec<BufferState, 4>, buffer: usize, state: BufferState)
    requires { buffer < length buffers.old.items }
    ensures { buffers.new.items ≡ slice_set buffers.old.items buffer state }
{
    buffers.as_mut_slice()[buffer] = state;
}

impl Pool {
    /// Makes `depth` free buffers for a device. Their loans are on frames that were free, and are the device's pool now.
    pub fn make(memory: &mut Memory, dev: u32, depth: u32) -> Pool
        requires sound { IsSound memory.old }
        requires depth { (1 ≤ depth) × (depth ≤ 4) }
        requires free { 17 * depth ≤ count_by is_free_frame memory.old.frames.owners }
        requires meter { memory.old.frames.meters.taken + 68 < 2 ^ 64 }
        ensures sound { IsSound memory.new }
        ensures seen { ShowsBesides (input_frames result.loans) memory.old memory.new }
        ensures buffers { result.buffers ≡ replicate depth BufferState.Free }
        ensures number { length result.loans ≡ 17 * depth }
        ensures pooled { ArePooled memory.new.frames dev (input_frames result.loans) }

        // Each loan is on another frame, which was free and is the pool's. Every other frame stays.
        ensures fresh { AreLentFresh (Owner.Pool dev) (input_frames result.loans) memory.old.frames memory.new.frames }
        ensures pages { memory.new.pages ≡ memory.old.pages }
        ensures objects { memory.new.objects ≡ memory.old.objects }
        ensures slots { memory.new.slots ≡ memory.old.slots }
    {
        let loans = lend_fresh(&mut memory.frames, Owner::Pool(dev), BUFFER_LOANS * depth);
        memory.frames.len();
        Pool {
            buffers: free_buffers(depth),
            loans,
        }
    }

    /// The device begins to store in the first free buffer. Answers which.
    pub fn begin(&mut self) -> u32
        requires free { IsSome (position spec.is_free self.old.buffers) }
        requires none { position spec.is_filling self.old.buffers ≡ None }
        ensures first { position spec.is_free self.old.buffers ≡ Some result }
        ensures begun { self.new ≡ set_buffer self.old result BufferState.Filling }
    {
        let buffer = first_free(self.buffers.as_slice()).unwrap();
        set_state(&mut self.buffers, buffer, BufferState::Filling);
        buffer as u32
    }

    /// The buffer in which the device stores, or `None` exactly where there is none.
    pub fn filling(&self) -> Option<u32>
        ensures { result ≡ position spec.is_filling self.now.buffers }
    {
        match first_filling(self.buffers.as_slice()) {
            Some(buffer) => Some(buffer as u32),
            None => None,
        }
    }

    /// The datagram has arrived: its buffer holds it now. Answers which.
    pub fn arrive(&mut self) -> u32
        requires { IsSome (position spec.is_filling self.old.buffers) }
        ensures filling { position spec.is_filling self.old.buffers ≡ Some result }
        ensures arrived { self.new ≡ set_buffer self.old result BufferState.Held }
    {
        let buffer = first_filling(self.buffers.as_slice()).unwrap();
        set_state(&mut self.buffers, buffer, BufferState::Held);
        buffer as u32
    }

    /// A buffer that holds a datagram is free again.
    pub fn release(&mut self, buffer: u32)
        requires there { buffer < length self.old.buffers }
        requires held { slice_index_or self.old.buffers buffer BufferState.Free ≡ BufferState.Held }
        ensures { self.new ≡ set_buffer self.old buffer BufferState.Free }
    {
        set_state(&mut self.buffers, buffer as usize, BufferState::Free);
    }

    /// The loans of a buffer, in order.
    pub fn loans(&self, buffer: u32) -> &[InLoan]
        requires { buffer < length self.now.buffers }
        ensures loans { result.now ≡ buffer_loans self.now buffer }
        ensures number { length result.now ≡ 17 }
    {
        let start = buffer as usize * 17;
        &self.loans.as_slice()[start..start + 17]
    }

    /// One loan of a buffer.
    pub fn loan(&self, buffer: u32, i: u32) -> InLoan
        requires buffer { buffer < length self.now.buffers }
        requires place { i < 17 }
        ensures { result ≡ loan_at self.now buffer i }
    {
        self.loans.as_slice()[buffer as usize * 17 + i as usize]
    }

    /// Puts a loan in the place of another one of a buffer, and answers the other one.
    pub fn exchange(&mut self, buffer: u32, i: u32, loan: InLoan) -> InLoan
        requires buffer { buffer < length self.old.buffers }
        requires place { i < 17 }
        ensures old { result ≡ loan_at self.old buffer i }
        ensures exchanged { self.new ≡ set_loan self.old buffer i loan }
    {
        let at = buffer as usize * 17 + i as usize;
        mem::replace(&mut self.loans.as_mut_slice()[at], loan)
    }

    /// Gives all loans back at a close: the frames are free, and the pool has no buffer.
    pub fn end(&mut self, memory: &mut Memory, dev: u32)
        requires sound { IsSound memory.old }
        requires pooled { ArePooled memory.old.frames dev (input_frames self.old.loans) }
        ensures sound { IsSound memory.new }
        ensures seen { ShowsFreed (input_frames self.old.loans) memory.old memory.new }
        ensures freed { AreFreed (input_frames self.old.loans) memory.old.frames memory.new.frames }
        ensures pages { memory.new.pages ≡ memory.old.pages }
        ensures objects { memory.new.objects ≡ memory.old.objects }
        ensures slots { memory.new.slots ≡ memory.old.slots }
        ensures empty { self.new ≡ record { buffers = []; loans = [] } }
    {
        end_loans(&mut memory.frames, dev, self.loans.as_slice());
        memory.frames.len();
        self.buffers = ArrayVec::new();
        self.loans = ArrayVec::new();
    }
}
