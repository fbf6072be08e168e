//! Buffers of a pooled device, from their making to the close.
ghost use Rattle.std.specs.Prelude.{◌≡◌, ◌*◌, ◌<◌, ◌≤◌, ℕ, [], ◌∷◌, true, length, replicate, IfOk, IfSome, IsSome, None, Some, position, slice_set};
ghost use Rattle.genie_object.specs.Sound.{IsSound};
ghost use Rattle.genie_plan.specs.Plans.{input_frames};
ghost use Rattle.genie_input.specs.Pools.{ArePooled, is_free, is_filling};

use genie_base::NoMemory;
use genie_frame::{FrameId, InLoan};
use genie_input::Pool;
use genie_input::pool::BufferState;
use genie_object::Memory;
use std::alloc::Global;

// Buffers of device 3 in memory of 80 frames.
fn buffers(alloc: Global, depth: u32) -> Result<(Memory, Pool), NoMemory>
    requires depth { (1 ≤ depth) × (depth ≤ 4) }
    ensures sound { IfOk result (λ r. IsSound r.0) }
    ensures buffers { IfOk result (λ r. r.1.buffers ≡ replicate depth BufferState.Free) }
    ensures pooled { IfOk result (λ r. ArePooled r.0.frames 3 (input_frames r.1.loans)) }
{
    let mut memory = Memory::new(alloc, 80, 16, 4)?;
    let pool = Pool::make(&mut memory, 3, depth);
    Ok((memory, pool))
}

// A datagram arrives in the first free buffer. Answers which, where that is the one that it began to fill.
fn take_in(pool: &mut Pool) -> Option<u32>
    requires free { IsSome (position is_free pool.old.buffers) }
    requires none { position is_filling pool.old.buffers ≡ None }
    ensures held { IfSome result (λ b. pool.new.buffers ≡ slice_set pool.old.buffers b BufferState.Held) }
    ensures loans { pool.new.loans ≡ pool.old.loans }
{
    let begun = pool.begin();
    match pool.filling() {
        Some(_) => {}
        None => return None,
    }
    let arrived = pool.arrive();
    if arrived != begun {
        return None;
    }
    Some(begun)
}

// Whether an exchange answers the loan that was there, and puts the other one in its place.
fn exchanges(pool: &mut Pool, buffer: u32, i: u32) -> bool
    requires buffer { buffer < length pool.old.buffers }
    requires place { i < 17 }
    ensures same { pool.new ≡ pool.old }
{
    let was = pool.loan(buffer, i);
    let other = InLoan { frame: FrameId(79) };
    let old = pool.exchange(buffer, i, other);
    let is_there = pool.loan(buffer, i) == other;
    let back = pool.exchange(buffer, i, old);
    is_there && old == was && back == other && old != other
}

#[test]
fn a_pool_of_one(rt: HostRuntime) {
    let (mut memory, mut pool) = buffers(rt.alloc(), 1).expect(&rt, "memory");
    assert_eq!(rt; memory.frames.free(), 63);
    assert_eq!(rt; pool.filling(), None);
    assert_eq!(rt; take_in(&mut pool), Some(0));
    assert!(rt; exchanges(&mut pool, 0, 16));
    pool.release(0);
    assert_eq!(rt; take_in(&mut pool), Some(0));
    pool.end(&mut memory, 3);
    assert_eq!(rt; memory.frames.free(), 80);
}

// Whether datagrams arrive in buffers 0 and 1 of four.
fn takes_two(pool: &mut Pool) -> bool
    requires { pool.old.buffers ≡ replicate 4 BufferState.Free }
    ensures two { result ≡ true → pool.new.buffers ≡ BufferState.Held ∷ BufferState.Held ∷ BufferState.Free ∷ BufferState.Free ∷ [] }
    ensures loans { pool.new.loans ≡ pool.old.loans }
{
    match take_in(pool) {
        Some(0) => {}
        _ => return false,
    }
    match take_in(pool) {
        Some(1) => true,
        _ => false,
    }
}

// Whether datagrams arrive in buffers 0, 2 and 3 of four, where buffer 1 holds one.
fn takes_rest(pool: &mut Pool) -> bool
    requires { pool.old.buffers ≡ BufferState.Free ∷ BufferState.Held ∷ BufferState.Free ∷ BufferState.Free ∷ [] }
    ensures loans { pool.new.loans ≡ pool.old.loans }
{
    match take_in(pool) {
        Some(0) => {}
        _ => return false,
    }
    match take_in(pool) {
        Some(2) => {}
        _ => return false,
    }
    match take_in(pool) {
        Some(3) => true,
        _ => false,
    }
}

#[test]
fn a_pool_of_four(rt: HostRuntime) {
    let (mut memory, mut pool) = buffers(rt.alloc(), 4).expect(&rt, "memory");
    assert_eq!(rt; memory.frames.free(), 12);
    assert!(rt; exchanges(&mut pool, 2, 0));
    assert!(rt; takes_two(&mut pool));
    pool.release(0);
    assert!(rt; takes_rest(&mut pool));
    pool.end(&mut memory, 3);
    assert_eq!(rt; memory.frames.free(), 80);
}
