//! The buffers of a kernel's pools.
ghost use Rattle.std.specs.Prelude.{◌≡◌, ℕ, Some, None, IsSome, position};
ghost use Rattle.genie_input.specs.Pools.{buffer_loans, is_filling};
ghost use Rattle.genie_model.specs.Tables.{entry};
ghost use Rattle.genie_pooling.specs.Buffers.{Arrives, Begins, Frees, HasFilling, HoldsIn, MayBegin};

use genie_frame::InLoan;
use genie_input::Pool;

/// The loans of the buffer that a pool fills.
pub(crate) fn loans_of(pool: &Pool) -> &[InLoan]
    requires { IsSome (position is_filling pool.now.buffers) }
    ensures { (b : ℕ) → position is_filling pool.now.buffers ≡ Some b → result.now ≡ buffer_loans pool.now b }
{
    match pool.filling() {
        Some(buffer) => pool.loans(buffer),
        None => unreachable!(),
    }
}

/// A device begins to store in the first free buffer of its pool.
pub(crate) fn begin(pools: &mut [Option<Pool>; 8], dev: u32)
    requires { MayBegin (entry pools.old dev) }
    ensures { Begins dev pools.old pools.new }
{
    match &mut pools[dev as usize] {
        Some(pool) => {
            pool.begin();
        }
        None => unreachable!(),
    }
}

/// The datagram that a device stores has arrived. Answers in which buffer.
pub(crate) fn arrive(pools: &mut [Option<Pool>; 8], dev: u32) -> u32
    requires { HasFilling (entry pools.old dev) }
    ensures { Arrives dev pools.old pools.new result }
{
    match &mut pools[dev as usize] {
        Some(pool) => pool.arrive(),
        None => unreachable!(),
    }
}

/// A buffer that holds a datagram is free again.
pub(crate) fn release(pools: &mut [Option<Pool>; 8], dev: u32, buffer: u32)
    requires { HoldsIn buffer (entry pools.old dev) }
    ensures { Frees dev buffer pools.old pools.new }
{
    match &mut pools[dev as usize] {
        Some(pool) => pool.release(buffer),
        None => unreachable!(),
    }
}
