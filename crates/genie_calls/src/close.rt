//! All loans are given back.
ghost use Rattle.std.specs.Prelude.{◌≡◌, ℕ, ◌+◌, ◌<◌, [], None, IfSome, length};
ghost use Rattle.genie_object.specs.Sound.{IsSound};
ghost use Rattle.genie_plan.specs.Plans.{input_frames};
ghost use Rattle.genie_input.specs.Pools.{ArePooled};
ghost use Rattle.genie_model.specs.Tables.{entry};
ghost use Rattle.genie_kernel.specs.Good.{IsGood};
ghost use Rattle.genie_calls.specs.Closing.{IsClosed, IsLent, KeepsPages, KeepsRest, LendsPools, PoolEnds};

use crate::laws::close_laws;
use genie_changes::giving::give_back;
use genie_changes::settled::good_kernels_are_settled;
use genie_input::Pool;
use genie_kernel::Kernel;
use genie_object::Memory;

// Takes the first pending transfer out, and gives its loans back.
fn end_first(kernel: &mut Kernel)
    requires lent { IsLent kernel.old }
    requires some { 0 < length kernel.old.transfers }
    ensures lent { IsLent kernel.new }
    ensures rest { KeepsRest kernel.old kernel.new }
    ensures fewer { length kernel.new.transfers + 1 ≡ length kernel.old.transfers }
{
    close_laws();
    let id = kernel.transfers.at(0).id;
    let transfer = kernel.transfers.remove(id);
    give_back(&mut kernel.memory.frames, &transfer);
    kernel.memory.frames.len();
    let _posted = kernel.posted.cancel(id.0);
}

// Takes all pending transfers out.
fn end_transfers(kernel: &mut Kernel)
    requires { IsLent kernel.old }
    ensures lent { IsLent kernel.new }
    ensures rest { KeepsRest kernel.old kernel.new }
    ensures none { kernel.new.transfers ≡ [] }
{
    let pending = kernel.transfers.len();
    'transfers: for _done in 0..pending {
        end_first(kernel);
    }
}

// Gives the loans of a device's pool back, where it has one.
fn end_pool(memory: &mut Memory, dev: u32, pool: &mut Option<Pool>)
    requires sound { IsSound memory.old }
    requires pooled { IfSome pool.old (λ p. ArePooled memory.old.frames dev (input_frames p.loans)) }
    ensures ends { PoolEnds pool.old memory.old memory.new }
    ensures none { pool.new ≡ None }
{
    match pool {
        Some(buffers) => buffers.end(memory, dev),
        None => {}
    }
    *pool = None;
}

// Gives the loans of all pools back.
fn end_pools(memory: &mut Memory, pools: &mut [Option<Pool>; 8])
    requires lent { LendsPools 0 memory.old pools.old }
    ensures lent { LendsPools 8 memory.new pools.new }
    ensures keeps { KeepsPages memory.old memory.new }
{
    'devices: for d in 0..8 {
        end_pool(memory, d, &mut pools[d as usize]);
    }
}

/// Gives every loan back, whatever is pending. Afterwards no transfer is pending, no input is posted, and no device has a
/// pool; no frame carries a loan or a wire. It takes no memory. Address spaces and devices stay as they are.
pub fn close(kernel: &mut Kernel)
    requires good { IsGood kernel.old }
    ensures closed { IsClosed kernel.new }
    ensures rest { KeepsRest kernel.old kernel.new }
{
    good_kernels_are_settled();
    end_transfers(kernel);
    end_pools(&mut kernel.memory, &mut kernel.pools);
}
