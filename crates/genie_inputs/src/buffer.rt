//! The buffer of a strong input.
ghost use Rattle.std.specs.Prelude.{◌≡◌, ◌+◌, ◌^◌, ◌<◌, ◌≤◌, IsTrue, count_by, IfOk, OnErr};
ghost use Rattle.genie_base.specs.Causes.{HasCause};
ghost use Rattle.genie_base.specs.Counts.{span};
ghost use Rattle.genie_frame.specs.FrameTable.{is_free};
ghost use Rattle.genie_hiding.specs.Rooms.{available};
ghost use Rattle.genie_object.specs.Costs.{AreBelow};
ghost use Rattle.genie_object.specs.Sound.{IsSound, IsSized};
ghost use Rattle.genie_model.specs.Tables.{entry};
ghost use Rattle.genie_kernel.specs.Good.{IsGood};
ghost use Rattle.genie_kernel.specs.Planned.{is_early_device};
ghost use Rattle.genie_kernel.specs.Rising.{MetersRise};
ghost use Rattle.genie_copying.specs.Spending.{CopiesAtMost};
ghost use Rattle.genie_inputs.specs.Buffers.{LendsBuffer, LendsStrong, frames_for, is_early_place};
ghost use Rattle.genie_changes.specs.Making.{IsMoved};

use crate::room::make_free;
use genie_base::{Config, Kind, TransferId};
use genie_input::aligned_buffer;
use genie_kernel::{Kernel, Loans};
use genie_object::Memory;
use genie_plan::page_count;
use genie_store::{Store, StoreFault};

// Whether an early device is at this place of the configuration.
pub(crate) fn is_early_at(config: &Config, dev: u32) -> bool
    ensures { result ≡ is_early_place (entry config.now.devices dev) }
{
    match config.devices.get(dev as usize) {
        Some(Some(device)) => device.kind == Kind::Early,
        _ => false,
    }
}

// How many frames the buffer of a strong input has: those of its pages on an early device, and none on another.
fn frames_for(page: u32, early: bool, at: u32, len: u32) -> u32
    requires some { 0 < page }
    requires fits { at + len < 2 ^ 32 }
    ensures { result ≡ frames_for page early at len }
{
    if early { page_count(page, at, len) } else { 0 }
}

// Lends a buffer on an early device, whose bytes lie in their pages as the `len` bytes from address `at` on, and nothing on
// another one.
fn lend_buffer(memory: &mut Memory, id: TransferId, early: bool, at: u32, len: u32) -> Loans
    requires sound { IsSound memory.old }
    requires fits { at + len < 2 ^ 32 }
    requires span { span memory.old.frames.page at len ≤ 65 }
    requires free { frames_for memory.old.frames.page early at len ≤ count_by is_free memory.old.frames.owners }
    requires meter { memory.old.frames.meters.taken + 65 < 2 ^ 64 }
    ensures { LendsBuffer id.0 at len early memory.old memory.new result }
{
    if early {
        Loans::Inward(aligned_buffer(memory, id, at, len))
    } else {
        Loans::Nothing
    }
}

// Makes room for the buffer of a strong input and lends it, where its device is an early one.
pub(crate) fn lend_strongly<S: Store>(
    kernel: &mut Kernel,
    store: &mut S,
    id: TransferId,
    dev: u32,
    at: u32,
    len: u32,
) -> Result<Loans, StoreFault>
    requires good { IsGood kernel.old }
    requires sized { IsSized kernel.old.memory (S.view store.old) }
    requires meters { AreBelow (2 ^ 63) kernel.old.memory.frames.meters }
    requires fits { at + len < 2 ^ 32 }
    requires span { span kernel.old.config.page at len ≤ 65 }
    requires frames { span kernel.old.config.page at len ≤ available kernel.old.memory.frames }
    ensures lends { IfOk result (LendsStrong kernel.old kernel.new (S.view store.old) (S.view store.new) id.0 dev at len) }
    ensures moved { OnErr result (IsMoved kernel.old kernel.new (S.view store.old) (S.view store.new)) }
    ensures cause { HasCause (S.view store.old).faults (S.view store.new).faults result }
    ensures rises { MetersRise (2 ^ 20) kernel.old.memory.frames kernel.new.memory.frames }
    ensures landed { kernel.new.memory.frames.landed ≡ kernel.old.memory.frames.landed }
    ensures gets { kernel.new.memory.frames.meters.gets ≡ kernel.old.memory.frames.meters.gets }
    ensures copying { CopiesAtMost 0 kernel.old.memory kernel.new.memory }
{
    let page = kernel.spaces.page().get();
    let early = is_early_at(&kernel.config, dev);
    let n = frames_for(page, early, at, len);
    match make_free(kernel, store, n) {
        Ok(()) => Ok(lend_buffer(&mut kernel.memory, id, early, at, len)),
        Err(fault) => Err(fault),
    }
}
