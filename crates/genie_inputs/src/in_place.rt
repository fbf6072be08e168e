//! Loans on the pages of a region, in which a weak input stores at once.
ghost use Rattle.std.specs.Prelude.{◌≡◌, Some, ℕ, ◌+◌, ◌*◌, ◌/◌, ◌^◌, ◌<◌, ◌≤◌, true, length, IfOk, OnErr};
ghost use Rattle.genie_base.specs.Causes.{HasCause};
ghost use Rattle.genie_base.specs.Counts.{span};
ghost use Rattle.genie_frame.specs.FrameTable.{counts_at, is_held};
ghost use Rattle.genie_hiding.specs.Rooms.{available};
ghost use Rattle.genie_object.specs.Costs.{AreBelow};
ghost use Rattle.genie_object.specs.Objects.{object_at};
ghost use Rattle.genie_object.specs.Sound.{IsSound, IsSized};
ghost use Rattle.genie_plan.specs.Plans.{times, input_frames};
ghost use Rattle.genie_model.specs.Lemmas.Lists.{Has};
ghost use Rattle.genie_kernel.specs.Good.{IsGood};
ghost use Rattle.genie_kernel.specs.Regions.{owned_regions};
ghost use Rattle.genie_kernel.specs.Rising.{MetersRise};
ghost use Rattle.genie_copying.specs.Bounds.{fixed_bytes};
ghost use Rattle.genie_copying.specs.Ranges.{pages_at};
ghost use Rattle.genie_copying.specs.Spending.{CopiesAtMost};
ghost use Rattle.genie_changes.specs.Making.{IsMoved};
ghost use Rattle.genie_inputs.specs.Places.{CanBeWired, LendsPages, Wires};

use crate::room::make_free;
use genie_changes::making::{memory_moves, moves_join};
use genie_input::in_place;
use genie_kernel::{Kernel, Loans};
use genie_object::{Memory, Range};
use genie_plan::laws::wires_show_what_was_seen;
use genie_plan::{InPlan, page_count, wire_inputs};
use genie_region::Region;
use genie_spaces::protect::guard;
use genie_store::{Store, StoreFault};

// Wires the frames of a plan, where the call is a basic one.
fn wire_plan(memory: &mut Memory, plan: &InPlan, basic: bool)
    requires { CanBeWired memory.old.frames (input_frames plan.now.loans.items) }
    ensures { Wires basic (input_frames plan.now.loans.items) memory.old memory.new }
{
    if basic {
        wire_inputs(&mut memory.frames, plan.loans.as_slice());
    }
}

// Makes room, and lends the pages of the `len` bytes from place `off` of a region on, which gets no permission by that. A
// basic call wires them besides.
pub(crate) fn lend_in_place<S: Store>(
    kernel: &mut Kernel,
    store: &mut S,
    region: Region,
    off: u32,
    len: u32,
    basic: bool,
) -> Result<Loans, StoreFault>
    requires good { IsGood kernel.old }
    requires sized { IsSized kernel.old.memory (S.view store.old) }
    requires meters { AreBelow (2 ^ 63) kernel.old.memory.frames.meters }
    requires owned { Has region (owned_regions kernel.old.spaces.processes) }
    requires fits { off + len < 2 ^ 32 }
    requires within { off / kernel.old.config.page + span kernel.old.config.page off len ≤ length (object_at kernel.old.memory.objects region.object.0) }
    requires most { span kernel.old.config.page off len ≤ 65 }
    requires frames { span kernel.old.config.page off len ≤ available kernel.old.memory.frames }
    ensures lends { IfOk result (LendsPages kernel.old kernel.new (S.view store.old) (S.view store.new) region off len basic) }
    ensures moved { OnErr result (IsMoved kernel.old kernel.new (S.view store.old) (S.view store.new)) }
    ensures cause { HasCause (S.view store.old).faults (S.view store.new).faults result }
    ensures rises { MetersRise (2 ^ 21) kernel.old.memory.frames kernel.new.memory.frames }
    ensures landed { kernel.new.memory.frames.landed ≡ kernel.old.memory.frames.landed }
    ensures gets { kernel.new.memory.frames.meters.gets ≤ kernel.old.memory.frames.meters.gets + span kernel.old.config.page off len }
    ensures copying { CopiesAtMost (fixed_bytes kernel.old (Some (pages_at kernel.old.config.page region.object.0 off len))) kernel.old.memory kernel.new.memory }
{
    memory_moves();
    moves_join();
    wires_show_what_was_seen();
    let page = kernel.spaces.page().get();
    match make_free(kernel, store, page_count(page, off, len)) {
        Ok(()) => {}
        Err(fault) => return Err(fault),
    }
    let range = Range {
        object: region.object,
        off,
        len,
    };
    let lent = in_place(&mut kernel.memory, store, &range);
    guard(&mut kernel.memory.objects, region.object, region.writable);
    match lent {
        Ok(plan) => {
            wire_plan(&mut kernel.memory, &plan, basic);
            Ok(Loans::Inward(plan))
        }
        Err(fault) => Err(fault),
    }
}
