//! Buffers of the system for a transfer.
ghost use Rattle.std.specs.Prelude.{◌≡◌, ◌+◌, ◌%◌, ◌^◌, ◌<◌, ◌≤◌, length, count_by};
ghost use Rattle.genie_base.specs.Counts.{span};
ghost use Rattle.genie_frame.specs.declared.frame.Owner.TheVariants.{System};
ghost use Rattle.genie_frame.specs.FrameTable.{is_free};
ghost use Rattle.genie_object.specs.Sound.{IsSound};
ghost use Rattle.genie_plan.specs.Plans.{input_frames, CanLand};
ghost use Rattle.genie_plan.specs.Buffers.{AreLentFresh};
ghost use Rattle.genie_plan.specs.Fresh.{ShowsBesides};
ghost use Rattle.genie_input.specs.Buffers.{AreBuffers};

use genie_base::TransferId;
use genie_frame::Owner;
use genie_object::Memory;
use genie_plan::{InPlan, lend_fresh, page_count};

/// Lends fresh frames of the transfer for input: a buffer that lies in its pages as the `len` bytes from `addr` on do in
/// theirs.
pub fn aligned_buffer(memory: &mut Memory, id: TransferId, addr: u32, len: u32) -> InPlan
    requires sound { IsSound memory.old }
    requires fits { addr + len < 2 ^ 32 }
    requires span { span memory.old.frames.page addr len ≤ 65 }
    requires free { span memory.old.frames.page addr len ≤ count_by is_free memory.old.frames.owners }
    requires meter { memory.old.frames.meters.taken + 65 < 2 ^ 64 }
    ensures sound { IsSound memory.new }
    ensures seen { ShowsBesides (input_frames result.loans.items) memory.old memory.new }
    ensures ready { CanLand memory.new.frames (input_frames result.loans.items) result.first result.len }
    ensures number { length (input_frames result.loans.items) ≡ span memory.old.frames.page addr len }
    ensures first { result.first ≡ addr % memory.old.frames.page }
    ensures len { result.len ≡ len }

    // Each loan is on another frame, which was free and is the transfer's. Every other frame stays.
    ensures fresh { AreLentFresh (System id.0) (input_frames result.loans.items) memory.old.frames memory.new.frames }
    ensures buffers { AreBuffers memory.new.frames (input_frames result.loans.items) }
    ensures pages { memory.new.pages ≡ memory.old.pages }
    ensures objects { memory.new.objects ≡ memory.old.objects }
    ensures slots { memory.new.slots ≡ memory.old.slots }
{
    let page = memory.frames.page();
    let loans = lend_fresh(
        &mut memory.frames,
        Owner::System(id.0),
        page_count(page, addr, len),
    );
    memory.frames.len();
    InPlan {
        loans,
        first: addr % page,
        len,
    }
}
