//! Fresh frames are lent for input.
ghost use Rattle.std.specs.Prelude.{◌≡◌, ◌≢◌, ℕ, ◌+◌, ◌*◌, ◌^◌, ◌<◌, ◌≤◌, length, count_by, true};
ghost use Rattle.genie_frame.specs.FrameTable.{owner_at, is_free, is_system};
ghost use Rattle.genie_plan.specs.Plans.{input_frames, CanLand};
ghost use Rattle.genie_plan.specs.Buffers.{taken_lent, AreLentFresh};

use arrayvec::ArrayVec;
use genie_frame::{Frames, InLoan, Owner};

// Takes a free frame and lends it.
#[tactic(auto, using(crate::specs::Lemmas::Fresh::fresh_input, crate::specs::Lemmas::Fresh::fresh_strong, crate::specs::Lemmas::Fresh::fresh_owned))]
fn lend_one(frames: &mut Frames, owner: Owner) -> InLoan
    requires owner { is_system owner ≡ true }
    requires free { 0 < count_by is_free frames.old.owners }
    requires meter { frames.old.meters.taken + 1 < 2 ^ 64 }
    ensures there { result.frame.0 < length frames.old.owners }
    ensures counted { length frames.old.counts ≡ length frames.old.owners }
    ensures was_free { owner_at frames.old result.frame.0 ≡ Owner.Free }
    ensures frames { frames.new ≡ taken_lent frames.old result.frame.0 owner }
{
    frames.len();
    let frame = frames.take(owner);
    frames.lend_in(frame)
}

/// Takes `n` free frames for a transfer's own buffer or a device's pool, and lends each of them for input.
pub fn lend_fresh<const N: usize>(frames: &mut Frames, owner: Owner, n: u32) -> ArrayVec<InLoan, N>
    requires owner { is_system owner ≡ true }
    requires few { n ≤ N }
    requires free { n ≤ count_by is_free frames.old.owners }
    requires meter { frames.old.meters.taken + n < 2 ^ 64 }
    ensures fresh { AreLentFresh owner (input_frames result.items) frames.old frames.new }
    ensures number { length (input_frames result.items) ≡ n }

    // Bytes may land in any range over them.
    ensures ready { (first len : ℕ) → first + len < 2 ^ 32 → (0 < len → first + len ≤ frames.new.page * n) → CanLand frames.new (input_frames result.items) first len }
{
    let mut loans = ArrayVec::new();
    'each: for i in 0..n {
        loans.push(lend_one(frames, owner));
    }
    loans
}
