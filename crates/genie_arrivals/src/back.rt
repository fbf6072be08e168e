//! What was lent for an input is given back.
ghost use Rattle.std.specs.Prelude.{◌≡◌, ◌≤◌, ℕ, not, ◌&&◌};
ghost use Rattle.genie_base.specs.Transfers.{class_of, is_strong, is_emulated};
ghost use Rattle.genie_frame.specs.FrameTable.{counts_at};
ghost use Rattle.genie_plan.specs.Plans.{input_frames, times};
ghost use Rattle.genie_plan.specs.Wiring.{Unwired};
ghost use Rattle.genie_changes.specs.Ending.{IsGivenBack};
ghost use Rattle.genie_arrivals.specs.Backing.{CanGiveBack, wires_of};

use genie_base::Semantics;
use genie_frame::{Frames, InLoan};
use genie_kernel::{Loans, Transfer};
use genie_plan::{end_inputs, unwire_inputs};

// Whether a call has wired the pages that are lent for it.
fn is_wiring(sem: Semantics) -> bool
    ensures { result ≡ (not (is_strong (class_of sem)) && not (is_emulated sem)) }
{
    !sem.strong() && !sem.emulated()
}

// Takes the wires off the frames of a call's loans, where it has any.
fn unwire(frames: &mut Frames, sem: Semantics, loans: &[InLoan])
    requires { (f : ℕ) → times (wires_of sem (input_frames loans.now)) f ≤ (counts_at frames.old f).wires }
    ensures { Unwired (wires_of sem (input_frames loans.now)) frames.old frames.new }
{
    frames.len();
    if is_wiring(sem) {
        unwire_inputs(frames, loans);
    }
}

/// Takes an input's wires off, and ends each of its loans. A frame of its own buffer is free then, or nobody's while
/// another loan is out; a page's frame stays with its page, and one of nobody is free with its last loan.
pub(crate) fn give_back(frames: &mut Frames, transfer: &Transfer)
    requires { CanGiveBack transfer.now frames.old }
    ensures { IsGivenBack transfer.now frames.old frames.new }
{
    match &transfer.loans {
        Loans::Nothing => {}
        Loans::Inward(plan) => {
            unwire(frames, transfer.sem, plan.loans.as_slice());
            end_inputs(frames, plan.loans.as_slice());
        }
        Loans::Outward(_) => unreachable!(),
    }
}
