//! The wires and loans of a transfer are given back.
ghost use Rattle.std.specs.Prelude.{◌≡◌, ℕ, ◌≤◌};
ghost use Rattle.genie_frame.specs.FrameTable.{counts_at};
ghost use Rattle.genie_plan.specs.Loans.{AreOut, Ended};
ghost use Rattle.genie_plan.specs.Wiring.{Unwired};
ghost use Rattle.genie_kernel.specs.Counted.{wires_on};
ghost use Rattle.genie_kernel.specs.Loans.{loans_of};
ghost use Rattle.genie_changes.specs.Ending.{IsGivenBack, wired_frames};

use genie_frame::Frames;
use genie_kernel::{Loans, Transfer};
use genie_plan::{end_inputs, end_outputs, unwire_inputs, unwire_outputs};

// Takes one wire off the frame of each loan of a basic weak call. No other call has wires.
fn unwire(frames: &mut Frames, transfer: &Transfer)
    requires { (f : ℕ) → wires_on f transfer.now ≤ (counts_at frames.old f).wires }
    ensures { Unwired (wired_frames transfer.now) frames.old frames.new }
{
    if transfer.sem.strong() || transfer.sem.emulated() {
        return;
    }
    match &transfer.loans {
        Loans::Nothing => {}
        Loans::Outward(plan) => unwire_outputs(frames, plan.loans.as_slice()),
        Loans::Inward(plan) => unwire_inputs(frames, plan.loans.as_slice()),
    }
}

// Ends each loan of a transfer once.
fn end_loans(frames: &mut Frames, transfer: &Transfer)
    requires { AreOut frames.old (loans_of transfer.now.loans) }
    ensures { Ended (loans_of transfer.now.loans) frames.old frames.new }
{
    match &transfer.loans {
        Loans::Nothing => {}
        Loans::Outward(plan) => end_outputs(frames, plan.loans.as_slice()),
        Loans::Inward(plan) => end_inputs(frames, plan.loans.as_slice()),
    }
}

/// Takes the wires of a transfer off its frames, and then ends each of its loans once. A frame of its own buffer goes with
/// the loan, one of nobody is free with its last loan, and a page's frame stays with its page.
pub fn give_back(frames: &mut Frames, transfer: &Transfer)
    requires out { AreOut frames.old (loans_of transfer.now.loans) }
    requires wired { (f : ℕ) → wires_on f transfer.now ≤ (counts_at frames.old f).wires }
    ensures { IsGivenBack transfer.now frames.old frames.new }
{
    unwire(frames, transfer);
    end_loans(frames, transfer);
}
