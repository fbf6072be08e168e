//! The frames of a plan are wired, and their wires come off.
ghost use Rattle.std.specs.Prelude.{◌≡◌, ℕ, ◌+◌, ◌^◌, ◌<◌, ◌≤◌, length};
ghost use Rattle.genie_frame.specs.FrameTable.{counts_at};
ghost use Rattle.genie_plan.specs.Plans.{input_frames, output_frames, times};
ghost use Rattle.genie_plan.specs.Wiring.{CanWire, CanUnwire, all_wired, all_unwired, Wired, Unwired};

use genie_frame::{Frames, InLoan, OutLoan};

fn wire_each_input(frames: &mut Frames, loans: &[InLoan])
    requires { CanWire frames.old (input_frames loans.now) }
    ensures { frames.new ≡ all_wired frames.old (input_frames loans.now) }
{
    match loans.split_first() {
        None => {}
        Some((loan, rest)) => {
            frames.wire(loan.frame);
            wire_each_input(frames, rest);
        }
    }
}

fn unwire_each_input(frames: &mut Frames, loans: &[InLoan])
    requires { CanUnwire frames.old (input_frames loans.now) }
    ensures { frames.new ≡ all_unwired frames.old (input_frames loans.now) }
{
    match loans.split_first() {
        None => {}
        Some((loan, rest)) => {
            frames.unwire(loan.frame);
            unwire_each_input(frames, rest);
        }
    }
}

fn wire_each_output(frames: &mut Frames, loans: &[OutLoan])
    requires { CanWire frames.old (output_frames loans.now) }
    ensures { frames.new ≡ all_wired frames.old (output_frames loans.now) }
{
    match loans.split_first() {
        None => {}
        Some((loan, rest)) => {
            frames.wire(loan.frame);
            wire_each_output(frames, rest);
        }
    }
}

fn unwire_each_output(frames: &mut Frames, loans: &[OutLoan])
    requires { CanUnwire frames.old (output_frames loans.now) }
    ensures { frames.new ≡ all_unwired frames.old (output_frames loans.now) }
{
    match loans.split_first() {
        None => {}
        Some((loan, rest)) => {
            frames.unwire(loan.frame);
            unwire_each_output(frames, rest);
        }
    }
}

/// Wires the frame of each of these input loans once more.
#[tactic(auto, using(crate::specs::Lemmas::Wiring::can_wire, crate::specs::Lemmas::Wiring::wired_all))]
pub fn wire_inputs(frames: &mut Frames, loans: &[InLoan])
    requires there { (f : ℕ) → 0 < times (input_frames loans.now) f → f < length frames.old.owners }
    requires room { (f : ℕ) → (counts_at frames.old f).wires + times (input_frames loans.now) f < 2 ^ 32 }
    ensures { Wired (input_frames loans.now) frames.old frames.new }
{
    frames.len();
    wire_each_input(frames, loans);
}

/// Takes one wire off the frame of each of these input loans.
#[tactic(auto, using(crate::specs::Lemmas::Wiring::can_unwire, crate::specs::Lemmas::Wiring::unwired_all))]
pub fn unwire_inputs(frames: &mut Frames, loans: &[InLoan])
    requires { (f : ℕ) → times (input_frames loans.now) f ≤ (counts_at frames.old f).wires }
    ensures { Unwired (input_frames loans.now) frames.old frames.new }
{
    frames.len();
    unwire_each_input(frames, loans);
}

/// Wires the frame of each of these output loans once more.
#[tactic(auto, using(crate::specs::Lemmas::Wiring::can_wire, crate::specs::Lemmas::Wiring::wired_all))]
pub fn wire_outputs(frames: &mut Frames, loans: &[OutLoan])
    requires there { (f : ℕ) → 0 < times (output_frames loans.now) f → f < length frames.old.owners }
    requires room { (f : ℕ) → (counts_at frames.old f).wires + times (output_frames loans.now) f < 2 ^ 32 }
    ensures { Wired (output_frames loans.now) frames.old frames.new }
{
    frames.len();
    wire_each_output(frames, loans);
}

/// Takes one wire off the frame of each of these output loans.
#[tactic(auto, using(crate::specs::Lemmas::Wiring::can_unwire, crate::specs::Lemmas::Wiring::unwired_all))]
pub fn unwire_outputs(frames: &mut Frames, loans: &[OutLoan])
    requires { (f : ℕ) → times (output_frames loans.now) f ≤ (counts_at frames.old f).wires }
    ensures { Unwired (output_frames loans.now) frames.old frames.new }
{
    frames.len();
    unwire_each_output(frames, loans);
}
