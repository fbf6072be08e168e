//! Plans are given back: each loan ends once.
ghost use Rattle.std.specs.Prelude.{◌≡◌, ◌<◌};
ghost use Rattle.genie_frame.specs.FrameTable as table;
ghost use Rattle.genie_frame.specs.FrameTable.{counts_at};
ghost use Rattle.genie_frame.specs.Frames.{outputs};
ghost use Rattle.genie_plan.specs.Loans.{input_loan, input_loans, output_loan, output_loans, AreOut, Ended, ended};

use genie_frame::{Frames, InLoan, OutLoan, Owner};

// Whether a frame is one of a system buffer: of a transfer's own, or of a device's pool.
fn is_system(owner: Owner) -> bool
    ensures { result ≡ table.is_system owner }
{
    matches!(owner, Owner::System(_) | Owner::Pool(_))
}

/// Ends an input loan of a plan. A frame of a system buffer is let go with the loan: it is free, or nobody's while
/// another loan is out. A page's frame stays with its page, and one of nobody is free with its last loan.
#[tactic(auto, using(crate::specs::Lemmas::Ending::loan_owned))]
pub fn end_input(frames: &mut Frames, loan: InLoan)
    requires { 0 < (counts_at frames.old loan.frame.0).input }
    ensures { frames.new ≡ ended frames.old (input_loan loan) }
{
    frames.len();
    if is_system(frames.owner(loan.frame)) {
        frames.back_in(loan);
        frames.disown(loan.frame);
    } else {
        frames.back_in(loan);
    }
}

/// Ends an output loan of a plan, strong or weak, as `end_input` does.
#[tactic(auto, using(crate::specs::Lemmas::Ending::loan_owned))]
pub fn end_output(frames: &mut Frames, loan: OutLoan)
    requires { 0 < outputs loan.strong (counts_at frames.old loan.frame.0) }
    ensures { frames.new ≡ ended frames.old (output_loan loan) }
{
    frames.len();
    if is_system(frames.owner(loan.frame)) {
        frames.back_out(loan);
        frames.disown(loan.frame);
    } else {
        frames.back_out(loan);
    }
}

/// Ends each of these input loans once, as `end_input` does. Wires come off before, by `unwire_inputs`.
pub fn end_inputs(frames: &mut Frames, loans: &[InLoan])
    requires { AreOut frames.old (input_loans loans.now) }
    ensures { Ended (input_loans loans.now) frames.old frames.new }
{
    frames.len();
    'each: for loan in loans {
        end_input(frames, *loan);
    }
}

/// Ends each of these output loans once, as `end_output` does. Wires come off before, by `unwire_outputs`.
pub fn end_outputs(frames: &mut Frames, loans: &[OutLoan])
    requires { AreOut frames.old (output_loans loans.now) }
    ensures { Ended (output_loans loans.now) frames.old frames.new }
{
    frames.len();
    'each: for loan in loans {
        end_output(frames, *loan);
    }
}
