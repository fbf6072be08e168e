//! Loans that are taken back before the transfer has begun.
ghost use Rattle.std.specs.Prelude.{◌≡◌};
ghost use Rattle.genie_frame.specs.FrameTable.{IsShaped, AreLoansOwned};
ghost use Rattle.genie_plan.specs.Loans.{output_loans, AreOut, Ended};

use genie_frame::OutLoan;
use genie_object::Memory;
use genie_plan::end_outputs;

/// Ends each of these loans once. A frame of the transfer's own is free with its last loan.
pub fn take_back(memory: &mut Memory, loans: &[OutLoan])
    requires { AreOut memory.old.frames (output_loans loans.now) }
    ensures memory { memory.new ≡ record memory.old { frames = memory.new.frames } }
    ensures ended { Ended (output_loans loans.now) memory.old.frames memory.new.frames }
    ensures shaped { IsShaped memory.new.frames.page memory.new.frames.owners memory.new.frames.counts memory.new.frames.bytes }
    ensures lent { AreLoansOwned memory.new.frames.owners memory.new.frames.counts }
{
    end_outputs(&mut memory.frames, loans);
    memory.frames.len();
}
