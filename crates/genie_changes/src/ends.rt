//! Laws of the end of a transfer that no device works on.
ghost use Rattle.genie_changes.specs.Ending.{NoBufferEnds, TransferEnds, GivenBackLeavesOthers, SettledLendsSoundly, GivenBackEndsLoans, GivenBackKeeps, GivenBackShows, OutlinesShowOthers, TransferLeaves};

/// A kernel is settled without a transfer that no device works on, once its loans and its buffer are given back.
pub fn transfers_end()
    ensures ends { TransferEnds }
    ensures unbuffered { NoBufferEnds }
{}

/// Once a transfer's wires are off and its loans have ended, all other transfers and the pools have what they had, no page
/// has moved, and the same is seen.
pub fn loans_are_given_back()
    ensures others { GivenBackLeavesOthers }
    ensures settled { SettledLendsSoundly }
    ensures ends { GivenBackEndsLoans }
    ensures kept { GivenBackKeeps }
    ensures shown { GivenBackShows }
    ensures outlines { OutlinesShowOthers }
{}

/// The state once a transfer that no device works on is pending no more.
pub fn transfers_leave()
    ensures { TransferLeaves }
{}
