//! Laws of a process that goes, and of transfers that end before it.
ghost use Rattle.genie_changes.specs.Gone.{GoneState, KeptBytesAreAlike, ProcessGoes, SettledTransferLeaves};

/// A process without a region goes, and no transfer has it as its owner any more: what is true between two changes stays so,
/// and the state is that without the process.
pub fn processes_go()
    ensures settled { ProcessGoes }
    ensures state { GoneState }
{}

/// The state once a transfer is pending no more on which no device works, also between two changes.
pub fn settled_transfers_leave()
    ensures { SettledTransferLeaves }
{}

/// The state is the same where regions, the frames that devices need and orphans show the same.
pub fn kept_bytes_are_alike()
    ensures { KeptBytesAreAlike }
{}
