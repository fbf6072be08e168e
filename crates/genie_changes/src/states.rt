//! Laws of the state that a kernel stands for, and of its orphans.
ghost use Rattle.genie_changes.specs.Orphans.{ByteOfPage, OrphanLies, OrphansShrink, OrphansGrow, OrphansSame};
ghost use Rattle.genie_changes.specs.States.{RemovedState, LeftState, TransfersMore, AddedState};

/// The byte at a place under a weak loan is that of its page's frame, whichever transfer covers it; the frames under an
/// orphan's loans show their bytes.
pub fn orphans_lie_in_frames()
    ensures byte { ByteOfPage }
    ensures lies { OrphanLies }
{}

/// The orphans once a transfer is pending no more, once a region is removed, and with one transfer more.
pub fn orphans_change()
    ensures shrink { OrphansShrink }
    ensures grow { OrphansGrow }
    ensures same { OrphansSame }
{}

/// The state once a region is removed.
pub fn removed_state()
    ensures { RemovedState }
{}

/// The state once a transfer is pending no more.
pub fn left_state()
    ensures { LeftState }
{}

/// The transfers with one more, and the state with it.
pub fn added_state()
    ensures transfers { TransfersMore }
    ensures state { AddedState }
{}
