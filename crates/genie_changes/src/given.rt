//! What the invariant of a kernel gives of what other laws ask.
ghost use Rattle.genie_changes.specs.Premises.{WeakFramesAreHeld, NobodysFramesShow, OrphansLieInFrames, OthersLieInFrames, RegionsLeavePages};
ghost use Rattle.genie_changes.specs.Removing.{GoodTransfersRise, GoodIsOnlyIn, GoodRegionsFit, GoodPageHasBytes, GoodIsListedIn};

/// A device holds each frame of a weak transfer.
pub fn weak_frames_are_held()
    ensures { WeakFramesAreHeld }
{}

/// Nobody's frames show a page of bytes; then the transfers that name orphans lie in frames, with one less too.
pub fn orphans_lie()
    ensures show { NobodysFramesShow }
    ensures all { OrphansLieInFrames }
    ensures others { OthersLieInFrames }
{}

/// Numbers of transfers rise; a region of a process is only in it, and listed in no other queue.
pub fn numbers_differ()
    ensures transfers { GoodTransfersRise }
    ensures regions { GoodIsOnlyIn }
    ensures listed { GoodIsListedIn }
{}

/// Where a region goes its pages stay under the loans on them, with their bytes.
pub fn regions_leave_pages()
    ensures { RegionsLeavePages }
{}

/// Regions have 1 to 64 pages and numbers below 577, and a page has bytes.
pub fn regions_fit()
    ensures regions { GoodRegionsFit }
    ensures page { GoodPageHasBytes }
{}
