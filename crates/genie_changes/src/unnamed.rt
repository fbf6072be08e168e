//! Laws of a region that is removed while no weak transfer names it.
ghost use Rattle.genie_changes.specs.Unnamed.{RemovalShowsOthers, OutlinesShowOtherRegions, UnnamedState, UnnamedRemoval};

/// No orphan stays of it: the state is that without the region.
pub fn unnamed_regions()
    ensures shows { RemovalShowsOthers }
    ensures outlines { OutlinesShowOtherRegions }
    ensures state { UnnamedState }
    ensures removal { UnnamedRemoval }
{}
