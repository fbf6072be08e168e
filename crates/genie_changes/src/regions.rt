//! Laws of regions: one more, one less, one changed.
ghost use Rattle.genie_changes.specs.Regions.{AddedRegion, ChangedRegion, FewMore, FewLess, FewChanged, BackedMore, BackedChanged, GuardedMore, GuardedLess, GuardedChanged, HeldOverRegions, FindsNamedMore, FindsNamedChanged, SpacedStay};
ghost use Rattle.genie_changes.specs.Removing.{LeavesOthers, FindsOthersStill, ProcessesLess, BackedLess};

/// The state with a region more, and with one changed.
pub fn region_states()
    ensures added { AddedRegion }
    ensures changed { ChangedRegion }
{}

/// The regions of a process and its hidden ones stay few.
pub fn few_regions()
    ensures more { FewMore }
    ensures less { FewLess }
    ensures changed { FewChanged }
{}

/// Regions have their objects, with one more, for which one is made, and with one changed.
pub fn backed_regions()
    ensures more { BackedMore }
    ensures changed { BackedChanged }
{}

/// What isn't to be written permits no writing, with a region more, one less, one changed.
pub fn guarded_regions()
    ensures more { GuardedMore }
    ensures less { GuardedLess }
    ensures changed { GuardedChanged }
{}

/// The pages that devices hold are as before, where the regions that weak transfers name are found with their objects: so
/// they are with a region more, and with one changed.
pub fn held_over_regions()
    ensures held { HeldOverRegions }
    ensures more { FindsNamedMore }
    ensures changed { FindsNamedChanged }
{}

/// Where a region goes, all others are left, and are found with their objects; the processes of the view are those without
/// it; and the others have their objects, where its own is dropped.
pub fn removed_region()
    ensures left { LeavesOthers }
    ensures found { FindsOthersStill }
    ensures processes { ProcessesLess }
    ensures backed { BackedLess }
{}

/// The tables of processes and queues keep their sizes, whatever one process and its queue are.
pub fn spaced_tables()
    ensures { SpacedStay }
{}
