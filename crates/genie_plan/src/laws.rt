//! Laws of plans.
ghost use Rattle.genie_plan.specs.Ending.{EndsSoundly, ShowsAfterEnd, LeavesOthersOut};
ghost use Rattle.genie_plan.specs.Landings.{ReadsRegion, ShowsInRegion, ShowsInFrames, ShowsNothingElse, HeldOnce, LandsSoundly};
ghost use Rattle.genie_plan.specs.Staying.{OutputsStay, InputsStay, CallsLeavePlans};
ghost use Rattle.genie_plan.specs.Wiring.{WiresKeep, UnwiresKeep};

/// What lands in the pages of a region shows in the region at its place, and nowhere else in it.
pub fn landings_show_in_regions()
    ensures { ShowsInRegion }
{}

/// What lands in frames that are seen by themselves shows there at its place.
pub fn landings_show_in_frames()
    ensures { ShowsInFrames }
{}

/// An entry whose page is in no frame of the plan, and a frame that isn't the plan's, show what they showed.
pub fn landings_show_nowhere_else()
    ensures { ShowsNothingElse }
{}

/// A landing leaves the memory sound.
pub fn landings_are_sound()
    ensures { LandsSoundly }
{}

/// A frame that a device stores in is the place of one entry's page at most.
pub fn held_frames_have_one_entry()
    ensures { HeldOnce }
{}

/// The bytes of a plan on the pages of a region are the region's.
pub fn plans_read_regions()
    ensures { ReadsRegion }
{}

/// Ended loans leave the memory sound, where what stays wired stays held, show what was seen, and leave the loans of
/// every other plan out.
pub fn ended_loans_show_what_was_seen()
    ensures sound { EndsSoundly }
    ensures seen { ShowsAfterEnd }
    ensures others { LeavesOthersOut }
{}

/// A plan stays as it is, and has the same bytes, where no count of loans falls and each lent frame keeps its bytes. So
/// every call that keeps loans leaves it.
pub fn plans_stay()
    ensures outputs { OutputsStay }
    ensures inputs { InputsStay }
    ensures calls { CallsLeavePlans }
{}

/// Wires on held frames, put on or taken off, leave the memory sound, show what was seen, and keep all loans.
pub fn wires_show_what_was_seen()
    ensures on { WiresKeep }
    ensures off { UnwiresKeep }
{}
