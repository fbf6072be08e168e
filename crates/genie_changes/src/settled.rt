//! What is true of a kernel between two changes of one event.
ghost use Rattle.genie_changes.specs.Paged.{PagedIsTold};
ghost use Rattle.genie_changes.specs.Settled.{GoodIsSettled, SettledIsGood};

/// A good kernel is settled, and a settled one is good once its outline is orderly.
pub fn good_kernels_are_settled()
    ensures settled { GoodIsSettled }
    ensures good { SettledIsGood }
{}

/// An event that touches neither the host nor the store is one step where they tell their bytes, also where it is one only
/// over slots that have a page each.
pub fn paged_events_are_told()
    ensures { PagedIsTold }
{}
