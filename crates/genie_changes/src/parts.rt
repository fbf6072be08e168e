//! Laws of the parts of what is true of a kernel, with one transfer less and with one more.
ghost use Rattle.genie_changes.specs.Pending.{PlannedStay, PlannedLess, PlannedMore, FittingLess, FittingMore, PostedLess, PostedBesideLess, PostedMore, PostedBesideMore, SendingLess, SendingMore, ReceivingLess, ReceivingMore, ArrivedLess, ArrivedBesideLess, ArrivedMore};
ghost use Rattle.genie_changes.specs.Pages.{HeldStay, HeldLess, HeldBesideStrong, HeldAsOrphans};

/// The pages that devices hold: where each stays in its frame, with one transfer less, with one strong one more, and once a
/// region is removed.
pub fn held_pages_change()
    ensures stay { HeldStay }
    ensures less { HeldLess }
    ensures strong { HeldBesideStrong }
    ensures orphans { HeldAsOrphans }
{}

/// What is lent for each transfer, over other owners, with one less, and with one more.
pub fn plans_change()
    ensures stay { PlannedStay }
    ensures less { PlannedLess }
    ensures more { PlannedMore }
{}

/// The devices of the transfers take their lengths, with one less, and with one more.
pub fn fitting_changes()
    ensures less { FittingLess }
    ensures more { FittingMore }
{}

/// The posted inputs without one of them, beside another transfer less, with one more, and beside another transfer more.
pub fn posted_changes()
    ensures less { PostedLess }
    ensures beside_less { PostedBesideLess }
    ensures more { PostedMore }
    ensures beside_more { PostedBesideMore }
{}

/// The outputs that devices send, without a transfer that doesn't wait, and with one more.
pub fn sending_changes()
    ensures less { SendingLess }
    ensures more { SendingMore }
{}

/// The inputs that devices move datagrams into, without another transfer, and with one more.
pub fn receiving_changes()
    ensures less { ReceivingLess }
    ensures more { ReceivingMore }
{}

/// The datagrams that wait in buffers, without that of a transfer, beside a transfer less that has none, and with one more.
pub fn arrived_changes()
    ensures less { ArrivedLess }
    ensures beside_less { ArrivedBesideLess }
    ensures more { ArrivedMore }
{}
