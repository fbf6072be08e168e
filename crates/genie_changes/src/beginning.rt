//! Laws of a transfer that begins.
ghost use Rattle.genie_changes.specs.Beginning.{PartsMakeGood, GoodHasParts, NewWaitsBehind, BegunHasParts, BegunIsKept, WeakBegins};

/// A good kernel is one of which all parts are true and whose outline is orderly.
pub fn parts_make_good()
    ensures good { PartsMakeGood }
    ensures parts { GoodHasParts }
{}

/// A transfer of the next number waits behind the others, and nothing is staged or sent of it.
pub fn new_ones_wait()
    ensures { NewWaitsBehind }
{}

/// With a transfer more, for which frames were taken, lent and wired, all is true of a kernel that is true of a good one but
/// for the order of its outline, and the frames that were lent are kept.
pub fn transfers_begin()
    ensures parts { BegunHasParts }
    ensures kept { BegunIsKept }
{}

/// A weak transfer whose loans are on the pages of its region begins so, after calls that keep loans.
pub fn weak_transfers_begin()
    ensures { WeakBegins }
{}
