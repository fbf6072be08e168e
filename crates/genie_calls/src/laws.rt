//! What the calls stand on.
ghost use Rattle.genie_calls.specs.CloseLaws.{CloseLaws};

use genie_changes::ends::loans_are_given_back;
use genie_changes::parts::{plans_change, posted_changes};
use genie_kernel::laws::{counts_follow_transfers, owners_follow_transfers};

// What a transfer less leaves of what is lent.
pub(crate) fn close_laws()
    ensures { CloseLaws }
{
    loans_are_given_back();
    counts_follow_transfers();
    owners_follow_transfers();
    plans_change();
    posted_changes();
}
