//! What the events stand on.
ghost use Rattle.genie_endings.specs.EndingLaws.{EndingLaws, RemovalLaws};

use genie_changes::ends::{loans_are_given_back, transfers_end, transfers_leave};
use genie_changes::parts::posted_changes;
use genie_changes::removal::removed_regions;
use genie_changes::settled::good_kernels_are_settled;
use genie_changes::turned::{moved_out_regions, turned_regions};
use genie_changes::unnamed::unnamed_regions;
use genie_kernel::laws::accepted_events_step;

// What a transfer less leaves of the state and of what is true of a kernel.
pub(crate) fn ending_laws()
    ensures { EndingLaws }
{
    accepted_events_step();
    good_kernels_are_settled();
    transfers_end();
    loans_are_given_back();
    transfers_leave();
    posted_changes();
    turned_regions();
    moved_out_regions();
}

// What a region leaves that is removed while no weak transfer names it.
pub(crate) fn removal_laws()
    ensures { RemovalLaws }
{
    removed_regions();
    unnamed_regions();
}
