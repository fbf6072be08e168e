//! What the events stand on.
ghost use Rattle.genie_spaces.specs.Clearing.{HiddenRegionGoes};
ghost use Rattle.genie_spaces.specs.ExitLaws.{ExitLaws, RemovalLaws};
ghost use Rattle.genie_spaces.specs.RegionLaws.{RegionLaws};

use genie_changes::ends::{loans_are_given_back, transfers_end};
use genie_changes::gone::{kept_bytes_are_alike, processes_go, settled_transfers_leave};
use genie_changes::parts::posted_changes;
use genie_changes::regions::{
    backed_regions, few_regions, guarded_regions, held_over_regions, region_states,
};
use genie_changes::removal::removed_regions;
use genie_changes::settled::good_kernels_are_settled;
use genie_kernel::laws::accepted_events_step;

/// What a region more, and one changed, leave of the state and of what is true of a kernel.
pub fn region_laws()
    ensures { RegionLaws }
{
    accepted_events_step();
    region_states();
    few_regions();
    backed_regions();
    guarded_regions();
    held_over_regions();
}

/// All that a kernel stands for stays where one hidden region goes with its object.
pub fn hidden_regions_go()
    ensures { HiddenRegionGoes }
{}

// What a region less leaves of them.
pub(crate) fn removal_laws()
    ensures { RemovalLaws }
{
    accepted_events_step();
    good_kernels_are_settled();
    removed_regions();
}

// What a posted input less, and a process less, leave of them.
pub(crate) fn exit_laws()
    ensures { ExitLaws }
{
    removal_laws();
    kept_bytes_are_alike();
    transfers_end();
    loans_are_given_back();
    settled_transfers_leave();
    posted_changes();
    processes_go();
}
