//! What the ends of inputs stand on.
ghost use Rattle.genie_arrivals.specs.CopyLaws.{CopyLaws};
ghost use Rattle.genie_arrivals.specs.EndLaws.{EndLaws};
ghost use Rattle.genie_arrivals.specs.Live.{ChangeLaws};
ghost use Rattle.genie_arrivals.specs.SwapLaws.{SwapLaws};

use genie_changes::ends::{loans_are_given_back, transfers_end, transfers_leave};
use genie_changes::given::{orphans_lie, regions_fit};
use genie_changes::making::{memory_moves, moves_join};
use genie_changes::parts::{
    arrived_changes, fitting_changes, held_pages_change, plans_change, posted_changes,
    receiving_changes, sending_changes,
};
use genie_changes::regions::{
    backed_regions, few_regions, guarded_regions, held_over_regions, region_states, removed_region,
};
use genie_changes::settled::good_kernels_are_settled;
use genie_kernel::laws::{accepted_events_step, states_are_alike};
use genie_room::laws::{buffers_suffice, copies_are_available, places_suffice, plans_are_short};

// What a transfer less leaves of the state and of what is true of a kernel.
pub(crate) fn end_laws()
    ensures { EndLaws }
{
    accepted_events_step();
    good_kernels_are_settled();
    transfers_end();
    loans_are_given_back();
    transfers_leave();
    posted_changes();
}

// What a region changed leaves of them.
pub(crate) fn change_laws()
    ensures { ChangeLaws }
{
    region_states();
    few_regions();
    backed_regions();
    guarded_regions();
    held_over_regions();
    removed_region();
}

// The room that a good kernel has for the end of a copy input, and what pages that move leave.
pub(crate) fn copy_laws()
    ensures { CopyLaws }
{
    copies_are_available();
    plans_are_short();
    places_suffice();
    buffers_suffice();
    regions_fit();
    memory_moves();
    moves_join();
}

// What one transfer less leaves where its buffer is stored.
pub(crate) fn swap_laws()
    ensures { SwapLaws }
{
    held_pages_change();
    plans_change();
    fitting_changes();
    sending_changes();
    receiving_changes();
    arrived_changes();
    orphans_lie();
    states_are_alike();
}
