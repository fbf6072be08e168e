//! What an output call stands on.
ghost use Rattle.genie_outputs.specs.GivingUp.{HidingLaws, MovingLaws, RemovalLaws};
ghost use Rattle.genie_outputs.specs.OutputLaws.{OutputLaws};

use genie_changes::beginning::{
    new_ones_wait, parts_make_good, transfers_begin, weak_transfers_begin,
};
use genie_changes::given::{numbers_differ, regions_fit};
use genie_changes::hiding::hidden_regions;
use genie_changes::making::{memory_moves, moves_join};
use genie_changes::moving_out::regions_move_out;
use genie_changes::removal::removed_regions;
use genie_changes::settled::good_kernels_are_settled;
use genie_changes::states::added_state;
use genie_kernel::laws::accepted_events_step;
use genie_room::laws::{calls_can_begin, counts_are_low, places_suffice, queues_suffice};

// What one transfer more leaves of the state and of what is true of a kernel, and the room that there is for it.
pub(crate) fn output_laws()
    ensures { OutputLaws }
{
    accepted_events_step();
    parts_make_good();
    new_ones_wait();
    transfers_begin();
    weak_transfers_begin();
    added_state();
    memory_moves();
    moves_join();
    regions_fit();
    calls_can_begin();
    places_suffice();
    counts_are_low();
}

// What a region leaves that is moved out, and the room that there is for it in the weak queue.
pub(crate) fn moving_laws()
    ensures { MovingLaws }
{
    regions_move_out();
    numbers_differ();
    queues_suffice();
}

// What a region leaves that is removed, between two changes of the event.
pub(crate) fn removal_laws()
    ensures { RemovalLaws }
{
    numbers_differ();
    good_kernels_are_settled();
    removed_regions();
}

// What a region leaves that is hidden.
pub(crate) fn hiding_laws()
    ensures { HidingLaws }
{
    hidden_regions();
}
