//! What input calls stand on.
ghost use Rattle.genie_inputs.specs.InputLaws.{InputLaws};

use genie_changes::beginning::{
    new_ones_wait, parts_make_good, transfers_begin, weak_transfers_begin,
};
use genie_changes::given::{numbers_differ, regions_fit};
use genie_changes::regions::spaced_tables;
use genie_changes::states::added_state;
use genie_kernel::laws::{accepted_events_step, view_is_tidy};
use genie_room::laws::calls_can_begin;

// What a transfer more leaves of the state and of what is true of a kernel, and the room that there is for it.
pub(crate) fn input_laws()
    ensures { InputLaws }
{
    calls_can_begin();
    numbers_differ();
    regions_fit();
    spaced_tables();
    view_is_tidy();
    accepted_events_step();
    added_state();
    parts_make_good();
    new_ones_wait();
    transfers_begin();
    weak_transfers_begin();
}
