//! What receive steps stand on.
ghost use Rattle.genie_gathering.specs.Laws.{GatheringLaws};

use genie_changes::given::numbers_differ;
use genie_changes::work::{
    worked_arrival, worked_devices, worked_loans, worked_posted, worked_view,
};
use genie_kernel::laws::accepted_events_step;

// What an input that has a datagram leaves of the state and of what is true of a kernel.
pub(crate) fn gathering_laws()
    ensures { GatheringLaws }
{
    accepted_events_step();
    numbers_differ();
    worked_view();
    worked_loans();
    worked_posted();
    worked_devices();
    worked_arrival();
}
