//! What receive steps stand on.
ghost use Rattle.genie_receiving.specs.Laws.{ReceiveLaws};

use genie_changes::given::{numbers_differ, orphans_lie, regions_leave_pages};
use genie_changes::states::orphans_lie_in_frames;
use genie_changes::work::{
    worked_arrival, worked_devices, worked_loans, worked_posted, worked_view,
};
use genie_kernel::laws::accepted_events_step;

/// What a transfer at another point of its work leaves of the state and of what is true of a kernel.
pub fn receive_laws()
    ensures { ReceiveLaws }
{
    accepted_events_step();
    numbers_differ();
    regions_leave_pages();
    orphans_lie();
    orphans_lie_in_frames();
    worked_view();
    worked_loans();
    worked_posted();
    worked_devices();
    worked_arrival();
}
