//! What the event stands on.
ghost use Rattle.genie_sending.specs.WorkLaws.{WorkLaws};

use genie_changes::given::{numbers_differ, orphans_lie, regions_leave_pages};
use genie_changes::states::orphans_lie_in_frames;
use genie_changes::work::{
    worked_arrival, worked_devices, worked_loans, worked_posted, worked_view,
};
use genie_kernel::laws::accepted_events_step;

// What the work on one transfer leaves of the state and of what is true of a kernel.
pub(crate) fn work_laws()
    ensures { WorkLaws }
{
    accepted_events_step();
    numbers_differ();
    orphans_lie();
    regions_leave_pages();
    orphans_lie_in_frames();
    worked_view();
    worked_loans();
    worked_posted();
    worked_devices();
    worked_arrival();
}
