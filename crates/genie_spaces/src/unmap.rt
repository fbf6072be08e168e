//! Regions that go.
ghost use Rattle.std.specs.Prelude.{◌≡◌, None};
ghost use Rattle.genie_base.specs.declared.event.Event.TheVariants as event;
ghost use Rattle.genie_model.specs.Refusing.{refuse};
ghost use Rattle.genie_kernel.specs.Good.{IsGood};
ghost use Rattle.genie_kernel.specs.View.{outline};
ghost use Rattle.genie_spaces.specs.ServingPaged.{IsServedPaged};

use crate::laws::removal_laws;
use genie_base::Reply;
use genie_changes::removal::remove_region;
use genie_kernel::Kernel;

/// Removes the region that starts at page `page`, also from the process's weak queue. Devices still reach what they need of
/// it: a frame that is lent is nobody's until its loans are back, and what pending weak transfers cover of the region stays
/// as an orphan until they end. Where no region starts there, or it is held for an input, the event is refused.
pub fn unmap(kernel: &mut Kernel, pid: u32, page: u32) -> Reply<'static>
    requires good { IsGood kernel.old }
    requires accepted { refuse (outline kernel.old) (event.Unmap pid page) ≡ None }
    ensures served { IsServedPaged kernel.old (event.Unmap pid page) kernel.new result }
    ensures numbers { kernel.new.next ≡ kernel.old.next }
{
    removal_laws();
    match kernel.spaces.regions(pid).starting_at(page) {
        Some(region) => {
            remove_region(kernel, pid, region);
            Reply::Okay
        }
        None => unreachable!(),
    }
}
