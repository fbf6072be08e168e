//! The region that an input of the application's buffer reaches.
ghost use Rattle.std.specs.Prelude.{◌≡◌, ◌-◌, ◌*◌, ◌≤◌, Some, None};
ghost use Rattle.genie_base.specs.Transfers.{class_of};
ghost use Rattle.genie_base.specs.declared.semantics.Class.TheVariants.{Share};
ghost use Rattle.genie_model.specs.Refusing.{refuse};
ghost use Rattle.genie_kernel.specs.Good.{IsGood};
ghost use Rattle.genie_kernel.specs.View.{outline};
ghost use Rattle.genie_inputs.specs.Calls.{input_event};
ghost use Rattle.genie_inputs.specs.Targets.{Reaches};

use crate::call::Call;
use genie_kernel::Kernel;
use genie_region::Region;

// Where an address lies in a region.
fn place_in(region: &Region, addr: u32, page: u32) -> u32
    requires { region.now.start * page ≤ addr }
    ensures { result ≡ addr - region.now.start * page }
{
    addr - region.start * page
}

// The region that the call's buffer lies in, and where in it the buffer begins.
pub(crate) fn find_target(kernel: &Kernel, call: Call, addr: u32) -> (Region, u32)
    requires class { class_of call.sem ≡ Share }
    requires good { IsGood kernel.now }
    requires accepted { refuse (outline kernel.now) (input_event call (Some addr)) ≡ None }
    ensures { Reaches kernel.now call addr result.0 result.1 }
{
    let page = kernel.spaces.page();
    let Some(region) = kernel.spaces.regions(call.pid).find(addr, call.len, page) else {
        unreachable!()
    };
    (region, place_in(&region, addr, page.get()))
}
