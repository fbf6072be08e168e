//! The region that a call reaches.
ghost use Rattle.std.specs.Prelude.{◌≡◌, ◌*◌, ◌≤◌, None};
ghost use Rattle.genie_model.specs.Refusing.{refuse};
ghost use Rattle.genie_kernel.specs.Good.{IsGood};
ghost use Rattle.genie_kernel.specs.View.{outline};
ghost use Rattle.genie_outputs.specs.Calls.{Reaches, event_of, range_of};

use crate::call::Call;
use genie_kernel::Kernel;
use genie_object::Range;
use genie_region::Region;

// The region that the call reaches.
pub(crate) fn region_reached(kernel: &Kernel, call: &Call) -> Region
    requires good { IsGood kernel.now }
    requires accepted { refuse (outline kernel.now) (event_of call.now) ≡ None }
    ensures { Reaches kernel.now call.now result }
{
    let page = kernel.spaces.page();
    match kernel
        .spaces
        .regions(call.pid)
        .find(call.addr, call.len, page)
    {
        Some(region) => region,
        None => unreachable!(),
    }
}

// The range of the call in the region's object.
pub(crate) fn range_in(region: &Region, call: &Call, page: u32) -> Range
    requires { region.now.start * page ≤ call.now.addr }
    ensures { result ≡ range_of page call.now region.now }
{
    Range {
        object: region.object,
        off: call.addr - region.start * page,
        len: call.len,
    }
}
