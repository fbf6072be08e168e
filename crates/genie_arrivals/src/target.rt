//! Where the bytes of a copy input are stored.
ghost use Rattle.std.specs.Prelude.{◌≡◌, ◌≤◌, ◌-◌, ◌*◌, None, IfSome, IsSome, find};
ghost use Rattle.genie_base.specs.Regions.{write_reach};
ghost use Rattle.genie_region.specs.Layouts.{extent};
ghost use Rattle.genie_space.specs.Spaces.{regions_of};
ghost use Rattle.genie_kernel.specs.Calls.{has_number};
ghost use Rattle.genie_kernel.specs.Good.{IsGood};
ghost use Rattle.genie_arrivals.specs.Targets.{IsTarget, HasNoTarget, IsTargetOf, HasNoTargetOf};

use genie_base::TransferId;
use genie_kernel::{Kernel, Search, Transfer};
use genie_object::Range;
use genie_region::Region;
use genie_space::Spaces;

// The region that a write of the range reaches.
fn writable_at(spaces: &Spaces, pid: u32, addr: u32, len: u32) -> Option<Region>
    ensures { result ≡ write_reach extent spaces.now.page addr len (regions_of pid spaces.now) }
{
    if spaces.alive(pid) {
        spaces.regions(pid).find_writable(addr, len, spaces.page())
    } else {
        None
    }
}

// Where an address lies in a region.
fn place_in(region: &Region, addr: u32, page: u32) -> u32
    requires { region.now.start * page ≤ addr }
    ensures { result ≡ addr - region.now.start * page }
{
    addr - region.start * page
}

// The range of an object to which a copy input's bytes go, or `None` where its process is gone or may not write there.
fn target_of(kernel: &Kernel, transfer: &Transfer) -> Option<Range>
    requires good { IsGood kernel.now }
    ensures some { IfSome result (IsTarget kernel.now transfer.now) }
    ensures none { result ≡ None → HasNoTarget kernel.now transfer.now }
{
    match transfer.owner {
        None => None,
        Some(pid) => match writable_at(&kernel.spaces, pid, transfer.addr, transfer.len) {
            None => None,
            Some(region) => Some(Range {
                object: region.object,
                off: place_in(&region, transfer.addr, kernel.spaces.page().get()),
                len: transfer.stored,
            }),
        },
    }
}

/// The same of the transfer of this number.
pub(crate) fn find_target(kernel: &Kernel, id: TransferId) -> Option<Range>
    requires good { IsGood kernel.now }
    requires pending { IsSome (find (has_number id.0) kernel.now.transfers) }
    ensures some { IfSome result (IsTargetOf kernel.now id.0) }
    ensures none { result ≡ None → HasNoTargetOf kernel.now id.0 }
{
    match kernel.transfers.find(Search::Number(id.0)) {
        Some(transfer) => target_of(kernel, transfer),
        None => unreachable!(),
    }
}
