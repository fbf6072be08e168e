//! The region that a transfer names, where a process still has it.
ghost use Rattle.std.specs.Prelude.{◌≡◌, None, IfSome, find, false};
ghost use Rattle.genie_space.specs.Spaces.{regions_of};
ghost use Rattle.genie_kernel.specs.Regions.{has_id, owned_regions};
ghost use Rattle.genie_kernel.specs.Orphans.{is_owned};
ghost use Rattle.genie_arrivals.specs.Owners.{IsNamed, IsOwner};
ghost use Rattle.genie_arrivals.specs.Replies.{is_there};

use genie_base::RegionId;
use genie_kernel::Transfer;
use genie_region::Region;
use genie_space::Spaces;

/// A region, and the process that has it.
#[derive(Clone, Copy)]
pub(crate) struct OwnedRegion {
    pub(crate) pid: u32,
    pub(crate) region: Region,
}

// The region of a process with this number.
fn region_of(spaces: &Spaces, pid: u32, id: RegionId) -> Option<Region>
    ensures { result ≡ find (has_id id.0) (regions_of pid spaces.now) }
{
    if spaces.alive(pid) {
        spaces.regions(pid).get(id)
    } else {
        None
    }
}

// The region with this number, whichever process has it.
fn find_region(spaces: &Spaces, id: RegionId) -> Option<OwnedRegion>
    ensures found { IfSome result (IsOwner spaces.now id.0) }
    ensures none { result ≡ None → is_owned (owned_regions spaces.now.processes) id.0 ≡ false }
{
    spaces.alive(0);
    'processes: for pid in 0..16 {
        match region_of(spaces, pid, id) {
            Some(region) => return Some(OwnedRegion { pid, region }),
            None => {}
        }
    }
    None
}

/// The region that a transfer names, where a process has it: it isn't an orphan.
pub(crate) fn named_region(spaces: &Spaces, transfer: &Transfer) -> Option<OwnedRegion>
    ensures found { IfSome result (IsNamed spaces.now transfer.now) }
    ensures none { result ≡ None → is_there (owned_regions spaces.now.processes) transfer.now ≡ false }
{
    match transfer.region {
        Some(id) => find_region(spaces, id),
        None => None,
    }
}

/// Whether a process has the region that the transfer names.
pub(crate) fn is_there(spaces: &Spaces, transfer: &Transfer) -> bool
    ensures { result ≡ is_there (owned_regions spaces.now.processes) transfer.now }
{
    match named_region(spaces, transfer) {
        Some(_) => true,
        None => false,
    }
}
