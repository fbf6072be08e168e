//! Where an address of a process leads.
ghost use Rattle.std.specs.Prelude.{◌≡◌, IsTrue};
ghost use Rattle.genie_base.specs.Regions.{is_reached};
ghost use Rattle.genie_region.specs.Layouts.{extent};
ghost use Rattle.genie_space.specs.Translations.{IsBacked, led_to};

use genie_base::{PageSize, RegionId};
use genie_object::{EntryRef, Objects};
use genie_region::Region;

/// Where an address of a process leads.
#[derive(Clone, Copy, Debug, PartialEq, Eq)]
pub enum Translation {
    /// To no region that an access reaches.
    Nowhere,
    /// To a page of a region: the region's number, the page's entry in the region's object, and what the entry permits
    /// in place.
    At {
        region: RegionId,
        entry: EntryRef,
        readable: bool,
        writable: bool,
    },
}

/// Where an address leads that reaches this region.
pub(crate) fn lead_to(objects: &Objects, region: &Region, addr: u32, page: PageSize) -> Translation
    requires backed { IsBacked objects.now region.now }
    requires reached { IsTrue (is_reached page addr 1 (extent region.now)) }
    ensures { result ≡ led_to objects.now page addr region.now }
{
    let at = EntryRef {
        object: region.object,
        index: addr / page.get() - region.start,
    };
    let entry = objects.entry(at);
    Translation::At {
        region: region.id,
        entry: at,
        readable: entry.readable,
        writable: entry.writable,
    }
}

#[cfg(test)]
mod tests;
