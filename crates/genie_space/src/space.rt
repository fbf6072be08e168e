//! The address space of one process.
ghost use Rattle.std.specs.Prelude.{◌≡◌};

use genie_region::Regions;

/// The regions of a process number, and whether there is a process of that number.
#[derive(Drop)]
pub struct Space {
    pub alive: bool,
    pub regions: Regions,
}
