//! The parts of an address space and the states of a region.

/// A part of an address space of 1,024 pages.
#[derive(Clone, Copy, Debug, PartialEq, Eq)]
pub enum Area {
    /// Pages 0 to 511, where a process maps its regions.
    App,
    /// Pages 512 to 1,023, where the system places the regions that it allocates.
    Sys,
}

/// What a region is used for.
#[derive(Clone, Copy, Debug, PartialEq, Eq)]
pub enum RegionState {
    /// The process's own.
    Live,
    /// Moved out weakly: a later weak move input may take it.
    Out,
    /// The target of a weak move input.
    In,
    /// Reserved for a move input, and not accessible.
    Held,
}
