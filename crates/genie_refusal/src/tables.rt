//! What the causes of refusal ask of the tables.
ghost use Rattle.std.specs.Prelude.{◌≡◌, ℕ, ◌≤◌, ◌^◌, ◌&&◌, length, is_some, sum_by};
ghost use Rattle.std.specs.List.{list_any};
ghost use Rattle.std.specs.Option.{option_map};
ghost use Rattle.genie_base.specs.Configs.{config_of};
ghost use Rattle.genie_base.specs.Regions.{is_free};
ghost use Rattle.genie_model.specs.State.{State, Transfer};
ghost use Rattle.genie_model.specs.Regions.{extent_of, regions_at, is_alive, reach_of, place_of, committed};
ghost use Rattle.genie_model.specs.Space.{region_from};
ghost use Rattle.genie_model.specs.Pending.{pending, wired};
ghost use Rattle.genie_model.specs.Inputs.{reusable};
ghost use Rattle.genie_model.specs.Refusing.{accessible_pages, is_live, is_sys, is_weak_input_into};
ghost use Rattle.genie_refusal.specs.Found.{found};

use genie_base::{Area, Config, PageSize, RegionState};
use genie_model::Phase;

/// What the causes of refusal see of a region that was found.
#[derive(Clone, Copy, Debug, PartialEq, Eq)]
pub struct FoundRegion {
    pub number: u32,
    pub area: Area,
    pub state: RegionState,
    pub writable: bool,
}

impl FoundRegion {
    // Whether no weak move has it under way, and it isn't held for a move input.
    pub(crate) fn is_live(self) -> bool
        ensures { result ≡ is_live self.state }
    {
        matches!(self.state, RegionState::Live)
    }

    // Whether it is the system's, and live.
    pub(crate) fn may_move(self) -> bool
        ensures { result ≡ (is_sys self.area && is_live self.state) }
    {
        matches!(self.area, Area::Sys) && self.is_live()
    }
}

/// Tables that stand for a state of the flat machine. Each question is answered as of that state; no answer depends on
/// the bytes of a buffer.
pub trait Tables {
    /// What the tables keep between events. Every question asks for it.
    ghost is_sound: { Self → Type 0 };

    /// The state for which they stand.
    ghost state: { Self → State };

    /// The configuration of the boot.
    fn config(&self) -> &Config
        requires { is_sound self.now }
        ensures { config_of result.now ≡ (state self.now).config };

    /// The page size of the configuration.
    fn page(&self) -> PageSize
        requires { is_sound self.now }
        ensures { result ≡ (state self.now).config.page };

    /// Whether there is a process of this number. None is above 15.
    fn is_alive(&self, pid: u32) -> bool
        requires { is_sound self.now }
        ensures { result ≡ is_alive (state self.now) pid };

    /// How many regions a process has.
    fn count_regions(&self, pid: u32) -> u32
        requires { is_sound self.now }
        ensures { result ≡ length (regions_at (state self.now) pid) };

    /// The accessible region of a process that starts at this page.
    fn starting_at(&self, pid: u32, page: u32) -> Option<FoundRegion>
        requires { is_sound self.now }
        ensures { result ≡ option_map found (region_from (state self.now) pid page) };

    /// The region that an access of a process to the `len` bytes from address `addr` on reaches.
    fn reach(&self, pid: u32, addr: u32, len: u32) -> Option<FoundRegion>
        requires { is_sound self.now }
        ensures { result ≡ option_map found (reach_of (state self.now) pid addr len) };

    /// Whether none of the `pages` pages from page `start` on lies in a region of a process.
    fn is_free(&self, pid: u32, start: u32, pages: u32) -> bool
        requires { is_sound self.now }
        ensures { result ≡ is_free extent_of start pages (regions_at (state self.now) pid) };

    /// Whether so many pages in a row, at most 64, are free in the system area of a process.
    fn has_place(&self, pid: u32, pages: u32) -> bool
        requires sound { is_sound self.now }
        requires few { pages ≤ 64 }
        ensures { result ≡ is_some (place_of (state self.now) pid pages) };

    /// How many pages the accessible regions of a process have.
    fn accessible_pages(&self, pid: u32) -> u64
        requires { is_sound self.now }
        ensures pages { result ≡ sum_by accessible_pages (regions_at (state self.now) pid) }
        ensures most { result ≤ 2 ^ 48 };

    /// How many pages all regions have.
    fn committed(&self) -> u64
        requires { is_sound self.now }
        ensures pages { result ≡ committed (state self.now) }
        ensures most { result ≤ 2 ^ 48 };

    /// How many transfers are pending.
    fn count_pending(&self) -> u32
        requires { is_sound self.now }
        ensures { result ≡ length (state self.now).transfers };

    /// How many frames all pending transfers may need.
    fn wired(&self) -> u64
        requires { is_sound self.now }
        ensures frames { result ≡ wired (state self.now) }
        ensures most { result ≤ 2 ^ 48 };

    /// Where the pending transfer of this number is.
    fn phase(&self, id: u32) -> Option<Phase>
        requires { is_sound self.now }
        ensures { result ≡ option_map (λ (t : Transfer). t.phase) (pending (state self.now) id) };

    /// Whether a pending weak input may still store in the region of this number.
    fn has_weak_input_into(&self, number: u32) -> bool
        requires { is_sound self.now }
        ensures { result ≡ list_any (is_weak_input_into number) (state self.now).transfers };

    /// Whether a weak move input of so many pages can use a region of the process again.
    fn has_reusable(&self, pid: u32, pages: u32) -> bool
        requires { is_sound self.now }
        ensures { result ≡ is_some (reusable (state self.now) pid pages) };
}
