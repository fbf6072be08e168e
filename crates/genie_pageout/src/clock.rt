//! Where a search for frames begins.
ghost use Rattle.std.specs.Prelude.{◌≡◌, ◌≤◌};
ghost use Rattle.genie_pageout.specs.Rounds.{start};

use std::marker::Model;

/// A place in the frames, from which pages are put to the store. It moves on past the frames that were looked at, so that
/// the next search begins where the last one ended. Contracts see the number of a frame.
#[derive(Drop)]
pub struct Clock {
    place: u32,
}

impl Model for Clock {
    ghost use Rattle.std.specs.Prelude.{ℕ};

    ghost Value = { ℕ };

    ghost view = { λ c. c.place };
}

impl Clock {
    /// The first frame.
    pub fn new() -> Clock
        ensures { result ≡ 0 }
    {
        Clock { place: 0 }
    }

    // The frame that it is at, or the first one where there are fewer frames.
    pub(crate) fn place(&self, frames: u32) -> u32
        ensures within { result ≤ frames }
        ensures place { result ≡ start frames self.now }
    {
        if self.place < frames { self.place } else { 0 }
    }

    pub(crate) fn set(&mut self, place: u32)
        ensures { self.new ≡ place }
    {
        self.place = place;
    }
}
