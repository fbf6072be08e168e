//! Which region a transfer names, which of its places it covers, and what that costs.
ghost use Rattle.std.specs.Prelude.{◌≡◌, ◌<◌, ◌^◌};
ghost use Rattle.genie_base.specs.Counts.{cost};
ghost use Rattle.genie_model.specs.Pending.{touched, cost_of, names, names_weakly, covers};
ghost use Rattle.genie_model.specs.Receiving.{landing, fitting};
ghost use Rattle.genie_model.specs.Refusing.{is_weak_input_into};

use crate::transfer::Transfer;
use genie_base::{Class, Direction, PageSize, part, span};

// How many frames a transfer that touches so many pages may need.
pub(crate) fn cost_of_span(class: Class, direction: Direction, touched: u32) -> u64
    ensures cost { result ≡ cost class direction touched }
    ensures most { result < 2 ^ 33 }
{
    match (class, direction) {
        (Class::Copy, Direction::Inward) => 2 * u64::from(touched),
        _ => u64::from(touched),
    }
}

impl Transfer {
    // Whether it names this region or orphan.
    pub(crate) fn names(&self, number: u32) -> bool
        ensures { result ≡ names number self.now }
    {
        self.region == Some(number)
    }

    // Whether it is weak and names this region or orphan.
    pub(crate) fn names_weakly(&self, number: u32) -> bool
        ensures { result ≡ names_weakly number self.now }
    {
        !self.class.is_strong() && self.names(number)
    }

    // Whether it is a weak input that names this region or orphan.
    pub(crate) fn is_weak_input_into(&self, number: u32) -> bool
        ensures { result ≡ is_weak_input_into number self.now }
    {
        self.is_inward() && self.names_weakly(number)
    }

    // Whether it is weak and covers this place of this region or orphan.
    pub(crate) fn covers(&self, number: u32, place: u32) -> bool
        ensures { result ≡ covers number place self.now }
    {
        self.names_weakly(number)
            && self.offset <= place
            && u64::from(place) < u64::from(self.offset) + u64::from(self.len)
    }

    /// The region or orphan in which a weak one stores what comes.
    pub fn landing(&self) -> Option<u32>
        ensures { result ≡ landing self.now }
    {
        if self.class.is_strong() {
            None
        } else {
            self.region
        }
    }

    /// Of the bytes from place `at` of a datagram on those that fit its buffer.
    pub fn fitting<'a>(&self, at: u32, bytes: &'a [u8]) -> &'a [u8]
        ensures { result.now ≡ fitting self.now at bytes.now }
    {
        part(bytes, 0, self.len.saturating_sub(at) as usize)
    }

    // The pages that its range touches.
    fn touched(&self, page: PageSize) -> u32
        ensures { result ≡ touched page self.now }
    {
        match self.addr {
            Some(addr) => span(addr, self.len, page),
            None => span(self.offset, self.len, page),
        }
    }

    // How many frames it may need.
    pub(crate) fn cost(&self, page: PageSize) -> u64
        ensures cost { result ≡ cost_of page self.now }
        ensures most { result < 2 ^ 33 }
    {
        cost_of_span(self.class, self.direction, self.touched(page))
    }
}
