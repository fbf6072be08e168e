//! The openings that were tried, a list that contracts alone read.
ghost use Rattle.std.specs.Prelude.{◌≡◌, ℕ, List, [], ◌∷◌, ◌++◌};
ghost use Rattle.std.specs.Borrow.{ftrue};
ghost use Rattle.genie_base.specs.declared.semantics.Direction.{Direction};

use genie_base::Direction;
use std::marker::{Model, PhantomData};

/// The names that were tried, each with its direction, the oldest first. It takes no memory and does nothing at run
/// time.
#[derive(Drop)]
pub struct Openings {
    marker: PhantomData<u8>,
    pub ghost items: { List (List ℕ × Direction) },
}

impl Model for Openings {
    ghost also_owns = { λ _. ftrue };
}

impl Openings {
    /// No opening was tried.
    pub fn new() -> Openings
        ensures { result.items ≡ [] }
    {
        Openings {
            marker: PhantomData,
        }
    }

    /// An opening of this name was tried.
    pub fn note(&mut self, _name: &[u8], _direction: &Direction)
        ensures { self.new.items ≡ self.old.items ++ (_name.now, _direction.now) ∷ [] }
    {}
}
