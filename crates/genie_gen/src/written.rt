//! What was written, a list that contracts alone read.
ghost use Rattle.std.specs.Prelude.{◌≡◌, ℕ, List, [], ◌++◌};
ghost use Rattle.std.specs.Borrow.{ftrue};

use std::marker::{Model, PhantomData};

/// The bytes that were written. It takes no memory and does nothing at run time.
#[derive(Drop)]
pub struct Written {
    marker: PhantomData<u8>,
    pub ghost items: { List ℕ },
}

impl Model for Written {
    ghost also_owns = { λ _. ftrue };
}

impl Written {
    /// Nothing was written.
    pub fn new() -> Written
        ensures { result.items ≡ [] }
    {
        Written {
            marker: PhantomData,
        }
    }

    /// These bytes were written.
    pub fn note(&mut self, _bytes: &[u8])
        ensures { self.new.items ≡ self.old.items ++ _bytes.now }
    {}
}
