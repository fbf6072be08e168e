//! Memory of a device's own as a place for payload bytes.
ghost use Rattle.std.specs.Prelude.{⊤};

use crate::landing::Landing;
use genie_base::FixedBytes;

impl Landing for FixedBytes {
    ghost content = { λ bytes. bytes };

    ghost count = { λ _. 0 };

    ghost is_ready = { λ _. ⊤ };

    ghost kept = { λ _ _. ⊤ };

    fn land(&mut self, at: u32, bytes: &[u8]) {
        self.store(at as usize, bytes);
    }

    ghost reflexive = { λ _. tt };

    ghost transitive = { λ _ _ _ _ _. tt };
}
