//! The size of a page.
ghost use Rattle.std.specs.Prelude.{◌≡◌, IsTrue};
ghost use Rattle.std.specs.Option.{SomeIff};
ghost use Rattle.genie_base.specs.Counts.{is_page_size};

use std::marker::Model;

/// A power of two from 16 to 4,096, in bytes. Contracts see the number.
#[derive(Clone, Copy, Debug)]
pub struct PageSize {
    page: u32,
}

impl Model for PageSize {
    ghost use Rattle.std.specs.Prelude.{ℕ, IsTrue};
    ghost use Rattle.genie_base.specs.Counts.{is_page_size};

    ghost Value = { ℕ };

    ghost view = { λ s. s.page };

    ghost invariant = { λ s. IsTrue (is_page_size s.page) };

    ghost inverse = { λ n. record { page = n } };
}

impl PageSize {
    /// The size, or `None` exactly where the number isn't one.
    pub fn new(page: u32) -> Option<PageSize>
        ensures { SomeIff result (IsTrue (is_page_size page)) page }
    {
        match page {
            16 | 32 | 64 | 128 | 256 | 512 | 1024 | 2048 | 4096 => Some(PageSize { page }),
            _ => None,
        }
    }

    /// The number of bytes.
    pub fn get(self) -> u32
        ensures number { result ≡ self }
        ensures size { IsTrue (is_page_size self) }
    {
        self.page
    }
}
