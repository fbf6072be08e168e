//! One region.
ghost use Rattle.std.specs.Prelude.{◌≡◌, ◌+◌, ◌*◌, ◌<◌, ◌^◌};
ghost use Rattle.genie_base.specs.Regions.{is_accessible, is_apart, is_reached};
ghost use Rattle.genie_region.specs.Layouts.{end_of, extent, has_id, starts_at, starts_by, ends_by};

use genie_base::{Area, ObjectId, PageSize, RegionId, RegionState};

/// Pages in a row of a process's address space, with the object that holds them.
#[derive(Clone, Copy, Debug, PartialEq, Eq)]
pub struct Region {
    pub id: RegionId,
    /// Its first page, from 0 to 1,023.
    pub start: u32,
    /// How many pages it has, from 1 to 64.
    pub pages: u32,
    pub area: Area,
    pub state: RegionState,
    /// Whether the process may write it.
    pub writable: bool,
    pub object: ObjectId,
}

/// A region without a page.
impl Default for Region {
    ghost is_default = { λ r. r.pages ≡ 0 };

    fn default() -> Self {
        Region {
            id: RegionId(0),
            start: 0,
            pages: 0,
            area: Area::App,
            state: RegionState::Live,
            writable: true,
            object: ObjectId(0),
        }
    }
}

impl Region {
    /// Whether an access may reach it: not while it is held for a move input.
    pub fn accessible(&self) -> bool
        ensures { result ≡ is_accessible self.now.state }
    {
        match self.state {
            RegionState::Live | RegionState::Out | RegionState::In => true,
            RegionState::Held => false,
        }
    }

    /// The page after its last.
    pub(crate) fn end(&self) -> u64
        ensures end { result ≡ end_of self.now }
        ensures most { result < 2 ^ 33 }
    {
        u64::from(self.start) + u64::from(self.pages)
    }

    /// Whether it has this number.
    pub(crate) fn has_id(&self, id: RegionId) -> bool
        ensures { result ≡ has_id id self.now }
    {
        self.id == id
    }

    /// Whether an access may reach it, and it starts at this page.
    pub(crate) fn starts_at(&self, page: u32) -> bool
        ensures { result ≡ starts_at page self.now }
    {
        self.accessible() && self.start == page
    }

    /// Whether no page of the `pages` from page `start` on lies in it.
    pub(crate) fn is_apart(&self, start: u32, pages: u32) -> bool
        ensures { result ≡ is_apart start pages (extent self.now) }
    {
        self.ends_by(start) || u64::from(start) + u64::from(pages) <= u64::from(self.start)
    }

    /// Whether it ends at this page or before.
    pub(crate) fn ends_by(&self, page: u32) -> bool
        ensures { result ≡ ends_by page self.now }
    {
        self.end() <= u64::from(page)
    }

    /// Whether it starts at this address or before.
    pub(crate) fn starts_by(&self, addr: u32, page: PageSize) -> bool
        ensures { result ≡ starts_by page addr self.now }
    {
        bytes(u64::from(self.start), page) <= u64::from(addr)
    }

    /// Whether it may be accessed, and the `len` bytes from address `addr` on begin in it and don't pass its end.
    pub fn reaches(&self, addr: u32, len: u32, page: PageSize) -> bool
        ensures { result ≡ is_reached page addr len (extent self.now) }
    {
        let end = bytes(self.end(), page);
        let addr = u64::from(addr);
        self.accessible()
            && bytes(u64::from(self.start), page) <= addr
            && addr < end
            && addr + u64::from(len) <= end
    }
}

/// How many bytes so many pages have.
fn bytes(pages: u64, page: PageSize) -> u64
    requires { pages < 2 ^ 33 }
    ensures { result ≡ pages * page }
{
    pages * u64::from(page.get())
}
