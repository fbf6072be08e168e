//! The logical pages.
ghost use Rattle.std.specs.Prelude.{◌≡◌, ◌+◌, ◌-◌, ◌^◌, ◌<◌, ◌≤◌, ◌==◌, All, length, count_by, IfOk};
ghost use Rattle.genie_object.specs.Pages.{no_page, one_page, page_at, set_page, is_there, one_holder_more, left_page, left_place};

use genie_base::NoMemory;
use genie_frame::FrameId;
use slab::Slab;
use std::alloc::Global;
use std::marker::Model;

/// Where the bytes of a logical page are.
#[derive(Clone, Copy, Debug, PartialEq, Eq)]
pub enum Place {
    /// Nowhere: the page is untouched, and has zeros.
    Zero,
    Frame(FrameId),
    /// The slot of the store with this number.
    Slot(u32),
}

/// A logical page, by its key.
#[derive(Clone, Copy, Debug, PartialEq, Eq)]
pub struct PageId(pub usize);

/// A logical page: its place, and how many entries share it.
#[derive(Clone, Copy, Debug, PartialEq, Eq, Drop)]
pub struct PageInfo {
    pub place: Place,
    pub shares: u32,
}

/// The logical pages. All memory is reserved by `new`. Contracts see place and share count at each key.
#[derive(Drop)]
pub struct Pages {
    slab: Slab<PageInfo>,
    most: u32,
}

impl Model for Pages {
    ghost use Rattle.genie_object.specs.Pages.{PageTable, pages_of, IsTable};

    ghost Value = { PageTable };

    ghost view = { λ a. record { pages = pages_of a.slab; most = a.most } };

    ghost invariant = { λ a. IsTable a.slab a.most };
}

impl Pages {
    /// No page, with room for `most`.
    pub fn new(alloc: Global, most: u32) -> Result<Pages, NoMemory>
        ensures most { IfOk result (λ pages. pages.most ≡ most) }
        ensures empty { IfOk result (λ pages. All (λ q. q ≡ no_page) pages.pages) }
        ensures none { IfOk result (λ pages. count_by is_there pages.pages ≡ 0) }
    {
        Ok(Pages {
            slab: Slab::with_capacity(alloc, most as usize)?,
            most,
        })
    }

    /// Adds a page that one entry shares. Its key isn't that of another page.
    pub fn add(&mut self, place: Place) -> PageId
        requires { count_by is_there self.old.pages < self.old.most }
        ensures there { result.0 < length self.old.pages }
        ensures was_spare { page_at self.old.pages result.0 ≡ no_page }
        ensures pages { self.new ≡ set_page self.old result.0 (one_page place) }
    {
        let key = self.slab.insert_reserved(PageInfo { place, shares: 1 });
        PageId(key)
    }

    /// Adds a holder.
    pub fn share(&mut self, page: PageId)
        requires there { 0 < (page_at self.old.pages page.0).shares }
        requires room { (page_at self.old.pages page.0).shares < 2 ^ 32 - 1 }
        ensures { self.new ≡ set_page self.old page.0 (one_holder_more (page_at self.old.pages page.0)) }
    {
        let mut info = self.info(page);
        info.shares += 1;
        self.set(page, info);
    }

    /// Takes a holder away. Answers the place exactly where it was the last, and the page is gone then.
    pub fn leave(&mut self, page: PageId) -> Option<Place>
        requires { 0 < (page_at self.old.pages page.0).shares }
        ensures place { result ≡ left_place ((page_at self.old.pages page.0).shares == 1) (page_at self.old.pages page.0) }
        ensures pages { self.new ≡ set_page self.old page.0 (left_page ((page_at self.old.pages page.0).shares == 1) (page_at self.old.pages page.0)) }
    {
        let mut info = self.info(page);
        if info.shares == 1 {
            self.remove(page);
            Some(info.place)
        } else {
            info.shares -= 1;
            self.set(page, info);
            None
        }
    }

    pub fn place(&self, page: PageId) -> Place
        requires { 0 < (page_at self.now.pages page.0).shares }
        ensures { result ≡ (page_at self.now.pages page.0).place }
    {
        self.info(page).place
    }

    pub fn set_place(&mut self, page: PageId, place: Place)
        requires { 0 < (page_at self.old.pages page.0).shares }
        ensures { self.new ≡ set_page self.old page.0 (record (page_at self.old.pages page.0) { place = place }) }
    {
        let mut info = self.info(page);
        info.place = place;
        self.set(page, info);
    }

    /// How many entries share the page.
    pub fn shares(&self, page: PageId) -> u32
        requires { 0 < (page_at self.now.pages page.0).shares }
        ensures { result ≡ (page_at self.now.pages page.0).shares }
    {
        self.info(page).shares
    }

    fn info(&self, page: PageId) -> PageInfo
        requires { 0 < (page_at self.now.pages page.0).shares }
        ensures { result ≡ page_at self.now.pages page.0 }
    {
        match self.slab.get(page.0) {
            Some(info) => *info,
            None => unreachable!(),
        }
    }

    // Changes a page that is there, and stays.
    fn set(&mut self, page: PageId, info: PageInfo)
        requires there { 0 < (page_at self.old.pages page.0).shares }
        requires stays { 0 < info.shares }
        ensures { self.new ≡ set_page self.old page.0 info }
    {
        match self.slab.get_mut(page.0) {
            Some(place) => *place = info,
            None => unreachable!(),
        }
    }

    // Takes a page away.
    fn remove(&mut self, page: PageId)
        requires { 0 < (page_at self.old.pages page.0).shares }
        ensures { self.new ≡ set_page self.old page.0 no_page }
    {
        self.slab.try_remove(page.0);
    }
}
