//! The address spaces of the processes.
ghost use Rattle.std.specs.Prelude.{◌≡◌, ◌+◌, ◌<◌, ◌≤◌, [], All, IfOk, IsTrue, None, Some, false, length};
ghost use Rattle.genie_base.specs.Regions.{reach};
ghost use Rattle.genie_region.specs.Layouts.{extent};
ghost use Rattle.genie_space.specs.Spaces.{AddressSpaces, is_alive, no_process, regions_of, set_process};
ghost use Rattle.genie_space.specs.Translations.{IsBacked, translation};

use crate::space::Space;
use crate::translation::{Translation, lead_to};
use genie_base::{NoMemory, PageSize};
use genie_object::Objects;
use genie_region::Regions;
use std::alloc::Global;
use std::marker::Model;

/// How many processes there may be.
pub const PROCESSES: usize = 16;

/// The address spaces of the processes 0 to 15. Contracts see the regions of each one that is alive.
#[derive(Drop)]
pub struct Spaces {
    page: PageSize,
    spaces: Vec<Space>,
}

impl Model for Spaces {
    ghost use Rattle.std.specs.Prelude.{◌≡◌, map, vec_len};
    ghost use Rattle.genie_space.specs.Spaces.{AddressSpaces};

    ghost Value = { AddressSpaces };

    ghost use Rattle.genie_space.specs.Processes.{process_of};

    ghost view = { λ a. record { page = a.page; processes = map process_of a.spaces.items } };

    ghost invariant = { λ a. vec_len a.spaces ≡ 16 };
}

impl Spaces {
    ghost use Rattle.genie_space.specs.Lending.{LendsRegions};
    ghost use Rattle.std.specs.Borrow.{sem};

    /// No process is alive. All memory that the spaces need is taken here.
    pub fn new(alloc: Global, page: PageSize) -> Result<Spaces, NoMemory>
        ensures { IfOk result (λ s. s ≡ record { page = page; processes = no_process }) }
    {
        let mut spaces = Vec::with_capacity(alloc, PROCESSES)?;
        'processes: for _ in 0..PROCESSES {
            spaces.push(Space {
                alive: false,
                regions: Regions::new(),
            })?;
        }
        Ok(Spaces { page, spaces })
    }

    /// The page size.
    pub fn page(&self) -> PageSize
        ensures { result ≡ self.now.page }
    {
        self.page
    }

    /// Whether there is a process of this number. None is above 15.
    pub fn alive(&self, pid: u32) -> bool
        ensures alive { result ≡ is_alive pid self.now }
        ensures number { IsTrue result → pid < 16 }
        ensures table { length self.now.processes ≡ 16 }
    {
        let pid = pid as usize;
        pid < self.spaces.len() && self.spaces[pid].alive
    }

    /// Makes a process without regions. The others stay as they are.
    pub fn spawn(&mut self, pid: u32)
        requires number { pid < 16 }
        requires new { is_alive pid self.old ≡ false }
        ensures { self.new ≡ set_process self.old pid (Some []) }
    {
        self.spaces[pid as usize] = Space {
            alive: true,
            regions: Regions::new(),
        };
    }

    /// Takes a process without regions away. The others stay as they are.
    pub fn drop_space(&mut self, pid: u32)
        requires alive { IsTrue (is_alive pid self.old) }
        requires empty { regions_of pid self.old ≡ [] }
        ensures { self.new ≡ set_process self.old pid None }
    {
        let space = &mut self.spaces[pid as usize];
        space.alive = false;
    }

    /// Lends the regions of a process.
    pub fn regions(&self, pid: u32) -> &Regions
        requires { IsTrue (is_alive pid self.now) }
        ensures { result.now ≡ regions_of pid self.now }
    {
        &self.spaces[pid as usize].regions
    }

    /// Lends the regions of a process to be changed. Every other process stays as it is.
    pub fn regions_mut(&mut self, pid: u32) -> &mut Regions
        requires { IsTrue (is_alive pid self.old) }
        ensures* writes_back { sem 𝓛 (LendsRegions self.entry pid result) }
        ensures value { result.now ≡ regions_of pid self.old }
    {
        &mut self.spaces[pid as usize].regions
    }

    /// Where an address of a process leads: to the page of the region that an access to its byte reaches, or nowhere
    /// exactly where such an access reaches none.
    pub fn translate(&self, objects: &Objects, pid: u32, addr: u32) -> Translation
        requires alive { IsTrue (is_alive pid self.now) }
        requires backed { All (IsBacked objects.now) (regions_of pid self.now) }
        ensures { result ≡ translation objects.now self.now.page addr (reach extent self.now.page addr 1 (regions_of pid self.now)) }
    {
        match self.regions(pid).find(addr, 1, self.page) {
            Some(region) => lead_to(objects, &region, addr, self.page),
            None => Translation::Nowhere,
        }
    }
}

#[cfg(test)]
mod tests {
    use super::*;
    use genie_base::{Area, ObjectId, RegionId};
    use genie_region::{Region, RegionState};

    /// A region of one page.
    fn page_at(start: u32) -> Region {
        Region {
            id: RegionId(start),
            start,
            pages: 1,
            area: Area::App,
            state: RegionState::Live,
            writable: true,
            object: ObjectId(start),
        }
    }

    #[test]
    fn processes(rt: HostRuntime) -> Result<(), NoMemory> {
        let page = PageSize::new(64).expect(&rt, "a page size");
        let mut spaces = Spaces::new(rt.alloc(), page)?;
        assert_eq!(rt; spaces.page().get(), 64);
        spaces.spawn(0);
        spaces.spawn(15);
        for (pid, want) in [
            (0, true),
            (1, false),
            (14, false),
            (15, true),
            (16, false),
            (u32::MAX, false),
        ] {
            assert_eq!(rt; spaces.alive(pid), want, "process {pid}");
        }
        assert!(rt; spaces.alive(15));
        let region = page_at(7);
        let regions = spaces.regions_mut(15);
        if regions.len() < 32
            && regions.is_free(region.start, region.pages)
            && regions.get(region.id).is_none()
        {
            regions.insert(region);
        }
        assert!(rt; spaces.alive(0));
        assert_eq!(rt; spaces.regions(0).len(), 0);
        assert!(rt; spaces.alive(15));
        assert_eq!(rt; spaces.regions(15).len(), 1);
        assert!(rt; spaces.regions(15).find(7 * 64, 64, page).is_some());
        Ok(())
    }

    #[test]
    fn ends(rt: HostRuntime) -> Result<(), NoMemory> {
        let page = PageSize::new(16).expect(&rt, "a page size");
        let mut spaces = Spaces::new(rt.alloc(), page)?;
        spaces.spawn(3);
        spaces.drop_space(3);
        assert!(rt; !spaces.alive(3));
        spaces.spawn(3);
        assert!(rt; spaces.alive(3));
        Ok(())
    }
}
