ghost use Rattle.std.specs.Prelude.{◌≡◌, All, IfOk, IsTrue};
ghost use Rattle.genie_space.specs.Spaces.{is_alive, regions_of};
ghost use Rattle.genie_space.specs.Translations.{IsBacked};

use super::*;
use crate::Spaces;
use genie_base::{Area, NoMemory, ObjectId, RegionState};
use genie_object::{Entry, PageId};
use std::alloc::Global;

/// A region of two pages, with this object.
fn region(start: u32, state: RegionState, object: ObjectId) -> Region
    ensures object { result.object ≡ object }
    ensures pages { result.pages ≡ 2 }
{
    Region {
        id: RegionId(9),
        start,
        pages: 2,
        area: if start < 512 { Area::App } else { Area::Sys },
        state,
        writable: true,
        object,
    }
}

/// Process 3 with one region of two pages of 16 bytes, whose first page is untouched and whose second is as given.
fn one_region(
    alloc: Global,
    start: u32,
    state: RegionState,
    second: Entry,
) -> Result<(Spaces, Objects), NoMemory>
    ensures alive { IfOk result (λ r. IsTrue (is_alive 3 r.0)) }
    ensures backed { IfOk result (λ r. All (IsBacked r.1) (regions_of 3 r.0)) }
{
    let mut objects = Objects::new(alloc)?;
    let object = objects.make(2);
    objects.replace(EntryRef { object, index: 1 }, second);
    let Some(page) = PageSize::new(16) else {
        unreachable!()
    };
    let mut spaces = Spaces::new(alloc, page)?;
    spaces.spawn(3);
    let regions = spaces.regions_mut(3);
    regions.insert(region(start, state, object));
    Ok((spaces, objects))
}

/// Which entry an address leads to, and what it permits.
fn entry_at(translation: Translation) -> Option<(u32, bool, bool)> {
    match translation {
        Translation::Nowhere => None,
        Translation::At {
            region,
            entry,
            readable,
            writable,
        } => {
            if region == RegionId(9) {
                Some((entry.index, readable, writable))
            } else {
                None
            }
        }
    }
}

#[test]
fn translates(rt: HostRuntime) -> Result<(), NoMemory> {
    let untouched = Entry {
        page: None,
        readable: false,
        writable: false,
    };
    let readable = Entry {
        page: Some(PageId(5)),
        readable: true,
        writable: false,
    };
    let writable = Entry {
        page: Some(PageId(5)),
        readable: true,
        writable: true,
    };
    // a region's first page, its state and its second entry; what that permits, or none where the region isn't reached
    let table = [
        (4, RegionState::Live, untouched, Some((1, false, false))),
        (4, RegionState::Live, readable, Some((1, true, false))),
        (4, RegionState::Live, writable, Some((1, true, true))),
        (4, RegionState::Out, writable, Some((1, true, true))),
        (512, RegionState::In, readable, Some((1, true, false))),
        (1022, RegionState::Live, writable, Some((1, true, true))),
        (4, RegionState::Held, writable, None),
    ];
    for (start, state, second, want) in table {
        let first = want.map(|_| (0, false, false));
        let (spaces, objects) = one_region(rt.alloc(), start, state, second)?;
        let at = start * 16;
        let addresses = [
            (0, None),
            (at - 1, None),
            (at, first),
            (at + 15, first),
            (at + 16, want),
            (at + 31, want),
            (at + 32, None),
            (u32::MAX, None),
        ];
        for (addr, want) in addresses {
            let found = entry_at(spaces.translate(&objects, 3, addr));
            assert_eq!(rt; found, want, "{start} {state:?} {addr}");
        }
    }
    Ok(())
}
