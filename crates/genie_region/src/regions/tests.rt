use super::*;
use genie_base::{Area, ObjectId};

/// A region of `pages` pages from page `start` on, with this number.
fn region(id: u32, start: u32, pages: u32) -> Region {
    Region {
        id: RegionId(id),
        start,
        pages,
        area: if start < 512 { Area::App } else { Area::Sys },
        state: RegionState::Live,
        writable: true,
        object: ObjectId(id),
    }
}

/// Adds a region where there is room for it.
fn add(regions: &mut Regions, new: Region) -> bool {
    let fits = regions.len() < 32
        && regions.get(new.id).is_none()
        && regions.is_free(new.start, new.pages);
    if fits {
        regions.insert(new);
    }
    fits
}

/// The number of the region that an access reaches.
fn reached_id(regions: &Regions, addr: u32, len: u32, page: PageSize) -> Option<u32> {
    let region = regions.find(addr, len, page)?;
    Some(region.id.0)
}

#[test]
fn places(rt: HostRuntime) {
    // the regions that are there, as start and pages; how many pages are wanted; the place
    let empty: &[(u32, u32)] = &[];
    let ends: &[(u32, u32)] = &[(512, 4), (1020, 4)];
    let gaps: &[(u32, u32)] = &[(0, 4), (512, 64), (577, 3), (582, 2), (600, 64)];
    let full: &[(u32, u32)] = &[
        (512, 64),
        (960, 64),
        (576, 64),
        (896, 64),
        (640, 64),
        (832, 64),
        (704, 64),
        (768, 64),
    ];
    let all_but_one: &[(u32, u32)] = &[
        (512, 64),
        (960, 64),
        (576, 64),
        (897, 63),
        (640, 64),
        (832, 64),
        (704, 64),
        (768, 64),
    ];
    let table: &[(&[(u32, u32)], u32, Option<u32>)] = &[
        (empty, 1, Some(512)),
        (empty, 512, Some(512)),
        (empty, 513, None),
        (ends, 1, Some(516)),
        (ends, 64, Some(516)),
        (ends, 504, Some(516)),
        (ends, 505, None),
        (gaps, 1, Some(576)),
        (gaps, 2, Some(580)),
        (gaps, 3, Some(584)),
        (gaps, 16, Some(584)),
        (gaps, 17, Some(664)),
        (gaps, 360, Some(664)),
        (gaps, 361, None),
        (full, 1, None),
        (all_but_one, 1, Some(896)),
        (all_but_one, 2, None),
    ];
    for (there, pages, want) in table {
        let mut regions = Regions::new();
        let mut id = 0u8;
        for (start, pages) in *there {
            assert!(rt; add(&mut regions, region(u32::from(id), *start, *pages)));
            id = id.wrapping_add(1);
        }
        assert_eq!(rt; regions.place(*pages), *want, "{there:?} {pages}");
    }
}

#[test]
fn reaches(rt: HostRuntime) {
    let page = PageSize::new(16).expect(&rt, "a page size");
    let mut regions = Regions::new();
    assert!(rt; add(&mut regions, region(7, 4, 2)));
    assert!(rt; add(&mut regions, region(3, 6, 1)));
    assert!(rt; add(&mut regions, region(5, 512, 1)));
    assert!(rt; !add(&mut regions, region(9, 5, 1)), "an overlap");
    assert!(rt;
        !add(&mut regions, region(3, 100, 1)),
        "a number that is there"
    );
    assert!(rt; regions.get(RegionId(3)).is_some());
    regions.set_writable(RegionId(3), false);
    // an address, a length, and the region
    let table = [
        (63, 1, None),
        (64, 1, Some(7)),
        (64, 32, Some(7)),
        (64, 33, None),
        (95, 1, Some(7)),
        (95, 2, None),
        (95, 0, Some(7)),
        (96, 0, Some(3)),
        (96, 16, Some(3)),
        (111, 1, Some(3)),
        (112, 0, None),
        (8192, 16, Some(5)),
        (8208, 0, None),
        (u32::MAX, u32::MAX, None),
    ];
    for (addr, len, want) in table {
        assert_eq!(rt; reached_id(&regions, addr, len, page), want, "{addr} {len}");
    }
    assert!(rt; regions.find_writable(64, 1, page).is_some());
    assert!(rt; regions.find_writable(96, 1, page).is_none(), "read-only");
    assert!(rt; regions.starting_at(6).is_some());
    assert!(rt; regions.starting_at(5).is_none(), "within a region");
    assert!(rt; regions.get(RegionId(3)).is_some());
    regions.set_state(RegionId(3), RegionState::Held);
    assert!(rt; regions.starting_at(6).is_none(), "held");
    assert!(rt; regions.get(RegionId(7)).is_some());
    assert_eq!(rt; regions.remove(RegionId(7)).start, 4);
    assert_eq!(rt; regions.len(), 2);
    assert_eq!(rt; regions.at(0).id, RegionId(3));
    assert!(rt; regions.find(64, 1, page).is_none(), "removed");
}
