//! Bytes that land in lent frames, from each place of a page on and in runs of each length.
ghost use Rattle.std.specs.Prelude.{ℕ, ◌+◌, ◌*◌, ◌^◌, ◌<◌, ◌≤◌};
ghost use Rattle.genie_plan.specs.Plans.{input_frames, CanLand};

use super::*;
use arrayvec::ArrayVec;
use genie_base::NoMemory;
use genie_device::Landing;
use genie_frame::{Frames, InLoan, Owner};
use std::alloc::Global;
use std::test::*;

const BYTES: [u8; 96] = [
    1, 2, 3, 4, 5, 6, 7, 8, 9, 10, 11, 12, 13, 14, 15, 16, 17, 18, 19, 20, 21, 22, 23, 24, 25, 26,
    27, 28, 29, 30, 31, 32, 33, 34, 35, 36, 37, 38, 39, 40, 41, 42, 43, 44, 45, 46, 47, 48, 49, 50,
    51, 52, 53, 54, 55, 56, 57, 58, 59, 60, 61, 62, 63, 64, 65, 66, 67, 68, 69, 70, 71, 72, 73, 74,
    75, 76, 77, 78, 79, 80, 81, 82, 83, 84, 85, 86, 87, 88, 89, 90, 91, 92, 93, 94, 95, 96,
];

// Lands the bytes from place `at` on to place 80, in runs of so many.
fn land_rest(frames: &mut Frames, loans: &[InLoan], first: u32, len: u32, at: u32, run: u32)
    requires ready { CanLand frames.old (input_frames loans.now) first len }
    requires room { frames.old.landed + 200 < 2 ^ 64 + at }
    requires some { 0 < run }
    requires few { run ≤ 16 }
{
    if at >= 80 {
        return;
    }
    let mut landing = FrameLanding {
        frames,
        loans,
        first,
        len,
    };
    landing.land(at, &BYTES[at as usize..(at + run) as usize]);
    land_rest(landing.frames, loans, first, len, at + run, run);
}

// Whether the frames have 1, 2, 3, .. in the range and 0 elsewhere.
fn shows(frames: &mut Frames, loans: &[InLoan], first: u32, len: u32) -> bool {
    let mut place = 0u32;
    for loan in loans {
        if loan.frame.0 >= frames.len() || frames.page() != 16 || frames.meters().read > 1000 {
            return false;
        }
        let mut page = [0u8; 16];
        frames.read(loan.frame, 0, &mut page);
        for byte in page.iter() {
            let is_inside = place >= first && place - first < len;
            let want = if is_inside { place - first + 1 } else { 0 };
            if u32::from(*byte) != want {
                return false;
            }
            place = place.saturating_add(1);
        }
    }
    true
}

fn lands(alloc: Global, pages: u32, first: u32, len: u32, run: u32) -> Result<bool, NoMemory>
    requires some { 0 < run }
    requires few { run ≤ 16 }
    requires pages { pages ≤ 4 }
    requires within { first + len ≤ 16 * pages }
{
    let mut frames = Frames::new(alloc, 5, 16)?;
    let loans: ArrayVec<InLoan, 4> = lend_fresh(&mut frames, Owner::System(1), pages);
    land_rest(&mut frames, loans.as_slice(), first, len, 0, run);
    Ok(shows(&mut frames, loans.as_slice(), first, len))
}

#[test]
fn bytes_land_in_their_places(rt: HostRuntime) -> Result<(), Fail> {
    for pages in 1..5u32 {
        for first in 0..16u32 {
            for run in [1, 3, 16] {
                assert!(rt; lands(rt.alloc(), pages, first, 16 * pages - first, run)?);
                assert!(rt; lands(rt.alloc(), pages, first, 16 * pages - 15, run)?);
            }
        }
    }
    Ok(())
}
