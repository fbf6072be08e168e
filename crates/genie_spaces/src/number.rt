//! The number of a new region.
ghost use Rattle.std.specs.Prelude.{◌≡◌, ◌==◌, ◌<◌, ℕ, length, false, replicate, None};
ghost use Rattle.std.specs.List.{list_any};
ghost use Rattle.genie_space.specs.Spaces.{regions_of};
ghost use Rattle.genie_model.specs.Regions.{fresh};
ghost use Rattle.genie_kernel.specs.Calls.{names_weakly};
ghost use Rattle.genie_kernel.specs.Good.{IsGood};
ghost use Rattle.genie_kernel.specs.Regions.{has_id};
ghost use Rattle.genie_kernel.specs.View.{outline};
ghost use Rattle.genie_model.specs.Tables.{entry};
ghost use Rattle.genie_spaces.specs.Forking.{with_child};
ghost use Rattle.genie_spaces.specs.Marks.{Marks, IsLeast, has_region};

use genie_kernel::{Kernel, Transfer, Transfers};
use genie_region::Regions;
use genie_space::Spaces;

// At most 512 regions and 64 orphans are there, so one of so many numbers is free.
const NUMBERS: usize = 577;

// Marks a number, where there is a mark for it.
fn mark(marks: &mut [bool], number: u32)
    ensures { Marks (λ n. number == n) marks.old marks.new }
{
    let number = number as usize;
    if number < marks.len() {
        marks[number] = true;
    }
}

// Marks the numbers of regions.
fn mark_regions(marks: &mut [bool], regions: &Regions)
    ensures { Marks (λ n. list_any (has_id n) regions.now) marks.old marks.new }
{
    'regions: for i in 0..regions.len() {
        mark(marks, regions.at(i).id.0);
    }
}

// Marks the numbers of the regions of a process.
fn mark_process(marks: &mut [bool], spaces: &Spaces, pid: u32)
    ensures { Marks (λ n. list_any (has_id n) (regions_of pid spaces.now)) marks.old marks.new }
{
    if spaces.alive(pid) {
        mark_regions(marks, spaces.regions(pid));
    }
}

// Marks the numbers of all regions.
fn mark_spaces(marks: &mut [bool], spaces: &Spaces)
    requires { length spaces.now.processes ≡ 16 }
    ensures { Marks (λ n. list_any (has_region n) spaces.now.processes) marks.old marks.new }
{
    'processes: for pid in 0..16 {
        mark_process(marks, spaces, pid);
    }
}

// Marks what a weak transfer names.
fn mark_named(marks: &mut [bool], transfer: &Transfer)
    ensures { Marks (λ n. names_weakly n transfer.now) marks.old marks.new }
{
    if transfer.sem.strong() {
        return;
    }
    match transfer.region {
        Some(id) => mark(marks, id.0),
        None => {}
    }
}

// Marks what weak transfers name: regions and orphans.
fn mark_transfers(marks: &mut [bool], transfers: &Transfers)
    ensures { Marks (λ n. list_any (names_weakly n) transfers.now) marks.old marks.new }
{
    'transfers: for i in 0..transfers.len() {
        mark_named(marks, transfers.at(i));
    }
}

// The first number without a mark, or how many marks there are.
fn first_unmarked(marks: &[bool]) -> u32
    requires { length marks.now ≡ 577 }
    ensures { IsLeast marks.now result }
{
    'numbers: for number in 0..577 {
        if !marks[number as usize] {
            return number;
        }
    }
    577
}

/// The least number that no region and no orphan has, by one look at each region and each transfer.
pub fn fresh_number(kernel: &Kernel) -> u32
    requires { IsGood kernel.now }
    ensures { result ≡ fresh (outline kernel.now) }
{
    let mut marks = [false; NUMBERS];
    mark_spaces(&mut marks, &kernel.spaces);
    mark_transfers(&mut marks, &kernel.transfers);
    first_unmarked(&marks)
}

// The same where a process that isn't there yet is to have these regions.
pub(crate) fn fresh_beside(kernel: &Kernel, copies: &Regions) -> u32
    requires { length kernel.now.spaces.processes ≡ 16 }
    ensures { (child : ℕ) → child < 16 → entry kernel.now.spaces.processes child ≡ None → result ≡ fresh (outline (with_child kernel.now child copies.now)) }
{
    let mut marks = [false; NUMBERS];
    mark_spaces(&mut marks, &kernel.spaces);
    mark_regions(&mut marks, copies);
    mark_transfers(&mut marks, &kernel.transfers);
    first_unmarked(&marks)
}
