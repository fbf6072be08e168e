//! What is asked of regions and transfers.
ghost use Rattle.std.specs.Prelude.{◌≡◌, ◌≤◌, ◌^◌, ◌*◌, ◌<◌, true, length, sum_by};
ghost use Rattle.std.specs.List.{list_any};
ghost use Rattle.genie_base.specs.Counts.{cost, span as span_of};
ghost use Rattle.genie_base.specs.Regions.{is_free, place as place_of, reach};
ghost use Rattle.genie_base.specs.Transfers.{class_of};
ghost use Rattle.genie_region.specs.Layouts.{extent};
ghost use Rattle.genie_space.specs.Spaces.{regions_of};
ghost use Rattle.genie_kernel.specs.Asked.{counted_pages, pages_in, cost_of, has_pages, is_reusable};

use crate::search::Search;
use crate::transfers::Transfers;
use genie_base::{Class, Direction, PageSize, span};
use genie_hiding::WeakQueue;
use genie_region::{Region, Regions};
use genie_space::{PROCESSES, Spaces};

// The pages of a region, or those that a fork copies.
fn counted_pages(region: Region, forked: bool) -> u32
    ensures { result ≡ counted_pages forked region }
{
    if !forked || region.accessible() {
        region.pages
    } else {
        0
    }
}

// The pages of regions, or those that a fork copies.
fn sum_pages(regions: &Regions, forked: bool) -> u64
    ensures pages { result ≡ sum_by (counted_pages forked) regions.now }
    ensures most { result ≤ 2 ^ 40 }
{
    let mut total: u64 = 0;
    'each: for i in 0..regions.len() {
        total += u64::from(counted_pages(regions.at(i), forked));
    }
    total
}

// The pages of a process, or those that a fork copies.
pub(crate) fn pages_of(spaces: &Spaces, pid: u32, forked: bool) -> u64
    ensures pages { result ≡ sum_by (counted_pages forked) (regions_of pid spaces.now) }
    ensures most { result ≤ 2 ^ 40 }
{
    if spaces.alive(pid) {
        sum_pages(spaces.regions(pid), forked)
    } else {
        0
    }
}

// The pages of all processes.
pub(crate) fn all_pages(spaces: &Spaces) -> u64
    ensures pages { result ≡ sum_by pages_in spaces.now.processes }
    ensures most { result ≤ 2 ^ 48 }
{
    spaces.alive(0);
    let mut total: u64 = 0;
    'each: for pid in 0..PROCESSES {
        total += pages_of(spaces, pid as u32, false);
    }
    total
}

// How many frames a call that touches so many pages may need.
fn cost_of_span(class: Class, direction: Direction, touched: u32) -> u64
    ensures cost { result ≡ cost class direction touched }
    ensures most { result < 2 ^ 33 }
{
    match (class, direction) {
        (Class::Copy, Direction::Inward) => 2 * u64::from(touched),
        _ => u64::from(touched),
    }
}

// How many frames all these transfers may need.
pub(crate) fn all_costs(transfers: &Transfers, page: PageSize) -> u64
    ensures frames { result ≡ sum_by (cost_of page) transfers.now }
    ensures most { result ≤ 2 ^ 48 }
{
    let mut total: u64 = 0;
    'each: for i in 0..transfers.len() {
        let transfer = transfers.at(i);
        let touched = span(transfer.begins_at(), transfer.len, page);
        total += cost_of_span(transfer.sem.class(), transfer.dir, touched);
    }
    total
}

// Whether this is region `id` and has exactly so many pages.
fn is_sized(region: Region, id: u32, pages: u32) -> bool
    ensures { result ≡ has_pages id pages region }
{
    region.id.0 == id && region.pages == pages
}

// Whether region `id` is one of these and has exactly so many pages.
fn has_pages(regions: &Regions, id: u32, pages: u32) -> bool
    ensures { result ≡ list_any (has_pages id pages) regions.now }
{
    'each: for i in 0..regions.len() {
        if is_sized(regions.at(i), id, pages) {
            return true;
        }
    }
    false
}

// Whether region `id` has exactly so many pages, and no transfer names it.
fn is_reusable(regions: &Regions, transfers: &Transfers, id: u32, pages: u32) -> bool
    ensures { result ≡ is_reusable regions.now transfers.now pages id }
{
    has_pages(regions, id, pages) && !transfers.any(Search::Naming(id))
}

// Whether a region of the queue has exactly so many pages, and no transfer names it.
pub(crate) fn any_reusable(
    queue: &WeakQueue,
    regions: &Regions,
    transfers: &Transfers,
    pages: u32,
) -> bool
    ensures { result ≡ list_any (is_reusable regions.now transfers.now pages) queue.now }
{
    queue.at(0);
    'each: for i in 0..32 {
        let Some(id) = queue.at(i) else {
            return false;
        };
        if is_reusable(regions, transfers, id.0, pages) {
            return true;
        }
    }
    false
}
