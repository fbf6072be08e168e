//! What is left of a region that was removed.
ghost use Rattle.std.specs.Prelude.{◌≡◌, ◌<◌, ◌≤◌, ◌^◌, ◌++◌, Some, length, map, filter, find, insert, IfOk, OnOk};
ghost use Rattle.std.specs.List.{list_any};
ghost use Rattle.std.specs.Option.{option_copied};
ghost use Rattle.genie_model.specs.Regions.{is_orphan, is_within_range, orphan_part, bytes_within, byte_within, stored_at, stored_in_orphan};
ghost use Rattle.genie_model.specs.Pending.{covers};
ghost use Rattle.genie_model.specs.Space.{placed, as_orphan, add_orphan, add_orphans, cut, is_named};
ghost use Rattle.genie_model.specs.State.{Orphan as Left};
ghost use Rattle.genie_model.specs.Tables.{put_in};

use crate::region::Region;
use crate::transfer::Transfer;
use crate::transfers::{any_covers, any_names_weakly};
use genie_base::NoMemory;
use std::alloc::Global;
use std::marker::Model;

/// The bytes at the places that pending weak transfers cover, as pairs of place and byte.
#[derive(Drop)]
pub struct Orphan {
    number: u32,
    bytes: Vec<(u32, u8)>,
}

impl Model for Orphan {
    ghost use Rattle.genie_model.specs.State as flat;

    ghost Value = { flat.Orphan };

    ghost view = { λ o. record { number = o.number; bytes = o.bytes.items } };
}

// Whether a place is one of the `n` from place `at` on.
fn is_within(at: usize, n: usize, e: &(u32, u8)) -> bool
    ensures { result ≡ is_within_range at n e.now }
{
    let place = e.0 as usize;
    at <= place && place - at < n
}

// The byte at a place, if it is one of the new ones from place `at` on.
fn stored(e: (u32, u8), at: usize, bytes: &[u8]) -> (u32, u8)
    ensures { result ≡ stored_at at bytes.now e }
{
    if is_within(at, bytes.len(), &e) {
        (e.0, bytes[e.0 as usize - at])
    } else {
        e
    }
}

fn store_in_each(pairs: &mut [(u32, u8)], at: usize, bytes: &[u8])
    ensures { pairs.new ≡ map (stored_at at bytes.now) pairs.old }
{
    for pair in pairs.iter_mut() {
        *pair = stored(*pair, at, bytes);
    }
}

// Appends the byte of a place, if it is one of the `n` from place `at` on.
fn push_within(part: &mut Vec<u8>, e: &(u32, u8), at: usize, n: usize) -> Result<(), NoMemory>
    ensures { OnOk result (part.new.items ≡ part.old.items ++ byte_within at n e.now) }
{
    if is_within(at, n, e) {
        part.push(e.1)?;
    }
    Ok(())
}

fn part_of(alloc: Global, pairs: &[(u32, u8)], at: usize, n: usize) -> Result<Vec<u8>, NoMemory>
    ensures { IfOk result (λ bytes. bytes.items ≡ bytes_within at n pairs.now) }
{
    let mut part = Vec::new(alloc);
    for pair in pairs {
        push_within(&mut part, pair, at, n)?;
    }
    Ok(part)
}

// Without the places that no pending weak transfer covers in this region or orphan.
fn drop_uncovered(pairs: &mut Vec<(u32, u8)>, transfers: &[Transfer], number: u32)
    ensures { pairs.new.items ≡ filter (λ e. list_any (covers number e.0) transfers.now) pairs.old.items }
{
    pairs.retain(|pair| any_covers(transfers, number, pair.0));
}

// Bytes with their places, from 0 on.
fn placed(alloc: Global, bytes: &[u8]) -> Result<Vec<(u32, u8)>, NoMemory>
    requires { length bytes.now < 2 ^ 32 }
    ensures { IfOk result (λ pairs. pairs.items ≡ placed 0 bytes.now) }
{
    let mut pairs = Vec::new(alloc);
    for (i, byte) in bytes.iter().enumerate() {
        pairs.push((i as u32, *byte))?;
    }
    Ok(pairs)
}

impl Orphan {
    /// What is left of a region before it is cut.
    pub fn of(alloc: Global, region: &Region) -> Result<Orphan, NoMemory>
        ensures { IfOk result (λ o. o ≡ as_orphan region.now) }
    {
        let bytes = placed(alloc, region.bytes())?;
        Ok(Orphan {
            number: region.number(),
            bytes,
        })
    }

    /// The number that the region had.
    pub fn number(&self) -> u32
        ensures { result ≡ self.now.number }
    {
        self.number
    }

    // Whether it has this number.
    pub(crate) fn is_orphan(&self, number: u32) -> bool
        ensures { result ≡ is_orphan number self.now }
    {
        self.number == number
    }

    /// The bytes that it has at the `n` places from place `at` on.
    pub fn part(&self, alloc: Global, at: usize, n: usize) -> Result<Vec<u8>, NoMemory>
        ensures { IfOk result (λ bytes. bytes.items ≡ orphan_part at n (Some self.now)) }
    {
        part_of(alloc, self.bytes.as_slice(), at, n)
    }

    // Stores bytes from place `at` on, if it is orphan `number`.
    fn store(&mut self, number: u32, at: usize, bytes: &[u8])
        ensures { self.new ≡ stored_in_orphan number at bytes.now self.old }
    {
        if self.number == number {
            store_in_each(self.bytes.as_mut_slice(), at, bytes);
        }
    }

    // Whether a pending weak transfer names it.
    fn is_named(&self, transfers: &[Transfer]) -> bool
        ensures { result ≡ is_named transfers.now self.now }
    {
        any_names_weakly(transfers, self.number)
    }

    // Without the places that no pending weak transfer covers.
    fn cut(&mut self, transfers: &[Transfer])
        ensures { self.new ≡ cut transfers.now self.old }
    {
        drop_uncovered(&mut self.bytes, transfers, self.number);
    }
}

fn cut_all(orphans: &mut [Orphan], transfers: &[Transfer])
    ensures { orphans.new ≡ map (cut transfers.now) orphans.old }
{
    for orphan in orphans.iter_mut() {
        orphan.cut(transfers);
    }
}

fn drop_unnamed(orphans: &mut Vec<Orphan>, transfers: &[Transfer])
    ensures { orphans.new.items ≡ filter (is_named transfers.now) orphans.old.items }
{
    orphans.retain(|orphan| orphan.is_named(transfers));
}

/// Cuts each to the covered places, without those that no pending weak transfer names.
pub fn tidy(orphans: &mut Vec<Orphan>, transfers: &[Transfer])
    ensures { orphans.new.items ≡ map (cut transfers.now) (filter (is_named transfers.now) orphans.old.items) }
{
    drop_unnamed(orphans, transfers);
    cut_all(orphans.as_mut_slice(), transfers);
}

// Where an orphan of this number belongs.
fn place_for(orphans: &[Orphan], number: u32) -> usize
    ensures within { result ≤ length orphans.now }
    ensures place { (o : Left) → o.number ≡ number → insert orphans.now result o ≡ put_in (λ q. q.number) o orphans.now }
{
    for (i, orphan) in orphans.iter().enumerate() {
        if number < orphan.number() {
            return i;
        }
    }
    orphans.len()
}

/// One orphan more, in its place.
pub fn insert_orphan(orphans: &mut Vec<Orphan>, orphan: Orphan) -> Result<(), NoMemory>
    ensures { OnOk result (orphans.new.items ≡ put_in (λ q. q.number) orphan orphans.old.items) }
{
    let at = place_for(orphans.as_slice(), orphan.number());
    orphans.insert(at, orphan)?;
    Ok(())
}

// A region is an orphan from now on.
fn add_orphan(alloc: Global, orphans: &mut Vec<Orphan>, region: &Region) -> Result<(), NoMemory>
    ensures { OnOk result (orphans.new.items ≡ add_orphan region.now orphans.old.items) }
{
    let orphan = Orphan::of(alloc, region)?;
    insert_orphan(orphans, orphan)
}

/// All these regions are orphans from now on.
pub fn add_orphans(
    alloc: Global,
    orphans: &mut Vec<Orphan>,
    regions: &[Region],
) -> Result<(), NoMemory>
    ensures { OnOk result (orphans.new.items ≡ add_orphans regions.now orphans.old.items) }
{
    for region in regions {
        add_orphan(alloc, orphans, region)?;
    }
    Ok(())
}

/// Whether one of them has this number.
pub fn any_orphan(orphans: &[Orphan], number: u32) -> bool
    ensures { result ≡ list_any (is_orphan number) orphans.now }
{
    orphans.iter().any(|orphan| orphan.is_orphan(number))
}

/// The one of this number.
pub fn orphan_numbered(orphans: &[Orphan], number: u32) -> Option<&Orphan>
    ensures { option_copied result ≡ find (is_orphan number) orphans.now }
{
    orphans.iter().find(|orphan| orphan.is_orphan(number))
}

/// Stores bytes from place `at` on in orphan `number`.
pub fn store_in_orphan(orphans: &mut [Orphan], number: u32, at: usize, bytes: &[u8])
    ensures { orphans.new ≡ map (stored_in_orphan number at bytes.now) orphans.old }
{
    for orphan in orphans.iter_mut() {
        orphan.store(number, at, bytes);
    }
}
