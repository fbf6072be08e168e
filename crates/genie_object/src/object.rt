//! The entries of one object.
ghost use Rattle.std.specs.Prelude.{◌≡◌, ◌<◌, ◌≤◌, [], length, map, replicate, slice_set, slice_index_or, IfOk};
ghost use Rattle.genie_object.specs.Objects.{no_entry, revoked};

use crate::objects::Entry;
use crate::pages::PageId;
use std::alloc::{AllocError, Global};
use std::marker::Model;

/// How many entries an object may have.
pub const MOST_ENTRIES: usize = 64;

const NO_ENTRY: Entry = Entry {
    page: None,
    readable: false,
    writable: false,
};

/// The entries of one object, in a table that has room for 64. Contracts see the list.
#[derive(Drop)]
pub struct Object {
    entries: Vec<Entry>,
    len: usize,
}

impl Model for Object {
    ghost use Rattle.std.specs.Prelude.{◌≡◌, ◌≤◌, List, length, take};
    ghost use Rattle.genie_object.specs.declared.objects.Entry.{Entry};

    ghost Value = { List Entry };

    ghost view = { λ a. take a.len a.entries.items };

    ghost invariant = { λ a. (length a.entries.items ≡ 64) × (a.len ≤ 64) };
}

impl Object {
    /// No entry.
    pub fn empty(alloc: Global) -> Result<Object, AllocError>
        ensures { IfOk result (λ object. object ≡ []) }
    {
        Ok(Object {
            entries: vec![in alloc; NO_ENTRY; MOST_ENTRIES]?,
            len: 0,
        })
    }

    pub fn len(&self) -> usize
        ensures number { result ≡ length self.now }
        ensures most { result ≤ 64 }
    {
        self.len
    }

    /// As many empty entries as asked for.
    pub fn reset(&mut self, len: usize)
        requires { len ≤ 64 }
        ensures { self.new ≡ replicate len no_entry }
    {
        self.entries.fill(NO_ENTRY);
        self.len = len;
    }

    pub fn entry(&self, index: usize) -> Entry
        requires { index < length self.now }
        ensures { result ≡ slice_index_or self.now index no_entry }
    {
        self.entries[index]
    }

    pub fn set(&mut self, index: usize, entry: Entry)
        requires { index < length self.old }
        ensures { self.new ≡ slice_set self.old index entry }
    {
        self.entries[index] = entry;
    }

    /// Takes the permissions from each entry that names the page.
    pub fn revoke(&mut self, page: PageId)
        ensures { self.new ≡ map (revoked page.0) self.old }
    {
        if self.len > 0 {
            revoke_entries(&mut self.entries, page);
        }
    }
}

// The entry, without permissions where it names the page.
fn without_permissions(entry: Entry, page: PageId) -> Entry
    ensures { result ≡ revoked page.0 entry }
{
    match entry.page {
        Some(p) => {
            if p.0 == page.0 {
                Entry {
                    page: entry.page,
                    readable: false,
                    writable: false,
                }
            } else {
                entry
            }
        }
        None => entry,
    }
}

#[tactic(auto, using(crate::proofs::Mapped::mapped_more))]
fn revoke_entries(entries: &mut [Entry], page: PageId)
    ensures { entries.new ≡ map (revoked page.0) entries.old }
{
    for entry in entries.iter_mut() {
        *entry = without_permissions(*entry, page);
    }
}
