//! An open handle of a host in memory.
ghost use Rattle.std.specs.Prelude.{◌≡◌, slice_get, position};
ghost use Rattle.genie_host.specs.MemoryView.{is_writer_of, bytes_of, faults_of};

use crate::reader::Reader;
use crate::writer::Writer;

/// A handle that was opened, by its direction.
#[derive(Drop)]
pub enum Opened {
    Reading(Reader),
    Writing(Writer),
}

impl Opened {
    fn is_writer_of(&self, name: &[u8]) -> bool
        ensures { result ≡ is_writer_of name.now self.now }
    {
        match self {
            Opened::Reading(_) => false,
            Opened::Writing(writer) => writer.is_named(name),
        }
    }
}

// The first opened sink of this name.
pub(crate) fn writer_named(opened: &[Opened], name: &[u8]) -> Option<usize>
    ensures { result ≡ position (is_writer_of name.now) opened.now }
{
    opened.iter().position(|handle| handle.is_writer_of(name))
}

// What was written to a handle.
pub(crate) fn bytes_at(opened: &[Opened], at: usize) -> &[u8]
    ensures { result.now ≡ bytes_of (slice_get opened.now at) }
{
    match opened.get(at) {
        Some(Opened::Writing(writer)) => writer.bytes(),
        _ => &[],
    }
}

pub(crate) fn faults_at(opened: &[Opened], at: usize) -> u64
    ensures { result ≡ faults_of (slice_get opened.now at) }
{
    match opened.get(at) {
        Some(Opened::Reading(reader)) => reader.faults,
        Some(Opened::Writing(writer)) => writer.faults(),
        None => 0,
    }
}
