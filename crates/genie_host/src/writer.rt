//! A sink of a host in memory, before and after it is opened.
ghost use Rattle.std.specs.Prelude.{◌≡◌, ◌<◌, [], IfOk, Some};
ghost use Rattle.std.specs.Io.{WritesAtMost};
ghost use Rattle.std.specs.Io.KnownBytes.{WriteAppends};
ghost use Rattle.genie_base.specs.Causes.{HasCause};
ghost use Rattle.std.specs.Str.{bytes_eq};
ghost use Rattle.genie_host.specs.MemoryParts.{WritesTo};

use crate::Failed;
use crate::files::{Failure, Name, before_failure, meets_failure};
use genie_base::NoMemory;
use std::alloc::Global;
use std::marker::Model;

/// A writing handle: what was written, the room for it, in bytes, and the count of its faults.
#[derive(Drop)]
pub struct Writer {
    name: Name,
    room: usize,
    bytes: Vec<u8>,
    faults: u64,
}

impl Model for Writer {
    ghost use Rattle.std.specs.Prelude.{◌≤◌, length, vec_capacity};
    ghost use Rattle.genie_host.specs.MemoryRecords.{WriterView};

    ghost Value = { WriterView };

    ghost view = { λ w. record { name = w.name; room = w.room; bytes = w.bytes.items; faults = w.faults } };

    ghost invariant = { λ w. (length w.bytes.items ≤ w.room) × (w.room ≤ vec_capacity w.bytes) };
}

impl Writer {
    pub(crate) fn new(alloc: Global, name: &[u8], room: u64) -> Result<Writer, NoMemory>
        ensures { IfOk result (λ writer. writer ≡ record { name = name.now; room = room; bytes = []; faults = 0 }) }
    {
        let name = Name::new(alloc, name)?;
        let bytes = Vec::with_capacity(alloc, room as usize)?;
        Ok(Writer {
            name,
            room: room as usize,
            bytes,
            faults: 0,
        })
    }

    pub(crate) fn is_named(&self, name: &[u8]) -> bool
        ensures { result ≡ bytes_eq self.now.name name.now }
    {
        self.name.is(name)
    }

    pub(crate) fn bytes(&self) -> &[u8]
        ensures { result.now ≡ self.now.bytes }
    {
        self.bytes.as_slice()
    }

    pub(crate) fn faults(&self) -> u64
        ensures { result ≡ self.now.faults }
    {
        self.faults
    }

    // Appends a front of the bytes.
    pub(crate) fn write(
        &mut self,
        failing: &mut Vec<Failure>,
        most: usize,
        from: &[u8],
    ) -> Result<usize, Failed>
        requires { 0 < most }
        ensures step { WritesTo most failing.old.items failing.new.items self.old self.new from.now result }
        ensures within { WritesAtMost result from.now }
        ensures some { IfOk result (λ n. n ≡ 0 → from.now ≡ []) }
        ensures bytes { WriteAppends (Some self.old.bytes) (Some self.new.bytes) result from.now }
        ensures cause { HasCause self.old.faults self.new.faults result }
    {
        let place = self.bytes.len();
        let met = meets_failure(failing, self.name.as_slice(), place as u64);
        if met || place == self.room {
            self.faults = self.faults.saturating_add(1);
            return Err(Failed);
        }
        let count = from.len().min(most).min(self.room - place) as u64;
        let count = before_failure(failing, self.name.as_slice(), place as u64, count) as usize;
        match self.bytes.extend_from_slice(&from[..count]) {
            Ok(()) => Ok(count),
            Err(_) => unreachable!(),
        }
    }
}

/// A writable name with its room, which wasn't opened yet.
#[derive(Drop)]
pub struct Sink {
    writer: Writer,
}

impl Model for Sink {
    ghost use Rattle.std.specs.Prelude.{◌≡◌, []};
    ghost use Rattle.genie_host.specs.MemoryRecords.{SinkView};

    ghost Value = { SinkView };

    ghost view = { λ s. record { name = s.writer.name; room = s.writer.room } };

    ghost invariant = { λ s. (s.writer.bytes ≡ []) × (s.writer.faults ≡ 0) };
}

impl Sink {
    pub(crate) fn new(alloc: Global, name: &[u8], room: u64) -> Result<Sink, NoMemory>
        ensures { IfOk result (λ sink. sink ≡ record { name = name.now; room = room }) }
    {
        let writer = Writer::new(alloc, name, room)?;
        Ok(Sink { writer })
    }

    pub(crate) fn is_named(&self, name: &[u8]) -> bool
        ensures { result ≡ bytes_eq self.now.name name.now }
    {
        self.writer.is_named(name)
    }

    // The sink, opened as an empty file.
    pub(crate) fn open(self) -> Writer
        ensures { result ≡ record { name = self.name; room = self.room; bytes = []; faults = 0 } }
    {
        self.writer
    }
}
