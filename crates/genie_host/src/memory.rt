//! A host in memory, for tests.
ghost use Rattle.std.specs.Prelude.{◌≡◌, ◌↔◌, ◌+◌, ◌<◌, ◌≤◌, [], ◌∷◌, ◌++◌, length, IfOk, MatchResult, refl, Some, option_copied, position, slice_get};
ghost use Rattle.std.specs.List.{list_any};
ghost use Rattle.std.specs.Str.{bytes_eq};
ghost use Rattle.std.specs.Io.{ReadsAtMost, WritesAtMost};
ghost use Rattle.genie_base.specs.declared.semantics.Direction.TheVariants.{Inward, Outward};
ghost use Rattle.genie_host.specs.Host.{Reading, Writing, Reads, Writes, Opens};
ghost use Rattle.genie_host.specs.Handles.{handle_in};
ghost use Rattle.genie_host.specs.MemoryView.{fresh, state_of, output_state, told_of, host_of, is_refused, file_place, file_to_open, sink_to_open, noted, opened_with, refusing, OpensFile, OpensSink, MemoryReads, MemoryWrites, written_to, opened_bytes, unopened_bytes, is_writer_of, bytes_of};

use crate::files::{Failure, File, Name, file_named};
use crate::opened::{Opened, bytes_at, faults_at, writer_named};
use crate::reader::{Reader, read_from};
use crate::writer::{Sink, Writer};
use crate::{Failed, Host, OpenRefused, Openings};
use genie_base::{Direction, NoMemory};
use std::alloc::Global;
use std::marker::Model;

/// How many handles can be opened, besides the reply output.
pub const HANDLES: usize = 20;

/// Files, sinks and failures that were asked for, in memory. It tells all its bytes, and fails nowhere else.
///
/// A name may be added more than once: an opening takes the first file, or the first sink that wasn't opened yet. A
/// sink is opened once; a further opening of its name finds no sink, and fails as for a name that is absent.
#[derive(Drop)]
pub struct MemoryHost {
    alloc: Global,
    files: Vec<File>,
    sinks: Vec<Sink>,
    failing: Vec<Failure>,
    refused: Vec<Name>,
    most: usize,
    output: Writer,
    opened: Vec<Opened>,
    tried: Openings,
    refusals: u64,
}

impl Model for MemoryHost {
    ghost use Rattle.std.specs.Prelude.{◌<◌, ◌≤◌, vec_capacity};
    ghost use Rattle.genie_host.specs.MemoryView.{MemoryView};

    ghost Value = { MemoryView };

    ghost view = { λ h. record {
      files = h.files.items;
      sinks = h.sinks.items;
      failing = h.failing.items;
      refused = h.refused.items;
      most = h.most;
      output = h.output;
      opened = h.opened.items;
      tried = h.tried.items;
      refusals = h.refusals;
    } };

    ghost invariant = { λ h. (20 ≤ vec_capacity h.opened) × (0 < h.most) };
}

impl MemoryHost {
    /// A host with no names, with room for this many bytes of the reply output and for 20 handles.
    pub fn new(alloc: Global, room: u64) -> Result<MemoryHost, NoMemory>
        ensures { IfOk result (λ host. host ≡ fresh room) }
    {
        let output = Writer::new(alloc, &[], room)?;
        let opened = Vec::with_capacity(alloc, HANDLES)?;
        Ok(MemoryHost {
            alloc,
            files: Vec::new(alloc),
            sinks: Vec::new(alloc),
            failing: Vec::new(alloc),
            refused: Vec::new(alloc),
            most: usize::MAX,
            output,
            opened,
            tried: Openings::new(),
            refusals: 0,
        })
    }

    /// Adds a readable name. Nothing changes for want of memory.
    pub fn file(&mut self, name: &[u8], bytes: &[u8]) -> Result<(), NoMemory>
        ensures { MatchResult result
            (λ _. self.new ≡ record self.old { files = self.old.files ++ record { name = name.now; bytes = bytes.now } ∷ [] })
            (λ _. self.new ≡ self.old) }
    {
        let file = File::new(self.alloc, name, bytes)?;
        self.files.push(file)?;
        Ok(())
    }

    /// Adds a writable name with room for this many bytes. Nothing changes for want of memory.
    pub fn sink(&mut self, name: &[u8], room: u64) -> Result<(), NoMemory>
        ensures { MatchResult result
            (λ _. self.new ≡ record self.old { sinks = self.old.sinks ++ record { name = name.now; room = room } ∷ [] })
            (λ _. self.new ≡ self.old) }
    {
        let sink = Sink::new(self.alloc, name, room)?;
        self.sinks.push(sink)?;
        Ok(())
    }

    /// Makes one call fail: calls move bytes only up to byte number `at` of the file of this name, and the next call
    /// on it fails once. The empty name is the reply output. Several failures may stand in one file, and each comes
    /// once; one behind the place that a handle has reached never comes there. Nothing changes for want of memory.
    pub fn fail_at(&mut self, name: &[u8], at: u64) -> Result<(), NoMemory>
        ensures { MatchResult result
            (λ _. self.new ≡ record self.old { failing = self.old.failing ++ record { name = name.now; at = at } ∷ [] })
            (λ _. self.new ≡ self.old) }
    {
        let failure = Failure::new(self.alloc, name, at)?;
        self.failing.push(failure)?;
        Ok(())
    }

    /// Makes every opening of this name fail. Nothing changes for want of memory.
    pub fn refuse(&mut self, name: &[u8]) -> Result<(), NoMemory>
        ensures { MatchResult result
            (λ _. self.new ≡ record self.old { refused = self.old.refused ++ name.now ∷ [] })
            (λ _. self.new ≡ self.old) }
    {
        let name = Name::new(self.alloc, name)?;
        self.refused.push(name)?;
        Ok(())
    }

    /// From now on each read and each write moves at most this many bytes.
    pub fn pieces(&mut self, most: u32)
        requires { 0 < most }
        ensures { self.new ≡ record self.old { most = most } }
    {
        self.most = most as usize;
    }

    /// What was written to the sink of this name so far, or with the empty name to the reply output; none where there
    /// is no such sink. Of several sinks of one name the one opened first is lent.
    pub fn written(&self, name: &[u8]) -> Option<&[u8]>
        ensures { option_copied result ≡ written_to self.now name.now }
    {
        if name.is_empty() {
            return Some(self.output.bytes());
        }
        match writer_named(self.opened.as_slice(), name) {
            Some(index) => Some(bytes_at(self.opened.as_slice(), index)),
            None => unopened(self.sinks.as_slice(), name),
        }
    }

    /// How many calls on this handle failed. It stops at the type's end.
    pub fn faults(&self, handle: u32) -> u64
        requires { handle ≤ 20 }
        ensures { result ≡ ((host_of self.now).handle handle).faults }
    {
        if handle == 0 {
            return self.output.faults();
        }
        faults_at(self.opened.as_slice(), handle as usize - 1)
    }

    /// How many openings failed. It stops at the type's end.
    pub fn refusals(&self) -> u64
        ensures { result ≡ self.now.refusals }
    {
        self.refusals
    }

    // The file that an opening for reading opens.
    fn readable(&self, name: &[u8]) -> Option<usize>
        ensures { result ≡ file_to_open self.now name.now }
    {
        if is_refused_in(self.refused.as_slice(), name) {
            return None;
        }
        file_named(self.files.as_slice(), name)
    }

    // The sink that an opening for writing opens.
    fn writable(&self, name: &[u8]) -> Option<usize>
        ensures { result ≡ sink_to_open self.now name.now }
    {
        if is_refused_in(self.refused.as_slice(), name) {
            return None;
        }
        sink_named(self.sinks.as_slice(), name)
    }

    // The openings count one more fault.
    fn count_refusal(&mut self) -> OpenRefused
        ensures answer { result ≡ OpenRefused.Failed }
        ensures count { self.new ≡ refusing self.old }
    {
        self.refusals = self.refusals.saturating_add(1);
        OpenRefused::Failed
    }

    // Puts a new handle into the next place.
    fn place(&mut self, opened: Opened) -> u32
        requires { length self.old.opened < 20 }
        ensures number { result ≡ length self.old.opened + 1 }
        ensures opened { self.new ≡ opened_with self.old opened }
    {
        match self.opened.push(opened) {
            Ok(()) => self.opened.len() as u32,
            Err(_) => unreachable!(),
        }
    }
}

impl Host for MemoryHost {
    ghost view = { host_of };

    ghost output = { λ h. refl };

    /// Fails exactly where the name is absent or refused.
    fn open_read(&mut self, name: &[u8]) -> Result<u32, OpenRefused>
        requires { length self.old.opened < 20 }
        ensures opens { Opens name.now Inward Reading (told_of self.old.files name.now) OpenRefused.Failed (host_of self.old) (host_of self.new) result }
        ensures exact { OpensFile OpenRefused.Failed (file_to_open self.old name.now) (noted self.old name.now Inward) self.new result }
    {
        self.tried.note(name, &Direction::Inward);
        match self.readable(name) {
            Some(file) => Ok(self.place(Opened::Reading(Reader {
                file,
                at: 0,
                faults: 0,
            }))),
            None => Err(self.count_refusal()),
        }
    }

    /// Fails exactly where no sink of the name is left to open, or the name is refused.
    fn open_write(&mut self, name: &[u8]) -> Result<u32, OpenRefused>
        requires { length self.old.opened < 20 }
        ensures opens { Opens name.now Outward Writing (Some []) OpenRefused.Failed (host_of self.old) (host_of self.new) result }
        ensures exact { OpensSink OpenRefused.Failed (sink_to_open self.old name.now) (noted self.old name.now Outward) self.new result }
    {
        self.tried.note(name, &Direction::Outward);
        match self.writable(name) {
            Some(index) => {
                let sink = self.sinks.remove(index);
                Ok(self.place(Opened::Writing(sink.open())))
            }
            None => Err(self.count_refusal()),
        }
    }

    /// Fails exactly where a failure stands at the place that was reached.
    fn read(&mut self, handle: u32, into: &mut [u8]) -> Result<usize, Failed>
        requires { (handle_in (state_of self.old.files) (output_state self.old.output) self.old.opened handle).mode ≡ Reading }
        ensures bound { ReadsAtMost result into.new }
        ensures step { Reads handle (host_of self.old) (host_of self.new) result into.new }
        ensures exact { MemoryReads handle self.old self.new (length into.old) result }
    {
        prove!(handle > 0);
        match &mut self.opened[handle as usize - 1] {
            Opened::Reading(reader) => read_from(
                self.files.as_slice(),
                &mut self.failing,
                self.most,
                reader,
                into,
            ),
            Opened::Writing(_) => unreachable!(),
        }
    }

    /// Fails exactly where a failure stands at the place that was reached, or the room is used up.
    fn write(&mut self, handle: u32, from: &[u8]) -> Result<usize, Failed>
        requires { (handle_in (state_of self.old.files) (output_state self.old.output) self.old.opened handle).mode ≡ Writing }
        ensures bound { WritesAtMost result from.now }
        ensures some { IfOk result (λ n. n ≡ 0 → from.now ≡ []) }
        ensures step { Writes handle (host_of self.old) (host_of self.new) result from.now }
        ensures exact { MemoryWrites handle self.old self.new from.now result }
    {
        if handle == 0 {
            return self.output.write(&mut self.failing, self.most, from);
        }
        match &mut self.opened[handle as usize - 1] {
            Opened::Writing(writer) => writer.write(&mut self.failing, self.most, from),
            Opened::Reading(_) => unreachable!(),
        }
    }
}

fn is_refused_in(refused: &[Name], name: &[u8]) -> bool
    ensures { result ≡ is_refused refused.now name.now }
{
    refused.iter().any(|other| other.is(name))
}

fn sink_named(sinks: &[Sink], name: &[u8]) -> Option<usize>
    ensures { result ≡ position (λ sink. bytes_eq sink.name name.now) sinks.now }
{
    sinks.iter().position(|sink| sink.is_named(name))
}

fn has_sink(sinks: &[Sink], name: &[u8]) -> bool
    ensures { result ≡ list_any (λ sink. bytes_eq sink.name name.now) sinks.now }
{
    sinks.iter().any(|sink| sink.is_named(name))
}

fn unopened<'a>(sinks: &'a [Sink], name: &[u8]) -> Option<&'a [u8]>
    ensures { option_copied result ≡ unopened_bytes sinks.now name.now }
{
    if has_sink(sinks, name) {
        return Some(&[]);
    }
    None
}
