//! The host over real files and standard output.
ghost use Rattle.std.specs.Prelude.{◌≡◌, refl, ◌+◌, ◌<◌, ◌≤◌, [], ◌∷◌, ◌++◌, length, IfOk};
ghost use Rattle.std.specs.Io.{WritesAtMost};
ghost use Rattle.genie_base.specs.Causes.{Rose};
ghost use Rattle.genie_host.specs.FileView.{host_of, unopened};

use crate::place::{Place, TRIES};
use crate::{Failed, Host, OpenRefused, Openings};
use genie_base::{Direction, NoMemory};
use std::alloc::Global;
use std::marker::Model;
use std::rt::Files;
use std::{fs, io};

/// How many files can be opened.
pub const PLACES: usize = 20;

/// Real files by their names, and standard output as handle 0. It tells no bytes, and counts each failed call. A name
/// that isn't UTF-8 names no file. An opening for writing makes the file, or empties it.
#[derive(Drop)]
pub struct FileHost<'a, R: Files + Print> {
    rt: &'a R,
    files: Vec<Place<R::File>>,
    output_faults: u64,
    tried: Openings,
    refusals: u64,
}

impl<'a, R: Files + Print> Model for FileHost<'a, R> {
    ghost use Rattle.std.specs.Prelude.{◌≤◌, vec_capacity};
    ghost use Rattle.genie_host.specs.FileView.{FileHostView};

    ghost Value = { FileHostView };

    ghost view = { λ h. record {
      opened = h.files.items;
      output_faults = h.output_faults;
      tried = h.tried.items;
      refusals = h.refusals;
    } };

    ghost invariant = { λ h. 20 ≤ vec_capacity h.files };
}

impl<'a, R: Files + Print> FileHost<'a, R> {
    /// A host with nothing open, and room for 20 files.
    pub fn new(rt: &'a R, alloc: Global) -> Result<FileHost<'a, R>, NoMemory>
        ensures { IfOk result (λ host. host ≡ unopened) }
    {
        let files = Vec::with_capacity(alloc, PLACES)?;
        Ok(FileHost {
            rt,
            files,
            output_faults: 0,
            tried: Openings::new(),
            refusals: 0,
        })
    }

    // Puts a file that was just opened into the next place, and answers its number.
    fn place(&mut self, file: R::File, is_read: bool) -> u32
        requires { length self.old.opened < 20 }
        ensures number { result ≡ length self.old.opened + 1 }
        ensures opened { self.new ≡ record self.old { opened = self.old.opened ++ record { is_read = is_read; faults = 0 } ∷ [] } }
    {
        match self.files.push(Place::new(file, is_read)) {
            Ok(()) => self.files.len() as u32,
            Err(_) => unreachable!(),
        }
    }

    // An opening failed, or found no memory.
    fn refuse(&mut self, error: &io::Error) -> OpenRefused
        ensures rest { self.new ≡ record self.old { refusals = self.new.refusals } }
        ensures later { self.old.refusals ≤ self.new.refusals }
        ensures cause { result ≡ OpenRefused.Failed → Rose self.old.refusals self.new.refusals }
    {
        if error.kind() == io::ErrorKind::OutOfMemory {
            OpenRefused::Memory
        } else {
            self.refusals = self.refusals.saturating_add(1);
            OpenRefused::Failed
        }
    }

    // A write to standard output failed.
    fn fail_output(&mut self) -> Failed
        ensures rest { self.new ≡ record self.old { output_faults = self.new.output_faults } }
        ensures later { self.old.output_faults ≤ self.new.output_faults }
        ensures cause { Rose self.old.output_faults self.new.output_faults }
    {
        self.output_faults = self.output_faults.saturating_add(1);
        Failed
    }
}

fn open_in<R: Files>(rt: &R, name: &[u8]) -> io::Result<R::File> {
    match str::from_utf8(name) {
        Ok(path) => fs::open(rt, path),
        Err(_) => Err(io::Error::from(io::ErrorKind::InvalidInput)),
    }
}

fn open_out<R: Files>(rt: &R, name: &[u8]) -> io::Result<R::File> {
    match str::from_utf8(name) {
        Ok(path) => fs::create(rt, path),
        Err(_) => Err(io::Error::from(io::ErrorKind::InvalidInput)),
    }
}

// Writes a front of the bytes to standard output, again where a signal interrupts it.
fn print_patiently<R: Print>(rt: &R, from: &[u8]) -> io::Result<usize>
    ensures { WritesAtMost result from.now }
{
    for _ in 1..TRIES {
        match rt.write_some(from) {
            Err(error) if error.kind() == io::ErrorKind::Interrupted => {}
            result => return result,
        }
    }
    rt.write_some(from)
}

impl<'a, R: Files + Print> Host for FileHost<'a, R> {
    ghost view = { host_of };

    ghost output = { λ h. refl };

    fn open_read(&mut self, name: &[u8]) -> Result<u32, OpenRefused> {
        self.tried.note(name, &Direction::Inward);
        match open_in(self.rt, name) {
            Ok(file) => Ok(self.place(file, true)),
            Err(error) => Err(self.refuse(&error)),
        }
    }

    fn open_write(&mut self, name: &[u8]) -> Result<u32, OpenRefused> {
        self.tried.note(name, &Direction::Outward);
        match open_out(self.rt, name) {
            Ok(file) => Ok(self.place(file, false)),
            Err(error) => Err(self.refuse(&error)),
        }
    }

    fn read(&mut self, handle: u32, into: &mut [u8]) -> Result<usize, Failed> {
        prove!(handle > 0);
        self.files[handle as usize - 1].read(into)
    }

    fn write(&mut self, handle: u32, from: &[u8]) -> Result<usize, Failed> {
        if handle > 0 {
            return self.files[handle as usize - 1].write(from);
        }
        if from.is_empty() {
            return Ok(0);
        }
        match print_patiently(self.rt, from) {
            Ok(count) if count > 0 => Ok(count),
            _ => Err(self.fail_output()),
        }
    }
}
