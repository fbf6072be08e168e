//! An open file of a host over real files.
ghost use Rattle.std.specs.Prelude.{◌≡◌, [], IfOk, MatchResult};
ghost use Rattle.std.specs.Io.{ReadsAtMost, WritesAtMost};
ghost use Rattle.genie_base.specs.Causes.{HasCause};

use crate::Failed;
use std::io::{self, Read, Write};
use std::marker::Model;

/// How often a call that a signal interrupted is made.
pub(crate) const TRIES: u32 = 16;

/// A file, whether it is read, and the count of its faults.
#[derive(Drop)]
pub struct Place<F> {
    file: F,
    is_read: bool,
    faults: u64,
}

impl<F> Model for Place<F> {
    ghost use Rattle.genie_host.specs.FileView.{PlaceView};

    ghost Value = { PlaceView };

    ghost view = { λ p. record { is_read = p.is_read; faults = p.faults } };
}

fn read_patiently<F: Read>(file: &mut F, into: &mut [u8]) -> io::Result<usize>
    ensures { ReadsAtMost result into.new }
{
    for _ in 1..TRIES {
        match file.read(into) {
            Err(error) if error.kind() == io::ErrorKind::Interrupted => {}
            result => return result,
        }
    }
    file.read(into)
}

fn write_patiently<F: Write>(file: &mut F, from: &[u8]) -> io::Result<usize>
    ensures { WritesAtMost result from.now }
{
    for _ in 1..TRIES {
        match file.write(from) {
            Err(error) if error.kind() == io::ErrorKind::Interrupted => {}
            result => return result,
        }
    }
    file.write(from)
}

impl<F> Place<F> {
    pub(crate) fn new(file: F, is_read: bool) -> Place<F>
        ensures { result ≡ record { is_read = is_read; faults = 0 } }
    {
        Place {
            file,
            is_read,
            faults: 0,
        }
    }
}

impl<F: Read + Write> Place<F> {
    // The next bytes.
    pub(crate) fn read(&mut self, into: &mut [u8]) -> Result<usize, Failed>
        ensures kind { self.new.is_read ≡ self.old.is_read }
        ensures bound { ReadsAtMost result into.new }
        ensures cause { HasCause self.old.faults self.new.faults result }
    {
        match read_patiently(&mut self.file, into) {
            Ok(count) => Ok(count),
            Err(_) => {
                self.faults = self.faults.saturating_add(1);
                Err(Failed)
            }
        }
    }

    // Appends a front of the bytes. A file that takes none of them has failed.
    pub(crate) fn write(&mut self, from: &[u8]) -> Result<usize, Failed>
        ensures kind { self.new.is_read ≡ self.old.is_read }
        ensures bound { WritesAtMost result from.now }
        ensures some { IfOk result (λ n. n ≡ 0 → from.now ≡ []) }
        ensures cause { HasCause self.old.faults self.new.faults result }
    {
        if from.is_empty() {
            return Ok(0);
        }
        match write_patiently(&mut self.file, from) {
            Ok(count) if count > 0 => Ok(count),
            _ => {
                self.faults = self.faults.saturating_add(1);
                Err(Failed)
            }
        }
    }
}
