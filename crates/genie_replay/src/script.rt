//! The script, read in pieces and given out line by line.
ghost use Rattle.std.specs.Prelude.{◌≡◌, ◌<◌, ◌≤◌, ◌+◌, ◌==◌, ℕ, List, [], ◌∷◌, drop, length, take};
ghost use Rattle.std.specs.Io.KnownBytes.{prepend_known};
ghost use Rattle.genie_host.specs.Host.{Reading, OnlyHandle};
ghost use Rattle.genie_base.specs.Causes.{HasCause};
ghost use Rattle.genie_replay.specs.Lines.{ReadsAhead, TakesByte, TakesBytes, TakesLine, StaysWithin};

use genie_host::{Failed, Host};
use genie_script::{LONGEST_LINE, LineBuffer};
use std::marker::Model;

/// How many bytes one read asks for at most.
pub const PIECE: usize = 4096;

/// The handle of the script, which is the first that a run opens.
pub const SCRIPT: u32 = 1;

/// What reading a line came to.
#[derive(Clone, Copy, Debug, PartialEq, Eq)]
pub enum LineStep {
    /// A line was read.
    Line,
    /// No line is left.
    End,
    /// The line has more bytes than a line may have.
    TooLong,
}

/// A reader of lines. Contracts see the bytes that it has read ahead.
#[derive(Drop)]
pub struct Script {
    piece: [u8; 4096],
    at: usize,
    end: usize,
}

impl Model for Script {
    ghost Value = { List ℕ };

    ghost view = { λ s. drop s.at (take s.end s.piece) };

    ghost invariant = { λ s. (s.at ≤ s.end) × (s.end ≤ 4096) };
}

impl Script {
    /// A reader that has read nothing.
    pub fn new() -> Script
        ensures { result ≡ [] }
    {
        Script {
            piece: [0; 4096],
            at: 0,
            end: 0,
        }
    }

    // Whether nothing is left of what was read ahead.
    fn is_spent(&self) -> bool
        ensures { result ≡ (length self.now == 0) }
    {
        self.at == self.end
    }

    // Takes the first byte that was read ahead.
    fn take_first(&mut self) -> u8
        requires { 0 < length self.old }
        ensures { self.old ≡ result ∷ self.new }
    {
        let byte = self.piece[self.at];
        self.at += 1;
        byte
    }

    // Reads this many bytes at most in place of those that are spent.
    fn read_ahead<H: Host>(
        &mut self,
        host: &mut H,
        handle: u32,
        most: usize,
    ) -> Result<usize, Failed>
        requires input { ((H.view host.old).handle handle).mode ≡ Reading }
        requires most { 0 < most }
        ensures only { OnlyHandle handle (H.view host.old) (H.view host.new) }
        ensures cause { HasCause ((H.view host.old).handle handle).faults ((H.view host.new).handle handle).faults result }
        ensures bytes { ReadsAhead ((H.view host.old).handle handle).bytes ((H.view host.new).handle handle).bytes self.new result }
        ensures ahead { length self.new ≤ most }
    {
        self.at = 0;
        self.end = 0;
        let run = &mut self.piece[..most.min(PIECE)];
        let count = match host.read(handle, run) {
            Ok(count) => count,
            Err(error) => return Err(error),
        };
        self.end = count;
        Ok(count)
    }

    /// The next byte of a reading handle, behind what was read ahead. A read asks for this many bytes at most.
    pub fn next_byte<H: Host>(
        &mut self,
        host: &mut H,
        handle: u32,
        most: usize,
    ) -> Result<Option<u8>, Failed>
        requires input { ((H.view host.old).handle handle).mode ≡ Reading }
        requires most { 0 < most }
        ensures only { OnlyHandle handle (H.view host.old) (H.view host.new) }
        ensures cause { HasCause ((H.view host.old).handle handle).faults ((H.view host.new).handle handle).faults result }
        ensures bytes { TakesByte (prepend_known self.old ((H.view host.old).handle handle).bytes)
            (prepend_known self.new ((H.view host.new).handle handle).bytes) result }
        ensures ahead { StaysWithin most (length self.old) (length self.new) result }
    {
        if !self.is_spent() {
            return Ok(Some(self.take_first()));
        }
        match self.read_ahead(host, handle, most) {
            Err(error) => Err(error),
            Ok(0) => Ok(None),
            Ok(_) => Ok(Some(self.take_first())),
        }
    }

    /// The next line, without its end. At most 8,301 bytes are read for it, what is read ahead among them: of a line
    /// that is too long the rest stays unread, and the buffer holds its first 8,300 bytes.
    pub fn next_line<H: Host>(
        &mut self,
        host: &mut H,
        handle: u32,
        line: &mut LineBuffer,
    ) -> Result<LineStep, Failed>
        requires { ((H.view host.old).handle handle).mode ≡ Reading }
        ensures only { OnlyHandle handle (H.view host.old) (H.view host.new) }
        ensures cause { HasCause ((H.view host.old).handle handle).faults ((H.view host.new).handle handle).faults result }
        ensures line { TakesLine (prepend_known self.old ((H.view host.old).handle handle).bytes)
            (prepend_known self.new ((H.view host.new).handle handle).bytes) result line.new }
        ensures taken { TakesBytes (prepend_known self.old ((H.view host.old).handle handle).bytes)
            (prepend_known self.new ((H.view host.new).handle handle).bytes) result line.new }
        ensures short { length line.new ≤ 8300 }
        ensures ahead { length self.old ≤ 8301 → length line.new + length self.new ≤ 8300 }
    {
        line.clear();
        'bytes: loop {
            match self.next_byte(host, handle, LONGEST_LINE + 1 - line.len()) {
                Err(error) => return Err(error),
                Ok(None) => {
                    if line.is_empty() {
                        return Ok(LineStep::End);
                    }
                    return Ok(LineStep::Line);
                }
                Ok(Some(byte)) => {
                    if byte == b'\n' {
                        return Ok(LineStep::Line);
                    }
                    if line.len() == LONGEST_LINE {
                        return Ok(LineStep::TooLong);
                    }
                    line.push(byte);
                }
            }
        }
    }
}
