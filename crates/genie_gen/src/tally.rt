//! Counting the replies of a run as they are written.
ghost use Rattle.std.specs.Prelude.{◌≡◌, ◌+◌, ◌≤◌, ◌∷◌, ◌++◌, [], length, take};
ghost use Rattle.std.specs.List.{fold};
ghost use Rattle.genie_gen.specs.GenView.{summary_from};
ghost use Rattle.genie_gen.specs.Tallies.{begins, capped, counted, no_lines, number_behind, number_of, one_if, with_byte};

use crate::summary::Summary;
use arrayvec::ArrayVec;
use std::marker::Model;

/// Counts of lines so far, and the front of the line that isn't ended yet.
#[derive(Drop)]
pub struct Tally {
    lines: u64,
    errs: u64,
    faults: u64,
    sent: u64,
    got: u64,
    line: ArrayVec<u8, 32>,
}

impl Model for Tally {
    ghost use Rattle.genie_gen.specs.Tallies.{Counts};

    ghost Value = { Counts };

    ghost view = { λ t. record { lines = t.lines; errs = t.errs; faults = t.faults; sent = t.sent; got = t.got; line = t.line.items } };
}

fn begins(word: &[u8], line: &[u8]) -> bool
    ensures { result ≡ begins word.now line.now }
{
    line.len() >= word.len() && &line[..word.len()] == word
}

fn one_if(condition: bool) -> u64
    ensures { result ≡ one_if condition }
{
    if condition { 1 } else { 0 }
}

// The number that these digits read as.
fn number_of(digits: &[u8]) -> u64
    ensures { result ≡ number_of digits.now }
{
    let mut number = 0u64;
    'digits: for digit in digits {
        number = number
            .saturating_mul(10)
            .saturating_add(digit.saturating_sub(b'0') as u64);
    }
    number
}

fn number_behind(word: &[u8], line: &[u8]) -> u64
    ensures { result ≡ number_behind word.now line.now }
{
    if begins(word, line) {
        number_of(&line[word.len()..])
    } else {
        0
    }
}

// Appends a byte where there is room for it.
fn push_within(line: &mut ArrayVec<u8, 32>, byte: u8)
    ensures { line.new.items ≡ take 32 (line.old.items ++ byte ∷ []) }
{
    if !line.is_full() {
        line.push(byte);
    }
}

impl Tally {
    /// Nothing was counted.
    pub(crate) fn new() -> Tally
        ensures { result ≡ no_lines }
    {
        Tally {
            lines: 0,
            errs: 0,
            faults: 0,
            sent: 0,
            got: 0,
            line: ArrayVec::new(),
        }
    }

    /// The summary of the text that was taken, which has this digest.
    pub(crate) fn summary(&self, digest: [u8; 32]) -> Summary
        ensures { result ≡ summary_from self.now digest }
    {
        Summary {
            events: self.lines.saturating_sub(1),
            errs: self.errs,
            faults: self.faults,
            sent: self.sent,
            got: self.got,
            digest,
        }
    }

    // Counts the line, which has ended.
    fn count(&mut self)
        ensures { self.new ≡ counted self.old }
    {
        let line = self.line.as_slice();
        let errs = one_if(begins(b"err ", line));
        let faults = one_if(begins(b"fault ", line));
        let sent = number_behind(b"sent ", line);
        let got = number_behind(b"got ", line);
        self.lines = self.lines.saturating_add(1);
        self.errs = self.errs.saturating_add(errs);
        self.faults = self.faults.saturating_add(faults);
        self.sent = self.sent.saturating_add(sent);
        self.got = self.got.saturating_add(got);
        self.line.clear();
    }

    // Takes one byte more.
    #[tactic(auto, unfolding(crate::specs::Tallies::with_byte))]
    fn take_byte(&mut self, byte: u8)
        ensures { self.new ≡ with_byte self.old byte }
    {
        if byte == b'\n' {
            self.count();
        } else {
            push_within(&mut self.line, byte);
        }
    }
}

/// Takes these bytes of a text.
pub(crate) fn tally_up(tally: &mut Tally, bytes: &[u8])
    ensures { tally.new ≡ fold with_byte tally.old bytes.now }
{
    'bytes: for byte in bytes {
        tally.take_byte(*byte);
    }
}
