//! A reading handle of a made run.
ghost use Rattle.std.specs.Prelude.{◌≡◌, ◌≤◌, ◌++◌, drop, length, take, IsOk, Some};
ghost use Rattle.std.specs.Io.{ReadsAtMost};
ghost use Rattle.std.specs.Io.KnownBytes.{ReadConsumes};
ghost use Rattle.genie_gen.specs.Sources.{IsPlace, left};

use crate::source::Source;
use genie_host::Failed;
use genie_script::LineBuffer;
use std::marker::Model;

/// Which piece it stands in, and how many bytes of that were read. Contracts see the bytes that are left.
#[derive(Drop)]
pub struct Reader {
    source: Source,
    at: usize,
}

impl Model for Reader {
    ghost use Rattle.std.specs.Prelude.{◌≡◌, ◌≤◌, List, ℕ, [], drop, length};
    ghost use Rattle.genie_gen.specs.Sources.{IsPlace, left, piece};

    ghost Value = { List ℕ };

    ghost view = { λ r. drop r.at (left r.source) };

    ghost invariant = { λ r. IsPlace r.source × (r.at ≤ length (piece r.source)) × (r.at ≡ length (piece r.source) → left r.source ≡ []) };
}

// Moves this many bytes into the front of a buffer.
fn copy_front(from: &[u8], count: usize, into: &mut [u8])
    requires from { count ≤ length from.now }
    requires into { count ≤ length into.old }
    ensures { from.now ≡ take count into.new ++ drop count from.now }
{
    into[..count].copy_from_slice(&from[..count]);
}

impl Reader {
    /// A handle from the begin of a piece on.
    pub(crate) fn new(source: Source) -> Reader
        requires { IsPlace source }
        ensures { result ≡ left source }
    {
        Reader { source, at: 0 }
    }

    /// Takes the next bytes, of one piece at most. The text is room for that piece.
    pub(crate) fn read(&mut self, text: &mut LineBuffer, into: &mut [u8]) -> Result<usize, Failed>
        ensures within { ReadsAtMost result into.new }
        ensures bytes { ReadConsumes (Some self.old) (Some self.new) result into.new }
        ensures works { IsOk result }
    {
        text.clear();
        self.source.put(text);
        let rest = &text.as_slice()[self.at..];
        let count = into.len().min(rest.len());
        copy_front(rest, count, into);
        self.at += count;
        if self.at == text.len() {
            self.source = self.source.next();
            self.at = 0;
        }
        Ok(count)
    }
}
