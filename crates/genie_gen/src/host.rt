//! The host of a made run.
ghost use Rattle.std.specs.Prelude.{◌≡◌, ◌+◌, ◌<◌, ◌≤◌, [], ◌++◌, ◌∷◌, length, refl, Some, IsOk, IfOk};
ghost use Rattle.std.specs.Io.{ReadsAtMost, WritesAtMost};
ghost use Rattle.genie_base.specs.declared.semantics.Direction.TheVariants.{Inward, Outward};
ghost use Rattle.genie_host.specs.Host.{Reading, Writing, Reads, Writes, Opens};
ghost use Rattle.genie_host.specs.Handles.{handle_in};
ghost use Rattle.genie_gen.specs.Sources.{IsPlace, left};
ghost use Rattle.sha2.specs.Sha256.{sha256};
ghost use Rattle.genie_gen.specs.GenView.{content_of, told_of, fresh, host_of, opened_with, output_state, state_of, summary_of};

use crate::opened::{Opened, read_at, write_at};
use crate::reader::Reader;
use crate::source::{Source, records_from};
use crate::summary::Summary;
use crate::tally::{Tally, tally_up};
use crate::written::Written;
use arrayvec::ArrayVec;
use genie_base::Direction;
use genie_host::{Failed, Host, OpenRefused, Openings};
use genie_script::LineBuffer;
use sha2::{Digest, Sha256};
use std::marker::Model;

/// The name of the made script.
pub const SCRIPT: &[u8] = b"made";

/// The names of the made inputs of devices 0, 1 and 2.
const INPUT_0: &[u8] = b"i0";

const INPUT_1: &[u8] = b"i1";

const INPUT_2: &[u8] = b"i2";

/// The made script and the made streams of a seed and a number of rounds, under the names `made`, `i0`, `i1` and `i2`;
/// every other name is an empty file. They are made as they are read. Replies are counted and hashed as they are written,
/// and what is written to other handles is let go. It tells everything, and never fails.
#[derive(Drop)]
pub struct GenHost {
    seed: u64,
    rounds: u32,
    tally: Tally,
    hasher: Sha256,
    replies: Written,
    opened: ArrayVec<Opened, 20>,
    tried: Openings,
    // room for the piece that a read takes bytes of
    text: LineBuffer,
}

impl Model for GenHost {
    ghost use Rattle.std.specs.Prelude.{◌≡◌, ◌≤◌};
    ghost use Rattle.sha2.specs.Hashers.{Holds256};
    ghost use Rattle.sha2.specs.Sha256.{sha256};
    ghost use Rattle.genie_gen.specs.GenView.{GenView};
    ghost use Rattle.genie_gen.specs.Tallies.{tally_of};

    ghost Value = { GenView };

    ghost view = { λ h. record {
      seed = h.seed;
      rounds = h.rounds;
      replies = h.replies.items;
      opened = h.opened.items;
      tried = h.tried.items;
    } };

    ghost invariant = { λ h. (h.rounds ≤ 30000) × (h.tally ≡ tally_of h.replies.items) × Holds256 h.hasher h.replies.items };
}

impl GenHost {
    /// A host of so many rounds that are drawn from this seed.
    pub fn new(seed: u64, rounds: u32) -> GenHost
        requires some { 1 ≤ rounds }
        requires most { rounds ≤ 30000 }
        ensures { result ≡ fresh seed rounds }
    {
        GenHost {
            seed,
            rounds,
            tally: Tally::new(),
            hasher: Sha256::new(),
            replies: Written::new(),
            opened: ArrayVec::new(),
            tried: Openings::new(),
            text: LineBuffer::new(),
        }
    }

    // The begin of the file of this name.
    fn source_named(&self, name: &[u8]) -> Source
        ensures place { IsPlace result }
        ensures text { left result ≡ content_of self.now.seed self.now.rounds name.now }
    {
        if name == SCRIPT {
            return Source::Head {
                state: self.seed,
                rounds: self.rounds,
            };
        }
        if name == INPUT_0 {
            return records_from(0, 0, 2 * self.rounds);
        }
        if name == INPUT_1 {
            return records_from(1, 0, 2 * self.rounds);
        }
        if name == INPUT_2 {
            return records_from(2, 0, 2 * self.rounds);
        }
        Source::End
    }

    // Takes these bytes of the replies.
    fn reply(&mut self, bytes: &[u8])
        ensures { self.new ≡ record self.old { replies = self.old.replies ++ bytes.now } }
    {
        tally_up(&mut self.tally, bytes);
        self.hasher.update(bytes);
        self.replies.note(bytes);
    }

    // The digest of the replies.
    fn digest(&self) -> [u8; 32]
        ensures { result ≡ sha256 self.now.replies }
    {
        match self.hasher.clone() {
            Ok(hasher) => hasher.finalize(),
            Err(_) => unreachable!(),
        }
    }

    /// What was written to the reply output so far comes to this.
    pub fn summary(&self) -> Summary
        ensures { result ≡ summary_of self.now.replies }
    {
        self.tally.summary(self.digest())
    }

    // Puts a new handle into the next place.
    fn place(&mut self, opened: Opened) -> u32
        requires { length self.old.opened < 20 }
        ensures number { result ≡ length self.old.opened + 1 }
        ensures opened { self.new ≡ opened_with self.old opened }
    {
        self.opened.push(opened);
        self.opened.len() as u32
    }
}

impl Host for GenHost {
    ghost view = { host_of };

    ghost output = { λ h. refl };

    fn open_read(&mut self, name: &[u8]) -> Result<u32, OpenRefused>
        requires { length self.old.opened < 20 }
        ensures opens { Opens name.now Inward Reading (told_of self.old.seed self.old.rounds name.now) OpenRefused.Failed (host_of self.old) (host_of self.new) result }
        ensures works { IsOk result }
    {
        self.tried.note(name, &Direction::Inward);
        let source = self.source_named(name);
        Ok(self.place(Opened::Reading(Reader::new(source))))
    }

    fn open_write(&mut self, name: &[u8]) -> Result<u32, OpenRefused>
        requires { length self.old.opened < 20 }
        ensures opens { Opens name.now Outward Writing (Some []) OpenRefused.Failed (host_of self.old) (host_of self.new) result }
        ensures works { IsOk result }
    {
        self.tried.note(name, &Direction::Outward);
        Ok(self.place(Opened::Writing(Written::new())))
    }

    fn read(&mut self, handle: u32, into: &mut [u8]) -> Result<usize, Failed>
        requires { (handle_in state_of (output_state self.old.replies) self.old.opened handle).mode ≡ Reading }
        ensures bound { ReadsAtMost result into.new }
        ensures step { Reads handle (host_of self.old) (host_of self.new) result into.new }
        ensures works { IsOk result }
    {
        prove!(handle > 0);
        read_at(
            self.opened.as_mut_slice(),
            handle as usize - 1,
            &mut self.text,
            into,
        )
    }

    fn write(&mut self, handle: u32, from: &[u8]) -> Result<usize, Failed>
        requires { (handle_in state_of (output_state self.old.replies) self.old.opened handle).mode ≡ Writing }
        ensures bound { WritesAtMost result from.now }
        ensures some { IfOk result (λ n. n ≡ 0 → from.now ≡ []) }
        ensures step { Writes handle (host_of self.old) (host_of self.new) result from.now }
        ensures works { IsOk result }
    {
        if handle == 0 {
            self.reply(from);
        } else {
            write_at(self.opened.as_mut_slice(), handle as usize - 1, from);
        }
        Ok(from.len())
    }
}
