//! Replies that wait, and their way to a host's reply output.
ghost use Rattle.std.specs.Prelude.{◌≡◌, ◌^◌, ◌<◌, ◌≤◌, min, true, false, length, drop, IfOk, vec_capacity};
ghost use Rattle.genie_host.specs.Host.{Writing};
ghost use Rattle.genie_console.specs.Replies.{none_waiting, room, gathered, answered, WritesFront, Flushes};

use genie_base::NoMemory;
use genie_host::{Failed, Host};
use std::alloc::Global;
use std::marker::Model;

/// How many bytes of replies wait at most: 64 KiB.
pub const ROOM: usize = 65_536;

/// The handle of the reply output.
pub(crate) const REPLIES: u32 = 0;

/// The bytes that wait, whether a flush failed that no write has answered yet, and how many writes failed.
#[derive(Drop)]
pub struct Replies {
    waiting: Vec<u8>,
    has_failed: bool,
    faults: u64,
}

impl Model for Replies {
    ghost use Rattle.std.specs.Prelude.{◌≤◌, ◌^◌, length, vec_capacity};
    ghost use Rattle.genie_console.specs.Replies.{RepliesView};

    ghost Value = { RepliesView };

    ghost view = { λ r. record { waiting = r.waiting.items; has_failed = r.has_failed; faults = r.faults } };

    ghost invariant = { λ r. (length r.waiting.items ≤ 2 ^ 16) × (2 ^ 16 ≤ vec_capacity r.waiting) };
}

impl Replies {
    // Room for the bytes that wait.
    pub(crate) fn new(alloc: Global) -> Result<Replies, NoMemory>
        ensures { IfOk result (λ replies. replies ≡ none_waiting) }
    {
        let waiting = Vec::with_capacity(alloc, ROOM)?;
        Ok(Replies {
            waiting,
            has_failed: false,
            faults: 0,
        })
    }

    pub(crate) fn waiting(&self) -> &[u8]
        ensures { result.now ≡ self.now.waiting }
    {
        self.waiting.as_slice()
    }

    pub(crate) fn has_failed(&self) -> bool
        ensures { result ≡ self.now.has_failed }
    {
        self.has_failed
    }

    // Whether no byte more can wait.
    pub(crate) fn is_full(&self) -> bool
        ensures full { result ≡ true → 2 ^ 16 ≤ length self.now.waiting }
        ensures room { result ≡ false → length self.now.waiting < 2 ^ 16 }
    {
        self.waiting.len() == ROOM
    }

    // A flush failed.
    pub(crate) fn remember_failure(&mut self)
        ensures { self.new ≡ record self.old { has_failed = true } }
    {
        self.has_failed = true;
    }

    // Whether a flush failed that isn't answered yet. Now it is.
    pub(crate) fn take_failure(&mut self) -> bool
        ensures failed { result ≡ self.old.has_failed }
        ensures taken { self.new ≡ record self.old { has_failed = false } }
    {
        let has_failed = self.has_failed;
        self.has_failed = false;
        has_failed
    }

    // A write of replies fails.
    pub(crate) fn fail(&mut self) -> Failed
        ensures counted { self.new ≡ answered self.old }
        ensures later { self.old.faults ≤ self.new.faults }
    {
        self.has_failed = false;
        self.faults = self.faults.saturating_add(1);
        Failed
    }

    // Appends to what waits, as far as there is room.
    pub(crate) fn gather(&mut self, from: &[u8]) -> usize
        ensures count { result ≡ min (length from.now) (room self.old) }
        ensures waits { self.new ≡ gathered self.old result from.now }
    {
        let count = from.len().min(ROOM - self.waiting.len());
        match self.waiting.extend_from_slice(&from[..count]) {
            Ok(()) => count,
            Err(_) => unreachable!(),
        }
    }

    // Writes what waits to the reply output, until a write fails. What didn't go waits on.
    pub(crate) fn flush<H: Host>(&mut self, host: &mut H) -> Result<(), Failed>
        requires { ((H.view host.old).handle 0).mode ≡ Writing }
        ensures flushes { Flushes (H.view host.old) (H.view host.new) self.old.waiting self.new.waiting result }
        ensures rest { self.new ≡ record self.old { waiting = self.new.waiting } }
    {
        let size = self.waiting.len();
        let count = write_front(host, self.waiting.as_slice());
        drop_front(&mut self.waiting, count);
        if count < size { Err(Failed) } else { Ok(()) }
    }
}

// Writes the bytes to the reply output until a write fails, and says how many went.
fn write_front<H: Host>(host: &mut H, bytes: &[u8]) -> usize
    requires { ((H.view host.old).handle 0).mode ≡ Writing }
    ensures most { result ≤ length bytes.now }
    ensures writes { WritesFront (H.view host.old) (H.view host.new) bytes.now result }
{
    let mut count = 0usize;
    'writes: while count < bytes.len() {
        match host.write(REPLIES, &bytes[count..]) {
            Ok(taken) => count += taken,
            Err(Failed) => return count,
        }
    }
    count
}

// Takes so many bytes from the front.
fn drop_front(waiting: &mut Vec<u8>, count: usize)
    requires { count ≤ length waiting.old.items }
    ensures left { waiting.new.items ≡ drop count waiting.old.items }
    ensures capacity { vec_capacity waiting.new ≡ vec_capacity waiting.old }
{
    if count == waiting.len() {
        waiting.clear();
        return;
    }
    let left = waiting.len() - count;
    waiting.as_mut_slice().copy_within(count.., 0);
    waiting.truncate(left);
}
