//! A host that gathers its replies.
ghost use Rattle.std.specs.Prelude.{◌≡◌, ◌≢◌, ◌⊎◌, ◌<◌, true, false, [], Result, IfOk, OnOk, IsErr, refl};
ghost use Rattle.std.specs.Io.{ReadsAtMost, WritesAtMost};
ghost use Rattle.genie_base.specs.Causes.{Rose};
ghost use Rattle.genie_base.specs.declared.semantics.Direction.TheVariants.{Inward, Outward};
ghost use Rattle.genie_host.specs.Host.{Reading, Writing, Reads, Writes, Opens, empty_told};
ghost use Rattle.genie_console.specs.Replies.{none_waiting, Flushes};
ghost use Rattle.genie_console.specs.Console.{console_of, host_of, handle_of, reply_output, FlushesFirst, FlushesAndReads, WritesReply, Finishes};

use crate::replies::{REPLIES, Replies};
use genie_base::NoMemory;
use genie_host::{Failed, Host, OpenRefused};
use std::alloc::Global;

/// A host that gathers what is written to handle 0, the reply output, and hands it to the host inside in few calls:
/// when its room is used up, before each read, since that may wait for someone who waits for the replies, and at the
/// end, by [`finish`](Console::finish). Openings and other handles are those of the host inside.
///
/// What a flush can't hand over waits on, so no byte is lost or written twice. A flush that failed before a read is
/// answered by the next write of replies, or by `finish`: it fails, with nothing taken.
///
/// A console that is let go without `finish` loses what waits.
#[derive(Drop)]
pub struct Console<H: Host> {
    inner: H,
    replies: Replies,
}

impl<H: Host> Console<H> {
    /// A console before this host. It takes its room now, and no memory later.
    pub fn new(alloc: Global, inner: H) -> Result<Console<H>, NoMemory>
    where
        H: Drop,
        ensures { IfOk result (λ console. (console.inner ≡ inner) × (console.replies ≡ none_waiting)) }
    {
        let replies = Replies::new(alloc)?;
        Ok(Console { inner, replies })
    }

    /// Lends the host inside.
    pub fn inner(&self) -> &H
        ensures { result.now ≡ self.now.inner }
    {
        &self.inner
    }

    /// Lends the bytes that wait.
    pub fn waiting(&self) -> &[u8]
        ensures { result.now ≡ self.now.replies.waiting }
    {
        self.replies.waiting()
    }

    /// Flushes what waits, at the end of a run. It fails where that fails, and where a failure before a read wasn't
    /// answered yet. What couldn't be flushed waits on, so it may be called again.
    pub fn finish(&mut self) -> Result<(), Failed>
        ensures finishes { Finishes (console_of H.view self.old) (console_of H.view self.new) result }
        ensures whole { OnOk result ((self.old.replies.has_failed ≡ false) × (self.new.replies.waiting ≡ [])) }
        ensures cause { IsErr result → (self.old.replies.has_failed ≡ true) ⊎ Rose ((H.view self.old.inner).handle 0).faults ((H.view self.new.inner).handle 0).faults }
    {
        let flushed = self.flush();
        if self.replies.take_failure() {
            return Err(Failed);
        }
        flushed
    }

    // Flushes what waits.
    fn flush(&mut self) -> Result<(), Failed>
        ensures flushes { Flushes (H.view self.old.inner) (H.view self.new.inner) self.old.replies.waiting self.new.replies.waiting result }
        ensures rest { self.new.replies ≡ record self.old.replies { waiting = self.new.replies.waiting } }
    {
        self.replies.flush(&mut self.inner)
    }

    // Flushes what waits, and remembers a failure.
    fn flush_first(&mut self)
        ensures { (flushed : Result (Unit {0}) Failed) × FlushesFirst (console_of H.view self.old) (console_of H.view self.new) flushed }
    {
        match self.flush() {
            Ok(()) => {}
            Err(Failed) => self.replies.remember_failure(),
        }
    }

    // Reads from the host inside, once nothing waits that could be flushed.
    fn read_flushed(&mut self, handle: u32, into: &mut [u8]) -> Result<usize, Failed>
        requires reading { ((H.view self.old.inner).handle handle).mode ≡ Reading }
        requires flushed { self.old.replies.has_failed ≡ false → self.old.replies.waiting ≡ [] }
        ensures bound { ReadsAtMost result into.new }
        ensures reads { Reads handle (H.view self.old.inner) (H.view self.new.inner) result into.new }
        ensures rest { self.new.replies ≡ self.old.replies }
    {
        self.inner.read(handle, into)
    }

    // Appends to what waits, after a flush where there is no room.
    fn write_reply(&mut self, from: &[u8]) -> Result<usize, Failed>
        ensures { WritesReply (console_of H.view self.old) (console_of H.view self.new) result from.now }
    {
        if self.replies.has_failed() {
            return Err(self.replies.fail());
        }
        if !self.replies.is_full() {
            return Ok(self.replies.gather(from));
        }
        match self.flush() {
            Ok(()) => Ok(self.replies.gather(from)),
            Err(Failed) => Err(self.replies.fail()),
        }
    }
}

impl<H: Host> Host for Console<H> {
    ghost view = { λ c. host_of (console_of H.view c) };

    ghost output = { λ c. refl };

    fn open_read(&mut self, name: &[u8]) -> Result<u32, OpenRefused>
        requires { (H.view self.old.inner).opened < 20 }
        ensures step { Opens name.now Inward Reading ((H.view self.old.inner).names name.now) OpenRefused.Failed (host_of (console_of H.view self.old)) (host_of (console_of H.view self.new)) result }
        ensures inside { Opens name.now Inward Reading ((H.view self.old.inner).names name.now) OpenRefused.Failed (H.view self.old.inner) (H.view self.new.inner) result }
        ensures replies { self.new.replies ≡ self.old.replies }
    {
        self.inner.open_read(name)
    }

    fn open_write(&mut self, name: &[u8]) -> Result<u32, OpenRefused>
        requires { (H.view self.old.inner).opened < 20 }
        ensures step { Opens name.now Outward Writing (empty_told (reply_output self.old.replies).bytes) OpenRefused.Failed (host_of (console_of H.view self.old)) (host_of (console_of H.view self.new)) result }
        ensures inside { Opens name.now Outward Writing (empty_told ((H.view self.old.inner).handle 0).bytes) OpenRefused.Failed (H.view self.old.inner) (H.view self.new.inner) result }
        ensures replies { self.new.replies ≡ self.old.replies }
    {
        self.inner.open_write(name)
    }

    fn read(&mut self, handle: u32, into: &mut [u8]) -> Result<usize, Failed>
        requires { (handle_of (console_of H.view self.old) handle).mode ≡ Reading }
        ensures bound { ReadsAtMost result into.new }
        ensures step { Reads handle (host_of (console_of H.view self.old)) (host_of (console_of H.view self.new)) result into.new }
        ensures first { FlushesAndReads handle (console_of H.view self.old) (console_of H.view self.new) result into.new }
        // Nothing waits any more, unless a failure is to be answered.
        ensures flushed { self.new.replies.has_failed ≡ false → self.new.replies.waiting ≡ [] }
    {
        self.flush_first();
        self.read_flushed(handle, into)
    }

    fn write(&mut self, handle: u32, from: &[u8]) -> Result<usize, Failed>
        requires { (handle_of (console_of H.view self.old) handle).mode ≡ Writing }
        ensures bound { WritesAtMost result from.now }
        ensures some { IfOk result (λ n. n ≡ 0 → from.now ≡ []) }
        ensures step { Writes handle (host_of (console_of H.view self.old)) (host_of (console_of H.view self.new)) result from.now }
        ensures reply { handle ≡ 0 → WritesReply (console_of H.view self.old) (console_of H.view self.new) result from.now }
        // It fails only where a flush failed, in this call or before.
        ensures cause { handle ≡ 0 → IsErr result → (self.old.replies.has_failed ≡ true) ⊎ Rose ((H.view self.old.inner).handle 0).faults ((H.view self.new.inner).handle 0).faults }
        ensures others { handle ≢ 0 → Writes handle (H.view self.old.inner) (H.view self.new.inner) result from.now × (self.new.replies ≡ self.old.replies) }
    {
        if handle == REPLIES {
            return self.write_reply(from);
        }
        self.inner.write(handle, from)
    }
}
