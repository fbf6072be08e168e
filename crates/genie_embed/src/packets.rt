//! Packets in memory as a host.
ghost use Rattle.std.specs.Prelude.{◌≡◌, ◌≤◌, ◌<◌, ◌+◌, ◌-◌, ◌^◌, [], ◌++◌, min, length, take, drop, IfOk, IsOk, IsErr, OnErr, ◌↔◌, ◌≢◌, refl};
ghost use Rattle.std.specs.Io.{ReadsAtMost, WritesAtMost};
ghost use Rattle.genie_host.specs.Host.{Reading, Writing, Reads, Writes};
ghost use Rattle.genie_embed.specs.Packets.{host_of, fresh};

use genie_base::{Direction, NoMemory};
use genie_host::{Failed, Host, OpenRefused, Openings};
use std::alloc::Global;
use std::marker::Model;

/// The handle from which the packets are read that came.
pub const RECEIVED: u32 = 1;

/// The handle to which packets are written that are sent.
pub const SENT: u32 = 2;

/// A network interface in memory. Its two handles are open from the start: the bytes of the packets that came are read
/// from handle 1, and those that are sent are written to handle 2, as many as there is room for. Handle 0, the output of
/// replies, takes all bytes and forgets them. It opens nothing. It tells the bytes of its two handles.
#[derive(Drop)]
pub struct PacketHost {
    received: Vec<u8>,
    // How many of the received bytes were read.
    read: usize,
    sent: Vec<u8>,
    // How many bytes may be sent.
    room: usize,
    // How many writes to handle 2 failed.
    faults: u64,
    tried: Openings,
    refusals: u64,
}

impl Model for PacketHost {
    ghost use Rattle.std.specs.Prelude.{◌≤◌, drop, length, vec_capacity};
    ghost use Rattle.genie_embed.specs.Packets.{PacketView};

    ghost Value = { PacketView };

    ghost view = { λ h. record {
      left = drop h.read h.received.items;
      sent = h.sent.items;
      room = h.room;
      faults = h.faults;
      tried = h.tried.items;
      refusals = h.refusals;
    } };

    ghost invariant = { λ h. (h.read ≤ length h.received.items) × (length h.sent.items ≤ h.room) × (h.room ≤ vec_capacity h.sent) };
}

impl PacketHost {
    /// An interface to which nothing came, with room for so many sent bytes. It takes this room now.
    pub fn new(alloc: Global, room: usize) -> Result<PacketHost, NoMemory>
        ensures { IfOk result (λ host. host ≡ fresh room) }
    {
        Ok(PacketHost {
            received: Vec::new(alloc),
            read: 0,
            sent: Vec::with_capacity(alloc, room)?,
            room,
            faults: 0,
            tried: Openings::new(),
            refusals: 0,
        })
    }

    /// A packet came: its bytes are read behind those that came before. Without memory nothing has changed.
    pub fn receive(&mut self, packet: &[u8]) -> Result<(), NoMemory>
        ensures came { IfOk result (λ _. self.new ≡ record self.old { left = self.old.left ++ packet.now }) }
        ensures refused { OnErr result (self.new ≡ self.old) }
    {
        match self.received.extend_from_slice(packet) {
            Ok(()) => Ok(()),
            Err(_) => Err(NoMemory),
        }
    }

    /// Lends the bytes that were sent.
    pub fn sent(&self) -> &[u8]
        ensures { result.now ≡ self.now.sent }
    {
        self.sent.as_slice()
    }

    // An opening failed.
    fn refuse(&mut self) -> OpenRefused
        ensures rest { self.new ≡ record self.old { refusals = min (self.old.refusals + 1) (2 ^ 64 - 1) } }
        ensures failed { result ≡ OpenRefused.Failed }
    {
        self.refusals = self.refusals.saturating_add(1);
        OpenRefused::Failed
    }
}

// The bytes from this place on.
fn tail(bytes: &[u8], at: usize) -> &[u8]
    requires { at ≤ length bytes.now }
    ensures { result.now ≡ drop at bytes.now }
{
    &bytes[at..]
}

// Moves this many bytes into the front of a buffer.
fn copy_front(from: &[u8], count: usize, into: &mut [u8])
    requires from { count ≤ length from.now }
    requires into { count ≤ length into.old }
    ensures bytes { from.now ≡ take count into.new ++ drop count from.now }
    ensures length { length into.new ≡ length into.old }
{
    into[..count].copy_from_slice(&from[..count]);
}

impl Host for PacketHost {
    ghost view = { host_of };

    ghost output = { λ h. refl };

    fn open_read(&mut self, name: &[u8]) -> Result<u32, OpenRefused> {
        self.tried.note(name, &Direction::Inward);
        Err(self.refuse())
    }

    fn open_write(&mut self, name: &[u8]) -> Result<u32, OpenRefused> {
        self.tried.note(name, &Direction::Outward);
        Err(self.refuse())
    }

    fn read(&mut self, handle: u32, into: &mut [u8]) -> Result<usize, Failed>
        requires { ((host_of self.old).handle handle).mode ≡ Reading }
        ensures bound { ReadsAtMost result into.new }
        ensures step { Reads handle (host_of self.old) (host_of self.new) result into.new }
        ensures works { IsOk result }
    {
        prove!(handle == RECEIVED);
        let left = tail(self.received.as_slice(), self.read);
        let count = into.len().min(left.len());
        copy_front(left, count, into);
        self.read += count;
        Ok(count)
    }

    fn write(&mut self, handle: u32, from: &[u8]) -> Result<usize, Failed>
        requires { ((host_of self.old).handle handle).mode ≡ Writing }
        ensures bound { WritesAtMost result from.now }
        ensures some { IfOk result (λ n. n ≡ 0 → from.now ≡ []) }
        ensures step { Writes handle (host_of self.old) (host_of self.new) result from.now }
        // Bytes are refused exactly where the room is used up.
        ensures full { handle ≡ 2 → from.now ≢ [] → IsErr result ↔ (self.old.room ≤ length self.old.sent) }
    {
        if handle == 0 {
            return Ok(from.len());
        }
        prove!(handle == SENT);
        if from.is_empty() {
            return Ok(0);
        }
        let count = from.len().min(self.room - self.sent.len());
        if count == 0 {
            self.faults = self.faults.saturating_add(1);
            return Err(Failed);
        }
        match self.sent.extend_from_slice(&from[..count]) {
            Ok(()) => Ok(count),
            Err(_) => unreachable!(),
        }
    }
}
