//! A pending transfer.
ghost use Rattle.std.specs.Prelude.{◌≡◌, [], Some, None};
ghost use Rattle.genie_base.specs.Transfers.{is_strong};
ghost use Rattle.genie_base.specs.declared.reply.Note.TheVariants.{Whole};
ghost use Rattle.genie_base.specs.declared.semantics.Direction.TheVariants.{Outward, Inward};
ghost use Rattle.genie_model.specs.declared.phase.Phase.TheVariants.{Queued, Posted};
ghost use Rattle.genie_model.specs.Pending.{is_ready, is_inward, is_posted, is_just};
ghost use Rattle.genie_model.specs.Inputs.{address_or_zero};
ghost use Rattle.genie_model.specs.Space.{disowned, is_posted_by};

mod range;
mod receiving;
mod sending;

use genie_base::{Class, Direction, Note, Reply};
use genie_model::Phase;
use std::alloc::Global;
use std::marker::Model;

/// A transfer that was accepted and isn't ended.
#[derive(Drop)]
pub struct Transfer {
    number: u32,
    owner: Option<u32>,
    direction: Direction,
    class: Class,
    device: u32,
    port: u16,
    flow: Option<u32>,
    addr: Option<u32>,
    region: Option<u32>,
    offset: u32,
    len: u32,
    phase: Phase,
    payload: Vec<u8>,
    staged: u32,
    moved: u64,
    stored: u32,
    note: Note,
}

impl Model for Transfer {
    ghost use Rattle.std.specs.Prelude.{◌≤◌, ◌^◌};
    ghost use Rattle.genie_model.specs.State as flat;

    ghost Value = { flat.Transfer };

    ghost view = { λ t. record {
      number = t.number;
      owner = t.owner;
      direction = t.direction;
      class = t.class;
      device = t.device;
      port = t.port;
      flow = t.flow;
      addr = t.addr;
      region = t.region;
      offset = t.offset;
      len = t.len;
      phase = t.phase;
      payload = t.payload.items;
      staged = t.staged;
      moved = t.moved;
      stored = t.stored;
      note = t.note;
    } };

    ghost invariant = { λ t. (t.moved ≤ 2 ^ 33) × (t.staged ≤ t.len) };
}

/// Where a transfer's bytes come from or go to: a device's port, and a flow or none.
#[derive(Clone, Copy)]
pub struct Target {
    pub device: u32,
    pub port: u16,
    pub flow: Option<u32>,
}

impl Target {
    /// The place of a device, a port, and a flow or none.
    pub fn new(device: u32, port: u16, flow: Option<u32>) -> Target
        ensures { result ≡ record { device = device; port = port; flow = flow } }
    {
        Target { device, port, flow }
    }
}

/// A call that is accepted: its number, whose it is, its class, where its bytes go to or come from, and how many.
#[derive(Clone, Copy)]
pub struct Call {
    pub number: u32,
    pub owner: u32,
    pub class: Class,
    pub target: Target,
    pub len: u32,
}

/// The address, or 0.
pub fn address_or_zero(addr: Option<u32>) -> u32
    ensures { result ≡ address_or_zero addr }
{
    addr.unwrap_or(0)
}

impl Transfer {
    /// An output of which nothing is sent.
    pub fn output(call: Call, region: Option<u32>, offset: u32, payload: Vec<u8>) -> Transfer
        ensures { result ≡ record {
          number = call.number;
          owner = Some call.owner;
          direction = Outward;
          class = call.class;
          device = call.target.device;
          port = call.target.port;
          flow = call.target.flow;
          addr = None;
          region = region;
          offset = offset;
          len = call.len;
          phase = Queued;
          payload = payload.items;
          staged = 0;
          moved = 0;
          stored = 0;
          note = Whole;
        } }
    {
        Transfer {
            number: call.number,
            owner: Some(call.owner),
            direction: Direction::Outward,
            class: call.class,
            device: call.target.device,
            port: call.target.port,
            flow: call.target.flow,
            addr: None,
            region,
            offset,
            len: call.len,
            phase: Phase::Queued,
            payload,
            staged: 0,
            moved: 0,
            stored: 0,
            note: Note::Whole,
        }
    }

    /// An input that no record has met.
    pub fn input(
        alloc: Global,
        call: Call,
        addr: Option<u32>,
        region: Option<u32>,
        offset: u32,
    ) -> Transfer
        ensures { result ≡ record {
          number = call.number;
          owner = Some call.owner;
          direction = Inward;
          class = call.class;
          device = call.target.device;
          port = call.target.port;
          flow = call.target.flow;
          addr = addr;
          region = region;
          offset = offset;
          len = call.len;
          phase = Posted;
          payload = [];
          staged = 0;
          moved = 0;
          stored = 0;
          note = Whole;
        } }
    {
        Transfer {
            number: call.number,
            owner: Some(call.owner),
            direction: Direction::Inward,
            class: call.class,
            device: call.target.device,
            port: call.target.port,
            flow: call.target.flow,
            addr,
            region,
            offset,
            len: call.len,
            phase: Phase::Posted,
            payload: Vec::new(alloc),
            staged: 0,
            moved: 0,
            stored: 0,
            note: Note::Whole,
        }
    }

    /// Its number.
    pub fn number(&self) -> u32
        ensures { result ≡ self.now.number }
    {
        self.number
    }

    /// The process that made the call, while it is alive.
    pub fn owner(&self) -> Option<u32>
        ensures { result ≡ self.now.owner }
    {
        self.owner
    }

    /// Which way its bytes go.
    pub fn direction(&self) -> Direction
        ensures { result ≡ self.now.direction }
    {
        self.direction
    }

    /// Its class.
    pub fn class(&self) -> Class
        ensures { result ≡ self.now.class }
    {
        self.class
    }

    /// Whether its integrity is strong.
    pub fn is_strong(&self) -> bool
        ensures { result ≡ is_strong self.now.class }
    {
        self.class.is_strong()
    }

    /// Its device.
    pub fn device(&self) -> u32
        ensures { result ≡ self.now.device }
    {
        self.device
    }

    /// The number of the region or orphan that it names.
    pub fn region(&self) -> Option<u32>
        ensures { result ≡ self.now.region }
    {
        self.region
    }

    /// Where its range begins there, in bytes.
    pub fn offset(&self) -> u32
        ensures { result ≡ self.now.offset }
    {
        self.offset
    }

    /// How many bytes its buffer has.
    pub fn len(&self) -> u32
        ensures { result ≡ self.now.len }
    {
        self.len
    }

    /// Lends the bytes that it keeps: of a strong output what is to be sent, of a staged one what is staged, of an input what has come and has no other place.
    pub fn payload(&self) -> &[u8]
        ensures { result.now ≡ self.now.payload }
    {
        self.payload.as_slice()
    }

    /// How many of its payload bytes are staged.
    pub fn staged(&self) -> u32
        ensures { result ≡ self.now.staged }
    {
        self.staged
    }

    /// Where the part of its record that isn't sent begins.
    pub fn moved(&self) -> u64
        ensures { result ≡ self.now.moved }
    {
        self.moved
    }

    /// The address that it keeps, or 0.
    pub fn address_or_zero(&self) -> u32
        ensures { result ≡ address_or_zero self.now.addr }
    {
        address_or_zero(self.addr)
    }

    /// The reply to its `done`, with the address where the system placed its buffer.
    pub fn arrived(&self, at: Option<u32>) -> Reply<'static>
        ensures { result ≡ Reply.Input at self.now.stored self.now.note }
    {
        Reply::Input {
            at,
            n: self.stored,
            note: self.note,
        }
    }

    /// How far it has come.
    pub fn phase(&self) -> Phase
        ensures { result ≡ self.now.phase }
    {
        self.phase
    }

    pub(crate) fn is_ready(&self) -> bool
        ensures { result ≡ is_ready self.now.phase }
    {
        matches!(self.phase, Phase::Ready)
    }

    pub(crate) fn is_posted(&self) -> bool
        ensures { result ≡ is_posted self.now.phase }
    {
        matches!(self.phase, Phase::Posted)
    }

    fn is_inward(&self) -> bool
        ensures { result ≡ is_inward self.now.direction }
    {
        matches!(self.direction, Direction::Inward)
    }

    fn is_owned_by(&self, pid: u32) -> bool
        ensures { result ≡ is_just self.now.owner pid }
    {
        self.owner == Some(pid)
    }

    // Whether it is a posted input of the process that no record has met.
    pub(crate) fn is_posted_by(&self, pid: u32) -> bool
        ensures { result ≡ is_posted_by pid self.now }
    {
        self.is_owned_by(pid) && self.is_posted()
    }

    // Without its owner, and as a move without its region, if the process has it.
    pub(crate) fn disown(&mut self, pid: u32)
        ensures { self.new ≡ disowned pid self.old }
    {
        if self.is_owned_by(pid) {
            self.owner = None;
            if self.class == Class::Move {
                self.region = None;
            }
        }
    }
}
