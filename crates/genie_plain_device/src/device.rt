//! A device with what is left of its input, and its whole output.
ghost use Rattle.std.specs.Prelude.{◌≡◌, ◌++◌, [], None, true, false, take, drop, length, IfOk, OnOk, OnErr, ◌≤◌};
ghost use Rattle.genie_model.specs.Pending.{is_early, is_outboard};
ghost use Rattle.genie_model.specs.Receiving.{receiving, is_between_records};

use crate::datagram::Datagram;
use genie_base::{Kind, NoMemory, part};
use std::alloc::Global;
use std::marker::Model;

/// A device.
#[derive(Drop)]
pub struct Device {
    kind: Kind,
    depth: u32,
    rest: Vec<u8>,
    header: Vec<u8>,
    present: Option<Datagram>,
    is_bad: bool,
    sent: Vec<u8>,
}

impl Model for Device {
    ghost use Rattle.genie_model.specs.State as flat;

    ghost Value = { flat.Device };

    ghost view = { λ d. record { kind = d.kind; depth = d.depth; rest = d.rest.items; header = d.header.items; present = d.present; is_bad = d.is_bad; sent = d.sent.items } };
}

fn copy_datagram(alloc: Global, g: &Option<Datagram>) -> Result<Option<Datagram>, NoMemory>
    ensures { IfOk result (λ copy. copy ≡ g.now) }
{
    match g {
        None => Ok(None),
        Some(g) => Ok(Some(g.copy(alloc)?)),
    }
}

impl Device {
    /// A device that did nothing yet.
    pub fn new(alloc: Global, kind: Kind, depth: u32) -> Device
        ensures { result ≡ record { kind = kind; depth = depth; rest = []; header = []; present = None; is_bad = false; sent = [] } }
    {
        Device {
            kind,
            depth,
            rest: Vec::new(alloc),
            header: Vec::new(alloc),
            present: None,
            is_bad: false,
            sent: Vec::new(alloc),
        }
    }

    /// Another one with the same contents.
    pub fn copy(&self, alloc: Global) -> Result<Device, NoMemory>
        ensures { IfOk result (λ d. d ≡ self.now) }
    {
        let rest = self.rest.as_slice().to_vec(alloc)?;
        let header = self.header.as_slice().to_vec(alloc)?;
        let sent = self.sent.as_slice().to_vec(alloc)?;
        let present = copy_datagram(alloc, &self.present)?;
        Ok(Device {
            kind: self.kind,
            depth: self.depth,
            rest,
            header,
            present,
            is_bad: self.is_bad,
            sent,
        })
    }

    /// How it buffers its input.
    pub fn kind(&self) -> Kind
        ensures { result ≡ self.now.kind }
    {
        self.kind
    }

    /// How many datagrams may wait in it.
    pub fn depth(&self) -> u32
        ensures { result ≡ self.now.depth }
    {
        self.depth
    }

    /// Lends what is left of its input.
    pub fn rest(&self) -> &[u8]
        ensures { result.now ≡ self.now.rest }
    {
        self.rest.as_slice()
    }

    /// Lends the header bytes of the record that began.
    pub fn header(&self) -> &[u8]
        ensures { result.now ≡ self.now.header }
    {
        self.header.as_slice()
    }

    /// Whether a header was bad.
    pub fn is_bad(&self) -> bool
        ensures { result ≡ self.now.is_bad }
    {
        self.is_bad
    }

    /// Whether no byte of a record has been moved.
    pub fn is_between_records(&self) -> bool
        ensures { result ≡ is_between_records self.now }
    {
        self.header.is_empty() && self.present.is_none()
    }

    /// A copy of the present datagram.
    pub fn present_copy(&self, alloc: Global) -> Result<Option<Datagram>, NoMemory>
        ensures { IfOk result (λ g. g ≡ self.now.present) }
    {
        copy_datagram(alloc, &self.present)
    }

    /// The datagram that it receives from now on, or none.
    pub fn set_present(&mut self, present: Option<Datagram>)
        ensures { self.new ≡ record self.old { present = present } }
    {
        self.present = present;
    }

    /// It is bad for good.
    pub fn set_bad(&mut self)
        ensures { self.new ≡ record self.old { is_bad = true } }
    {
        self.is_bad = true;
    }

    /// Takes the header bytes out.
    pub fn clear_header(&mut self)
        ensures { self.new ≡ record self.old { header = [] } }
    {
        self.header.clear();
    }

    /// Takes the next bytes of its input.
    pub fn take_front(&mut self, alloc: Global, n: u32) -> Result<Vec<u8>, NoMemory>
        ensures front { IfOk result (λ bytes. bytes.items ≡ take n self.old.rest) }
        ensures behind { OnOk result (self.new ≡ record self.old { rest = drop n self.old.rest }) }
        ensures few { IfOk result (λ bytes. length bytes.items ≤ n) }
    {
        let n = n as usize;
        let bytes = part(self.rest.as_slice(), 0, n).to_vec(alloc)?;
        self.rest = behind(self.rest.as_slice(), n).to_vec(alloc)?;
        Ok(bytes)
    }

    /// Appends header bytes.
    pub fn extend_header(&mut self, bytes: &[u8]) -> Result<(), NoMemory>
        ensures { OnOk result (self.new ≡ record self.old { header = self.old.header ++ bytes.now }) }
    {
        self.header.extend_from_slice(bytes)?;
        Ok(())
    }

    /// It has received on, as `v` says. What it has sent stays.
    pub(crate) fn receive(&mut self, v: Device)
        ensures { self.new ≡ receiving v self.old }
    {
        let mut v = v;
        std::mem::swap(&mut v.sent, &mut self.sent);
        *self = v;
    }

    // It has this input.
    pub(crate) fn set_rest(&mut self, rest: Vec<u8>)
        ensures { self.new ≡ record self.old { rest = rest.items } }
    {
        self.rest = rest;
    }

    /// Whether it matches a record by its header.
    pub fn is_early(&self) -> bool
        ensures { result ≡ is_early self.now.kind }
    {
        matches!(self.kind, Kind::Early)
    }

    /// Whether it stages its output.
    pub fn is_outboard(&self) -> bool
        ensures { result ≡ is_outboard self.now.kind }
    {
        matches!(self.kind, Kind::Outboard)
    }

    /// Lends what was sent.
    pub fn sent(&self) -> &[u8]
        ensures { result.now ≡ self.now.sent }
    {
        self.sent.as_slice()
    }

    /// Sends bytes.
    pub(crate) fn send(&mut self, bytes: &[u8]) -> Result<(), NoMemory>
        ensures ok { OnOk result (self.new ≡ record self.old { sent = self.old.sent ++ bytes.now }) }
        ensures err { OnErr result (self.new ≡ self.old) }
    {
        self.sent.extend_from_slice(bytes)?;
        Ok(())
    }
}

// The bytes behind the first `n`.
fn behind(bytes: &[u8], n: usize) -> &[u8]
    ensures { result.now ≡ drop n bytes.now }
{
    if n < bytes.len() { &bytes[n..] } else { &[] }
}
