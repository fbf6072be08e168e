//! The receive step.
ghost use Rattle.std.specs.Prelude.{◌≡◌, ◌+◌, ◌-◌, ◌<◌, ◌≤◌, ◌^◌, ◌++◌, ◌==◌, length, slice_index, None, Some, IfOk, OnOk, if◌then◌else◌};
ghost use Rattle.genie_base.specs.Headers.{header_taken, payload_taken, port_in, flow_in};
ghost use Rattle.genie_base.specs.Configs.{most};
ghost use Rattle.genie_tables.specs.Changes.{turn_of, IsSmall};
ghost use Rattle.genie_model.specs.Pending.{first_posted, pending};
ghost use Rattle.genie_model.specs.Tables.{entry};
ghost use Rattle.genie_model.specs.Receiving.{header_reply, set_device, change_transfer, is_busy, deliver, complete, go_on, land, land_in, take_payload, receive_payload, match_header, begin_datagram, read_header, take_header, receive_record, receive, recv, stays_in_payload, is_received, stays_behind_header, stays_inside, may_fail_at, may_fail_receiving};

use crate::machine::Machine;
use genie_base::{NoMemory, Reply};
use genie_model::Fate;
use genie_plain_device::datagram::{is_valid_header, is_whole_header, len_in, size_of_header};
use genie_plain_device::{Datagram, Device, devices};
use genie_tables::transfers::{arrived, first_posted, numbered, turn_first};
use genie_tables::{Turn, table};
use std::alloc::Global;

// Bytes behind others.
fn joined(alloc: Global, front: &[u8], back: &[u8]) -> Result<Vec<u8>, NoMemory>
    ensures { IfOk result (λ bytes. bytes.items ≡ front.now ++ back.now) }
{
    let mut bytes = Vec::new(alloc);
    bytes.extend_from_slice(front)?;
    bytes.extend_from_slice(back)?;
    Ok(bytes)
}

// How many bytes a step with a budget takes for the header of a device's record.
fn header_taken(alloc: Global, n: u32, v: &Device) -> Result<u32, NoMemory>
    ensures taken { IfOk result (λ h. h ≡ header_taken n v.now.header v.now.rest) }
    ensures most { IfOk result (λ h. h ≤ n) }
{
    let header = v.header();
    let rest = v.rest();
    let all = joined(alloc, header, rest)?;
    let missing = size_of_header(all.as_slice()).saturating_sub(header.len());
    Ok((n as usize).min(rest.len().min(missing)) as u32)
}

// How many bytes a step with a budget takes of a datagram's payload.
fn payload_taken(left: u32, v: &Device, g: &Datagram) -> u32
    ensures taken { result ≡ payload_taken left (g.now.len - g.now.moved) v.now.rest }
    ensures most { result ≤ left }
    ensures fits { g.now.moved + result < 2 ^ 32 }
{
    let missing = g.len().saturating_sub(g.moved()) as usize;
    (left as usize).min(missing.min(v.rest().len())) as u32
}

// The reply to a step that moved header bytes alone.
fn header_reply(h: u32) -> Reply<'static>
    ensures { result ≡ header_reply h }
{
    if h == 0 {
        Reply::End
    } else {
        Reply::Got { n: h }
    }
}

impl Machine {
    fn set_device(&mut self, dev: u32, v: Device)
        ensures { self.new ≡ set_device self.old dev v }
    {
        devices::receive_on(&mut self.devices, dev, v);
    }

    fn change_transfer(&mut self, number: u32, turn: &Turn) -> Result<(), NoMemory>
        requires { IsSmall turn.now }
        ensures { OnOk result (self.new ≡ change_transfer self.old number (turn_of turn.now)) }
    {
        turn_first(self.transfers.as_mut_slice(), number, turn)
    }

    // The number of the first posted input that a record meets.
    fn first_posted(&self, dev: u32, port: u16, flow: Option<u32>) -> Option<u32>
        ensures { result ≡ first_posted self.now dev port flow }
    {
        Some(first_posted(self.transfers.as_slice(), dev, port, flow)?.number())
    }

    // As many datagrams wait as the device has room for.
    fn is_busy(&self, dev: u32, v: &Device) -> bool
        ensures { result ≡ is_busy self.now dev v.now }
    {
        let waiting = arrived(self.transfers.as_slice(), dev);
        v.is_between_records() && !v.is_early() && waiting == v.depth() as usize
    }

    // A gathered datagram goes to the input that it meets.
    fn deliver(
        &mut self,
        dev: u32,
        g: &Datagram,
        truncated: bool,
        k: u32,
    ) -> Result<Reply<'static>, NoMemory>
        ensures { IfOk result (λ reply. deliver self.old g.now truncated k (first_posted self.old dev g.now.port g.now.flow) ≡ (self.new, reply)) }
    {
        let len = g.len();
        let Some(number) = self.first_posted(dev, g.port(), g.flow()) else {
            return Ok(Reply::Dropped {
                port: g.port(),
                flow: g.flow(),
                len,
            });
        };
        let bytes = g.bytes();
        let turn = Turn::Gathered {
            truncated,
            len,
            bytes,
        };
        self.change_transfer(number, &turn)?;
        Ok(Reply::Got { n: k })
    }

    // A datagram ends.
    fn complete(
        &mut self,
        dev: u32,
        g: &Datagram,
        truncated: bool,
        k: u32,
    ) -> Result<Reply<'static>, NoMemory>
        ensures { IfOk result (λ reply. complete self.old dev g.now truncated k g.now.fate ≡ (self.new, reply)) }
    {
        match g.fate() {
            Fate::Skipped => Ok(Reply::Got { n: k }),
            Fate::Matched(number) => {
                let len = g.len();
                self.change_transfer(number, &Turn::Arrived { truncated, len })?;
                Ok(Reply::Got { n: k })
            }
            Fate::Gathering => self.deliver(dev, g, truncated, k),
        }
    }

    // The datagram completes, or is there still.
    fn go_on(
        &mut self,
        dev: u32,
        v: Device,
        g: Datagram,
        k: u32,
    ) -> Result<Reply<'static>, NoMemory>
        ensures { IfOk result (λ reply. go_on self.old dev v g k ≡ (self.new, reply)) }
    {
        let mut v = v;
        if k == 0 {
            v.set_present(None);
            self.set_device(dev, v);
            return self.complete(dev, &g, true, 0);
        }
        if g.moved() == g.len() {
            v.set_present(None);
            self.set_device(dev, v);
            return self.complete(dev, &g, false, k);
        }
        v.set_present(Some(g));
        self.set_device(dev, v);
        Ok(Reply::Got { n: k })
    }

    // Payload bytes from place `at` on have come for an input.
    fn land_in(&mut self, number: u32, at: u32, bytes: &[u8]) -> Result<(), NoMemory>
        requires { at + length bytes.now < 2 ^ 32 }
        ensures { OnOk result (self.new ≡ land_in self.old at bytes.now (pending self.old number)) }
    {
        let Some(transfer) = numbered(self.transfers.as_slice(), number) else {
            return Ok(());
        };
        let number = transfer.number();
        let place = transfer.offset() as usize + at as usize;
        let fitting = transfer.fitting(at, bytes);
        if let Some(region) = transfer.landing() {
            self.put(region, place, fitting);
        }
        self.change_transfer(number, &Turn::Received { at, bytes })
    }

    // Payload bytes from place `at` on have come.
    fn land(&mut self, at: u32, bytes: &[u8], fate: Fate) -> Result<(), NoMemory>
        requires { at + length bytes.now < 2 ^ 32 }
        ensures { OnOk result (self.new ≡ land self.old at bytes.now fate) }
    {
        match fate {
            Fate::Matched(number) => self.land_in(number, at, bytes),
            Fate::Skipped | Fate::Gathering => Ok(()),
        }
    }

    // The next `b` bytes are payload.
    fn take_payload(
        &mut self,
        dev: u32,
        v: Device,
        g: Datagram,
        h: u32,
        b: u32,
    ) -> Result<Reply<'static>, NoMemory>
        requires count { h + b < 2 ^ 32 }
        requires moved { g.moved + b < 2 ^ 32 }
        ensures { IfOk result (λ reply. take_payload self.old dev v g h b ≡ (self.new, reply)) }
    {
        let mut v = v;
        let mut g = g;
        let bytes = v.take_front(self.alloc, b)?;
        self.land(g.moved(), bytes.as_slice(), g.fate())?;
        g.extend(bytes.as_slice())?;
        self.go_on(dev, v, g, h + b)
    }

    // A step with so much of its budget left.
    fn receive_payload(
        &mut self,
        dev: u32,
        left: u32,
        v: Device,
        g: Datagram,
        h: u32,
    ) -> Result<Reply<'static>, NoMemory>
        requires { h + left < 2 ^ 32 }
        ensures { IfOk result (λ reply. receive_payload self.old dev left v g h ≡ (self.new, reply)) }
    {
        let b = payload_taken(left, &v, &g);
        self.take_payload(dev, v, g, h, b)
    }
}

// A datagram, if there is payload to come.
fn with_payload(g: Datagram) -> Option<Datagram>
    ensures { result ≡ (if g.len == 0 then None else Some g) }
{
    if g.len() == 0 { None } else { Some(g) }
}

impl Machine {
    // An early device matches the header.
    fn match_header(
        &mut self,
        dev: u32,
        left: u32,
        v: Device,
        header: &[u8],
        h: u32,
    ) -> Result<Reply<'static>, NoMemory>
        requires count { h + left < 2 ^ 32 }
        requires whole { 8 ≤ length header.now }
        requires flow { slice_index header.now 1 ≡ 69 → 12 ≤ length header.now }
        ensures { IfOk result (λ reply. match_header self.old dev left v header.now h (first_posted self.old dev (port_in header.now) (flow_in header.now)) ≡ (self.new, reply)) }
    {
        let mut v = v;
        let g = Datagram::new(self.alloc, header, Fate::Skipped);
        let (port, flow, len) = (g.port(), g.flow(), g.len());
        match self.first_posted(dev, port, flow) {
            Some(number) => {
                let g = Datagram::new(self.alloc, header, Fate::Matched(number));
                self.change_transfer(number, &Turn::Moving)?;
                self.receive_payload(dev, left, v, g, h)
            }
            None => {
                v.set_present(with_payload(g));
                self.set_device(dev, v);
                Ok(Reply::Dropped { port, flow, len })
            }
        }
    }

    // A record begins.
    fn begin_datagram(
        &mut self,
        dev: u32,
        left: u32,
        v: Device,
        header: &[u8],
        h: u32,
    ) -> Result<Reply<'static>, NoMemory>
        requires count { h + left < 2 ^ 32 }
        requires whole { 8 ≤ length header.now }
        requires flow { slice_index header.now 1 ≡ 69 → 12 ≤ length header.now }
        ensures { IfOk result (λ reply. begin_datagram self.old dev left v header.now h ≡ (self.new, reply)) }
    {
        if v.is_early() {
            return self.match_header(dev, left, v, header, h);
        }
        let g = Datagram::new(self.alloc, header, Fate::Gathering);
        self.receive_payload(dev, left, v, g, h)
    }

    // The longest datagram that a device takes.
    fn most_for(&self, v: &Device) -> u32
        ensures { result ≡ most v.now.kind self.now.config.page }
    {
        v.kind().most(self.page)
    }

    // A header is whole. One that isn't valid marks the device for good.
    fn read_header(
        &mut self,
        dev: u32,
        left: u32,
        v: Device,
        header: &[u8],
        h: u32,
    ) -> Result<Reply<'static>, NoMemory>
        requires count { h + left < 2 ^ 32 }
        requires whole { 8 ≤ length header.now }
        requires flow { slice_index header.now 0 ≡ 71 → slice_index header.now 1 ≡ 69 → 12 ≤ length header.now }
        ensures { IfOk result (λ reply. read_header self.old dev left v header.now h ≡ (self.new, reply)) }
    {
        let mut v = v;
        let is_valid = is_valid_header(self.most_for(&v), header);
        v.clear_header();
        if is_valid {
            return self.begin_datagram(dev, left, v, header, h);
        }
        v.set_bad();
        self.set_device(dev, v);
        Ok(Reply::Bad)
    }

    // The next `h` bytes belong to the header.
    fn take_header(
        &mut self,
        dev: u32,
        n: u32,
        v: Device,
        h: u32,
    ) -> Result<Reply<'static>, NoMemory>
        requires { h ≤ n }
        ensures { IfOk result (λ reply. take_header self.old dev n v h ≡ (self.new, reply)) }
    {
        let mut v = v;
        let bytes = v.take_front(self.alloc, h)?;
        let header = joined(self.alloc, v.header(), bytes.as_slice())?;
        v.extend_header(bytes.as_slice())?;
        if is_whole_header(header.as_slice()) {
            return self.read_header(dev, n - h, v, header.as_slice(), h);
        }
        self.set_device(dev, v);
        Ok(header_reply(h))
    }

    // A step of a device that isn't bad or busy.
    fn receive_record(&mut self, dev: u32, n: u32, v: Device) -> Result<Reply<'static>, NoMemory>
        ensures { IfOk result (λ reply. receive_record self.old dev n v v.present ≡ (self.new, reply)) }
    {
        if let Some(g) = v.present_copy(self.alloc)? {
            return self.receive_payload(dev, n, v, g, 0);
        }
        let h = header_taken(self.alloc, n, &v)?;
        self.take_header(dev, n, v, h)
    }

    // A copy of a device.
    fn device(&self, dev: u32) -> Result<Option<Device>, NoMemory>
        ensures { IfOk result (λ v. v ≡ entry self.now.devices dev) }
    {
        match table::entry_of(self.devices.as_slice(), dev) {
            None => Ok(None),
            Some(device) => Ok(Some(device.copy(self.alloc)?)),
        }
    }

    // A receive step of a device.
    fn receive(&mut self, dev: u32, n: u32, v: Device) -> Result<Reply<'static>, NoMemory>
        ensures { IfOk result (λ reply. receive self.old dev n (Some v) ≡ (self.new, reply)) }
    {
        if v.is_bad() {
            return Ok(Reply::Bad);
        }
        if self.is_busy(dev, &v) {
            return Ok(Reply::Busy);
        }
        self.receive_record(dev, n, v)
    }

    // A receive step of a device with a budget.
    pub(crate) fn recv(&mut self, dev: u32, n: u32) -> Result<Reply<'static>, NoMemory>
        ensures { IfOk result (λ reply. recv self.old dev n ≡ (self.new, reply)) }
    {
        match self.device(dev)? {
            None => Ok(Reply::End),
            Some(v) => self.receive(dev, n, v),
        }
    }
}

// Whether `k` bytes more of a payload are there, and end before it does.
fn stays_in_payload(rest: &[u8], left: u32, k: u32) -> bool
    ensures { result ≡ stays_in_payload rest.now left k }
{
    k as usize <= rest.len() && k < left
}

impl Machine {
    // Whether the record that a whole header begins is received, and not dropped.
    fn is_received(&self, dev: u32, v: &Device, header: &[u8]) -> bool
        requires whole { 8 ≤ length header.now }
        requires flow { slice_index header.now 0 ≡ 71 → slice_index header.now 1 ≡ 69 → 12 ≤ length header.now }
        ensures { result ≡ is_received self.now dev v.now header.now }
    {
        if !is_valid_header(self.most_for(v), header) {
            return false;
        }
        if !v.is_early() {
            return true;
        }
        let g = Datagram::new(self.alloc, header, Fate::Skipped);
        self.first_posted(dev, g.port(), g.flow()).is_some()
    }

    // Whether `k` bytes, of which the first `h` belong to the header, end inside the record.
    fn stays_behind_header(&self, dev: u32, k: u32, v: Device, h: u32) -> Result<bool, NoMemory>
        requires { h ≤ k }
        ensures { IfOk result (λ b. b ≡ stays_behind_header self.now dev k v h) }
    {
        let mut v = v;
        let bytes = v.take_front(self.alloc, h)?;
        let header = joined(self.alloc, v.header(), bytes.as_slice())?;
        let header = header.as_slice();
        if !is_whole_header(header) {
            return Ok(h == k);
        }
        if !self.is_received(dev, &v, header) {
            return Ok(false);
        }
        Ok(stays_in_payload(v.rest(), len_in(header), k - h))
    }

    // Whether a step that moves `k` bytes completes no datagram.
    fn stays_inside(&self, dev: u32, k: u32, v: Device) -> Result<bool, NoMemory>
        ensures { IfOk result (λ b. b ≡ stays_inside self.now dev k v v.present) }
    {
        if let Some(g) = v.present_copy(self.alloc)? {
            let left = g.len().saturating_sub(g.moved());
            return Ok(stays_in_payload(v.rest(), left, k));
        }
        let h = header_taken(self.alloc, k, &v)?;
        self.stays_behind_header(dev, k, v, h)
    }

    fn may_fail_at(&self, dev: u32, k: u32, v: Device) -> Result<bool, NoMemory>
        ensures { IfOk result (λ b. b ≡ may_fail_at self.now dev k (Some v)) }
    {
        if v.is_bad() {
            return Ok(false);
        }
        if self.is_busy(dev, &v) {
            return Ok(false);
        }
        if k == 0 {
            return Ok(true);
        }
        self.stays_inside(dev, k, v)
    }

    // Whether the host of a device may fail after `k` bytes of a receive step.
    pub(crate) fn may_fail_receiving(&self, dev: u32, k: u32) -> Result<bool, NoMemory>
        ensures { IfOk result (λ b. b ≡ may_fail_receiving self.now dev k) }
    {
        match self.device(dev)? {
            None => Ok(false),
            Some(v) => self.may_fail_at(dev, k, v),
        }
    }
}
