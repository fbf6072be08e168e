//! A device.
ghost use Rattle.std.specs.Prelude.{◌≡◌, ◌+◌, ◌-◌, ◌^◌, ◌<◌, ◌≤◌, true, false, None, Some, length, IfOk, IfSome, IsSome, IsTrue, is_some, vec_capacity};
ghost use Rattle.genie_base.specs.Configs.{most};
ghost use Rattle.genie_base.specs.Counts.{is_page_size};
ghost use Rattle.genie_base.specs.Headers.{is_whole_header};
ghost use Rattle.genie_base.specs.Records.{header_len};
ghost use Rattle.genie_host.specs.Host.{OnlyHandle};
ghost use Rattle.genie_device.specs.Buffers.{Free, state_at, is_arrived, bytes_in, with_state};
ghost use Rattle.genie_device.specs.Kept.{IsAllowed, AreBuffers};
ghost use Rattle.genie_device.specs.Device.{IsReading, IsWriting, handle_of, header_of, moved_of, buffer_of, is_outboard, is_full, buffer_count, idle_device, finished, ReceivesHeader, ReceivesBody, stages, StagesPayload, SendsRecord, KeepsConfig};

use crate::buffer::Buffer;
use crate::buffers::{arrived_count, begin_first, end_filling, free_buffers};
use crate::gather::gather;
use crate::landing::Landing;
use crate::move_payload::move_payload;
use crate::outgoing::Outgoing;
use crate::present::Present;
use crate::send::{send_from, size_of};
use crate::stage::stage;
use crate::steps::{BodyStep, HeaderEnd, HeaderStep, SendStep};
use arrayvec::ArrayVec;
use genie_base::{DeviceConfig, Kind, NoMemory, PageSize};
use genie_host::Host;
use genie_wire::Header;
use std::alloc::Global;
use std::marker::Model;

/// The most bytes that one read takes from the host: the largest budget of a step.
const MOST_READ: usize = 65536;

/// A device that takes records from its input and appends records to its output, byte for byte. All memory is
/// reserved by `new`, and no other call refuses.
#[derive(Drop)]
pub struct Device {
    config: DeviceConfig,
    limit: u32,
    gathered: ArrayVec<u8, 12>,
    present: Option<Present>,
    is_bad: bool,
    buffers: Vec<Buffer>,
    staged: Vec<u8>,
    sent: u32,
    read_buffer: Vec<u8>,
}

impl Model for Device {
    ghost use Rattle.std.specs.Prelude.{vec_capacity, length};
    ghost use Rattle.genie_device.specs.Device.{DeviceView};
    ghost use Rattle.genie_device.specs.Kept.{IsDevice};

    ghost Value = { DeviceView };

    ghost view = { λ d. record {
      config = d.config;
      limit = d.limit;
      gathered = d.gathered.items;
      present = d.present;
      is_bad = d.is_bad;
      buffers = d.buffers.items;
      staged = d.staged.items;
      sent = d.sent;
    } };

    ghost invariant = { λ d. IsDevice d.config.kind d.config.depth d.limit d.gathered.items d.present d.buffers.items d.staged.items (vec_capacity d.staged) (length d.read_buffer.items) };
}

impl Device {
    /// A device that has gathered, staged and sent nothing, with pages of `page` bytes. A datagram has at most 16 pages
    /// on a pooled device, else 64. An outboard device has memory for one staged payload and `config.depth` buffers, each
    /// for the longest datagram. Each device has a buffer through which payload bytes come in.
    pub fn new(alloc: Global, config: &DeviceConfig, page: u32) -> Result<Device, NoMemory>
        requires { IsTrue (is_page_size page) }
        ensures { IfOk result (λ device. device ≡ idle_device config.now page) }
    {
        let Some(page) = PageSize::new(page) else {
            unreachable!()
        };
        let limit = config.kind.most(page);
        let (count, staging) = match config.kind {
            Kind::Early | Kind::Pooled => (0, 0),
            Kind::Outboard => (config.depth, limit),
        };
        Ok(Device {
            config: *config,
            limit,
            gathered: ArrayVec::new(),
            present: None,
            is_bad: false,
            buffers: free_buffers(alloc, count, limit)?,
            staged: Vec::with_capacity(alloc, staging as usize)?,
            sent: 0,
            read_buffer: read_buffer(alloc, MOST_READ)?,
        })
    }

    /// Whether a header was not valid. It stays so.
    pub fn is_bad(&self) -> bool
        ensures { result ≡ self.now.is_bad }
    {
        self.is_bad
    }

    /// How many bytes of a header are gathered: fewer than it has.
    pub fn gathered(&self) -> u32
        ensures number { result ≡ length self.now.gathered }
        ensures short { is_whole_header self.now.gathered ≡ false }
    {
        self.gathered.len() as u32
    }

    /// Whether no datagram can come in: on an outboard device, whether all its buffers have arrived.
    pub fn is_full(&self) -> bool
        ensures { result ≡ is_full self.now }
    {
        self.config.kind == Kind::Outboard
            && self.config.depth <= arrived_count(self.buffers.as_slice())
    }

    /// The header of the present datagram, or `None` where no datagram is present.
    pub fn present(&self) -> Option<Header>
        ensures header { result ≡ header_of self.now.present }

        // It is allowed, and of the buffers exactly the one that it fills is filling.
        ensures allowed { IfSome self.now.present (IsAllowed self.now.config.kind self.now.limit) }
        ensures buffers { AreBuffers self.now.limit self.now.present self.now.buffers }
        ensures count { length self.now.buffers ≡ buffer_count self.now.config.kind self.now.config.depth }
    {
        match self.present {
            Some(present) => Some(present.header),
            None => None,
        }
    }

    /// How many payload bytes of the present datagram are moved, 0 where none is present.
    pub fn moved(&self) -> u32
        ensures { result ≡ moved_of self.now.present }
    {
        match self.present {
            Some(present) => present.moved,
            None => 0,
        }
    }

    /// How many payload bytes of the record to be sent are staged.
    pub fn staged(&self) -> u32
        ensures { result ≡ length self.now.staged }
    {
        self.staged.len() as u32
    }

    /// How many bytes of the record to be sent are sent.
    pub fn sent(&self) -> u32
        ensures { result ≡ self.now.sent }
    {
        self.sent
    }

    // The handle of its input.
    fn input(&self) -> u32
        requires { IsSome self.now.config.input }
        ensures { result ≡ handle_of self.now.config.input }
    {
        match self.config.input {
            Some(handle) => handle,
            None => unreachable!(),
        }
    }

    /// Gathers at most `n` bytes of a header, and none past its last one. With `Whole` its datagram is present, and on an
    /// outboard device the first free buffer is filling.
    pub fn recv_header<H: Host>(&mut self, host: &mut H, n: u32) -> HeaderStep
        requires absent { self.old.present ≡ None }
        requires good { self.old.is_bad ≡ false }
        requires some { 1 ≤ n }
        requires free { is_full self.old ≡ false }
        requires reading { IsReading self.old.config.input (H.view host.old) }
        ensures step { ReceivesHeader n (H.view host.old) (H.view host.new) self.old self.new result.moved result.end }
        ensures kept { KeepsConfig self.old self.new }
    {
        let handle = self.input();
        let step = gather(host, handle, &mut self.gathered, self.limit, n);
        match step.end {
            HeaderEnd::More | HeaderEnd::Faulted => {}
            HeaderEnd::Whole(header) => {
                self.gathered.clear();
                let buffer = begin_first(&mut self.buffers);
                self.present = Some(Present {
                    header,
                    moved: 0,
                    buffer,
                });
            }
            HeaderEnd::Bad => {
                self.gathered.clear();
                self.is_bad = true;
            }
        }
        step
    }

    /// Moves at most `n` bytes of the present datagram's payload to the landing, or on an outboard device to the buffer
    /// that it fills.
    pub fn recv_body<H: Host, L: Landing>(
        &mut self,
        host: &mut H,
        landing: &mut L,
        n: u32,
    ) -> BodyStep
        requires present { IsSome self.old.present }
        requires reading { IsReading self.old.config.input (H.view host.old) }
        requires ready { L.is_ready landing.old }
        requires room { L.count landing.old + n < 2 ^ 64 }
        ensures step { ReceivesBody n (H.view host.old) (H.view host.new) self.old self.new (L.content landing.old) (L.content landing.new) result.moved result.end }
        ensures kept { KeepsConfig self.old self.new }
        ensures ready { L.is_ready landing.new }
        ensures later { L.count landing.old ≤ L.count landing.new }
        ensures most { L.count landing.new ≤ L.count landing.old + result.moved }
        ensures landing { L.kept landing.old landing.new }
    {
        let handle = self.input();
        let Some(present) = self.present else {
            unreachable!()
        };
        let step = move_payload(
            host,
            handle,
            &mut self.read_buffer,
            landing,
            &mut self.buffers,
            &present,
            n,
        );
        self.present = Some(Present {
            moved: present.moved + step.moved,
            ..present
        });
        step
    }

    /// Ends the present datagram. On an outboard device its buffer, whose number is the answer, has arrived; on the
    /// other kinds the answer is `None`.
    pub fn finish(&mut self) -> Option<u32>
        requires { IsSome self.old.present }
        ensures place { result ≡ buffer_of self.old.present }
        ensures kinds { is_some result ≡ is_outboard self.old.config.kind }
        ensures device { self.new ≡ finished self.old }
        ensures arrived { IfSome result (λ k. is_arrived (state_at self.new.buffers k) ≡ true) }
    {
        let Some(present) = self.present else {
            unreachable!()
        };
        end_filling(&mut self.buffers, present.buffer);
        self.present = None;
        present.buffer
    }

    /// Lends the bytes of an arrived buffer.
    pub fn arrived(&self, buffer: u32) -> &[u8]
        requires { is_arrived (state_at self.now.buffers buffer) ≡ true }
        ensures { result.now ≡ bytes_in (state_at self.now.buffers buffer) }
    {
        self.buffers[buffer as usize].bytes()
    }

    /// Makes an arrived buffer free.
    pub fn release(&mut self, buffer: u32)
        requires { is_arrived (state_at self.old.buffers buffer) ≡ true }
        ensures { self.new ≡ record self.old { buffers = with_state Free buffer self.old.buffers } }
    {
        let arrived = &mut self.buffers[buffer as usize];
        arrived.release();
    }

    // The handle of its output.
    fn output(&self) -> u32
        requires { IsSome self.now.config.output }
        ensures { result ≡ handle_of self.now.config.output }
    {
        match self.config.output {
            Some(handle) => handle,
            None => unreachable!(),
        }
    }

    /// Goes on with the record that was begun, or begins one: of its header and this payload, at most `n` bytes. An
    /// outboard device stages the payload first, byte for byte as it is then, and sends from its own memory; the other
    /// kinds send the payload as it is at each step.
    pub fn send_step<H: Host, O: Outgoing>(
        &mut self,
        host: &mut H,
        from: &O,
        header: &Header,
        n: u32,
    ) -> SendStep
        requires some { 1 ≤ n }
        requires ready { O.is_ready from.now }
        requires payload { header.now.len ≡ length (O.payload from.now) }
        requires short { header.now.len < 2 ^ 31 }
        requires memory { is_outboard self.old.config.kind ≡ true → header.now.len ≤ self.old.limit }
        requires unsent { self.old.sent < header_len header.now.flow + header.now.len }
        requires unstaged { length self.old.staged ≤ header.now.len }
        requires writing { IsWriting self.old.config.output (H.view host.old) }
        ensures staged { result.staged ≡ stages self.old.config.kind self.old.staged header.now.len }
        ensures stages { result.staged ≡ true → StagesPayload n (H.view host.old) (H.view host.new) self.old self.new (O.payload from.now) result }
        ensures sends { result.staged ≡ false → SendsRecord n (H.view host.old) (H.view host.new) self.old self.new header.now (O.payload from.now) result }
        ensures host { OnlyHandle (handle_of self.old.config.output) (H.view host.old) (H.view host.new) }
        ensures kept { KeepsConfig self.old self.new }
    {
        let is_outboard = self.config.kind == Kind::Outboard;
        let staged = self.staged.len() as u32;
        if is_outboard && staged < header.len {
            let moved = n.min(header.len - staged);
            stage(&mut self.staged, from, moved);
            return SendStep {
                moved,
                staged: true,
                whole: false,
                faulted: false,
            };
        }
        let handle = self.output();
        let step = send_from(
            host,
            handle,
            header,
            from,
            self.staged.as_slice(),
            is_outboard,
            self.sent,
            n,
        );
        let whole = self.sent + step.moved == size_of(header) + header.len;
        if whole {
            self.staged.clear();
            self.sent = 0;
        } else {
            self.sent += step.moved;
        }
        SendStep {
            moved: step.moved,
            staged: false,
            whole,
            faulted: step.faulted,
        }
    }
}

/// A buffer of so many bytes for what one read takes from the host.
fn read_buffer(alloc: Global, most: usize) -> Result<Vec<u8>, NoMemory>
    ensures { IfOk result (λ buffer. length buffer.items ≡ most) }
{
    Ok(vec![in alloc; 0; most]?)
}

#[cfg(test)]
mod tests;
