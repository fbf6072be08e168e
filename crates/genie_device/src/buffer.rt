//! A buffer of outboard memory.
ghost use Rattle.std.specs.Prelude.{◌≡◌, ◌+◌, ◌<◌, ◌≤◌, [], true, length, IfOk};
ghost use Rattle.genie_host.specs.Host.{Reading};
ghost use Rattle.genie_device.specs.Buffers.{Free, free_buffer, Filling, Arrived, is_free, is_filling, is_arrived, bytes_in, Fills};

use crate::receive::receive;
use crate::steps::BodyStep;
use genie_base::{FixedBytes, NoMemory};
use genie_host::Host;
use std::alloc::Global;
use std::marker::Model;

/// What a buffer is used for.
#[derive(Clone, Copy, Debug, PartialEq, Eq)]
pub enum Usage {
    Free,
    /// A datagram is coming in.
    Filling,
    /// A datagram has arrived.
    Arrived,
}

/// A buffer of outboard memory: free, or with the payload bytes of a datagram.
#[derive(Drop)]
pub struct Buffer {
    usage: Usage,
    len: u32,
    memory: FixedBytes,
}

impl Model for Buffer {
    ghost use Rattle.std.specs.Prelude.{◌≤◌, ◌<◌, ◌^◌, length, take};
    ghost use Rattle.genie_device.specs.Buffers.{BufferView, state_of};

    ghost Value = { BufferView };

    ghost view = { λ b. record { room = length b.memory; state = state_of b.usage (take b.len b.memory) } };

    ghost invariant = { λ b. (b.len ≤ length b.memory) × (length b.memory < 2 ^ 32) };
}

impl Buffer {
    /// A free buffer with room for so many bytes.
    pub fn new(alloc: Global, room: u32) -> Result<Buffer, NoMemory>
        ensures { IfOk result (λ b. b ≡ free_buffer room) }
    {
        Ok(Buffer {
            usage: Usage::Free,
            len: 0,
            memory: FixedBytes::zeros(alloc, room as usize)?,
        })
    }

    pub fn is_free(&self) -> bool
        ensures { result ≡ is_free self.now.state }
    {
        self.usage == Usage::Free
    }

    pub fn is_arrived(&self) -> bool
        ensures { result ≡ is_arrived self.now.state }
    {
        self.usage == Usage::Arrived
    }

    /// Begins to fill it.
    pub fn begin(&mut self)
        ensures { self.new ≡ record self.old { state = Filling [] } }
    {
        self.usage = Usage::Filling;
        self.len = 0;
    }

    /// Moves at most `n` of a payload's `left` bytes from a handle behind those that it has.
    pub fn receive<H: Host>(
        &mut self,
        host: &mut H,
        handle: u32,
        read_buffer: &mut Vec<u8>,
        left: u32,
        n: u32,
    ) -> BodyStep
        requires reading { ((H.view host.old).handle handle).mode ≡ Reading }
        requires filling { is_filling self.old.state ≡ true }
        requires room { length (bytes_in self.old.state) + left ≤ self.old.room }
        requires some { 0 < length read_buffer.old.items }
        ensures buffer { length read_buffer.new.items ≡ length read_buffer.old.items }
        ensures fills { Fills handle left n (H.view host.old) (H.view host.new) self.old self.new result.moved result.end }
    {
        let step = receive(
            host,
            handle,
            read_buffer,
            &mut self.memory,
            self.len,
            left,
            n,
        );
        self.len += step.moved;
        step
    }

    /// All of its datagram's bytes are there.
    pub fn arrive(&mut self)
        requires { is_filling self.old.state ≡ true }
        ensures { self.new ≡ record self.old { state = Arrived (bytes_in self.old.state) } }
    {
        self.usage = Usage::Arrived;
    }

    pub fn release(&mut self)
        ensures { self.new ≡ record self.old { state = Free } }
    {
        self.usage = Usage::Free;
    }

    /// Lends the bytes of the datagram that has arrived.
    pub fn bytes(&self) -> &[u8]
        requires { is_arrived self.now.state ≡ true }
        ensures { result.now ≡ bytes_in self.now.state }
    {
        self.memory.run(0, self.len as usize)
    }
}
