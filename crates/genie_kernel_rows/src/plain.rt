//! The plain machine of a script, which is stepped beside a kernel.
ghost use Rattle.std.specs.Prelude.{◌≡◌, ◌≤◌, IfOk, IfSome, IsTrue};
ghost use Rattle.genie_base.specs.Events.{is_whole};

use crate::scenes::{Input, input_named};
use crate::wiring::Trouble;
use genie_base::{Event, Mark, PageBuffer, Reply};
use genie_flat::Flat;
use genie_host::MemoryHost;
use genie_orderly::laws;
use genie_script::{BootPart, DeviceLine};
use std::alloc::Global;
use std::marker::Model;

/// The plain machine, and how many events it has stepped. Contracts see its state, or none once memory ran out.
#[derive(Drop)]
pub struct Plain {
    flat: Flat,
    steps: u32,
}

impl Model for Plain {
    ghost use Rattle.std.specs.Prelude.{◌≤◌, ◌+◌, Option, IfSome};
    ghost use Rattle.genie_model.specs.State.{State};

    ghost Value = { Option State };

    ghost view = { λ m. m.flat };

    // Each step uses up one number at most.
    ghost invariant = { λ m. IfSome m.flat (λ s. s.next ≤ m.steps + 1) };
}

// Gives a device the bytes of its input, if it has one.
fn give_input(flat: &mut Flat, device: &DeviceLine, inputs: &[Input]) -> Result<(), Trouble>
    requires { IfSome flat.old (λ s. s.next ≤ 1) }
    ensures { IfSome flat.new (λ s. s.next ≤ 1) }
{
    let name = match &device.input {
        Some(name) => name,
        None => return Ok(()),
    };
    let bytes = match input_named(inputs, name.as_slice()) {
        Some(bytes) => bytes,
        None => return Err(Trouble::File),
    };
    match flat.input(device.number, bytes) {
        Ok(()) => Ok(()),
        Err(_) => Err(Trouble::Memory),
    }
}

// Gives each device its input.
fn give_inputs(flat: &mut Flat, devices: &[DeviceLine], inputs: &[Input]) -> Result<(), Trouble>
    requires { IfSome flat.old (λ s. s.next ≤ 1) }
    ensures { IfSome flat.new (λ s. s.next ≤ 1) }
{
    match devices.split_first() {
        None => Ok(()),
        Some((device, rest)) => match give_input(flat, device, inputs) {
            Ok(()) => give_inputs(flat, rest, inputs),
            Err(trouble) => Err(trouble),
        },
    }
}

// The machine of a boot part.
fn booted(alloc: Global, part: &BootPart) -> Result<Flat, Trouble>
    ensures { IfOk result (λ flat. IfSome flat (λ s. s.next ≤ 1)) }
{
    let config = part.config();
    match Flat::boot(alloc, &config) {
        Ok(flat) => Ok(flat),
        Err(_) => Err(Trouble::Memory),
    }
}

impl Plain {
    /// The plain machine of a boot part, whose devices have these inputs.
    pub fn boot(alloc: Global, part: &BootPart, inputs: &[Input]) -> Result<Plain, Trouble> {
        let mut flat = match booted(alloc, part) {
            Ok(flat) => flat,
            Err(trouble) => return Err(trouble),
        };
        match give_inputs(&mut flat, part.devices(), inputs) {
            Ok(()) => Ok(Plain { flat, steps: 0 }),
            Err(trouble) => Err(trouble),
        }
    }

    /// One step under this mark. The bytes of a reply stand in `room`.
    pub fn step<'a>(
        &mut self,
        event: &Event,
        mark: &Mark,
        room: &'a mut PageBuffer,
    ) -> Result<Reply<'a>, Trouble>
        requires { IsTrue (is_whole event.now) }
    {
        if self.steps > u32::MAX - 2 {
            return Err(Trouble::Limits);
        }
        laws::steps_grow();
        self.steps += 1;
        match self.flat.step(event, mark, room) {
            Ok(reply) => Ok(reply),
            Err(_) => Err(Trouble::Memory),
        }
    }

    // Whether the device's output holds what it has sent here.
    fn has_sent(&self, host: &MemoryHost, device: &DeviceLine) -> bool {
        match &device.output {
            Some(name) => match host.written(name.as_slice()) {
                Some(bytes) => bytes == self.flat.sent(device.number),
                None => false,
            },
            None => true,
        }
    }

    /// Whether each device's output holds what the device has sent here.
    pub fn has_sent_all(&self, host: &MemoryHost, part: &BootPart) -> bool {
        for device in part.devices() {
            if !self.has_sent(host, device) {
                return false;
            }
        }
        true
    }
}
