//! The posted inputs.
ghost use Rattle.std.specs.Prelude.{◌≡◌, ◌<◌, ◌≤◌, ◌↔◌, ℕ, [], ◌∷◌, ◌++◌, All, length, IfOk, IfSome, IsOk, IsSome, IsTrue, MatchOption, OnErr, OnOk, position};
ghost use Rattle.genie_base.specs.Posted.{first, meets};
ghost use Rattle.genie_demux.specs.Posted.{IsQueue, address, has_id, input_of, number_of, without};

use crate::input::Input;
use genie_base::NoMemory;
use std::alloc::Global;
use std::marker::Model;
use thiserror::Error;

/// How many inputs may be posted.
const INPUTS: usize = 64;

/// No input with that number is posted.
#[derive(Clone, Copy, Debug, PartialEq, Eq, Error)]
#[error("not posted")]
pub struct NotPosted;

/// At most 64 posted inputs in order of numbers. Contracts see their list.
#[derive(Drop)]
pub struct Posted {
    inputs: Vec<Input>,
}

impl Model for Posted {
    ghost use Rattle.std.specs.Prelude.{List, ◌≤◌, vec_capacity};
    ghost use Rattle.genie_demux.specs.declared.input.Input.{Input};
    ghost use Rattle.genie_demux.specs.Posted.{IsQueue};

    ghost Value = { List Input };

    ghost view = { λ p. p.inputs.items };

    ghost invariant = { λ p. IsQueue p.inputs.items × (64 ≤ vec_capacity p.inputs) };
}

impl Posted {
    /// No input. All memory that the inputs need is taken here.
    pub fn new(alloc: Global) -> Result<Posted, NoMemory>
        ensures { IfOk result (λ posted. posted ≡ []) }
    {
        Ok(Posted {
            inputs: Vec::with_capacity(alloc, INPUTS)?,
        })
    }

    /// How many inputs are posted: at most 64.
    pub fn len(&self) -> u32
        ensures length { result ≡ length self.now }
        ensures queue { IsQueue self.now }
    {
        self.inputs.len() as u32
    }

    /// Posts an input for the records of a device and port, and of one flow where it names one. Numbers rise from input
    /// to input.
    pub fn post(&mut self, dev: u32, port: u16, flow: Option<u32>, id: u32)
        requires room { length self.old < 64 }
        requires last { All (λ p. p.id < id) self.old }
        ensures posted { self.new ≡ self.old ++ record { device = dev; port = port; flow = flow; id = id } ∷ [] }
        ensures queue { IsQueue self.new }
    {
        let input = Input {
            device: dev,
            port,
            flow,
            id,
        };
        match self.inputs.push(input) {
            Ok(()) => {}
            Err(_) => unreachable!(),
        }
    }

    /// Takes the first input that a record of this device, port and flow meets and answers its number, or `None` where the
    /// record meets none. The other inputs stay in order.
    pub fn match_port(&mut self, dev: u32, port: u16, flow: Option<u32>) -> Option<u32>
        ensures met { result ≡ number_of (first address dev port flow self.old) }
        ensures others { MatchOption result (self.new ≡ self.old) (λ k. self.new ≡ without k self.old) }
        ensures queue { IsQueue self.new }

        // None with a lower number would have met it.
        ensures least { IfSome result (λ k. All (λ p. IsTrue (meets dev port flow (address p)) → k ≤ p.id) self.old) }
    {
        let at = place_of_first(self.inputs.as_slice(), dev, port, flow)?;
        Some(self.inputs.remove(at).id)
    }

    /// Takes the input with this number away. Where there is none, nothing changes.
    pub fn cancel(&mut self, id: u32) -> Result<(), NotPosted>
        ensures posted { IsOk result ↔ IsSome (input_of id self.old) }
        ensures others { self.new ≡ without id self.old }
        ensures kept { OnErr result (self.new ≡ self.old) }
        ensures queue { IsQueue self.new }
    {
        match place_of_id(self.inputs.as_slice(), id) {
            Some(at) => {
                self.inputs.remove(at);
                Ok(())
            }
            None => Err(NotPosted),
        }
    }
}

/// Where the first input that a record meets is.
fn place_of_first(inputs: &[Input], dev: u32, port: u16, flow: Option<u32>) -> Option<usize>
    ensures { result ≡ position (λ p. meets dev port flow (address p)) inputs.now }
{
    inputs.iter().position(|p| p.meets(dev, port, flow))
}

/// Where the input with this number is.
fn place_of_id(inputs: &[Input], id: u32) -> Option<usize>
    ensures { result ≡ position (has_id id) inputs.now }
{
    inputs.iter().position(|p| p.has_id(id))
}

#[cfg(test)]
mod tests;
