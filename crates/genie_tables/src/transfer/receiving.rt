//! What an input receives.
ghost use Rattle.std.specs.Prelude.{◌≡◌, ◌+◌, ◌<◌, ◌^◌, length, OnOk};
ghost use Rattle.genie_base.specs.Posted.{meets_flow};
ghost use Rattle.genie_model.specs.Pending.{awaits, has_arrived};
ghost use Rattle.genie_model.specs.Receiving.{note_of, after_receiving, gathered};
ghost use Rattle.genie_tables.specs.Changes.{turn_of, IsSmall};

use crate::change::Turn;
use crate::transfer::Transfer;
use genie_base::{NoMemory, Note, part};
use genie_model::Phase;

// Whether an input posted for this flow, or for none, meets a record with the wanted flow, or without one.
fn meets(posted: Option<u32>, wanted: Option<u32>) -> bool
    ensures { result ≡ meets_flow posted wanted }
{
    match (posted, wanted) {
        (None, _) => true,
        (Some(_), None) => false,
        (Some(posted), Some(wanted)) => posted == wanted,
    }
}

// How a datagram of so many bytes met a buffer.
fn note_of(truncated: bool, len: u32, buffer: u32) -> Note
    ensures { result ≡ note_of truncated len buffer }
{
    if truncated {
        Note::Trunc
    } else if buffer < len {
        Note::Cut
    } else {
        Note::Whole
    }
}

impl Transfer {
    // Whether it is a posted input that a record of this device and port, with this flow or none, meets.
    pub(crate) fn awaits(&self, device: u32, port: u16, flow: Option<u32>) -> bool
        ensures { result ≡ awaits device port flow self.now }
    {
        self.is_posted() && (self.device == device && self.port == port && meets(self.flow, flow))
    }

    // Whether it is an input of the device that is ready.
    pub(crate) fn has_arrived(&self, device: u32) -> bool
        ensures { result ≡ has_arrived device self.now }
    {
        self.is_inward() && self.is_ready() && self.device == device
    }

    fn keep(&mut self, at: u32, bytes: &[u8]) -> Result<(), NoMemory>
        requires { at + length bytes.now < 2 ^ 32 }
        ensures { OnOk result (self.new ≡ after_receiving at bytes.now self.old) }
    {
        self.stored = (at + bytes.len() as u32).min(self.len);
        if !self.class.is_strong() {
            return Ok(());
        }
        let fitting = self.fitting(at, bytes);
        self.payload.extend_from_slice(fitting)?;
        Ok(())
    }

    fn gather(&mut self, truncated: bool, len: u32, bytes: &[u8]) -> Result<(), NoMemory>
        ensures { OnOk result (self.new ≡ gathered truncated len bytes.now self.old) }
    {
        let fitting = part(bytes, 0, self.len as usize);
        self.phase = Phase::Ready;
        self.stored = fitting.len() as u32;
        self.note = note_of(truncated, len, self.len);
        self.payload.clear();
        self.payload.extend_from_slice(fitting)?;
        Ok(())
    }

    // Takes a turn.
    pub(crate) fn turn(&mut self, turn: &Turn) -> Result<(), NoMemory>
        requires { IsSmall turn.now }
        ensures { OnOk result (self.new ≡ turn_of turn.now self.old) }
    {
        match turn {
            Turn::Moving => {
                self.phase = Phase::Moving;
                Ok(())
            }
            Turn::Arrived { truncated, len } => {
                self.phase = Phase::Ready;
                self.note = note_of(*truncated, *len, self.len);
                Ok(())
            }
            Turn::Gathered {
                truncated,
                len,
                bytes,
            } => self.gather(*truncated, *len, bytes),
            Turn::Received { at, bytes } => self.keep(*at, bytes),
        }
    }
}
