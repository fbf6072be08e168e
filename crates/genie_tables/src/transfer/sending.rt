//! What is sent of an output.
ghost use Rattle.std.specs.Prelude.{◌≡◌, ◌-◌, ◌≤◌, IfOk, OnOk};
ghost use Rattle.genie_base.specs.Records.{header_len};
ghost use Rattle.genie_model.specs.Pending.{is_queued, waits_for};
ghost use Rattle.genie_model.specs.Sending.{record_of, unsent, after_sending, after_staging};

use crate::transfer::Transfer;
use genie_base::NoMemory;
use genie_model::Phase;
use std::alloc::Global;

impl Transfer {
    fn is_queued(&self) -> bool
        ensures { result ≡ is_queued self.now.phase }
    {
        matches!(self.phase, Phase::Queued)
    }

    // Whether it waits for the device.
    pub(crate) fn is_queued_for(&self, device: u32) -> bool
        ensures { result ≡ waits_for device self.now }
    {
        self.is_queued() && self.device == device
    }

    fn header_len(&self) -> u64
        ensures { result ≡ header_len self.now.flow }
    {
        if self.flow.is_some() { 12 } else { 8 }
    }

    /// How many bytes of its record aren't sent.
    pub fn unsent(&self) -> u64
        ensures { result ≡ unsent self.now }
    {
        (self.header_len() + u64::from(self.len)).saturating_sub(self.moved)
    }

    /// Its record, in format 2 where it has a flow, else in format 1.
    pub fn record(&self, alloc: Global, payload: &[u8]) -> Result<Vec<u8>, NoMemory>
        ensures { IfOk result (λ bytes. bytes.items ≡ record_of self.now payload.now) }
    {
        let mut record = Vec::new(alloc);
        record.extend_from_slice(match self.flow {
            None => b"GD",
            Some(_) => b"GE",
        })?;
        record.extend_from_slice(&self.port.to_be_bytes())?;
        record.extend_from_slice(&self.len.to_be_bytes())?;
        if let Some(flow) = self.flow {
            record.extend_from_slice(&flow.to_be_bytes())?;
        }
        record.extend_from_slice(payload)?;
        Ok(record)
    }

    /// The next `k` bytes of its record are sent. With the last one it is ready, and its payload goes.
    pub(crate) fn send(&mut self, k: u64)
        requires { k ≤ unsent self.old }
        ensures { self.new ≡ after_sending k self.old }
    {
        if k == self.unsent() {
            self.phase = Phase::Ready;
            self.payload.clear();
        }
        self.moved += k;
    }

    /// `k` bytes more are staged, of which these are kept beside those that it has.
    pub(crate) fn stage(&mut self, k: u32, bytes: &[u8]) -> Result<(), NoMemory>
        requires { k ≤ self.old.len - self.old.staged }
        ensures { OnOk result (self.new ≡ after_staging k bytes.now self.old) }
    {
        self.payload.extend_from_slice(bytes)?;
        self.staged += k;
        Ok(())
    }
}
