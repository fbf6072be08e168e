//! The send step.
ghost use Rattle.std.specs.Prelude.{◌≡◌, Some, IfOk, true, false};
ghost use Rattle.std.specs.Option.{option_map};
ghost use Rattle.genie_model.specs.State.{Transfer as Pending};
ghost use Rattle.genie_model.specs.Pending.{first_queued, is_outboard_at};
ghost use Rattle.genie_model.specs.Sending.{send, send_count, stage_count, next_part, staged_now, named_bytes, payload_of, must_stage, may_fail_sending};

use crate::machine::Machine;
use genie_base::{NoMemory, Reply, part};
use genie_plain_device::devices;
use genie_tables::transfers::{first_queued, send_first, stage_first};
use genie_tables::{Transfer, table};

impl Machine {
    // Whether a device stages its output.
    fn is_outboard_at(&self, dev: u32) -> bool
        ensures { result ≡ is_outboard_at self.now dev }
    {
        table::entry_of(self.devices.as_slice(), dev).is_some_and(|device| device.is_outboard())
    }

    // The `n` bytes from place `at` on of the region or orphan that a transfer names.
    fn named_bytes(&self, region: Option<u32>, at: usize, n: usize) -> Result<Vec<u8>, NoMemory>
        ensures { IfOk result (λ bytes. bytes.items ≡ named_bytes self.now region at n) }
    {
        match region {
            Some(number) => self.bytes_of(number, at, n),
            None => Ok(Vec::new(self.alloc)),
        }
    }

    // The payload of an output: what it keeps, or the bytes of now.
    fn payload_of(&self, transfer: &Transfer) -> Result<Vec<u8>, NoMemory>
        ensures { IfOk result (λ bytes. bytes.items ≡ payload_of self.now transfer.now) }
    {
        if transfer.is_strong() || self.is_outboard_at(transfer.device()) {
            Ok(transfer.payload().to_vec(self.alloc)?)
        } else {
            self.named_bytes(
                transfer.region(),
                transfer.offset() as usize,
                transfer.len() as usize,
            )
        }
    }

    // Whether an output has bytes to stage on a device.
    fn must_stage(&self, dev: u32, transfer: &Transfer) -> bool
        ensures { result ≡ must_stage self.now dev transfer.now }
    {
        self.is_outboard_at(dev) && transfer.staged() < transfer.len()
    }

    // Whether the first output that waits for a device has bytes to stage, or `None` where no output waits.
    fn must_stage_first(&self, dev: u32) -> Option<bool>
        ensures { result ≡ option_map (must_stage self.now dev) (first_queued self.now dev) }
    {
        let transfer = first_queued(self.transfers.as_slice(), dev)?;
        Some(self.must_stage(dev, transfer))
    }

    // How many bytes a send step of a device sends, or 0 where no output waits for it.
    fn send_count(&self, dev: u32, n: u32) -> u32
        ensures { (t : Pending) → first_queued self.now dev ≡ Some t → result ≡ send_count n t }
    {
        match first_queued(self.transfers.as_slice(), dev) {
            None => 0,
            Some(transfer) => u64::from(n).min(transfer.unsent()) as u32,
        }
    }

    // How many bytes a send step of a device stages, or 0 where no output waits for it.
    fn stage_count(&self, dev: u32, n: u32) -> u32
        ensures { (t : Pending) → first_queued self.now dev ≡ Some t → result ≡ stage_count n t }
    {
        match first_queued(self.transfers.as_slice(), dev) {
            None => 0,
            Some(transfer) => n.min(transfer.len().saturating_sub(transfer.staged())),
        }
    }

    // The next `k` bytes of the record of the first output that waits for a device.
    fn next_part(&self, dev: u32, k: u32) -> Result<Vec<u8>, NoMemory>
        ensures { IfOk result (λ bytes. (t : Pending) → first_queued self.now dev ≡ Some t → bytes.items ≡ next_part self.now k t) }
    {
        let Some(transfer) = first_queued(self.transfers.as_slice(), dev) else {
            return Ok(Vec::new(self.alloc));
        };
        let payload = self.payload_of(transfer)?;
        let record = transfer.record(self.alloc, payload.as_slice())?;
        let bytes = part(record.as_slice(), transfer.moved() as usize, k as usize);
        Ok(bytes.to_vec(self.alloc)?)
    }

    // The next `k` bytes that the first output that waits for a device stages.
    fn staged_now(&self, dev: u32, k: u32) -> Result<Vec<u8>, NoMemory>
        ensures { IfOk result (λ bytes. (t : Pending) → first_queued self.now dev ≡ Some t → bytes.items ≡ staged_now self.now k t) }
    {
        let Some(transfer) = first_queued(self.transfers.as_slice(), dev) else {
            return Ok(Vec::new(self.alloc));
        };
        if transfer.is_strong() {
            return Ok(Vec::new(self.alloc));
        }
        let at = transfer.offset() as usize + transfer.staged() as usize;
        self.named_bytes(transfer.region(), at, k as usize)
    }

    // Stages the next bytes of the first output that waits for a device.
    fn stage(&mut self, dev: u32, n: u32) -> Result<Reply<'static>, NoMemory>
        requires { option_map (must_stage self.old dev) (first_queued self.old dev) ≡ Some true }
        ensures { IfOk result (λ reply. send self.old dev n ≡ (self.new, reply)) }
    {
        let k = self.stage_count(dev, n);
        let bytes = self.staged_now(dev, k)?;
        stage_first(self.transfers.as_mut_slice(), dev, k, bytes.as_slice())?;
        Ok(Reply::Staged { n: k })
    }

    // Sends the next bytes of the first output that waits for a device.
    fn send_next(&mut self, dev: u32, n: u32) -> Result<Reply<'static>, NoMemory>
        requires { option_map (must_stage self.old dev) (first_queued self.old dev) ≡ Some false }
        ensures { IfOk result (λ reply. send self.old dev n ≡ (self.new, reply)) }
    {
        let k = self.send_count(dev, n);
        let bytes = self.next_part(dev, k)?;
        devices::send_on(&mut self.devices, dev, bytes.as_slice())?;
        send_first(self.transfers.as_mut_slice(), dev, u64::from(k));
        Ok(Reply::Sent { n: k })
    }

    // A send step of a device with a budget.
    pub(crate) fn send(&mut self, dev: u32, n: u32) -> Result<Reply<'static>, NoMemory>
        ensures { IfOk result (λ reply. send self.old dev n ≡ (self.new, reply)) }
    {
        match self.must_stage_first(dev) {
            None => Ok(Reply::Idle),
            Some(true) => self.stage(dev, n),
            Some(false) => self.send_next(dev, n),
        }
    }

    // Whether the host of a device may fail after `k` bytes of a send step.
    pub(crate) fn may_fail_sending(&self, dev: u32, k: u32) -> bool
        ensures { result ≡ may_fail_sending self.now dev k }
    {
        match first_queued(self.transfers.as_slice(), dev) {
            None => false,
            Some(transfer) => {
                !self.must_stage(dev, transfer) && (k == 0 || u64::from(k) < transfer.unsent())
            }
        }
    }
}
