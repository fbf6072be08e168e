//! An input call.
ghost use Rattle.std.specs.Prelude.{◌≡◌};
ghost use Rattle.genie_inputs.specs.Calls.{transfer_of};

use genie_base::{Direction, Note, RegionId, Semantics, TransferId};
use genie_kernel::{Loans, Transfer};
use genie_model::Phase;

/// What every input call says: who makes it and how, for which datagrams, and how many bytes its buffer has.
#[derive(Clone, Copy, Debug, PartialEq, Eq)]
pub struct Call {
    /// The process.
    pub pid: u32,
    pub sem: Semantics,
    pub dev: u32,
    pub port: u16,
    /// Of the records of its port it takes only those of this flow, where it names one.
    pub flow: Option<u32>,
    /// In bytes.
    pub len: u32,
}

impl Call {
    // The transfer of this call, which waits for its datagram.
    pub(crate) fn transfer(
        self,
        id: TransferId,
        addr: u32,
        region: Option<RegionId>,
        offset: u32,
        loans: Loans,
    ) -> Transfer
        ensures { result ≡ transfer_of self id addr region offset loans }
    {
        Transfer {
            id,
            owner: Some(self.pid),
            sem: self.sem,
            dir: Direction::Inward,
            dev: self.dev,
            port: self.port,
            flow: self.flow,
            addr,
            region,
            offset,
            len: self.len,
            phase: Phase::Posted,
            loans,
            buffer: None,
            stored: 0,
            note: Note::Whole,
        }
    }
}
