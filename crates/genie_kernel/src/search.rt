//! What is searched for among the pending transfers.
ghost use Rattle.std.specs.Prelude.{◌≡◌};
ghost use Rattle.genie_kernel.specs.Searches.{passes};

use crate::transfer::Transfer;

/// A test of a transfer.
#[derive(Clone, Copy, Debug, PartialEq, Eq)]
pub enum Search {
    /// The transfer of this number.
    Number(u32),
    /// An output that isn't wholly sent, on this device.
    Waiting(u32),
    /// An input into which this device moves a datagram.
    Receiving(u32),
    /// A transfer that names this region or orphan.
    Naming(u32),
    /// A weak input of this region or orphan.
    WeakInput(u32),
}

impl Search {
    /// Whether the transfer passes.
    pub fn passes(self, transfer: &Transfer) -> bool
        ensures { result ≡ passes self transfer.now }
    {
        match self {
            Search::Number(id) => transfer.has_number(id),
            Search::Waiting(dev) => transfer.waits_for(dev),
            Search::Receiving(dev) => transfer.receives_from(dev),
            Search::Naming(region) => transfer.names(region),
            Search::WeakInput(region) => transfer.is_weak_input_into(region),
        }
    }
}
