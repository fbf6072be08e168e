//! One posted input.
ghost use Rattle.std.specs.Prelude.{◌≡◌};
ghost use Rattle.genie_base.specs.Posted.{meets, meets_flow};
ghost use Rattle.genie_demux.specs.Posted.{address, has_id};

/// An input that waits for a datagram.
#[derive(Clone, Copy, Debug, PartialEq, Eq)]
pub struct Input {
    pub device: u32,
    pub port: u16,
    /// The flow that it is for, or none: then it takes every record of its port.
    pub flow: Option<u32>,
    /// The number of its transfer.
    pub id: u32,
}

impl Input {
    /// Whether it has this number.
    pub(crate) fn has_id(&self, id: u32) -> bool
        ensures { result ≡ has_id id self.now }
    {
        self.id == id
    }

    /// Whether a record of this device, port and flow meets it.
    pub fn meets(&self, device: u32, port: u16, flow: Option<u32>) -> bool
        ensures { result ≡ meets device port flow (address self.now) }
    {
        self.device == device && self.port == port && self.meets_flow(flow)
    }

    /// Whether a record with this flow, or without one, meets it.
    fn meets_flow(&self, flow: Option<u32>) -> bool
        ensures { result ≡ meets_flow self.now.flow flow }
    {
        match (self.flow, flow) {
            (None, _) => true,
            (Some(_), None) => false,
            (Some(posted), Some(wanted)) => posted == wanted,
        }
    }
}
