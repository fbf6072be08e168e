//! What an output call names.
ghost use Rattle.std.specs.Prelude.{◌≡◌};
ghost use Rattle.genie_outputs.specs.Calls.{is_plain};

use genie_base::Semantics;

/// An output call: `len` bytes of process `pid`'s memory from address `addr` on, for a port of a device.
#[derive(Clone, Copy, Debug, PartialEq, Eq)]
pub struct Call {
    pub pid: u32,
    pub sem: Semantics,
    pub dev: u32,
    pub port: u16,
    pub flow: Option<u32>,
    pub addr: u32,
    pub len: u32,
}

/// Whether the bytes of a call of class `Copy` are copied at once: where it isn't emulated, and where it has at most
/// `threshold` bytes.
pub fn is_plain(sem: Semantics, len: u32, threshold: u32) -> bool
    ensures { result ≡ is_plain sem len threshold }
{
    !sem.emulated() || len <= threshold
}
