//! A host: readable names, reading and writing handles, counts of faults.
ghost use Rattle.std.specs.Prelude.{◌≡◌, ℕ, ◌<◌, [], IfOk};
ghost use Rattle.std.specs.Io.{ReadsAtMost, WritesAtMost};
ghost use Rattle.genie_base.specs.declared.semantics.Direction.TheVariants.{Inward, Outward};
ghost use Rattle.genie_host.specs.Host.{HostView, HandleState, Mode, Reading, Writing, Reads, Writes, Opens, empty_told};

use thiserror::Error;

/// A read or a write failed.
#[derive(Clone, Copy, Debug, PartialEq, Eq, Error)]
#[error("a read or a write failed")]
pub struct Failed;

/// Why nothing was opened.
#[derive(Clone, Copy, Debug, PartialEq, Eq, Error)]
pub enum OpenRefused {
    #[error("no memory")]
    Memory,
    #[error("an opening failed")]
    Failed,
}

pub trait Host {
    /// All that a contract sees of a host.
    ghost view: { Self → HostView };

    /// Opens a name for reading, with all its bytes left.
    fn open_read(&mut self, name: &[u8]) -> Result<u32, OpenRefused>
        requires { (view self.old).opened < 20 }
        ensures { Opens name.now Inward Reading ((view self.old).names name.now) OpenRefused.Failed (view self.old) (view self.new) result };

    /// Opens a name for writing, as an empty file.
    fn open_write(&mut self, name: &[u8]) -> Result<u32, OpenRefused>
        requires { (view self.old).opened < 20 }
        ensures { Opens name.now Outward Writing (empty_told ((view self.old).handle 0).bytes) OpenRefused.Failed (view self.old) (view self.new) result };

    /// Takes the next bytes into the front of a buffer: none only at the end, or where the buffer is empty.
    fn read(&mut self, handle: u32, into: &mut [u8]) -> Result<usize, Failed>
        requires { ((view self.old).handle handle).mode ≡ Reading }
        ensures bound { ReadsAtMost result into.new }
        ensures step { Reads handle (view self.old) (view self.new) result into.new };

    /// Appends a front of the bytes: one byte at least, where there is one.
    fn write(&mut self, handle: u32, from: &[u8]) -> Result<usize, Failed>
        requires { ((view self.old).handle handle).mode ≡ Writing }
        ensures bound { WritesAtMost result from.now }
        ensures some { IfOk result (λ n. n ≡ 0 → from.now ≡ []) }
        ensures step { Writes handle (view self.old) (view self.new) result from.now };

    /// The reply output is a writing handle at every moment.
    ghost output: { (host : Self) → ((view host).handle 0).mode ≡ Writing };
}
