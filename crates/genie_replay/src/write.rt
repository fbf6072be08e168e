//! Writing a whole text to a handle, whose `write` may take a front of it.
ghost use Rattle.std.specs.Prelude.{◌≡◌};
ghost use Rattle.genie_host.specs.Host.{Writing};
ghost use Rattle.genie_replay.specs.Write.{WritesAll};

use genie_host::{Failed, Host};

/// Writes all of the bytes. After a failure a front of them is written.
pub fn write_all<H: Host>(host: &mut H, handle: u32, bytes: &[u8]) -> Result<(), Failed>
    requires { ((H.view host.old).handle handle).mode ≡ Writing }
    ensures { WritesAll handle (H.view host.old) (H.view host.new) result bytes.now }
{
    let mut rest = bytes;
    while !rest.is_empty() {
        let count = host.write(handle, rest)?;
        rest = &rest[count..];
    }
    Ok(())
}
