//! A reading handle of a host in memory.
ghost use Rattle.std.specs.Prelude.{◌≡◌, ◌<◌, ◌≤◌, ◌++◌, length, take, drop, Some};
ghost use Rattle.std.specs.Io.{ReadsAtMost};
ghost use Rattle.std.specs.Io.KnownBytes.{ReadConsumes};
ghost use Rattle.genie_base.specs.Causes.{HasCause};
ghost use Rattle.genie_host.specs.MemoryParts.{ReadsFrom, left};

use crate::Failed;
use crate::files::{Failure, File, before_failure, bytes_at, meets_failure, name_at};

/// Which file it reads, the place that it has reached there, in bytes, and its count of faults.
#[derive(Drop)]
pub struct Reader {
    pub file: usize,
    pub at: usize,
    pub faults: u64,
}

// The bytes from this place on.
fn tail(bytes: &[u8], at: usize) -> &[u8]
    ensures { result.now ≡ drop at bytes.now }
{
    if at < bytes.len() { &bytes[at..] } else { &[] }
}

// Moves this many bytes into the front of a buffer.
fn copy_front(from: &[u8], count: usize, into: &mut [u8])
    requires from { count ≤ length from.now }
    requires into { count ≤ length into.old }
    ensures { from.now ≡ take count into.new ++ drop count from.now }
{
    into[..count].copy_from_slice(&from[..count]);
}

// Takes the next bytes of the handle's file.
pub(crate) fn read_from(
    files: &[File],
    failing: &mut Vec<Failure>,
    most: usize,
    reader: &mut Reader,
    into: &mut [u8],
) -> Result<usize, Failed>
    requires { 0 < most }
    ensures step { ReadsFrom files.now most failing.old.items failing.new.items reader.old reader.new (length into.old) result }
    ensures within { ReadsAtMost result into.new }
    ensures bytes { ReadConsumes (Some (left files.now reader.old)) (Some (left files.now reader.new)) result into.new }
    ensures cause { HasCause reader.old.faults reader.new.faults result }
{
    let name = name_at(files, reader.file);
    if meets_failure(failing, name, reader.at as u64) {
        reader.faults = reader.faults.saturating_add(1);
        return Err(Failed);
    }
    let left = tail(bytes_at(files, reader.file), reader.at);
    let count = into.len().min(most).min(left.len()) as u64;
    let count = before_failure(failing, name, reader.at as u64, count) as usize;
    copy_front(left, count, into);
    if count > 0 {
        reader.at += count;
    }
    Ok(count)
}
