//! An open handle of a made run.
ghost use Rattle.std.specs.Prelude.{◌≡◌, ◌++◌, Some, IsOk, slice_get, slice_set, ⊤};
ghost use Rattle.std.specs.Io.{ReadsAtMost};
ghost use Rattle.genie_host.specs.Host.{Reading, Writing};
ghost use Rattle.genie_host.specs.Handles.{state_in};
ghost use Rattle.genie_gen.specs.GenView.{ReadsAt, WritesAt, state_of};

use crate::reader::Reader;
use crate::written::Written;
use genie_host::Failed;
use genie_script::LineBuffer;

/// A handle that was opened, by its direction.
#[derive(Drop)]
pub enum Opened {
    Reading(Reader),
    Writing(Written),
}

impl Default for Opened {
    fn default() -> Opened {
        Opened::Writing(Written::new())
    }
}

/// Reads from the handle at this place. The text is room for a piece.
pub(crate) fn read_at(
    opened: &mut [Opened],
    place: usize,
    text: &mut LineBuffer,
    into: &mut [u8],
) -> Result<usize, Failed>
    requires { (state_in state_of (slice_get opened.old place)).mode ≡ Reading }
    ensures bound { ReadsAtMost result into.new }
    ensures step { ReadsAt place opened.old opened.new result into.new }
    ensures works { IsOk result }
{
    match &mut opened[place] {
        Opened::Reading(reader) => reader.read(text, into),
        Opened::Writing(_) => unreachable!(),
    }
}

/// Notes what is written to the handle at this place.
pub(crate) fn write_at(opened: &mut [Opened], place: usize, from: &[u8])
    requires { (state_in state_of (slice_get opened.old place)).mode ≡ Writing }
    ensures step { WritesAt place opened.old opened.new from.now }
{
    match &mut opened[place] {
        Opened::Writing(written) => written.note(from),
        Opened::Reading(_) => unreachable!(),
    }
}
