//! How a run ends.
ghost use Rattle.std.specs.Prelude.{◌≡◌, ◌+◌, ◌≤◌, ◌++◌, [], length, decimal};
ghost use Rattle.genie_replay.specs.Statuses.{code_of, status_of, status_text};

use genie_script::{Ending, LineBuffer};
use itoa::Buffer;

/// How a run ends. Lines are counted from 1.
#[derive(Clone, Copy, Debug, PartialEq, Eq)]
pub enum Status {
    /// The script was read to its end, and all replies are written.
    Done,
    /// The words aren't those of a command.
    Usage,
    /// This line isn't a script line in its place.
    BadLine(u64),
    /// A file failed.
    HostFault,
    /// Memory ran out.
    NoMemory,
    /// A line is too long, or there are too many lines.
    TooLong,
    /// This line breaks a bound of the boot part, or there is no boot line: 0.
    BadBoot(u64),
}

fn put_numbered(out: &mut LineBuffer, before: &[u8], line: u64, after: &[u8])
    requires empty { out.old ≡ [] }
    requires short { length before.now + length after.now ≤ 100 }
    ensures { out.new ≡ before.now ++ decimal line ++ after.now }
{
    let mut buffer = Buffer::new();
    out.push_slice(before);
    out.push_slice(buffer.format(line).as_bytes());
    out.push_slice(after);
}

impl Status {
    /// The status of a run that came to the script's end.
    pub fn of(ending: Ending) -> Status
        ensures { result ≡ status_of ending }
    {
        match ending {
            Ending::End => Status::Done,
            Ending::BadLine(line) => Status::BadLine(line),
            Ending::TooLong => Status::TooLong,
            Ending::BadBoot(line) => Status::BadBoot(line),
        }
    }

    /// The code that the program ends with.
    pub fn code(self) -> u8
        ensures { result ≡ code_of self }
    {
        match self {
            Status::Done => 0,
            Status::Usage => 1,
            Status::BadLine(_) => 2,
            Status::HostFault => 3,
            Status::NoMemory => 4,
            Status::TooLong => 5,
            Status::BadBoot(_) => 6,
        }
    }
}

/// Writes the text of a status, without a line end, into an empty buffer.
pub fn put_status(status: &Status, out: &mut LineBuffer)
    requires { out.old ≡ [] }
    ensures { out.new ≡ status_text status.now }
{
    match status {
        Status::Done => {}
        Status::Usage => out.push_slice(
            b"usage: genie replay SCRIPT, genie cost SCRIPT or genie make SEED ROUNDS",
        ),
        Status::BadLine(line) => put_numbered(out, b"line ", *line, b" is not a script line"),
        Status::HostFault => out.push_slice(b"a file or the store failed"),
        Status::NoMemory => out.push_slice(b"no memory"),
        Status::TooLong => out.push_slice(b"script too long"),
        Status::BadBoot(0) => out.push_slice(b"no boot line"),
        Status::BadBoot(line) => put_numbered(out, b"line ", *line, b" breaks a boot bound"),
    }
}
