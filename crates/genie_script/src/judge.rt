//! What a line of a script says in its place: before the boot line, among the device lines, and behind them.
ghost use Rattle.std.specs.Prelude.{◌≡◌, true, IsTrue, ◌<◌, ◌^◌, Some};
ghost use Rattle.genie_base.specs.Events.{is_whole};
ghost use Rattle.genie_script.specs.Lines.{line_of, is_blank as is_blank_line};
ghost use Rattle.genie_script.specs.declared.line.Line.TheVariants as line;
ghost use Rattle.genie_script.specs.Judge.{boot_fits as fits_boot, bounded, first_said, device_said, event_said, is_device_text, IfTaken, has_place, keeps_limits};

use crate::boot_part::BootPart;
use crate::line::{DeviceLine, Line};
use crate::parse::parse_line;
use crate::words::cut;
use genie_base::{Event, PageBuffer, PageSize};

/// How many lines a script may have.
pub const MOST_LINES: u64 = 1_000_000;

/// How many bytes a line may have, without its end.
pub const LONGEST_LINE: usize = 8300;

/// How a script ends. Lines are counted from 1.
#[derive(Clone, Copy, Debug, PartialEq, Eq)]
pub enum Ending {
    /// With its last line.
    End,
    /// At this line, which isn't a script line in its place.
    BadLine(u64),
    /// At a line of more than 8,300 bytes, or behind a million lines.
    TooLong,
    /// At this line, which breaks a bound of the boot part; or there is no boot line: 0.
    BadBoot(u64),
}

/// What a line comes to.
#[derive(Drop)]
pub enum Judged<T> {
    /// It is blank.
    Passed,
    /// It says this.
    Taken(T),
    /// The script ends here.
    Ends(Ending),
}

/// The numbers of a boot line: the page size in bytes, the page frames, the backing pages, and the two thresholds in
/// bytes.
#[derive(Clone, Copy, Debug, PartialEq, Eq)]
pub struct BootLine {
    pub page: u32,
    pub frames: u32,
    pub slots: u32,
    pub cout: u32,
    pub rcout: u32,
}

// Whether the numbers keep their limits.
fn boot_fits(boot: &BootLine) -> bool
    ensures { result ≡ fits_boot boot.now }
{
    PageSize::new(boot.page).is_some()
        && 16 <= boot.frames
        && boot.frames <= 4096
        && 1 <= boot.slots
        && boot.slots <= 8192
        && u64::from(boot.cout) <= 16 * u64::from(boot.page)
        && boot.rcout <= boot.page
}

fn bounded_boot(before: u64, boot: BootLine) -> Judged<BootLine>
    requires { before < 2 ^ 32 }
    ensures bounded { result ≡ bounded before boot }
    ensures fits { IfTaken result (λ b. fits_boot b ≡ true) }
{
    if boot_fits(&boot) {
        Judged::Taken(boot)
    } else {
        Judged::Ends(Ending::BadBoot(before + 1))
    }
}

/// Judges a line before the boot line, where so many lines stand before it.
pub fn judge_first(before: u64, text: &[u8], into: &mut PageBuffer) -> Judged<BootLine>
    requires { before < 2 ^ 32 }
    ensures said { result ≡ first_said before (line_of text.now) }
    // The numbers of a boot line that was taken keep their limits.
    ensures fits { IfTaken result (λ b. fits_boot b ≡ true) }
{
    match parse_line(text, into) {
        Ok(Line::Blank) => Judged::Passed,
        Ok(
            Line::Boot {
                page,
                frames,
                slots,
                cout,
                rcout,
            },
        ) => bounded_boot(
            before,
            BootLine {
                page,
                frames,
                slots,
                cout,
                rcout,
            },
        ),
        _ => Judged::Ends(Ending::BadLine(before + 1)),
    }
}

fn is_blank(text: &[u8]) -> bool
    ensures { result ≡ is_blank_line text.now }
{
    match text.first() {
        None => true,
        Some(byte) => *byte == b'#',
    }
}

/// Whether a line stands among the device lines: it is blank, or its first word is `device`.
pub fn is_device_line(text: &[u8]) -> bool
    ensures { result ≡ is_device_text text.now }
{
    is_blank(text) || cut(text, b' ').0 == b"device".as_slice()
}

fn bounded_device(
    before: u64,
    script: &[u8],
    part: &BootPart,
    device: DeviceLine,
) -> Judged<DeviceLine>
    requires { before < 2 ^ 32 }
    ensures said { result ≡ device_said script.now part.now before (Some (line.Device device)) }
    ensures place { IfTaken result (λ d. has_place part.now.config d ≡ true) }
    ensures limits { IfTaken result (λ d. keeps_limits part.now.config d ≡ true) }
{
    if part.allows(script, &device) {
        Judged::Taken(device)
    } else {
        Judged::Ends(Ending::BadBoot(before + 1))
    }
}

/// Judges a line among the device lines of the script of this name, by the grammar and then by its bounds.
pub fn judge_device(
    before: u64,
    text: &[u8],
    script: &[u8],
    part: &BootPart,
    into: &mut PageBuffer,
) -> Judged<DeviceLine>
    requires { before < 2 ^ 32 }
    ensures said { result ≡ device_said script.now part.now before (line_of text.now) }
    // A device that was taken keeps its bounds.
    ensures place { IfTaken result (λ d. has_place part.now.config d ≡ true) }
    ensures limits { IfTaken result (λ d. keeps_limits part.now.config d ≡ true) }
{
    match parse_line(text, into) {
        Ok(Line::Blank) => Judged::Passed,
        Ok(Line::Device(device)) => bounded_device(before, script, part, device),
        _ => Judged::Ends(Ending::BadLine(before + 1)),
    }
}

/// Judges a line behind the boot part. The bytes of a `write` are put into the buffer, and the event borrows them.
pub fn judge_event<'a>(before: u64, text: &[u8], into: &'a mut PageBuffer) -> Judged<Event<'a>>
    requires { before < 2 ^ 32 }
    ensures said { result ≡ event_said before (line_of text.now) }
    // An input has an address exactly where the application allocates its buffer, and a write has a byte.
    ensures whole { IfTaken result (λ e. IsTrue (is_whole e)) }
{
    match parse_line(text, into) {
        Ok(Line::Blank) => Judged::Passed,
        Ok(Line::Event(event)) => Judged::Taken(event),
        _ => Judged::Ends(Ending::BadLine(before + 1)),
    }
}
