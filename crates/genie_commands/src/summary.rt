//! The six lines of a summary.
ghost use Rattle.std.specs.Prelude.{◌≡◌, ◌+◌, ◌≤◌, ◌++◌, ◌∷◌, [], length, decimal};
ghost use Rattle.hex.specs.Hex.{encode_lower};
ghost use Rattle.genie_commands.specs.Summaries.{counted_line, digest_line, summary_text};

use genie_gen::Summary;
use genie_script::LineBuffer;
use itoa::Buffer;

// Appends a word, a space, and a number, as a line.
fn put_count(out: &mut LineBuffer, word: &[u8], count: u64)
    requires room { length out.old ≤ 200 }
    requires short { length word.now ≤ 6 }
    ensures text { out.new ≡ out.old ++ counted_line word.now count }
    ensures most { length out.new ≤ length out.old + 28 }
{
    let mut digits = Buffer::new();
    out.push_slice(word);
    out.push(b' ');
    out.push_slice(digits.format(count).as_bytes());
    out.push(b'\n');
}

// Appends the digest, as a line.
fn put_digest(out: &mut LineBuffer, digest: &[u8; 32])
    requires { length out.old ≤ 200 }
    ensures { out.new ≡ out.old ++ digest_line digest.now }
{
    let mut digits = [0u8; 64];
    match hex::encode_to_slice(digest.as_slice(), &mut digits) {
        Ok(()) => {}
        Err(_) => unreachable!(),
    }
    out.push_slice(b"sha256 ");
    out.push_slice(&digits);
    out.push(b'\n');
}

/// Writes the lines of a summary into an empty buffer.
pub(crate) fn put_summary(summary: &Summary, out: &mut LineBuffer)
    requires { out.old ≡ [] }
    ensures { out.new ≡ summary_text summary.now }
{
    put_count(out, b"events", summary.events);
    put_count(out, b"err", summary.errs);
    put_count(out, b"faults", summary.faults);
    put_count(out, b"sent", summary.sent);
    put_count(out, b"got", summary.got);
    put_digest(out, &summary.digest);
}
