//! Writing a line word by word.
ghost use Rattle.std.specs.Prelude.{◌≡◌, ◌+◌, ◌*◌, ◌<◌, ◌≤◌, ◌∷◌, ◌++◌, [], length, map, decimal};
ghost use Rattle.genie_script.specs.Hex.{hex_digit, hex_text};
ghost use Rattle.genie_script.specs.Names.{file_text, port_text};
ghost use Rattle.genie_script.specs.Spelling.{spaced};

use crate::line_buffer::LineBuffer;
use crate::name::Name;
use itoa::Buffer;

/// Appends a number.
fn push_number(out: &mut LineBuffer, n: u32)
    requires { length out.old ≤ 8310 }
    ensures text { out.new ≡ out.old ++ decimal n }
    ensures most { length out.new ≤ length out.old + 10 }
{
    let mut digits = Buffer::new();
    out.push_slice(digits.format(n).as_bytes());
}

/// Appends a space and a word.
pub(crate) fn put_word(out: &mut LineBuffer, word: &[u8])
    requires { length out.old + length word.now < 8320 }
    ensures { out.new ≡ out.old ++ 32 ∷ word.now }
{
    out.push(b' ');
    out.push_slice(word);
}

/// Appends a space and a number.
pub(crate) fn put_number(out: &mut LineBuffer, n: u32)
    requires { length out.old ≤ 8309 }
    ensures text { out.new ≡ out.old ++ 32 ∷ decimal n }
    ensures most { length out.new ≤ length out.old + 11 }
{
    out.push(b' ');
    push_number(out, n);
}

/// Writes a word and up to five numbers into an empty buffer.
pub(crate) fn put_numbers(out: &mut LineBuffer, word: &[u8], numbers: &[u32])
    requires empty { out.old ≡ [] }
    requires short { length word.now ≤ 7 }
    requires few { length numbers.now ≤ 5 }
    ensures text { out.new ≡ spaced (word.now ∷ map decimal numbers.now) }
    ensures most { length out.new ≤ 62 }
{
    out.push_slice(word);
    'numbers: for n in numbers {
        put_number(out, *n);
    }
}

/// Appends a space and a port, with its flow after a dot.
pub(crate) fn put_port(out: &mut LineBuffer, port: u16, flow: Option<u32>)
    requires { length out.old ≤ 8290 }
    ensures text { out.new ≡ out.old ++ 32 ∷ port_text port flow }
    ensures most { length out.new ≤ length out.old + 22 }
{
    put_number(out, u32::from(port));
    if let Some(flow) = flow {
        out.push(b'.');
        push_number(out, flow);
    }
}

/// Appends a space and the name of a file, or `-` for none.
pub(crate) fn put_file(out: &mut LineBuffer, file: &Option<Name>)
    requires { length out.old ≤ 8064 }
    ensures text { out.new ≡ out.old ++ 32 ∷ file_text file.now }
    ensures most { length out.new ≤ length out.old + 256 }
{
    match file {
        None => put_word(out, b"-"),
        Some(name) => put_word(out, name.as_slice()),
    }
}

fn hex_of(nibble: u8) -> u8
    requires { nibble < 16 }
    ensures { result ≡ hex_digit nibble }
{
    if nibble < 10 {
        b'0' + nibble
    } else {
        b'a' + (nibble - 10)
    }
}

/// Appends a space and bytes as hex digits.
pub(crate) fn put_hex(out: &mut LineBuffer, bytes: &[u8])
    requires { length out.old + 2 * length bytes.now < 8320 }
    ensures text { out.new ≡ out.old ++ 32 ∷ hex_text bytes.now }
    ensures most { length out.new ≡ length out.old + 1 + 2 * length bytes.now }
{
    out.push(b' ');
    'bytes: for byte in bytes {
        out.push(hex_of(*byte / 16));
        out.push(hex_of(*byte % 16));
    }
}
