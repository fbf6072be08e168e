//! Scripts of one semantics on one kind of device, at any page size.
ghost use Rattle.std.specs.Prelude.{◌≡◌, ◌≤◌};

use crate::scenes::{Input, Scene};
use crate::stepping::{Course, Ending, run};
use crate::wiring::Trouble;
use genie_base::NoMemory;
use genie_rows::templates::{Field, fill};
use genie_store::Store;
use std::alloc::Global;

/// A semantics, on a device of one kind, at a page size from 16 to 4,096.
#[derive(Clone, Copy, Debug, PartialEq, Eq)]
pub struct Case {
    pub page: u32,
    pub kind: &'static str,
    pub semantics: &'static str,
    /// The buffers are regions of the system area.
    pub system: bool,
}

/// The eight semantics, and whether their buffers are regions of the system area.
pub const SEMANTICS: [(&str, bool); 8] = [
    ("c", false),
    ("ec", false),
    ("s", false),
    ("es", false),
    ("m", true),
    ("em", true),
    ("w", true),
    ("ew", true),
];

/// The three kinds of device.
pub const KINDS: [&str; 3] = ["early", "pooled", "outboard"];

// `P` is the page size, `Q` half of it, `D` the device's kind, `E` its depth, and `F` its offset.
const BOOT: &str = "boot P 80 256 P Q\ndevice 0 D i0 o0 E F\nspawn 0\n";

// `S` is the semantics. `A`, `B` and `C` are addresses in the first, the fourth and the sixth page, `N` is the length of a
// buffer of two pages and some bytes, `V` a budget for a header and a part of a page, and `M` one for a whole record. `W`,
// `X`, `Y` and `Z` are sixteen bytes each.
const APPLICATION: &str = "map 0 0 8
write 0 A X
write 0 B Y
out 0 S 0 7 A N
write 0 A Z
send 0 V
fork 0 1
write 0 A W
write 1 B Z
send 0 M
send 0 M
send 0 M
done 1
read 0 A 16
read 1 A 16
in 0 S 0 9 B N
recv 0 V
write 0 B X
fork 0 2
out 0 S 0 7 B 5
recv 0 M
send 0 M
send 0 M
done 3
done 2
read 0 B 16
read 2 B 16
in 0 S 0 9 C N
in 0 S 0 9 A 5
recv 0 M
recv 0 M
exit 1
done 4
done 5
pageout 5
read 0 C 16
in 0 S 0 9 A N
cancel 6
in 0 S 0 9 A N
recv 0 M
recv 0 M
done 7
recv 0 M
read 0 A 16
out 0 S 0 7 B N
unmap 0 0
send 0 M
send 0 M
done 8
map 0 0 8
write 0 A Y
out 0 S 0 7 A N
exit 0
send 0 M
send 0 M
done 9
read 2 B 16
exit 2
";

// `G` is the first address of the system area, and `H` one in its first page.
const SYSTEM: &str = "map 0 0 2
alloc 0 3
write 0 G X
write 0 H Y
out 0 S 0 7 G N
write 0 G Z
send 0 V
fork 0 1
send 0 M
send 0 M
send 0 M
done 1
in 0 S 0 9 - N
recv 0 V
fork 0 2
recv 0 M
done 2
read 0 G 16
write 0 G X
read 0 H 16
out 0 S 0 7 G N
send 0 M
send 0 M
done 3
in 0 S 0 9 - N
in 0 S 0 9 - 5
recv 0 M
recv 0 M
pageout 5
done 4
done 5
read 0 G 16
in 0 S 0 9 - P
cancel 6
in 0 S 0 9 - N
recv 0 M
recv 0 M
done 7
exit 1
out 0 S 0 7 G N
exit 0
send 0 M
send 0 M
done 8
exit 2
";

// The letters of a case.
fn fields_of(case: &Case) -> [(u8, Field); 18]
    requires least { 16 ≤ case.now.page }
    requires most { case.now.page ≤ 4096 }
{
    let page = case.page;
    let (depth, offset) = match case.kind {
        "early" => (1, 0),
        "pooled" => (2, 5),
        _ => (2, 0),
    };
    [
        (b'P', Field::Number(page)),
        (b'Q', Field::Number(page / 2)),
        (b'D', Field::Word(case.kind)),
        (b'E', Field::Number(depth)),
        (b'F', Field::Number(offset)),
        (b'S', Field::Word(case.semantics)),
        (b'A', Field::Number(page - 2)),
        (b'B', Field::Number(3 * page + 1)),
        (b'C', Field::Number(5 * page + 1)),
        (b'G', Field::Number(512 * page)),
        (b'H', Field::Number(513 * page - 2)),
        (b'N', Field::Number(2 * page + 3)),
        (b'V', Field::Number(page + 1)),
        (b'M', Field::Number(3 * page + 12)),
        (b'W', Field::Word("f0f1f2f3f4f5f6f7f8f9fafbfcfdfeff")),
        (b'X', Field::Word("000102030405060708090a0b0c0d0e0f")),
        (b'Y', Field::Word("101112131415161718191a1b1c1d1e1f")),
        (b'Z', Field::Word("202122232425262728292a2b2c2d2e2f")),
    ]
}

// The script of a case.
fn script_of(alloc: Global, case: &Case) -> Result<Vec<u8>, NoMemory>
    requires least { 16 ≤ case.now.page }
    requires most { case.now.page ≤ 4096 }
{
    let fields = fields_of(case);
    let mut text = Vec::new(alloc);
    fill(&mut text, BOOT, &fields)?;
    let rest = if case.system { SYSTEM } else { APPLICATION };
    fill(&mut text, rest, &fields)?;
    Ok(text)
}

// Appends a record of port 9 that says it has `said` payload bytes, and has `bytes` of them.
fn put_record(stream: &mut Vec<u8>, said: u32, bytes: u32) -> Result<(), NoMemory>
    requires { said ≤ 65535 }
{
    stream.extend_from_slice(&[
        b'G',
        b'D',
        0,
        9,
        0,
        0,
        (said / 256) as u8,
        (said % 256) as u8,
    ])?;
    let mut byte = 1u8;
    for _ in 0..bytes {
        stream.push(byte)?;
        byte = byte.wrapping_add(1);
    }
    Ok(())
}

// The input of a case: a record as long as its buffer, a longer one, a short one, and one that is cut off.
fn input_of(alloc: Global, case: &Case) -> Result<Vec<Input>, NoMemory>
    requires { case.now.page ≤ 4096 }
{
    let page = case.page;
    let mut stream = Vec::new(alloc);
    put_record(&mut stream, 2 * page + 3, 2 * page + 3)?;
    put_record(&mut stream, 3 * page + 3, 3 * page + 3)?;
    put_record(&mut stream, 5, 5)?;
    put_record(&mut stream, page, 7)?;
    let mut inputs = Vec::new(alloc);
    inputs.push(Input {
        name: "i0",
        bytes: stream,
    })?;
    Ok(inputs)
}

/// Runs a case over this store, on a host whose calls fail at these places.
pub fn run_case<S: Store>(
    alloc: Global,
    case: &Case,
    failing: &[(&'static str, u64)],
    store: &mut S,
    course: &Course,
) -> Result<Ending, Trouble>
    requires { (S.view store.old).count ≡ 0 }
{
    if case.page < 16 || case.page > 4096 {
        return Err(Trouble::Limits);
    }
    let script = script_of(alloc, case)?;
    let inputs = input_of(alloc, case)?;
    let scene = Scene {
        script: str::from_utf8(script.as_slice()).unwrap_or(""),
        inputs: inputs.as_slice(),
        failing,
        room: 65536,
    };
    run(alloc, &scene, store, course)
}
