//! A script of 48 datagrams of 61,440 bytes, by eight semantics on three kinds of device.

use crate::templates::{Field, fill};
use std::alloc::{AllocError, Global};

// The boot part.
const BOOT: &str =
    "boot 4096 64 256 1024 2048\ndevice 0 early i0 o0 1 0\ndevice 1 pooled i1 o1 1 0\ndevice 2 outboard i2 o2 1 0\n";

// One datagram in and out, by an application's and by a system's buffer: the lines, and the replies. `D` is the device, `S`
// the semantics, `K` and `L` are the numbers of the input and of the output.
const APP: (&str, &str) = (
    "in D S D 9 0 61440\nrecv D 61448\ndone K\nout D S D 9 0 61440\n",
    "id K\ngot 61448\nin 61440\nid L\n",
);

const SYS: (&str, &str) = (
    "in D S D 9 - 61440\nrecv D 61448\ndone K\nout D S D 9 2097152 61440\n",
    "id K\ngot 61448\nin 2097152 61440\nid L\n",
);

const SEMANTICS: [(&str, (&str, &str)); 8] = [
    ("c", APP),
    ("ec", APP),
    ("s", APP),
    ("es", APP),
    ("m", SYS),
    ("em", SYS),
    ("w", SYS),
    ("ew", SYS),
];

// The datagram of one semantics, which an outboard device stages first.
fn put_datagram(
    script: &mut Vec<u8>,
    replies: &mut Vec<u8>,
    lines: (&str, &str),
    device: u32,
    fields: &[(u8, Field)],
) -> Result<(), AllocError> {
    fill(script, lines.0, fields)?;
    fill(replies, lines.1, fields)?;
    if device == 2 {
        fill(script, "send D 61448\n", fields)?;
        fill(replies, "staged 61440\n", fields)?;
    }
    fill(script, "send D 61448\ndone L\n", fields)?;
    fill(replies, "sent 61448\nout 61440\n", fields)
}

// The device's part of the script: a datagram by each semantics, the numbers from this one on.
fn put_device(
    script: &mut Vec<u8>,
    replies: &mut Vec<u8>,
    device: u32,
    first: u32,
) -> Result<(), AllocError> {
    fill(
        script,
        "spawn D\nmap D 0 15\n",
        &[(b'D', Field::Number(device))],
    )?;
    replies.extend_from_slice(b"ok\nok\n")?;
    let mut number = first;
    for (semantics, lines) in SEMANTICS {
        let fields = [
            (b'D', Field::Number(device)),
            (b'S', Field::Word(semantics)),
            (b'K', Field::Number(number)),
            (b'L', Field::Number(number.saturating_add(1))),
        ];
        put_datagram(script, replies, lines, device, &fields)?;
        number = number.saturating_add(2);
    }
    Ok(())
}

/// The script, and the replies to it. Each device `d` of 0, 1 and 2 has an input `id`, which holds `records`, and an output
/// `od`, which is to hold the same.
pub fn datagrams(alloc: Global) -> Result<(Vec<u8>, Vec<u8>), AllocError> {
    let mut script = Vec::new(alloc);
    let mut replies = Vec::new(alloc);
    script.extend_from_slice(BOOT.as_bytes())?;
    replies.extend_from_slice(b"ok\n")?;
    put_device(&mut script, &mut replies, 0, 1)?;
    put_device(&mut script, &mut replies, 1, 17)?;
    put_device(&mut script, &mut replies, 2, 33)?;
    Ok((script, replies))
}

/// Eight records of 61,440 bytes, which rise from the record's place.
pub fn records(alloc: Global) -> Result<Vec<u8>, AllocError> {
    let mut stream = Vec::new(alloc);
    for first in 0..8u8 {
        stream.extend_from_slice(b"GD\x00\x09\x00\x00\xf0\x00")?;
        let mut byte = first;
        for _ in 0..61440u32 {
            stream.push(byte)?;
            byte = byte.wrapping_add(1);
        }
    }
    Ok(stream)
}
