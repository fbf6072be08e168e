ghost use Rattle.std.specs.Prelude.{◌≤◌, length};

use super::*;
use genie_base::{Note, PageBuffer, Refusal, Reply};
use std::process::Abort;
use std::test::*;

const LINES: &str = "\
boot 16 32 64 16 8
boot 4294967295 0 0 0 0
device 0 early i0 o0 1 0
device 7 pooled - - 4 15
device 2 outboard a/b.c ~! 1 0
device 1 early -- - 1 0
spawn 0
spawn 4294967295
fork 0 1
exit 15
map 0 0 8
alloc 0 2
unmap 0 512
protect 0 0 r
protect 0 0 rw
read 0 8192 16
write 0 14 aabbccdd
write 0 0 0f
out 0 c 0 5 0 32
out 0 ec 0 5.8 0 32
out 0 s 0 65535 0 32
out 0 es 0 0.0 0 32
out 0 m 0 5 8192 32
out 0 em 0 5 8192 32
out 0 w 0 5 8192 32
out 0 ew 0 5.4294967295 8192 32
in 0 c 0 5 5 40
in 0 ec 0 5.8 0 4
in 0 s 0 5 0 4
in 0 es 0 5 0 4
in 0 m 0 5 - 32
in 0 em 0 5 - 0
in 0 w 0 5.7 - 32
in 0 ew 0 5 - 32
send 0 40
recv 0 300
done 1
cancel 4294967295
pageout 32";

const BLANK: &str = "\
# comment

#
#boot 16 32 64 16 8
#\t\u{7f}";

const BAD: &str = "\
boot
 
boot 16 32 64 16
boot 16 32 64 16 8 0
boot 16 32 64 16 08
boot  16 32 64 16 8
boot 16 32 64 16 8 
boot\t16 32 64 16 8
 boot 16 32 64 16 8
Boot 16 32 64 16 8
device 0 early i0 o0 1
device 0 late i0 o0 1 0
device 0 early  o0 1 0
device 0 early i\t o0 1 0
spawn
spawn 00
spawn 01
spawn +1
spawn -1
spawn 4294967296
spawn 18446744073709551616
spawn 1x
spawn 0 
spawn  0
spawn 0 0
spawn\t0
spawns 0
fork 0
exit 0 1
map 0 0
map 0 0 8 8
alloc 0 2 2
unmap 0
protect 0 0
protect 0 0 w
protect 0 0 rwx
protect 0 0 -
read 0 0 01
write 0 0
write 0 0 
write 0 0 a
write 0 0 aab
write 0 0 AA
write 0 0 aG
write 0 0 ag
write 0 0 aa bb
out 0 c 0 5 0
out 0 c 0 5 - 32
out 0 m 0 5 - 32
out 0 x 0 5 0 32
out 0 ce 0 5 0 32
out 0 c 0 65536 0 32
out 0 c 0 05 0 32
out 0 c 0 5. 0 32
out 0 c 0 .5 0 32
out 0 c 0 5.08 0 32
out 0 c 0 5.4294967296 0 32
out 0 c 0 5.6.7 0 32
in 0 c 0 5 - 32
in 0 es 0 5 - 32
in 0 m 0 5 8192 32
in 0 ew 0 5 0 32
in 0 m 0 5 -
in 0 m 0 5 -- 32
send 0
recv 0 300 1
done
cancel -
pageout
pageout 1 1
unknown 0
; comment";

fn is_line(line: &[u8]) -> bool {
    parse_line(line, &mut PageBuffer::new()).is_ok()
}

fn is_spelled(line: &[u8], spelling: &[u8]) -> bool {
    let mut bytes = PageBuffer::new();
    let Ok(line) = parse_line(line, &mut bytes) else {
        return false;
    };
    let mut out = LineBuffer::new();
    put_line(&line, &mut out);
    out.as_slice() == spelling
}

fn text(head: &[u8], byte: u8, count: usize, tail: &[u8]) -> LineBuffer
    requires { length head.now ≤ 100 }
{
    let mut out = LineBuffer::new();
    out.push_slice(head);
    for _ in 0..count {
        if out.len() < 8300 {
            out.push(byte);
        }
    }
    if out.len() + tail.len() < 8320 {
        out.push_slice(tail);
    }
    out
}

fn said(rt: &impl Abort, reply: Reply, text: &[u8]) {
    let mut out = LineBuffer::new();
    put_reply(&reply, &mut out);
    assert_eq!(rt; out.as_slice(), text);
}

#[test]
fn lines(rt: HostRuntime) {
    for line in LINES.lines() {
        assert!(rt; is_spelled(line.as_bytes(), line.as_bytes()), "{line}");
    }
    for line in BLANK.lines() {
        assert!(rt; is_spelled(line.as_bytes(), b""), "{line}");
    }
    for line in BAD.lines() {
        assert!(rt; !is_line(line.as_bytes()), "{line}");
    }
}

#[test]
fn longest_lines(rt: HostRuntime) {
    let page = text(b"write 0 0 ", b'a', 8192, b"");
    assert!(rt; is_spelled(page.as_slice(), page.as_slice()));
    assert!(rt; !is_line(text(b"write 0 0 ", b'a', 8193, b"").as_slice()));
    assert!(rt; !is_line(text(b"write 0 0 ", b'a', 8194, b"").as_slice()));
    let name = text(b"device 0 early - ", b'n', 255, b" 1 0");
    assert!(rt; is_spelled(name.as_slice(), name.as_slice()));
    assert!(rt; !is_line(text(b"device 0 early - ", b'n', 256, b" 1 0").as_slice()));
    assert!(rt; is_spelled(b"# \x00\xff\t", b""));
    assert!(rt; is_spelled(text(b"#", 0xff, 8299, b"").as_slice(), b""));
    assert!(rt; Name::new(b"-").is_none());
    assert!(rt; Name::new(b"").is_none());
    assert!(rt; Name::new(b"a b").is_none());
    let name = Name::new(b"--");
    assert!(rt; matches!(name, Some(name) if name.as_slice() == b"--".as_slice()));
    lines_have_one_spelling();
}

fn page() -> PageBuffer {
    let mut bytes = PageBuffer::new();
    bytes.push(0x0a);
    bytes.push(0xff);
    bytes
}

#[test]
fn replies(rt: HostRuntime) {
    said(&rt, Reply::Okay, b"ok\n");
    said(&rt, Reply::Bytes(page().lend()), b"data 0aff\n");
    said(&rt, Reply::At { addr: 8192 }, b"at 8192\n");
    said(&rt, Reply::Id { id: 1 }, b"id 1\n");
    said(&rt, Reply::Sent { n: 40 }, b"sent 40\n");
    said(&rt, Reply::Staged { n: 0 }, b"staged 0\n");
    said(&rt, Reply::Got { n: 4294967295 }, b"got 4294967295\n");
    said(&rt, Reply::Output { n: 32 }, b"out 32\n");
    said(&rt, Reply::Gone, b"gone\n");
    said(&rt, Reply::Lost, b"lost\n");
    said(&rt, Reply::Fault { n: 3 }, b"fault 3\n");
    said(&rt, Reply::StoreFault, b"fault store\n");
    said(&rt, Reply::Idle, b"idle\n");
    said(&rt, Reply::End, b"end\n");
    said(&rt, Reply::Bad, b"bad\n");
    said(&rt, Reply::Busy, b"busy\n");
    said(&rt, Reply::Err(Refusal::Denied), b"err denied\n");
    said(&rt, Reply::Err(Refusal::Transfers), b"err transfers\n");
}

#[test]
fn replies_with_parts(rt: HostRuntime) {
    for (flow, text) in [
        (None, b"drop 5 1\n".as_slice()),
        (Some(7), b"drop 5.7 1\n".as_slice()),
    ] {
        said(
            &rt,
            Reply::Dropped {
                port: 5,
                flow,
                len: 1,
            },
            text,
        );
    }
    for (at, note, text) in [
        (None, Note::Whole, b"in 16\n".as_slice()),
        (None, Note::Cut, b"in 16 cut\n".as_slice()),
        (Some(8192), Note::Whole, b"in 8192 16\n".as_slice()),
        (Some(8192), Note::Trunc, b"in 8192 16 trunc\n".as_slice()),
    ] {
        said(&rt, Reply::Input { at, n: 16, note }, text);
    }
}
