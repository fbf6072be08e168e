//! The made script and streams, and the summary of a reply text.
ghost use Rattle.std.specs.Prelude.{◌≡◌, ◌<◌, ◌≤◌, ◌+◌, length};
ghost use Rattle.genie_host.specs.Host.{Reading, Writing};

use crate::GenHost;
use genie_host::{Failed, Host};
use sha2::{Digest, Sha256};
use std::test::Fail;

// The digest of a handle's bytes, read in pieces of this many at most.
fn digest_of<H: Host>(host: &mut H, handle: u32, piece: usize) -> [u8; 32]
    requires input { ((H.view host.old).handle handle).mode ≡ Reading }
    requires most { piece ≤ 64 }
{
    let mut hasher = Sha256::new();
    let mut into = [0u8; 64];
    'pieces: for _ in 0..1000000u32 {
        let count = match host.read(handle, &mut into[..piece]) {
            Ok(count) => count,
            Err(Failed) => return hasher.finalize(),
        };
        if count == 0 {
            return hasher.finalize();
        }
        hasher.update(&into[..count]);
    }
    hasher.finalize()
}

fn digest_named<H: Host>(host: &mut H, name: &[u8], piece: usize) -> Option<[u8; 32]>
    requires fresh { (H.view host.old).opened ≡ 0 }
    requires most { piece ≤ 64 }
{
    match host.open_read(name) {
        Ok(handle) => Some(digest_of(host, handle, piece)),
        Err(_) => None,
    }
}

// The digest of a file of fifty rounds.
fn made(name: &[u8], piece: usize) -> Option<[u8; 32]>
    requires { piece ≤ 64 }
{
    let mut host = GenHost::new(7, 50);
    digest_named(&mut host, name, piece)
}

// The digests come from another implementation of the same definitions.
const MADE: [u8; 32] = [
    0x37, 0xfc, 0x19, 0xc1, 0xe7, 0x6b, 0xa7, 0xe1, 0x9c, 0x92, 0x33, 0xa5, 0xd1, 0xb3, 0x24, 0x81,
    0xd1, 0x7d, 0x5c, 0x70, 0x9d, 0x40, 0xd5, 0x3c, 0xbe, 0x83, 0xef, 0xa3, 0x42, 0xcb, 0x27, 0x9b,
];

const EARLY_INPUT: [u8; 32] = [
    0x27, 0x60, 0x9c, 0x85, 0xcf, 0xd6, 0xa7, 0x5f, 0x86, 0xa9, 0x7f, 0x84, 0xd6, 0xa3, 0x11, 0xca,
    0xde, 0x27, 0xe2, 0x5c, 0x63, 0xf2, 0x42, 0xb1, 0x7c, 0xe3, 0x16, 0x96, 0x08, 0xd8, 0xf9, 0x6b,
];

const POOLED_INPUT: [u8; 32] = [
    0x00, 0x42, 0x64, 0x0c, 0x0e, 0x04, 0xcd, 0xff, 0x5d, 0x81, 0xb4, 0x27, 0xb7, 0x89, 0xc6, 0x04,
    0x76, 0x95, 0x4c, 0x70, 0x8d, 0x1a, 0x18, 0x83, 0x1c, 0xed, 0x23, 0xbf, 0x7c, 0x65, 0x96, 0xcd,
];

const OUTBOARD_INPUT: [u8; 32] = [
    0x97, 0x73, 0xcd, 0x8d, 0x2f, 0x9d, 0x9c, 0xc1, 0x5b, 0x91, 0x2e, 0xe7, 0x9f, 0xfc, 0x96, 0x14,
    0xf1, 0xe5, 0x25, 0x9a, 0x0e, 0xd0, 0x35, 0x99, 0xb6, 0x1f, 0x47, 0x7b, 0x8e, 0x1d, 0xd1, 0x1b,
];

#[test]
fn files_are_the_same_in_any_pieces(rt: HostRuntime) -> Result<(), Fail> {
    for piece in [1, 7, 64] {
        assert_eq!(rt; made(b"made", piece), Some(MADE));
        assert_eq!(rt; made(b"i0", piece), Some(EARLY_INPUT));
        assert_eq!(rt; made(b"i1", piece), Some(POOLED_INPUT));
        assert_eq!(rt; made(b"i2", piece), Some(OUTBOARD_INPUT));
    }
    Ok(())
}

// Whether the next read gives these bytes.
fn reads_next<H: Host>(host: &mut H, handle: u32, want: &[u8]) -> bool
    requires { ((H.view host.old).handle handle).mode ≡ Reading }
    ensures { ((H.view host.new).handle handle).mode ≡ Reading }
{
    let mut into = [0u8; 200];
    match host.read(handle, &mut into) {
        Ok(count) => &into[..count] == want,
        Err(Failed) => false,
    }
}

// Whether the made script begins with these pieces.
fn begins_with<H: Host>(host: &mut H, pieces: &[&[u8]]) -> bool
    requires { (H.view host.old).opened ≡ 0 }
{
    let handle = match host.open_read(b"made") {
        Ok(handle) => handle,
        Err(_) => return false,
    };
    for piece in pieces {
        if !reads_next(host, handle, piece) {
            return false;
        }
    }
    true
}

const FIRST: &[&[u8]] = &[
    b"boot 16 64 128 16 8\ndevice 0 early i0 o0 1 0\ndevice 1 pooled i1 o1 1 5\ndevice 2 outboard i2 o2 2 0\nspawn 0\nspawn 1\nmap 0 0 8\n",
    b"write 0 41 404142434445464748494a4b4c4d4e4f\n",
    b"out 0 es 2 7 41 4\n",
    b"in 0 ec 2 9 40 21\n",
    b"recv 2 4\n",
];

#[test]
fn the_script_begins_so(rt: HostRuntime) -> Result<(), Fail> {
    let mut host = GenHost::new(7, 2);
    assert!(rt; begins_with(&mut host, FIRST));
    Ok(())
}

// Writes these replies one by one.
fn reply_all<H: Host>(host: &mut H, replies: &[&[u8]]) -> bool {
    for reply in replies {
        match host.write(0, reply) {
            Ok(_) => {}
            Err(Failed) => return false,
        }
    }
    true
}

const REPLIES: &[&[u8]] = &[
    b"ok\n",
    b"id 1\n",
    b"sent 10\nstaged 5\n",
    b"err proc\nfault store\nfau",
    b"lt 3\ngot 4",
    b"8\nsent 7\n",
];

const DIGEST: [u8; 32] = [
    0x90, 0x10, 0x53, 0x43, 0x46, 0x33, 0x15, 0xb3, 0xe0, 0xd0, 0xf9, 0xfb, 0xfb, 0xd5, 0xc1, 0xc6,
    0x07, 0x43, 0xe8, 0xf8, 0xce, 0x2d, 0xd1, 0xfa, 0x9a, 0xf3, 0x94, 0x01, 0xfb, 0x04, 0x14, 0xc1,
];

#[test]
fn replies_are_counted_and_hashed(rt: HostRuntime) -> Result<(), Fail> {
    let mut host = GenHost::new(1, 1);
    assert!(rt; reply_all(&mut host, REPLIES));
    let summary = host.summary();
    assert_eq!(rt; [summary.events, summary.errs, summary.faults], [8, 1, 2]);
    assert_eq!(rt; [summary.sent, summary.got], [17, 48]);
    assert_eq!(rt; summary.digest, DIGEST);
    Ok(())
}
