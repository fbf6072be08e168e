//! Worked scripts: what each is about, its replies, and what its devices receive and send.

/// A script whose run ends with its last line.
pub struct Row {
    pub about: &'static str,
    pub script: &'static str,
    /// The names of the inputs, and their bytes in hex.
    pub inputs: &'static [(&'static str, &'static str)],
    pub replies: &'static str,
    /// The names of the outputs, and what is sent to them in hex.
    pub outputs: &'static [(&'static str, &'static str)],
}

/// Accesses of processes, and what goes without devices.
pub fn accesses() -> &'static [Row] {
    ACCESSES
}

const ACCESSES: &[Row] = &[
    Row {
        about: "a boot line alone",
        script: "boot 16 32 64 16 8\n",
        inputs: &[],
        replies: "ok\n",
        outputs: &[],
    },
    Row {
        about: "fresh pages are zeros",
        script: "boot 16 32 64 16 8\nspawn 0\nmap 0 0 4\nread 0 0 16\n",
        inputs: &[],
        replies: "ok\nok\nok\ndata 00000000000000000000000000000000\n",
        outputs: &[],
    },
    Row {
        about: "a write across two pages",
        script: "boot 16 32 64 16 8\nspawn 0\nmap 0 0 4\nwrite 0 14 aabbccdd\nread 0 13 6\n",
        inputs: &[],
        replies: "ok\nok\nok\nok\ndata 00aabbccdd00\n",
        outputs: &[],
    },
    Row {
        about: "a device without files",
        script: "boot 16 32 64 16 8\ndevice 0 early - - 1 0\nspawn 0\nmap 0 0 4\nout 0 c 0 5 0 1\npageout 1\n",
        inputs: &[],
        replies: "ok\nok\nok\nerr dev\nok\n",
        outputs: &[],
    },
    Row {
        about: "parent and child write apart",
        script: "boot 16 32 64 16 8\nspawn 0\nmap 0 0 4\nwrite 0 0 aa\nfork 0 1\nwrite 0 0 bb\npageout 32\nread 1 0 2\nwrite 1 1 cc\nread 0 0 2\nread 1 0 2\nexit 0\nread 1 0 2\n",
        inputs: &[],
        replies: "ok\nok\nok\nok\nok\nok\nok\ndata aa00\nok\ndata bb00\ndata aacc\nok\ndata aacc\n",
        outputs: &[],
    },
];

/// Outputs of an application's buffers.
pub fn outputs() -> &'static [Row] {
    OUTPUTS
}

const OUTPUTS: &[Row] = &[
    Row {
        about: "a strong output sends the bytes of its call",
        script: "boot 16 32 64 16 8\ndevice 0 early - o0 1 0\nspawn 0\nmap 0 0 4\nwrite 0 0 000102030405060708090a0b0c0d0e0f\nwrite 0 16 101112131415161718191a1b1c1d1e1f\nout 0 ec 0 5 0 32\nwrite 0 0 ffffffffffffffffffffffffffffffff\nwrite 0 16 ffffffffffffffffffffffffffffffff\nsend 0 40\ndone 1\nread 0 0 4\n",
        inputs: &[],
        replies: "ok\nok\nok\nok\nok\nid 1\nok\nok\nsent 40\nout 32\ndata ffffffff\n",
        outputs: &[(
            "o0",
            "4744000500000020000102030405060708090a0b0c0d0e0f101112131415161718191a1b1c1d1e1f",
        )],
    },
    Row {
        about: "a weak output sends the bytes of each step",
        script: "boot 16 32 64 16 8\ndevice 0 early - o0 1 0\nspawn 0\nmap 0 0 4\nwrite 0 0 000102030405060708090a0b0c0d0e0f\nwrite 0 16 101112131415161718191a1b1c1d1e1f\nout 0 es 0 5 0 32\nsend 0 24\nwrite 0 0 ffffffffffffffffffffffffffffffff\nwrite 0 16 ffffffffffffffffffffffffffffffff\nsend 0 16\ndone 1\nread 0 0 4\n",
        inputs: &[],
        replies: "ok\nok\nok\nok\nok\nid 1\nsent 24\nok\nok\nsent 16\nout 32\ndata ffffffff\n",
        outputs: &[(
            "o0",
            "4744000500000020000102030405060708090a0b0c0d0e0fffffffffffffffffffffffffffffffff",
        )],
    },
    Row {
        about: "an output outlives its process",
        script: "boot 16 32 64 16 8\ndevice 0 early - o0 1 0\nspawn 0\nmap 0 0 4\nwrite 0 0 000102030405060708090a0b0c0d0e0f\nwrite 0 16 101112131415161718191a1b1c1d1e1f\nout 0 ec 0 5 0 32\nexit 0\nsend 0 40\ndone 1\n",
        inputs: &[],
        replies: "ok\nok\nok\nok\nok\nid 1\nok\nsent 40\ngone\n",
        outputs: &[(
            "o0",
            "4744000500000020000102030405060708090a0b0c0d0e0f101112131415161718191a1b1c1d1e1f",
        )],
    },
    Row {
        about: "pageout changes nothing",
        script: "boot 16 32 64 16 8\ndevice 0 early - o0 1 0\nspawn 0\nmap 0 0 4\nwrite 0 0 000102030405060708090a0b0c0d0e0f\nwrite 0 16 101112131415161718191a1b1c1d1e1f\nout 0 ec 0 5 0 32\npageout 32\nwrite 0 0 ffffffffffffffffffffffffffffffff\nsend 0 40\ndone 1\nread 0 0 2\n",
        inputs: &[],
        replies: "ok\nok\nok\nok\nok\nid 1\nok\nok\nsent 40\nout 32\ndata ffff\n",
        outputs: &[(
            "o0",
            "4744000500000020000102030405060708090a0b0c0d0e0f101112131415161718191a1b1c1d1e1f",
        )],
    },
    Row {
        about: "a strong output of a range under a weak input",
        script: "boot 16 32 64 0 8\ndevice 0 early i0 o0 1 0\nspawn 0\nmap 0 0 4\nin 0 es 0 5 0 16\nrecv 0 16\nout 0 ec 0 6 0 16\nrecv 0 8\nsend 0 24\ndone 2\ndone 1\n",
        inputs: &[("i0", "47440005000000100102030405060708090a0b0c0d0e0f10")],
        replies: "ok\nok\nok\nid 1\ngot 16\nid 2\ngot 8\nsent 24\nout 16\nin 16\n",
        outputs: &[("o0", "474400060000001001020304050607080000000000000000")],
    },
    Row {
        about: "two outputs of one page, each with the bytes of its call",
        script: "boot 16 32 64 0 8\ndevice 0 early - o0 1 0\nspawn 0\nmap 0 0 4\nwrite 0 0 aa\nout 0 ec 0 5 0 1\nwrite 0 0 bb\nout 0 ec 0 5 0 1\nfork 0 1\nwrite 0 0 cc\nsend 0 9\nsend 0 9\ndone 1\ndone 2\nread 1 0 1\nread 0 0 1\n",
        inputs: &[],
        replies: "ok\nok\nok\nok\nid 1\nok\nid 2\nok\nok\nsent 9\nsent 9\nout 1\nout 1\ndata bb\ndata cc\n",
        outputs: &[("o0", "4744000500000001aa4744000500000001bb")],
    },
];

/// Inputs into an application's buffers.
pub fn inputs() -> &'static [Row] {
    INPUTS
}

const INPUTS: &[Row] = &[
    Row {
        about: "a copy input is stored when it is done",
        script: "boot 16 32 64 16 8\ndevice 0 early i0 - 1 0\nspawn 0\nmap 0 0 4\nwrite 0 0 eeeeeeeeeeeeeeeeeeeeeeeeeeeeeeee\nwrite 0 16 eeeeeeeeeeeeeeeeeeeeeeeeeeeeeeee\nwrite 0 32 eeeeeeeeeeeeeeeeeeeeeeeeeeeeeeee\nin 0 ec 0 5 5 40\nrecv 0 48\nread 0 0 8\ndone 1\nread 0 0 16\nread 0 16 16\nread 0 32 16\n",
        inputs: &[(
            "i0",
            "47440005000000280102030405060708090a0b0c0d0e0f101112131415161718191a1b1c1d1e1f202122232425262728",
        )],
        replies: "ok\nok\nok\nok\nok\nok\nid 1\ngot 48\ndata eeeeeeeeeeeeeeee\nin 40\ndata eeeeeeeeee0102030405060708090a0b\ndata 0c0d0e0f101112131415161718191a1b\ndata 1c1d1e1f202122232425262728eeeeee\n",
        outputs: &[],
    },
    Row {
        about: "a weak input lands as it comes, and a fork has what landed",
        script: "boot 16 32 64 16 8\ndevice 0 early i0 - 1 0\nspawn 0\nmap 0 0 4\nin 0 es 0 5 0 16\nrecv 0 16\nfork 0 1\nrecv 0 8\ndone 1\nread 0 0 16\nread 1 0 16\n",
        inputs: &[("i0", "47440005000000100102030405060708090a0b0c0d0e0f10")],
        replies: "ok\nok\nok\nid 1\ngot 16\nok\ngot 8\nin 16\ndata 0102030405060708090a0b0c0d0e0f10\ndata 01020304050607080000000000000000\n",
        outputs: &[],
    },
    Row {
        about: "a datagram longer than its buffer, and a range that is gone",
        script: "boot 16 32 64 16 8\ndevice 0 early i0 - 1 0\nspawn 0\nmap 0 0 4\nin 0 c 0 5 0 2\nrecv 0 12\ndone 1\nin 0 c 0 5 0 4\nrecv 0 12\nunmap 0 0\ndone 2\ndone 2\n",
        inputs: &[("i0", "474400050000000401020304474400050000000401020304")],
        replies: "ok\nok\nok\nid 1\ngot 12\nin 2 cut\nid 2\ngot 12\nok\nlost\nerr state\n",
        outputs: &[],
    },
    Row {
        about: "a copy input of a pooled device",
        script: "boot 16 32 64 16 8\ndevice 0 pooled i0 - 1 5\nspawn 0\nmap 0 0 4\nwrite 0 0 eeeeeeeeeeeeeeeeeeeeeeeeeeeeeeee\nwrite 0 16 eeeeeeeeeeeeeeeeeeeeeeeeeeeeeeee\nwrite 0 32 eeeeeeeeeeeeeeeeeeeeeeeeeeeeeeee\nin 0 ec 0 5 5 40\nrecv 0 48\nread 0 0 8\ndone 1\nread 0 0 16\nread 0 16 16\nread 0 32 16\n",
        inputs: &[(
            "i0",
            "47440005000000280102030405060708090a0b0c0d0e0f101112131415161718191a1b1c1d1e1f202122232425262728",
        )],
        replies: "ok\nok\nok\nok\nok\nok\nid 1\ngot 48\ndata eeeeeeeeeeeeeeee\nin 40\ndata eeeeeeeeee0102030405060708090a0b\ndata 0c0d0e0f101112131415161718191a1b\ndata 1c1d1e1f202122232425262728eeeeee\n",
        outputs: &[],
    },
    Row {
        about: "a copy input under another threshold",
        script: "boot 16 32 64 16 16\ndevice 0 early i0 - 1 0\nspawn 0\nmap 0 0 4\nwrite 0 0 eeeeeeeeeeeeeeeeeeeeeeeeeeeeeeee\nwrite 0 16 eeeeeeeeeeeeeeeeeeeeeeeeeeeeeeee\nwrite 0 32 eeeeeeeeeeeeeeeeeeeeeeeeeeeeeeee\nin 0 ec 0 5 5 40\nrecv 0 48\nread 0 0 8\ndone 1\nread 0 0 16\nread 0 16 16\nread 0 32 16\n",
        inputs: &[(
            "i0",
            "47440005000000280102030405060708090a0b0c0d0e0f101112131415161718191a1b1c1d1e1f202122232425262728",
        )],
        replies: "ok\nok\nok\nok\nok\nok\nid 1\ngot 48\ndata eeeeeeeeeeeeeeee\nin 40\ndata eeeeeeeeee0102030405060708090a0b\ndata 0c0d0e0f101112131415161718191a1b\ndata 1c1d1e1f202122232425262728eeeeee\n",
        outputs: &[],
    },
];

/// Moves, and regions that are gone.
pub fn moves() -> &'static [Row] {
    MOVES
}

const MOVES: &[Row] = &[
    Row {
        about: "an emulated move out and in",
        script: "boot 16 32 64 16 8\ndevice 0 early i0 o0 1 0\nspawn 0\nmap 0 0 4\nalloc 0 2\nwrite 0 8192 aabbccdd\nout 0 em 0 5 8192 32\nread 0 8192 1\nsend 0 40\ndone 1\nin 0 em 0 5 - 32\nrecv 0 11\ndone 2\nread 0 8192 16\nread 0 8208 16\n",
        inputs: &[("i0", "4744000500000003010203")],
        replies: "ok\nok\nok\nat 8192\nok\nid 1\nerr range\nsent 40\nout 32\nid 2\ngot 11\nin 8192 3\ndata 01020300000000000000000000000000\ndata 00000000000000000000000000000000\n",
        outputs: &[(
            "o0",
            "4744000500000020aabbccdd00000000000000000000000000000000000000000000000000000000",
        )],
    },
    Row {
        about: "a move out and in",
        script: "boot 16 32 64 16 8\ndevice 0 early i0 o0 1 0\nspawn 0\nmap 0 0 4\nalloc 0 2\nwrite 0 8192 aabbccdd\nout 0 m 0 5 8192 32\nread 0 8192 1\nsend 0 40\ndone 1\nin 0 m 0 5 - 32\nrecv 0 11\ndone 2\nread 0 8192 16\nread 0 8208 16\n",
        inputs: &[("i0", "4744000500000003010203")],
        replies: "ok\nok\nok\nat 8192\nok\nid 1\nerr range\nsent 40\nout 32\nid 2\ngot 11\nin 8192 3\ndata 01020300000000000000000000000000\ndata 00000000000000000000000000000000\n",
        outputs: &[(
            "o0",
            "4744000500000020aabbccdd00000000000000000000000000000000000000000000000000000000",
        )],
    },
    Row {
        about: "a removed region under weak transfers",
        script: "boot 16 32 64 16 8\ndevice 0 early i0 o0 1 0\nspawn 0\nmap 0 0 4\nwrite 0 0 eeeeeeeeeeeeeeeeeeeeeeeeeeeeeeee\nin 0 s 0 5 0 16\nout 0 s 0 6 0 16\nrecv 0 16\nunmap 0 0\nrecv 0 8\nsend 0 24\ndone 2\ndone 1\n",
        inputs: &[("i0", "47440005000000100102030405060708090a0b0c0d0e0f10")],
        replies: "ok\nok\nok\nok\nid 1\nid 2\ngot 16\nok\ngot 8\nsent 24\nout 16\nlost\n",
        outputs: &[("o0", "47440006000000100102030405060708090a0b0c0d0e0f10")],
    },
    Row {
        about: "weak moves use a moved-out region again",
        script: "boot 16 32 64 16 8\ndevice 0 early i0 o0 1 0\nspawn 0\nmap 0 0 4\nalloc 0 1\nout 0 w 0 5 8192 4\nread 0 8192 1\nin 0 w 0 5 - 16\nsend 0 12\ndone 1\nin 0 w 0 5 - 16\nrecv 0 9\nrecv 0 9\ndone 2\ndone 3\nread 0 8192 1\n",
        inputs: &[("i0", "4744000500000001aa4744000500000001bb")],
        replies: "ok\nok\nok\nat 8192\nid 1\ndata 00\nid 2\nsent 12\nout 4\nid 3\ngot 9\ngot 9\nin 8208 1\nin 8192 1\ndata bb\n",
        outputs: &[("o0", "474400050000000400000000")],
    },
];

/// The three kinds of device.
pub fn devices() -> &'static [Row] {
    DEVICES
}

const DEVICES: &[Row] = &[
    Row {
        about: "a pool with one buffer",
        script: "boot 16 32 64 16 8\ndevice 0 pooled i0 - 1 5\nspawn 0\nmap 0 0 4\nin 0 c 0 5 0 4\nin 0 c 0 5 8 4\nrecv 0 10\nrecv 0 9\ndone 1\nrecv 0 9\ndone 2\nread 0 0 12\n",
        inputs: &[("i0", "47440005000000020102474400050000000103")],
        replies: "ok\nok\nok\nid 1\nid 2\ngot 10\nbusy\nin 2\ngot 9\nin 1\ndata 010200000000000003000000\n",
        outputs: &[],
    },
    Row {
        about: "an early device matches by the header, a pooled one at the end",
        script: "boot 16 32 64 16 8\ndevice 0 early i0 - 1 0\ndevice 1 pooled i1 - 1 0\nspawn 0\nmap 0 0 4\nrecv 0 10\nin 0 c 0 7 0 2\nrecv 0 2\nrecv 0 1\nrecv 1 9\nin 0 c 1 7 0 2\nrecv 1 1\ndone 2\ncancel 1\nread 0 0 2\n",
        inputs: &[
            ("i0", "47440007000000020102"),
            ("i1", "47440007000000020102"),
        ],
        replies: "ok\nok\nok\ndrop 7 2\nid 1\ngot 2\nend\ngot 9\nid 2\ngot 1\nin 2\nok\ndata 0102\n",
        outputs: &[],
    },
    Row {
        about: "truncated datagrams, headers cut off, and bad ones",
        script: "boot 16 32 64 16 8\ndevice 0 early i0 - 1 0\ndevice 1 early i1 - 1 0\ndevice 2 early i2 - 1 0\nspawn 0\nmap 0 0 4\nin 0 c 0 5 0 8\nrecv 0 12\nrecv 0 1\ndone 1\nrecv 0 1\nrecv 1 8\nrecv 1 8\nrecv 2 8\nrecv 2 1\n",
        inputs: &[
            ("i0", "47440005000000040102"),
            ("i1", "474400"),
            ("i2", "4844000500000000"),
        ],
        replies: "ok\nok\nok\nid 1\ngot 10\ngot 0\nin 2 trunc\nend\ngot 3\nend\nbad\nbad\n",
        outputs: &[],
    },
    Row {
        about: "an outboard device stages a weak output",
        script: "boot 16 32 64 16 8\ndevice 0 outboard - o0 1 0\nspawn 0\nmap 0 0 4\nwrite 0 0 aabbccdd\nout 0 es 0 5 0 4\nsend 0 2\nwrite 0 0 11223344\nsend 0 9\nsend 0 5\nsend 0 99\ndone 1\n",
        inputs: &[],
        replies: "ok\nok\nok\nok\nid 1\nstaged 2\nok\nstaged 2\nsent 5\nsent 7\nout 4\n",
        outputs: &[("o0", "4744000500000004aabb3344")],
    },
    Row {
        about: "an outboard device in both directions",
        script: "boot 16 32 64 16 8\ndevice 0 outboard i0 o0 1 0\nspawn 0\nmap 0 0 4\nin 0 c 0 5 0 4\nrecv 0 12\nrecv 0 1\ndone 1\nrecv 0 1\nout 0 c 0 6 0 4\nsend 0 9\nsend 0 12\ndone 2\n",
        inputs: &[("i0", "474400050000000401020304")],
        replies: "ok\nok\nok\nid 1\ngot 12\nbusy\nin 4\nend\nid 2\nstaged 4\nsent 12\nout 4\n",
        outputs: &[("o0", "474400060000000401020304")],
    },
];

/// Refusals and limits.
pub fn limits() -> &'static [Row] {
    LIMITS
}

const LIMITS: &[Row] = &[
    Row {
        about: "the limit on wired pages",
        script: "boot 16 32 64 16 8\ndevice 0 early - o0 1 0\nspawn 0\nmap 0 0 4\nmap 0 4 16\nout 0 s 0 5 64 256\nout 0 s 0 5 64 192\nout 0 c 0 5 0 1\nsend 0 264\ndone 1\nout 0 c 0 5 0 1\n",
        inputs: &[],
        replies: "ok\nok\nok\nok\nid 1\nid 2\nerr frames\nsent 264\nout 256\nid 3\n",
        outputs: &[(
            "o0",
            "474400050000010000000000000000000000000000000000000000000000000000000000000000000000000000000000000000000000000000000000000000000000000000000000000000000000000000000000000000000000000000000000000000000000000000000000000000000000000000000000000000000000000000000000000000000000000000000000000000000000000000000000000000000000000000000000000000000000000000000000000000000000000000000000000000000000000000000000000000000000000000000000000000000000000000000000000000000000000000000000000000000000000000000000000000000000000000000000",
        )],
    },
    Row {
        about: "the limit on backing pages",
        script: "boot 16 32 64 16 8\nspawn 0\nmap 0 0 64\nmap 0 64 1\nunmap 0 0\nmap 0 64 1\n",
        inputs: &[],
        replies: "ok\nok\nok\nerr backing\nok\nok\n",
        outputs: &[],
    },
    Row {
        about: "refusals",
        script: "boot 16 32 64 16 8\ndevice 0 early - o0 1 0\nspawn 0\nmap 0 0 4\nspawn 0\nspawn 16\nmap 0 511 2\nmap 0 4 65\nmap 0 3 1\nread 0 0 17\nread 0 63 2\nread 1 0 1\nfork 0 0\nfork 0 16\nout 0 m 0 5 0 1\nin 0 c 0 5 0 1\nout 0 c 1 5 0 1\nsend 0 0\nsend 0 1\ndone 1\nunmap 0 1\nalloc 0 61\nalloc 0 60\n",
        inputs: &[],
        replies: "ok\nok\nok\nerr exists\nerr proc\nerr region\nerr range\nerr region\nerr range\nerr range\nerr proc\nerr exists\nerr proc\nerr state\nerr dev\nerr dev\nerr range\nidle\nerr state\nerr region\nerr backing\nat 8192\n",
        outputs: &[("o0", "")],
    },
    Row {
        about: "thirty-two regions",
        script: "boot 16 32 64 16 8\nspawn 0\nmap 0 0 4\nmap 0 4 1\nmap 0 5 1\nmap 0 6 1\nmap 0 7 1\nmap 0 8 1\nmap 0 9 1\nmap 0 10 1\nmap 0 11 1\nmap 0 12 1\nmap 0 13 1\nmap 0 14 1\nmap 0 15 1\nmap 0 16 1\nmap 0 17 1\nmap 0 18 1\nmap 0 19 1\nmap 0 20 1\nmap 0 21 1\nmap 0 22 1\nmap 0 23 1\nmap 0 24 1\nmap 0 25 1\nmap 0 26 1\nmap 0 27 1\nmap 0 28 1\nmap 0 29 1\nmap 0 30 1\nmap 0 31 1\nmap 0 32 1\nmap 0 33 1\nmap 0 34 1\nmap 0 35 1\n",
        inputs: &[],
        replies: "ok\nok\nok\nok\nok\nok\nok\nok\nok\nok\nok\nok\nok\nok\nok\nok\nok\nok\nok\nok\nok\nok\nok\nok\nok\nok\nok\nok\nok\nok\nok\nok\nok\nok\nerr regions\n",
        outputs: &[],
    },
    Row {
        about: "a full system area",
        script: "boot 16 32 1024 16 8\nspawn 0\nmap 0 0 4\nalloc 0 64\nalloc 0 64\nalloc 0 64\nalloc 0 64\nalloc 0 64\nalloc 0 64\nalloc 0 64\nalloc 0 64\nalloc 0 1\n",
        inputs: &[],
        replies: "ok\nok\nok\nat 8192\nat 9216\nat 10240\nat 11264\nat 12288\nat 13312\nat 14336\nat 15360\nerr space\n",
        outputs: &[],
    },
];

/// Read-only regions, and flows.
pub fn modes() -> &'static [Row] {
    MODES
}

const MODES: &[Row] = &[
    Row {
        about: "a read-only region",
        script: "boot 16 32 64 16 8\ndevice 0 early i0 - 1 0\nspawn 0\nmap 0 0 4\nwrite 0 0 aa\nin 0 c 0 5 0 4\nrecv 0 12\nprotect 0 0 r\nwrite 0 0 bb\nin 0 c 0 5 0 4\ndone 1\nread 0 0 1\nfork 0 1\nwrite 1 0 bb\nprotect 0 0 rw\nwrite 0 0 bb\nread 1 0 1\n",
        inputs: &[("i0", "474400050000000401020304")],
        replies: "ok\nok\nok\nok\nid 1\ngot 12\nok\nerr denied\nerr denied\nlost\ndata aa\nok\nerr denied\nok\nok\ndata aa\n",
        outputs: &[],
    },
    Row {
        about: "what may be made read-only",
        script: "boot 16 32 64 16 8\ndevice 0 early i0 o0 1 0\nspawn 0\nmap 0 0 4\nin 0 s 0 5 0 4\nprotect 0 0 r\ncancel 1\nprotect 0 0 r\nin 0 s 0 5 0 4\nout 0 es 0 6 0 1\nprotect 0 1 r\nprotect 1 0 r\n",
        inputs: &[("i0", "")],
        replies: "ok\nok\nok\nid 1\nerr state\nok\nok\nerr denied\nid 2\nerr region\nerr proc\n",
        outputs: &[("o0", "")],
    },
    Row {
        about: "records with flows",
        script: "boot 16 32 64 16 8\ndevice 0 early i0 o0 1 0\nspawn 0\nmap 0 0 4\nin 0 c 0 5.8 0 4\nin 0 c 0 5 8 4\nrecv 0 13\ndone 2\nin 0 c 0 5.7 8 4\nrecv 0 9\nrecv 0 1\ncancel 1\ncancel 3\nread 0 8 1\nout 0 c 0 5.9 8 1\nsend 0 13\ndone 4\n",
        inputs: &[("i0", "47450005000000010000000701474400050000000102")],
        replies: "ok\nok\nok\nid 1\nid 2\ngot 13\nin 1\nid 3\ndrop 5 1\ngot 1\nok\nok\ndata 01\nid 4\nsent 13\nout 1\n",
        outputs: &[("o0", "47450005000000010000000901")],
    },
    Row {
        about: "a dropped record with a flow, and a header with too long a payload",
        script: "boot 16 32 64 16 8\ndevice 0 early i0 - 1 0\ndevice 1 early i1 - 1 0\nspawn 0\nmap 0 0 4\nrecv 0 12\nrecv 1 8\nrecv 1 4\n",
        inputs: &[
            ("i0", "474500050000000100000007aa"),
            ("i1", "474500050000040100000000"),
        ],
        replies: "ok\nok\nok\ndrop 5.7 1\ngot 8\nbad\n",
        outputs: &[],
    },
];
