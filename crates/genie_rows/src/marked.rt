//! Worked scripts in which a host or the store fails, as steps under marks.
use genie_base::Mark;

/// Events that are stepped one by one over pages of 16 bytes and one early device with an input and an output.
pub struct MarkedRow {
    pub about: &'static str,
    /// The bytes of the input, in hex.
    pub input: &'static str,
    /// Each event, what fails in its step, and the reply.
    pub lines: &'static [(&'static str, Mark, &'static str)],
    /// What the device has sent, in hex.
    pub sent: &'static str,
}

/// A failure in the middle of a send step, of a pageout, and in the middle of a receive step.
pub fn failures() -> &'static [MarkedRow] {
    FAILURES
}

const FAILURES: &[MarkedRow] = &[
    MarkedRow {
        about: "a send step that fails after three bytes",
        input: "",
        lines: &[
            ("spawn 0", Mark::NoFault, "ok\n"),
            ("map 0 0 4", Mark::NoFault, "ok\n"),
            ("write 0 0 aabbccdd", Mark::NoFault, "ok\n"),
            ("out 0 c 0 5 0 4", Mark::NoFault, "id 1\n"),
            ("send 0 12", Mark::Device { n: 3 }, "fault 3\n"),
            ("send 0 12", Mark::NoFault, "sent 9\n"),
            ("done 1", Mark::NoFault, "out 4\n"),
        ],
        sent: "4744000500000004aabbccdd",
    },
    MarkedRow {
        about: "a pageout that the store fails",
        input: "",
        lines: &[
            ("spawn 0", Mark::NoFault, "ok\n"),
            ("map 0 0 4", Mark::NoFault, "ok\n"),
            ("write 0 0 aa", Mark::NoFault, "ok\n"),
            ("pageout 1", Mark::Store, "fault store\n"),
            ("read 0 0 1", Mark::NoFault, "data aa\n"),
            ("pageout 1", Mark::NoFault, "ok\n"),
            ("read 0 0 1", Mark::NoFault, "data aa\n"),
        ],
        sent: "",
    },
    MarkedRow {
        about: "a receive step that fails after two payload bytes",
        input: "474400050000000401020304",
        lines: &[
            ("spawn 0", Mark::NoFault, "ok\n"),
            ("map 0 0 4", Mark::NoFault, "ok\n"),
            ("in 0 es 0 5 0 4", Mark::NoFault, "id 1\n"),
            ("recv 0 12", Mark::Device { n: 10 }, "fault 10\n"),
            ("read 0 0 4", Mark::NoFault, "data 01020000\n"),
            ("recv 0 12", Mark::NoFault, "got 2\n"),
            ("done 1", Mark::NoFault, "in 4\n"),
            ("read 0 0 4", Mark::NoFault, "data 01020304\n"),
        ],
        sent: "",
    },
];
