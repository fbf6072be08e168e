//! What an event answers.
ghost use Rattle.std.specs.Prelude.{◌≡◌};
ghost use Rattle.genie_base.specs.Events.{mark_of};

use crate::page_bytes::PageBytes;
use crate::refusal::Refusal;

/// How a datagram met the buffer of its input.
#[derive(Clone, Copy, Debug, PartialEq, Eq)]
pub enum Note {
    Whole,
    /// It was longer than the buffer.
    Cut,
    /// The device's stream ended inside it.
    Trunc,
}

/// One reply. Counts are in bytes.
#[derive(Drop)]
pub enum Reply<'a> {
    Okay,
    Bytes(PageBytes<'a>),
    At {
        addr: u32,
    },
    Id {
        id: u32,
    },
    Sent {
        n: u32,
    },
    Staged {
        n: u32,
    },
    Got {
        n: u32,
    },
    Dropped {
        port: u16,
        flow: Option<u32>,
        len: u32,
    },
    Output {
        n: u32,
    },
    Input {
        at: Option<u32>,
        n: u32,
        note: Note,
    },
    Gone,
    Lost,
    /// The host failed after `n` bytes of the step.
    Fault {
        n: u32,
    },
    StoreFault,
    Idle,
    End,
    Bad,
    Busy,
    Err(Refusal),
}

/// Where the outside failed in a step.
#[derive(Clone, Copy, Debug, PartialEq, Eq)]
pub enum Mark {
    NoFault,
    /// The device's host, after `n` bytes.
    Device { n: u32 },
    Store,
}

impl Mark {
    /// The mark that a reply shows.
    pub fn of(reply: &Reply<'_>) -> Mark
        ensures { result ≡ mark_of reply.now }
    {
        match reply {
            Reply::Fault { n } => Mark::Device { n: *n },
            Reply::StoreFault => Mark::Store,
            _ => Mark::NoFault,
        }
    }
}
