//! What a script line asks for.
ghost use Rattle.std.specs.Prelude.{◌≡◌};
ghost use Rattle.genie_base.specs.Events.{is_whole};

use crate::page_bytes::PageBytes;
use crate::semantics::Semantics;

/// One event. Addresses, lengths and budgets are in bytes.
#[derive(Drop)]
pub enum Event<'a> {
    Spawn {
        pid: u32,
    },
    Fork {
        parent: u32,
        child: u32,
    },
    Exit {
        pid: u32,
    },
    Map {
        pid: u32,
        page: u32,
        pages: u32,
    },
    Alloc {
        pid: u32,
        pages: u32,
    },
    Unmap {
        pid: u32,
        page: u32,
    },
    Protect {
        pid: u32,
        page: u32,
        writable: bool,
    },
    Read {
        pid: u32,
        addr: u32,
        len: u32,
    },
    Write {
        pid: u32,
        addr: u32,
        bytes: PageBytes<'a>,
    },
    Output {
        pid: u32,
        sem: Semantics,
        dev: u32,
        port: u16,
        flow: Option<u32>,
        addr: u32,
        len: u32,
    },
    Input {
        pid: u32,
        sem: Semantics,
        dev: u32,
        port: u16,
        flow: Option<u32>,
        addr: Option<u32>,
        len: u32,
    },
    Send {
        dev: u32,
        len: u32,
    },
    Recv {
        dev: u32,
        len: u32,
    },
    Finish {
        id: u32,
    },
    Cancel {
        id: u32,
    },
    Pageout {
        pages: u32,
    },
}

impl<'a> Event<'a> {
    /// Whether a script line spells it: an input names an address exactly where the application allocates its
    /// buffer, and a write has a byte.
    pub fn whole(&self) -> bool
        ensures { result ≡ is_whole self.now }
    {
        match self {
            Event::Write { bytes, .. } => !bytes.as_slice().is_empty(),
            Event::Input { sem, addr, .. } => sem.system() != addr.is_some(),
            _ => true,
        }
    }
}
