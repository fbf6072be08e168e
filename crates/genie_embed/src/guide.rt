//! The code of the guide to embedding, as it stands there.
ghost use Rattle.std.specs.Prelude.{◌≡◌, length};

use crate::exchange::{EchoError, config, echo};
use crate::machine::{Machine, Stopped};
use crate::packets::PacketHost;
use crate::worn::WornStore;
use genie_base::{Event, NoMemory, PageBuffer, Semantics};
use genie_frame::{Frames, Owner};
use genie_store::StoreRefused;
use std::alloc::Global;
use thiserror::Error;

/// Why a machine isn't booted, or steps no further.
#[derive(Clone, Copy, Debug, PartialEq, Eq, Error)]
pub enum Trouble {
    #[error("no memory")]
    Memory,
    #[error("the store failed")]
    Store,
    #[error("the machine can count no further")]
    Stopped,
}

impl From<NoMemory> for EchoError {
    fn from(_: NoMemory) -> EchoError {
        EchoError::Memory
    }
}

impl From<NoMemory> for Trouble {
    fn from(_: NoMemory) -> Trouble {
        Trouble::Memory
    }
}

impl From<StoreRefused> for Trouble {
    fn from(refused: StoreRefused) -> Trouble {
        match refused {
            StoreRefused::Memory => Trouble::Memory,
            StoreRefused::Failed => Trouble::Store,
        }
    }
}

impl From<Stopped> for Trouble {
    fn from(_: Stopped) -> Trouble {
        Trouble::Stopped
    }
}

/// A datagram that comes is sent again. Answers whether it went out as it came.
pub fn send_again(alloc: Global) -> Result<bool, EchoError> {
    let record = b"GD\x00\x05\x00\x00\x00\x02\xaa\xbb";
    let mut host = PacketHost::new(alloc, 64)?;
    let mut store = WornStore::new(alloc, 0); // it never takes a page
    host.receive(record)?;
    let count = echo(alloc, &mut host, &mut store)?;
    Ok(count == 2 && host.sent() == record.as_slice())
}

/// A process sends two bytes of its page. Answers how many bytes of the record device 0 has sent.
pub fn send_two(alloc: Global) -> Result<usize, Trouble> {
    let mut host = PacketHost::new(alloc, 64)?;
    let mut store = WornStore::new(alloc, 8);
    let mut room = PageBuffer::new(); // for the bytes of a reply
    let mut machine = Machine::boot(alloc, &config(), &mut store)?;
    machine.step(&mut host, &mut store, &Event::Spawn { pid: 0 }, &mut room)?; // Reply::Okay
    let map = Event::Map {
        pid: 0,
        page: 0,
        pages: 1,
    };
    machine.step(&mut host, &mut store, &map, &mut room)?;
    let output = Event::Output {
        pid: 0,
        sem: Semantics::EmulatedCopy,
        dev: 0,
        port: 5,
        flow: None,
        addr: 0,
        len: 2,
    };
    machine.step(&mut host, &mut store, &output, &mut room)?; // Reply::Id { id: 1 }
    let send = Event::Send { dev: 0, len: 10 };
    machine.step(&mut host, &mut store, &send, &mut room)?; // Reply::Sent { n: 10 }
    Ok(host.sent().len())
}

/// A machine is closed while a page is lent. Answers how many frames are free then, and how many bytes were copied.
pub fn close_early(alloc: Global) -> Result<(u32, u64), Trouble> {
    let mut host = PacketHost::new(alloc, 64)?;
    let mut store = WornStore::new(alloc, 8);
    let mut room = PageBuffer::new();
    let mut machine = Machine::boot(alloc, &config(), &mut store)?;
    let region = Event::Alloc { pid: 0, pages: 1 };
    let output = Event::Output {
        pid: 0,
        sem: Semantics::Move,
        dev: 0,
        port: 5,
        flow: None,
        addr: 0,
        len: 16,
    };
    machine.step(&mut host, &mut store, &Event::Spawn { pid: 0 }, &mut room)?;
    machine.step(&mut host, &mut store, &region, &mut room)?; // Reply::At { addr: 0 }
    machine.step(&mut host, &mut store, &output, &mut room)?; // its page is lent now
    let kernel = machine.close(); // the transfer is given up, and its page with it
    Ok((kernel.memory.frames.free(), kernel.meters().copied))
}

/// A page is lent to a device, which takes its first three bytes, and is given up meanwhile. Answers how many frames are
/// free afterwards.
pub fn lend_three(alloc: Global, device: &mut [u8]) -> Result<u32, NoMemory>
    requires { length device.old ≡ 3 }
{
    let mut frames = Frames::new(alloc, 4, 16)?; // all memory is taken here
    let f = frames.take(Owner::Page(0));
    frames.write(f, 0, &[1, 2, 3]);
    let loan = frames.lend_strong(f); // for a device that sends it
    device.copy_from_slice(frames.dma_out(&loan, 0, 3));
    frames.disown(f); // nobody's, while the loan is out
    frames.back_out(loan); // free with its last loan
    Ok(frames.free())
}
