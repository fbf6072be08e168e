//! The quick start, run once.
use crate::exchange::config;
use crate::{
    EchoError, Machine, PacketHost, WornStore, close_early, echo, lend_three, send_again,
    send_page, send_two,
};
use genie_base::{Event, Mark, PageBuffer, PageBytes};
use genie_frame::{Frames, Owner};
use genie_store::{Store, StoreFault};
use std::process::Abort;

// A datagram comes, and goes out again; and a host with room for no byte fails.
#[test]
fn a_datagram_is_sent_again(rt: HostRuntime) {
    let record = b"GD\x00\x05\x00\x00\x00\x02\xaa\xbb";
    let table = [(64, Ok(2), 10), (0, Err(EchoError::Host), 0)];
    for (room, want, sent) in table {
        let mut host = PacketHost::new(rt.alloc(), room).expect(&rt, "memory");
        let mut store = WornStore::new(rt.alloc(), 0);
        host.receive(record).expect(&rt, "memory");
        assert_eq!(rt; echo(rt.alloc(), &mut host, &mut store), want);
        assert_eq!(rt; host.sent(), &record[..sent]);
    }
}

// Nothing comes.
#[test]
fn nothing_is_sent(rt: HostRuntime) {
    let mut host = PacketHost::new(rt.alloc(), 64).expect(&rt, "memory");
    let mut store = WornStore::new(rt.alloc(), 0);
    assert_eq!(rt;
        echo(rt.alloc(), &mut host, &mut store),
        Err(EchoError::Nothing)
    );
}

// A page can't be put into a store that is worn out: the event answers so, and the page is still there.
#[test]
fn a_worn_store_is_answered(rt: HostRuntime) {
    let mut host = PacketHost::new(rt.alloc(), 64).expect(&rt, "memory");
    let mut store = WornStore::new(rt.alloc(), 0);
    let mut room = PageBuffer::new();
    let mut machine = Machine::boot(rt.alloc(), &config(), &mut store).expect(&rt, "memory");
    let map = Event::Map {
        pid: 0,
        page: 0,
        pages: 1,
    };
    let write = Event::Write {
        pid: 0,
        addr: 0,
        bytes: PageBytes::new(b"x"),
    };
    machine
        .step(&mut host, &mut store, &Event::Spawn { pid: 0 }, &mut room)
        .expect(&rt, "room");
    machine
        .step(&mut host, &mut store, &map, &mut room)
        .expect(&rt, "room");
    machine
        .step(&mut host, &mut store, &write, &mut room)
        .expect(&rt, "room");
    let pageout = Event::Pageout { pages: 1 };
    let reply = machine
        .step(&mut host, &mut store, &pageout, &mut room)
        .expect(&rt, "room");
    assert_eq!(rt; Mark::of(&reply), Mark::Store);
    assert_eq!(rt; machine.kernel().memory.frames.free(), 31);
}

// The second put fails, and the page that was put first is still there.
#[test]
fn a_store_wears_out(rt: HostRuntime) {
    let mut store = WornStore::new(rt.alloc(), 1);
    store.size(2, 16).expect(&rt, "memory");
    assert_eq!(rt; store.put(1, &[7; 16]), Ok(()));
    assert_eq!(rt; store.put(1, &[8; 16]), Err(StoreFault));
    let mut page = [0; 16];
    assert_eq!(rt; store.get(1, &mut page), Ok(()));
    assert_eq!(rt; page, [7; 16]);
}

// A page is sent through a loan.
#[test]
fn a_page_is_lent(rt: HostRuntime) {
    let mut frames = Frames::new(rt.alloc(), 4, 16).expect(&rt, "memory");
    let f = frames.take(Owner::Page(0));
    frames.write(f, 0, &[1, 2, 3]);
    let mut device = [0; 3];
    send_page(&mut frames, f, 3, &mut device);
    assert_eq!(rt; device, [1, 2, 3]);
    assert_eq!(rt; frames.meters().copied, 0);
}

// The code of the guide.
#[test]
fn the_guide_runs(rt: HostRuntime) {
    assert_eq!(rt; send_again(rt.alloc()), Ok(true));
    assert_eq!(rt; send_two(rt.alloc()), Ok(10));
    assert_eq!(rt; close_early(rt.alloc()), Ok((32, 0)));
    let mut device = [0; 3];
    assert_eq!(rt; lend_three(rt.alloc(), &mut device), Ok(4));
    assert_eq!(rt; device, [1, 2, 3]);
}
