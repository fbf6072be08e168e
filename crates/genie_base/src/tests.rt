//! Worked values that no clause says.

use crate::{
    Class, Config, DeviceConfig, Direction, Event, Kind, Mark, PageBuffer, PageBytes, PageSize,
    Refusal, Reply, Semantics, cost, overlay, part, span,
};

fn config(devices: [Option<DeviceConfig>; 8]) -> Config {
    Config {
        page: 16,
        frames: 32,
        slots: 64,
        cout: 16,
        rcout: 8,
        devices,
    }
}

fn device(kind: Kind, depth: u32, offset: u32) -> DeviceConfig {
    DeviceConfig {
        kind,
        input: None,
        output: Some(2),
        depth,
        offset,
    }
}

#[test]
fn pages_are_counted(rt: HostRuntime) {
    for number in [0, 8, 15, 17, 24, 8192] {
        assert!(rt; PageSize::new(number).is_none(), "{number} is no page size");
    }
    let page = PageSize::new(16).expect(&rt, "a page size");
    assert_eq!(rt; page.get(), 16);
    for (addr, len, want) in [
        (0, 0, 0),
        (15, 1, 1),
        (15, 2, 2),
        (16, 16, 1),
        (5, 32, 3),
        (u32::MAX, u32::MAX, 268_435_457),
    ] {
        assert_eq!(rt; span(addr, len, page), want, "at {addr} and {len}");
    }
    assert_eq!(rt; cost(Semantics::EmulatedCopy, Direction::Inward, 65), 130);
    assert_eq!(rt; cost(Semantics::EmulatedCopy, Direction::Outward, 65), 65);
    assert_eq!(rt; cost(Semantics::Move, Direction::Inward, 3), 3);
    assert_eq!(rt; Kind::Pooled.most(page), 256);
    assert_eq!(rt; Kind::Early.most(page), 1024);
    assert_eq!(rt; Semantics::EmulatedWeakMove.class(), Class::WeakMove);
    assert!(rt; Semantics::EmulatedMove.strong() && Semantics::EmulatedMove.system());
    assert!(rt; Semantics::EmulatedMove.emulated() && !Semantics::Share.strong());
}

#[test]
fn limits_are_kept(rt: HostRuntime) {
    let none = [None; 8];
    let mut early = none;
    early[7] = Some(device(Kind::Early, 1, 0));
    let mut pooled = none;
    pooled[0] = Some(device(Kind::Pooled, 1, 15));
    let mut outboard = none;
    outboard[3] = Some(device(Kind::Outboard, 4, 0));
    for devices in [none, early, pooled, outboard] {
        assert!(rt; config(devices).fits());
    }
    let mut deep = none;
    deep[0] = Some(device(Kind::Early, 2, 0));
    let mut inside = none;
    inside[0] = Some(device(Kind::Outboard, 1, 1));
    let mut past = none;
    past[0] = Some(device(Kind::Pooled, 1, 16));
    let mut large = none;
    large[0] = Some(device(Kind::Pooled, 2, 0));
    for devices in [deep, inside, past, large] {
        assert!(rt; !config(devices).fits());
    }
    assert_eq!(rt; config(large).pool(), 34);
    let mut small = config(none);
    small.frames = 15;
    assert!(rt; !small.fits());
    let mut copied = config(none);
    copied.cout = 257;
    assert!(rt; !copied.fits());
}

#[test]
fn events_and_replies_tell(rt: HostRuntime) {
    let mut bytes = PageBuffer::new();
    let empty = Event::Write {
        pid: 0,
        addr: 0,
        bytes: PageBytes::new(&[]),
    };
    assert!(rt; !empty.whole());
    bytes.push(0xaa);
    assert_eq!(rt; bytes.lend().as_slice(), [0xaa].as_slice());
    let one = Event::Write {
        pid: 0,
        addr: 0,
        bytes: bytes.lend(),
    };
    assert!(rt; one.whole());
    let input = Event::Input {
        pid: 0,
        sem: Semantics::Move,
        dev: 0,
        port: 5,
        flow: None,
        addr: Some(0),
        len: 1,
    };
    assert!(rt; !input.whole());
    assert_eq!(rt; Mark::of(&Reply::Fault { n: 3 }), Mark::Device { n: 3 });
    assert_eq!(rt; Mark::of(&Reply::StoreFault), Mark::Store);
    assert_eq!(rt; Mark::of(&Reply::Sent { n: 3 }), Mark::NoFault);
    assert_eq!(rt; Refusal::Denied.word().len(), 6);
}

#[test]
fn bytes_are_stored_within(rt: HostRuntime) {
    let mut bytes = [1, 2, 3, 4];
    overlay(&mut bytes, 3, &[8, 9]);
    overlay(&mut bytes, 9, &[7]);
    overlay(&mut bytes, 0, &[5]);
    assert_eq!(rt; bytes.as_slice(), [5, 2, 3, 8].as_slice());
    assert_eq!(rt; part(&bytes, 1, 2), [2, 3].as_slice());
    assert_eq!(rt; part(&bytes, 3, 9), [8].as_slice());
    assert_eq!(rt; part(&bytes, 4, 1), [].as_slice());
}
