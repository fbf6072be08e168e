//! Kernels with each kind of device, and the table of transfers.

use crate::{Change, Kernel, Loans, Search, Transfer, Transfers};
use genie_base::{
    Config, DeviceConfig, Direction, Event, Kind, NoMemory, Note, Refusal, RegionId, Semantics,
    TransferId,
};
use genie_model::Phase;
use genie_refusal::refuse;
use std::alloc::Global;

// A machine of 80 frames of 16 bytes with one device, the third.
fn one_device(kind: Kind, depth: u32, offset: u32) -> Config {
    let device = DeviceConfig {
        kind,
        input: Some(1),
        output: Some(2),
        depth,
        offset,
    };
    Config {
        page: 16,
        frames: 80,
        slots: 32,
        cout: 16,
        rcout: 8,
        devices: [None, None, Some(device), None, None, None, None, None],
    }
}

// Boots, where the configuration keeps its limits.
fn booted(alloc: Global, config: &Config) -> Result<Option<Kernel>, NoMemory> {
    if config.fits() {
        Ok(Some(Kernel::boot(alloc, config)?))
    } else {
        Ok(None)
    }
}

#[test]
fn each_kind_of_device_boots(rt: HostRuntime) {
    let table = [
        (Kind::Early, 1, 0, 0, 80),
        (Kind::Pooled, 1, 0, 17, 63),
        (Kind::Pooled, 4, 15, 68, 12),
        (Kind::Outboard, 4, 0, 0, 80),
    ];
    for (kind, depth, offset, pooled, free) in table {
        let config = one_device(kind, depth, offset);
        let kernel = booted(rt.alloc(), &config).expect(&rt, "memory");
        let kernel = kernel.expect(&rt, "limits");
        assert_eq!(rt;
            (kernel.meters().taken, kernel.memory.frames.free()),
            (pooled, free)
        );
        assert_eq!(rt; kernel.pools[2].is_some(), kind == Kind::Pooled);
        assert!(rt; kernel.devices[2].is_some() && kernel.devices[3].is_none());
        assert_eq!(rt; (kernel.next, kernel.transfers.len()), (1, 0));
    }
}

// Whether an event is refused by a kernel that was just booted.
fn refused_at_boot(
    alloc: Global,
    config: &Config,
    event: &Event,
) -> Result<Option<Refusal>, NoMemory> {
    if config.fits() {
        let kernel = Kernel::boot(alloc, config)?;
        Ok(refuse(&kernel, event))
    } else {
        Ok(None)
    }
}

#[test]
fn a_kernel_refuses_as_the_flat_machine(rt: HostRuntime) {
    let config = one_device(Kind::Early, 1, 0);
    let table = [
        (Event::Spawn { pid: 15 }, None),
        (Event::Spawn { pid: 16 }, Some(Refusal::Proc)),
        (Event::Exit { pid: 0 }, Some(Refusal::Proc)),
        (Event::Send { dev: 2, len: 1 }, None),
        (Event::Send { dev: 3, len: 1 }, Some(Refusal::Dev)),
        (Event::Recv { dev: 2, len: 0 }, Some(Refusal::Range)),
        (Event::Cancel { id: 1 }, Some(Refusal::State)),
        (Event::Pageout { pages: 1 }, None),
    ];
    for (event, want) in table {
        let got = refused_at_boot(rt.alloc(), &config, &event).expect(&rt, "memory");
        assert_eq!(rt; got, want);
    }
}

// An output of region 3 on a device.
fn output(id: u32, dev: u32) -> Transfer {
    Transfer {
        id: TransferId(id),
        owner: Some(0),
        sem: Semantics::Share,
        dir: Direction::Outward,
        dev,
        port: 7,
        flow: None,
        addr: 0,
        region: Some(RegionId(3)),
        offset: 0,
        len: 0,
        phase: Phase::Queued,
        loans: Loans::Nothing,
        buffer: None,
        stored: 0,
        note: Note::Whole,
    }
}

// Three outputs, of which the first is sent and the second ends.
fn three_outputs(alloc: Global) -> Result<Transfers, NoMemory> {
    let mut transfers = Transfers::new(alloc)?;
    transfers.add(output(4, 1));
    transfers.add(output(5, 0));
    transfers.add(output(9, 1));
    if transfers.any(Search::Number(4)) {
        let sent = Change::Progress {
            phase: Phase::Ready,
            buffer: None,
            stored: 0,
            note: Note::Whole,
        };
        transfers.change(TransferId(4), sent);
    }
    if transfers.any(Search::Number(5)) {
        transfers.remove(TransferId(5));
    }
    Ok(transfers)
}

#[test]
fn transfers_stand_in_order(rt: HostRuntime) {
    let transfers = three_outputs(rt.alloc()).expect(&rt, "memory");
    assert_eq!(rt; transfers.len(), 2);
    assert_eq!(rt; transfers.first(Search::Number(9)), Some(1));
    assert_eq!(rt; transfers.first(Search::Waiting(1)), Some(1));
    assert!(rt; !transfers.any(Search::Waiting(0)) && !transfers.any(Search::Number(5)));
    assert!(rt; transfers.any(Search::Naming(3)) && !transfers.any(Search::WeakInput(3)));
}
