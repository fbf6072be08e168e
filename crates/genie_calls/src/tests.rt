//! A kernel that is closed.

use crate::close::close;
use genie_base::{Config, DeviceConfig, Kind, NoMemory};
use genie_kernel::Kernel;
use std::alloc::Global;

// A machine of 80 frames of 16 bytes with one device, the third.
fn one_device(kind: Kind, depth: u32) -> Config {
    let device = DeviceConfig {
        kind,
        input: Some(1),
        output: Some(2),
        depth,
        offset: 0,
    };
    Config {
        page: 16,
        frames: 80,
        slots: 32,
        cout: 16,
        rcout: 8,
        devices: [None, None, Some(device), None, None, None, None, None],
    }
}

// A kernel that was booted and closed, where the configuration keeps its limits.
fn closed(alloc: Global, config: &Config) -> Result<Option<Kernel>, NoMemory> {
    if !config.fits() {
        return Ok(None);
    }
    let mut kernel = Kernel::boot(alloc, config)?;
    close(&mut kernel);
    Ok(Some(kernel))
}

#[test]
fn a_closed_kernel_has_no_pool(rt: HostRuntime) {
    let table = [
        (Kind::Early, 1),
        (Kind::Pooled, 1),
        (Kind::Pooled, 4),
        (Kind::Outboard, 4),
    ];
    for (kind, depth) in table {
        let config = one_device(kind, depth);
        let kernel = closed(rt.alloc(), &config).expect(&rt, "memory");
        let kernel = kernel.expect(&rt, "limits");
        assert!(rt; kernel.pools[2].is_none() && kernel.devices[2].is_some());
        assert_eq!(rt; kernel.memory.frames.free(), 80);
        assert_eq!(rt; kernel.transfers.len(), 0);
    }
}
