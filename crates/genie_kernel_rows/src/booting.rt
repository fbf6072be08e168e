//! The boot part of a script, and the kernel that it boots.
ghost use Rattle.std.specs.Prelude.{◌≡◌, IfOk};
ghost use Rattle.genie_kernel_rows.specs.Runs.{IsReady};

use crate::wiring::{Trouble, wire_all};
use genie_base::PageBuffer;
use genie_host::Host;
use genie_kernel::Kernel;
use genie_script::{BootPart, Judged, is_device_line, judge_device, judge_first};
use genie_store::Store;
use std::alloc::Global;

/// The boot part of a script, whose lines keep their bounds.
pub fn judge_boot(alloc: Global, script: &str) -> Result<BootPart, Trouble> {
    let mut said = PageBuffer::new();
    let mut lines = script.lines();
    let Some(first) = lines.next() else {
        return Err(Trouble::Script);
    };
    let mut part = match judge_first(0, first.as_bytes(), &mut said) {
        Judged::Taken(boot) => BootPart::new(alloc, &boot),
        _ => return Err(Trouble::Script),
    };
    'lines: for line in lines {
        if !is_device_line(line.as_bytes()) {
            return Ok(part);
        }
        match judge_device(0, line.as_bytes(), b"s", &part, &mut said) {
            Judged::Passed => {}
            Judged::Ends(_) => return Err(Trouble::Script),
            Judged::Taken(device) => match part.add(device) {
                Ok(()) => {}
                Err(_) => return Err(Trouble::Memory),
            },
        }
    }
    Ok(part)
}

/// Opens the files of the devices, and boots a kernel over a store of its size.
pub fn boot<H: Host, S: Store>(
    alloc: Global,
    host: &mut H,
    store: &mut S,
    part: &BootPart,
) -> Result<Kernel, Trouble>
    requires closed { (H.view host.old).opened ≡ 0 }
    requires fresh { (S.view store.old).count ≡ 0 }
    ensures { IfOk result (λ k. IsReady k (H.view host.new) (S.view store.new)) }
{
    let mut config = part.config();
    config.devices = match wire_all(host, part.devices()) {
        Ok(devices) => devices,
        Err(trouble) => return Err(trouble),
    };
    if !config.fits() {
        return Err(Trouble::Limits);
    }
    let kernel = match Kernel::boot(alloc, &config) {
        Ok(kernel) => kernel,
        Err(_) => return Err(Trouble::Memory),
    };
    match store.size(config.slots, config.page) {
        Ok(()) => Ok(kernel),
        Err(_) => Err(Trouble::Store),
    }
}
