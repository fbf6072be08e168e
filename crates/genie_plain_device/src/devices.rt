//! The table of devices.
ghost use Rattle.std.specs.Prelude.{◌≡◌, slice_set, OnOk};
ghost use Rattle.genie_model.specs.Receiving.{receiving, with_rest};
ghost use Rattle.genie_model.specs.Sending.{change_device, with_sent};
ghost use Rattle.genie_model.specs.Tables.{entry};

use crate::device::Device;
use genie_base::NoMemory;

fn receive_in(device: &mut Option<Device>, v: Device)
    ensures { device.new ≡ change_device (receiving v) device.old }
{
    if let Some(device) = device {
        device.receive(v);
    }
}

/// A device has received on, as `v` says.
pub fn receive_on(devices: &mut Vec<Option<Device>>, dev: u32, v: Device)
    ensures { devices.new.items ≡ slice_set devices.old.items dev (change_device (receiving v) (entry devices.old.items dev)) }
{
    let dev = dev as usize;
    if dev < devices.len() {
        receive_in(&mut devices[dev], v);
    }
}

fn give_to(device: &mut Option<Device>, rest: Vec<u8>)
    ensures { device.new ≡ change_device (with_rest rest.items) device.old }
{
    if let Some(device) = device {
        device.set_rest(rest);
    }
}

/// A device has this input.
pub fn give_input(devices: &mut Vec<Option<Device>>, dev: u32, rest: Vec<u8>)
    ensures { devices.new.items ≡ slice_set devices.old.items dev (change_device (with_rest rest.items) (entry devices.old.items dev)) }
{
    let dev = dev as usize;
    if dev < devices.len() {
        give_to(&mut devices[dev], rest);
    }
}

fn send_to(device: &mut Option<Device>, bytes: &[u8]) -> Result<(), NoMemory>
    ensures { OnOk result (device.new ≡ change_device (with_sent bytes.now) device.old) }
{
    match device {
        Some(device) => device.send(bytes),
        None => Ok(()),
    }
}

/// Sends bytes on a device.
pub fn send_on(devices: &mut Vec<Option<Device>>, dev: u32, bytes: &[u8]) -> Result<(), NoMemory>
    ensures { OnOk result (devices.new.items ≡ slice_set devices.old.items dev (change_device (with_sent bytes.now) (entry devices.old.items dev))) }
{
    let dev = dev as usize;
    if dev < devices.len() {
        send_to(&mut devices[dev], bytes)
    } else {
        Ok(())
    }
}
