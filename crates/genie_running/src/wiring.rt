//! The configuration of a kernel, once the files of its devices are open.
ghost use Rattle.std.specs.Prelude.{◌≡◌, ◌+◌, ◌*◌, ◌<◌, ◌≤◌, length, map};
ghost use Rattle.std.specs.Option.{option_map};
ghost use Rattle.genie_base.specs.Configs.{Fits, config_of, device_config};
ghost use Rattle.genie_replay.specs.Places.{FindPlaces, IsPlaced};
ghost use Rattle.genie_running.specs.Wiring.{IsWired, device_at, wired_from};

use genie_base::{Config, DeviceConfig};
use genie_replay::files::file_count;
use genie_replay::script::SCRIPT;
use genie_script::{BootPart, DeviceLine, Name};

// The handle of a file, if there is one.
fn handle_if(file: &Option<Name>, handle: u32) -> Option<u32>
    ensures { result ≡ option_map (λ name. handle) file.now }
{
    match file {
        None => None,
        Some(_) => Some(handle),
    }
}

// The device of a line, where so many files were opened before it.
fn wire(line: &DeviceLine, opened: u32) -> DeviceConfig
    requires few { opened ≤ 18 }
    ensures { result ≡ device_at opened line.now }
{
    DeviceConfig {
        kind: line.kind,
        input: handle_if(&line.input, opened + 1),
        output: handle_if(&line.output, opened + file_count(line)),
        depth: line.depth,
        offset: line.offset,
    }
}

// Puts the devices of these lines in their places, where so many files were opened before.
fn wire_all(devices: &mut [Option<DeviceConfig>; 8], lines: &[DeviceLine], opened: u32)
    requires few { opened + 2 * length lines.now ≤ 20 }
    requires places { FindPlaces (map (option_map device_config) devices.old) lines.now }
    ensures { devices.new ≡ wired_from devices.old opened lines.now }
{
    match lines.split_first() {
        None => {}
        Some((line, rest)) => {
            devices[line.number as usize] = Some(wire(line, opened));
            wire_all(devices, rest, opened + file_count(line));
        }
    }
}

/// The configuration of a boot part, with the handles that its files have once they are open.
pub(crate) fn wired(part: &BootPart) -> Config
    requires { IsPlaced part.now }
    ensures wired { IsWired part.now result }
    ensures fits { Fits (config_of result) }
{
    let mut config = part.config();
    config.devices = [None, None, None, None, None, None, None, None];
    wire_all(&mut config.devices, part.devices(), SCRIPT);
    config
}
