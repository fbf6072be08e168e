//! The plain machine: it computes the flat machine's steps.
ghost use Rattle.std.specs.Prelude.{◌≡◌, ℕ, [], Some, IfOk, IfSome, IsTrue, None, map, replicate};
ghost use Rattle.std.specs.Option.{option_map};
ghost use Rattle.genie_base.specs.Configs.{config_of, device_config, Fits};
ghost use Rattle.genie_base.specs.Events.{is_whole};
ghost use Rattle.genie_flat.specs.Flat.{GivesInput, Steps};
ghost use Rattle.genie_model.specs.Step.{HasNumber};
ghost use Rattle.genie_model.specs.Sending.{sent_of};
ghost use Rattle.genie_model.specs.State.{boot, boot_device, boot_devices};

use crate::machine::Machine;
use genie_base::{Config, DeviceConfig, Event, Mark, NoMemory, PageBuffer, PageSize, Reply};
use genie_plain_device::{Device, devices};
use genie_tables::{Process, table};
use std::alloc::Global;
use std::marker::Model;

/// How many processes there may be.
const PROCESSES: u32 = 16;

/// The flat machine by copies of whole lists: plain, and slow by design. Contracts see its state, or none once memory
/// ran out.
#[derive(Drop)]
pub struct Flat {
    machine: Machine,
    failed: bool,
}

impl Model for Flat {
    ghost use Rattle.std.specs.Prelude.{Option, None, Some, if◌then◌else◌};
    ghost use Rattle.genie_model.specs.State as flat;

    ghost Value = { Option flat.State };

    ghost view = { λ f. if f.failed then None else Some f.machine };
}

// No process.
fn no_processes(alloc: Global) -> Result<Vec<Option<Process>>, NoMemory>
    ensures { IfOk result (λ v. v.items ≡ replicate 16 None) }
{
    let mut processes = Vec::new(alloc);
    for _ in 0..PROCESSES {
        processes.push(None)?;
    }
    Ok(processes)
}

// A device that did nothing yet.
fn boot_device(alloc: Global, config: &Option<DeviceConfig>) -> Option<Device>
    ensures { (d : ℕ) → result ≡ boot_device (λ _. []) d (option_map device_config config.now) }
{
    match config {
        None => None,
        Some(config) => Some(Device::new(alloc, config.kind, config.depth)),
    }
}

// The devices of a configuration.
fn boot_devices(
    alloc: Global,
    configs: &[Option<DeviceConfig>],
) -> Result<Vec<Option<Device>>, NoMemory>
    ensures { IfOk result (λ v. v.items ≡ boot_devices (λ _. []) 0 (map (option_map device_config) configs.now)) }
{
    let mut devices = Vec::new(alloc);
    for config in configs {
        devices.push(boot_device(alloc, config))?;
    }
    Ok(devices)
}

impl Flat {
    /// A machine with nothing but its devices, whose inputs are empty.
    pub fn boot(alloc: Global, config: &Config) -> Result<Flat, NoMemory>
        requires { Fits (config_of config.now) }
        ensures { IfOk result (λ flat. flat ≡ Some (boot (config_of config.now) (λ _. []))) }
    {
        let Some(page) = PageSize::new(config.page) else {
            unreachable!()
        };
        let processes = no_processes(alloc)?;
        let devices = boot_devices(alloc, &config.devices)?;
        let machine = Machine {
            alloc,
            config: *config,
            page,
            processes,
            orphans: Vec::new(alloc),
            transfers: Vec::new(alloc),
            devices,
            next: 1,
        };
        Ok(Flat {
            machine,
            failed: false,
        })
    }

    /// One step of the flat machine, with the reply. It serves every event. After `NoMemory` it answers `NoMemory` for good.
    pub fn step<'a>(
        &mut self,
        event: &Event,
        mark: &Mark,
        into: &'a mut PageBuffer,
    ) -> Result<Reply<'a>, NoMemory>
        requires whole { IsTrue (is_whole event.now) }
        requires numbered { IfSome self.old HasNumber }
        ensures { Steps self.old event.now mark.now self.new result }
    {
        if self.failed {
            return Err(NoMemory);
        }
        let result = self.machine.step(event, mark, into);
        self.failed = result.is_err();
        result
    }

    /// Gives a device the bytes of its input; a device without an input never looks at them. After `NoMemory` it answers `NoMemory` for good.
    pub fn input(&mut self, dev: u32, bytes: &[u8]) -> Result<(), NoMemory>
        ensures { GivesInput self.old dev bytes.now self.new result }
    {
        if self.failed {
            return Err(NoMemory);
        }
        match bytes.to_vec(self.machine.alloc) {
            Ok(rest) => {
                devices::give_input(&mut self.machine.devices, dev, rest);
                Ok(())
            }
            Err(_) => {
                self.failed = true;
                Err(NoMemory)
            }
        }
    }

    /// Lends what a device has sent since the boot.
    pub fn sent(&self, dev: u32) -> &[u8]
        ensures { IfSome self.now (λ s. result.now ≡ sent_of s dev) }
    {
        match table::entry_of(self.machine.devices.as_slice(), dev) {
            Some(device) => device.sent(),
            None => &[],
        }
    }
}
