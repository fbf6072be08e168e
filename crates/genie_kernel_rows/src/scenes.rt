//! What a run is of: a script, the files of its devices, and where calls on them fail.
ghost use Rattle.std.specs.Prelude.{◌≡◌, [], IfOk, OnOk};

use genie_base::NoMemory;
use genie_host::MemoryHost;
use genie_script::{BootPart, DeviceLine};
use std::alloc::Global;

/// The file of this name.
#[derive(Drop)]
pub struct Input {
    pub name: &'static str,
    pub bytes: Vec<u8>,
}

/// A script, and what it runs on.
#[derive(Drop)]
pub struct Scene<'a> {
    pub script: &'a str,
    pub inputs: &'a [Input],
    /// Names of files, and the place in each where a call fails once.
    pub failing: &'a [(&'static str, u64)],
    /// The room of each output, in bytes.
    pub room: u64,
}

/// The inputs of these names and bytes, which are given in hex.
pub fn inputs_of(
    alloc: Global,
    files: &[(&'static str, &'static str)],
) -> Result<Vec<Input>, NoMemory> {
    let mut inputs = Vec::new(alloc);
    for (name, text) in files {
        let bytes = from_hex(alloc, text)?;
        inputs.push(Input { name, bytes })?;
    }
    Ok(inputs)
}

/// The bytes of a text in hex.
pub fn from_hex(alloc: Global, text: &str) -> Result<Vec<u8>, NoMemory> {
    match hex::decode(alloc, text) {
        Ok(bytes) => Ok(bytes),
        Err(_) => Err(NoMemory),
    }
}

/// The bytes of the input of this name.
pub fn input_named<'a>(inputs: &'a [Input], name: &[u8]) -> Option<&'a [u8]> {
    for input in inputs {
        if input.name.as_bytes() == name {
            return Some(input.bytes.as_slice());
        }
    }
    None
}

// Adds the inputs, and where calls on files fail.
fn add_files(host: &mut MemoryHost, scene: &Scene) -> Result<(), NoMemory>
    ensures { OnOk result (host.new.opened ≡ host.old.opened) }
{
    'inputs: for input in scene.inputs {
        host.file(input.name.as_bytes(), input.bytes.as_slice())?;
    }
    'failing: for (name, at) in scene.failing {
        host.fail_at(name.as_bytes(), *at)?;
    }
    Ok(())
}

// Adds the outputs of these devices.
fn add_sinks(host: &mut MemoryHost, devices: &[DeviceLine], room: u64) -> Result<(), NoMemory>
    ensures { OnOk result (host.new.opened ≡ host.old.opened) }
{
    'devices: for device in devices {
        match &device.output {
            Some(name) => host.sink(name.as_slice(), room)?,
            None => {}
        }
    }
    Ok(())
}

/// A host with the files of a scene.
pub fn host_of(alloc: Global, scene: &Scene, part: &BootPart) -> Result<MemoryHost, NoMemory>
    ensures { IfOk result (λ host. host.opened ≡ []) }
{
    let mut host = MemoryHost::new(alloc, 1)?;
    add_files(&mut host, scene)?;
    add_sinks(&mut host, part.devices(), scene.room)?;
    Ok(host)
}
