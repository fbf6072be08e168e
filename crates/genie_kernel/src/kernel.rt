//! The kernel.
ghost use Rattle.std.specs.Prelude.{◌≡◌, ℕ, ◌+◌, ◌*◌, ◌^◌, ◌≤◌, ◌<◌, List, [], ◌∷◌, map, replicate, IfOk, IsTrue, None, length, count_by, slice_set};
ghost use Rattle.std.specs.Option.{option_map};
ghost use Rattle.genie_base.specs.Configs.{Fits, FitsPlace, config_of, device_config, device_pool, pool_of};
ghost use Rattle.genie_base.specs.Counts.{is_page_size};
ghost use Rattle.genie_frame.specs.FrameTable.{is_free};
ghost use Rattle.genie_object.specs.Sound.{IsSound};
ghost use Rattle.genie_device.specs.Device.{idle_device};
ghost use Rattle.genie_input.specs.Pools.{PoolState};
ghost use Rattle.genie_model.specs.Tables.{entry};
ghost use Rattle.genie_space.specs.Spaces.{no_process};
ghost use Rattle.genie_kernel.specs.Booting.{HasPools, PoolAdds};

use crate::transfers::Transfers;
use genie_base::{Config, DeviceConfig, Kind, NoMemory, PageSize};
use genie_demux::Posted;
use genie_device::Device;
use genie_frame::Meters;
use genie_hiding::{HiddenCache, WeakQueue};
use genie_input::Pool;
use genie_object::Memory;
use genie_orderly::laws::boot_is_orderly;
use genie_pageout::Clock;
use genie_space::Spaces;
use std::alloc::Global;

/// The kernel: memory, address spaces and devices, and what is pending between them. It moves frames, counts and
/// permissions, and holds no buffer as a list. `IsGood` says when its parts fit one another.
#[derive(Drop)]
pub struct Kernel {
    pub memory: Memory,
    /// The regions of each process.
    pub spaces: Spaces,
    /// The regions that emulated moves have hidden.
    pub hidden: HiddenCache,
    /// Where the next pageout begins.
    pub clock: Clock,
    /// The moved-out regions of each process, the oldest first.
    pub queues: [WeakQueue; 16],
    pub transfers: Transfers,
    pub devices: [Option<Device>; 8],
    /// The buffers of each pooled device.
    pub pools: [Option<Pool>; 8],
    /// The inputs that wait for a datagram.
    pub posted: Posted,
    /// The number of the next transfer.
    pub next: u32,
    pub config: Config,
}

// The device of a place of the configuration.
fn device_at(
    alloc: Global,
    config: &Option<DeviceConfig>,
    page: u32,
) -> Result<Option<Device>, NoMemory>
    requires { IsTrue (is_page_size page) }
    ensures { IfOk result (λ device. device ≡ option_map (λ c. idle_device c page) config.now) }
{
    match config {
        Some(config) => Ok(Some(Device::new(alloc, config, page)?)),
        None => Ok(None),
    }
}

fn all_devices(alloc: Global, config: &Config) -> Result<[Option<Device>; 8], NoMemory>
    requires { Fits (config_of config.now) }
    ensures { IfOk result (λ devices. devices ≡ map (option_map (λ c. idle_device c config.now.page)) config.now.devices) }
{
    let devices = &config.devices;
    let page = config.page;
    Ok([
        device_at(alloc, &devices[0], page)?,
        device_at(alloc, &devices[1], page)?,
        device_at(alloc, &devices[2], page)?,
        device_at(alloc, &devices[3], page)?,
        device_at(alloc, &devices[4], page)?,
        device_at(alloc, &devices[5], page)?,
        device_at(alloc, &devices[6], page)?,
        device_at(alloc, &devices[7], page)?,
    ])
}

fn no_queues() -> [WeakQueue; 16]
    ensures { result ≡ replicate 16 [] }
{
    [
        WeakQueue::new(),
        WeakQueue::new(),
        WeakQueue::new(),
        WeakQueue::new(),
        WeakQueue::new(),
        WeakQueue::new(),
        WeakQueue::new(),
        WeakQueue::new(),
        WeakQueue::new(),
        WeakQueue::new(),
        WeakQueue::new(),
        WeakQueue::new(),
        WeakQueue::new(),
        WeakQueue::new(),
        WeakQueue::new(),
        WeakQueue::new(),
    ]
}

fn no_pools() -> [Option<Pool>; 8]
    ensures { result ≡ replicate 8 None }
{
    [None, None, None, None, None, None, None, None]
}

fn address_spaces(alloc: Global, page: u32) -> Result<Spaces, NoMemory>
    requires { IsTrue (is_page_size page) }
    ensures { IfOk result (λ s. s ≡ record { page = page; processes = no_process }) }
{
    let Some(page) = PageSize::new(page) else {
        unreachable!()
    };
    Spaces::new(alloc, page)
}

// The pool of device `dev`, if it is a pooled one.
fn pool_at(memory: &mut Memory, dev: u32, config: &Option<DeviceConfig>) -> Option<Pool>
    requires sound { IsSound memory.old }
    requires fits { FitsPlace memory.old.frames.page (option_map device_config config.now) }
    requires free { device_pool (option_map device_config config.now) ≤ count_by is_free memory.old.frames.owners }
    requires meter { memory.old.frames.meters.taken + 68 < 2 ^ 64 }
    ensures { PoolAdds config.now dev memory.old memory.new result }
{
    match config {
        Some(device) if device.kind == Kind::Pooled => {
            Some(Pool::make(memory, dev, device.depth))
        }
        _ => None,
    }
}

// The pools of all pooled devices.
fn make_pools(memory: &mut Memory, config: &Config, pools: &mut [Option<Pool>; 8])
    requires fits { Fits (config_of config.now) }
    requires none { HasPools config.now 0 memory.old pools.old }
    ensures { HasPools config.now 8 memory.new pools.new }
{
    'devices: for d in 0..8 {
        let pool = pool_at(memory, d, &config.devices[d as usize]);
        pools[d as usize] = pool;
    }
}

// Memory of free frames and free slots, but for the pools, without a page or an object.
fn pooled_memory(
    alloc: Global,
    config: &Config,
    pools: &mut [Option<Pool>; 8],
) -> Result<Memory, NoMemory>
    requires fits { Fits (config_of config.now) }
    requires none { pools.old ≡ replicate 8 None }
    ensures { IfOk result (λ m. HasPools config.now 8 m pools.new) }
{
    let mut memory = Memory::new(alloc, config.frames, config.page, config.slots)?;
    make_pools(&mut memory, config, pools);
    Ok(memory)
}

impl Kernel {
    ghost use Rattle.genie_frame.specs.FrameTable.{no_meters};
    ghost use Rattle.genie_kernel.specs.Good.{IsGood};
    ghost use Rattle.genie_kernel.specs.Booting.{BootsAs, only_taken};

    /// A kernel with no process and no transfer, whose devices did nothing yet. Each pooled device has its pool. It answers
    /// `NoMemory` only where memory is short, and takes all that it will ever need: no event takes memory.
    pub fn boot(alloc: Global, config: &Config) -> Result<Kernel, NoMemory>
        requires fits { Fits (config_of config.now) }
        ensures good { IfOk result IsGood }
        ensures config { IfOk result (λ k. k.config ≡ config.now) }

        // Over the inputs of its devices, and outputs to which nothing was sent, it is what the flat machine boots with.
        ensures state { IfOk result (λ k. BootsAs config.now k) }
        ensures hidden { IfOk result (λ k. k.hidden ≡ []) }

        // It has taken the frames of the pools, and moved no byte.
        ensures meters { IfOk result (λ k. k.memory.frames.meters ≡ only_taken (pool_of (config_of config.now).devices)) }
        ensures landed { IfOk result (λ k. k.memory.frames.landed ≡ 0) }
    {
        boot_is_orderly();
        let mut pools = no_pools();
        Ok(Kernel {
            memory: pooled_memory(alloc, config, &mut pools)?,
            spaces: address_spaces(alloc, config.page)?,
            hidden: HiddenCache::new(alloc)?,
            clock: Clock::new(),
            queues: no_queues(),
            transfers: Transfers::new(alloc)?,
            devices: all_devices(alloc, config)?,
            pools,
            posted: Posted::new(alloc)?,
            next: 1,
            config: *config,
        })
    }

    /// What was counted since boot: bytes that were moved, pages that were got and put, and frames that were taken.
    pub fn meters(&self) -> Meters
        ensures { result ≡ self.now.memory.frames.meters }
    {
        self.memory.frames.meters()
    }
}
