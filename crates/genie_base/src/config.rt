//! The configuration of a boot, and its limits.
ghost use Rattle.std.specs.Prelude.{◌≡◌, ◌↔◌, ◌≤◌, ◌*◌, ◌^◌, IsTrue, All, length, sum_by};
ghost use Rattle.std.specs.Option.{option_map};
ghost use Rattle.genie_base.specs.Configs.{config_of, device_config, device_pool, pool_of, Fits, FitsDevice, FitsPlace, most};

use crate::page_size::PageSize;

/// How many devices there may be.
pub const DEVICES: usize = 8;

/// How a device buffers its input.
#[derive(Clone, Copy, Debug, PartialEq, Eq)]
pub enum Kind {
    /// It matches a record to an input by its header, and stores in the input's buffer.
    Early,
    /// It stores in a pool of host buffers, and matches a whole record.
    Pooled,
    /// It stores in memory of its own, and matches a whole record.
    Outboard,
}

/// A device: its input and output are handles of the host.
#[derive(Clone, Copy, Debug, PartialEq, Eq)]
pub struct DeviceConfig {
    pub kind: Kind,
    pub input: Option<u32>,
    pub output: Option<u32>,
    /// How many datagrams may wait in it: 1 for an early device, else 1 to 4.
    pub depth: u32,
    /// Where a pooled device's buffers begin in their first page, in bytes; else 0.
    pub offset: u32,
}

/// A boot's configuration.
#[derive(Clone, Copy, Debug)]
pub struct Config {
    /// The page size, in bytes.
    pub page: u32,
    /// How many page frames there are, from 16 to 4,096.
    pub frames: u32,
    /// How many backing pages there are, from 1 to 8,192.
    pub slots: u32,
    /// An emulated copy output of at most so many bytes is a plain copy.
    pub cout: u32,
    /// A part page of an emulated copy input with more data bytes goes by reverse copyout.
    pub rcout: u32,
    /// The devices at their numbers.
    pub devices: [Option<DeviceConfig>; 8],
}

impl Kind {
    /// The longest datagram, in bytes, with pages of `page` bytes.
    pub fn most(self, page: PageSize) -> u32
        ensures { result ≡ most self page }
    {
        match self {
            Kind::Pooled => 16 * page.get(),
            Kind::Early | Kind::Outboard => 64 * page.get(),
        }
    }
}

impl DeviceConfig {
    // Whether its limits are kept.
    fn fits(&self, page: u32) -> bool
        ensures { IsTrue result ↔ FitsDevice page (device_config self.now) }
    {
        let (most_depth, offset_end) = match self.kind {
            Kind::Early => (1, 1),
            Kind::Pooled => (4, page),
            Kind::Outboard => (4, 1),
        };
        1 <= self.depth && self.depth <= most_depth && self.offset < offset_end
    }
}

// Whether the device, if there is one, keeps its limits.
fn fits_place(device: &Option<DeviceConfig>, page: u32) -> bool
    ensures { IsTrue result ↔ FitsPlace page (option_map device_config device.now) }
{
    match device {
        None => true,
        Some(device) => device.fits(page),
    }
}

// Whether every device keeps its limits.
fn devices_fit(devices: &[Option<DeviceConfig>], page: u32) -> bool
    ensures { IsTrue result ↔ All (λ d. FitsPlace page (option_map device_config d)) devices.now }
{
    devices.iter().all(|device| fits_place(device, page))
}

// The frames of a device's pool: 17 for each buffer of a pooled device, else none.
fn pool_at(device: &Option<DeviceConfig>) -> u64
    ensures frames { result ≡ device_pool (option_map device_config device.now) }
    ensures most { result ≤ 2 ^ 40 }
{
    match device {
        Some(device) if device.kind == Kind::Pooled => u64::from(device.depth) * 17,
        _ => 0,
    }
}

// The frames of all pools.
fn pool_of_all(devices: &[Option<DeviceConfig>]) -> u64
    requires { length devices.now ≤ 8 }
    ensures frames { result ≡ sum_by (λ d. device_pool (option_map device_config d)) devices.now }
    ensures most { result ≤ 2 ^ 40 * length devices.now }
{
    let mut frames = 0;
    for device in devices {
        frames += pool_at(device);
    }
    frames
}

impl Config {
    /// How many frames the pools of the pooled devices have.
    #[tactic(auto, using(crate::specs::Lemmas::Mapped::mapped))]
    pub fn pool(&self) -> u64
        ensures frames { result ≡ pool_of (config_of self.now).devices }
        ensures most { result ≤ 2 ^ 43 }
    {
        pool_of_all(&self.devices)
    }

    /// Whether every limit is kept.
    pub fn fits(&self) -> bool
        ensures { IsTrue result ↔ Fits (config_of self.now) }
    {
        if PageSize::new(self.page).is_none() {
            return false;
        }
        if self.frames < 16 || self.frames > 4096 {
            return false;
        }
        if self.slots < 1 || self.slots > 8192 {
            return false;
        }
        if u64::from(self.cout) > 16 * u64::from(self.page) || self.rcout > self.page {
            return false;
        }
        if !devices_fit(&self.devices, self.page) {
            return false;
        }
        self.pool() + 8 <= u64::from(self.frames)
    }
}
