//! What the configuration allows, and what is left of it.
ghost use Rattle.std.specs.Prelude.{◌≡◌, ◌+◌, ◌-◌, ◌*◌, ◌/◌, ◌≤◌, ◌<◌, ◌^◌, nat_lt};
ghost use Rattle.std.specs.Option.{option_map};
ghost use Rattle.genie_base.specs.Configs.{config_of, device_config, pool_of};
ghost use Rattle.genie_base.specs.Counts.{span, cost};
ghost use Rattle.genie_model.specs.Inputs.{pages_for};
ghost use Rattle.genie_model.specs.Pending.{wired};
ghost use Rattle.genie_model.specs.Refusing.{first_cause, new_region_causes, call_causes, over_backing, has_output, has_input, most_of, frames_to_wire};
ghost use Rattle.genie_model.specs.Tables.{entry};

use crate::tables::Tables;
use genie_base::{Class, Config, DeviceConfig, Direction, PageSize, Refusal, span};

/// The most regions that a process may have.
pub(crate) const MOST_REGIONS: u32 = 32;

/// The most transfers that may be pending.
const MOST_TRANSFERS: u32 = 64;

// The device of this number, if there is one.
fn device_at(config: &Config, dev: u32) -> Option<DeviceConfig>
    ensures { option_map device_config result ≡ entry (config_of config.now).devices dev }
{
    match config.devices.get(dev as usize) {
        Some(Some(device)) => Some(*device),
        _ => None,
    }
}

// Whether there is such a device, with an output.
pub(crate) fn has_output<T: Tables>(tables: &T, dev: u32) -> bool
    requires { T.is_sound tables.now }
    ensures { result ≡ has_output (entry (T.state tables.now).config.devices dev) }
{
    match device_at(tables.config(), dev) {
        Some(device) => device.output.is_some(),
        None => false,
    }
}

// Whether there is such a device, with an input.
pub(crate) fn has_input<T: Tables>(tables: &T, dev: u32) -> bool
    requires { T.is_sound tables.now }
    ensures { result ≡ has_input (entry (T.state tables.now).config.devices dev) }
{
    match device_at(tables.config(), dev) {
        Some(device) => device.input.is_some(),
        None => false,
    }
}

// The longest datagram of a device, in bytes.
pub(crate) fn most_of<T: Tables>(tables: &T, dev: u32) -> u32
    requires { T.is_sound tables.now }
    ensures most { result ≡ most_of (T.state tables.now).config.page (entry (T.state tables.now).config.devices dev) }
    ensures end { result ≤ 64 * (T.state tables.now).config.page }
{
    match device_at(tables.config(), dev) {
        Some(device) => device.kind.most(tables.page()),
        None => 0,
    }
}

// How many pages so many bytes need.
fn pages_of(len: u32, page: PageSize) -> u32
    ensures pages { result ≡ (len + page - 1) / page }
    ensures most { len ≤ 64 * page → result ≤ 64 }
{
    let page = u64::from(page.get());
    ((u64::from(len) + page - 1) / page) as u32
}

// How many pages so many bytes need.
pub(crate) fn pages_for<T: Tables>(tables: &T, len: u32) -> u32
    requires { T.is_sound tables.now }
    ensures pages { result ≡ pages_for (T.state tables.now) len }
    ensures most { len ≤ 64 * (T.state tables.now).config.page → result ≤ 64 }
{
    pages_of(len, tables.page())
}

// Whether so many pages more would not fit the store.
pub(crate) fn over_backing<T: Tables>(tables: &T, pages: u64) -> bool
    requires sound { T.is_sound tables.now }
    requires small { pages ≤ 2 ^ 48 }
    ensures { result ≡ over_backing (T.state tables.now) pages }
{
    tables.committed() + pages > u64::from(tables.config().slots)
}

// How many frames the pending transfers may need at most.
fn most_frames(config: &Config) -> u64
    ensures { result ≡ (config_of config.now).frames - pool_of (config_of config.now).devices - 4 }
{
    u64::from(config.frames)
        .saturating_sub(config.pool())
        .saturating_sub(4)
}

// Whether this many frames more would be too many for the pending transfers.
fn over_frames<T: Tables>(tables: &T, frames: u64) -> bool
    requires sound { T.is_sound tables.now }
    requires small { frames ≤ 2 ^ 48 }
    ensures { result ≡ nat_lt (frames_to_wire (T.state tables.now)) (wired (T.state tables.now) + frames) }
{
    tables.wired() + frames > most_frames(tables.config())
}

// Why a process may not have a new region of the system's.
pub(crate) fn refuse_new_region<T: Tables>(tables: &T, pid: u32, pages: u32) -> Option<Refusal>
    requires sound { T.is_sound tables.now }
    requires few { pages ≤ 64 }
    ensures { result ≡ first_cause (new_region_causes (T.state tables.now) pid pages) }
{
    if tables.count_regions(pid) >= MOST_REGIONS {
        return Some(Refusal::Regions);
    }
    if !tables.has_place(pid, pages) {
        return Some(Refusal::Space);
    }
    if over_backing(tables, u64::from(pages)) {
        return Some(Refusal::Backing);
    }
    None
}

// How many frames a call that touches so many pages may need.
fn cost_of_span(class: Class, direction: Direction, touched: u32) -> u64
    ensures cost { result ≡ cost class direction touched }
    ensures most { result < 2 ^ 33 }
{
    match (class, direction) {
        (Class::Copy, Direction::Inward) => 2 * u64::from(touched),
        _ => u64::from(touched),
    }
}

// Why no further call of this cost is accepted.
fn refuse_cost<T: Tables>(tables: &T, frames: u64) -> Option<Refusal>
    requires sound { T.is_sound tables.now }
    requires small { frames ≤ 2 ^ 33 }
    ensures { result ≡ first_cause (call_causes (T.state tables.now) frames) }
{
    if tables.count_pending() >= MOST_TRANSFERS {
        return Some(Refusal::Transfers);
    }
    if over_frames(tables, frames) {
        return Some(Refusal::Frames);
    }
    None
}

// Why no further call for this range is accepted.
pub(crate) fn refuse_call<T: Tables>(
    tables: &T,
    class: Class,
    direction: Direction,
    addr: u32,
    len: u32,
) -> Option<Refusal>
    requires { T.is_sound tables.now }
    ensures { result ≡ first_cause (call_causes (T.state tables.now) (cost class direction (span (T.state tables.now).config.page addr len))) }
{
    let touched = span(addr, len, tables.page());
    refuse_cost(tables, cost_of_span(class, direction, touched))
}
