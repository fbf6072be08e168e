//! Why events on address spaces are refused.
ghost use Rattle.std.specs.Prelude.{◌≡◌, ◌≤◌, ◌||◌, length, not};
ghost use Rattle.std.specs.List.{list_any};
ghost use Rattle.genie_base.specs.declared.event.Event.TheVariants as event;
ghost use Rattle.genie_model.specs.Refusing.{refuse, is_live, is_weak_input_into};

use crate::limits::{MOST_REGIONS, over_backing, refuse_new_region};
use crate::tables::{FoundRegion, Tables};
use genie_base::Refusal;

pub(crate) fn refuse_spawn<T: Tables>(tables: &T, pid: u32) -> Option<Refusal>
    requires { T.is_sound tables.now }
    ensures { result ≡ refuse (T.state tables.now) (event.Spawn pid) }
{
    if pid > 15 {
        return Some(Refusal::Proc);
    }
    if tables.is_alive(pid) {
        return Some(Refusal::Exists);
    }
    None
}

pub(crate) fn refuse_fork<T: Tables>(tables: &T, parent: u32, child: u32) -> Option<Refusal>
    requires { T.is_sound tables.now }
    ensures { result ≡ refuse (T.state tables.now) (event.Fork parent child) }
{
    if !tables.is_alive(parent) || child > 15 {
        return Some(Refusal::Proc);
    }
    if tables.is_alive(child) {
        return Some(Refusal::Exists);
    }
    if over_backing(tables, tables.accessible_pages(parent)) {
        return Some(Refusal::Backing);
    }
    None
}

pub(crate) fn refuse_exit<T: Tables>(tables: &T, pid: u32) -> Option<Refusal>
    requires { T.is_sound tables.now }
    ensures { result ≡ refuse (T.state tables.now) (event.Exit pid) }
{
    if !tables.is_alive(pid) {
        return Some(Refusal::Proc);
    }
    None
}

pub(crate) fn refuse_map<T: Tables>(tables: &T, pid: u32, page: u32, pages: u32) -> Option<Refusal>
    requires { T.is_sound tables.now }
    ensures { result ≡ refuse (T.state tables.now) (event.Map pid page pages) }
{
    if !tables.is_alive(pid) {
        return Some(Refusal::Proc);
    }
    if !(1 <= pages && pages <= 64) {
        return Some(Refusal::Range);
    }
    if u64::from(page) + u64::from(pages) > 512 || !tables.is_free(pid, page, pages) {
        return Some(Refusal::Region);
    }
    if tables.count_regions(pid) >= MOST_REGIONS {
        return Some(Refusal::Regions);
    }
    if over_backing(tables, u64::from(pages)) {
        return Some(Refusal::Backing);
    }
    None
}

pub(crate) fn refuse_alloc<T: Tables>(tables: &T, pid: u32, pages: u32) -> Option<Refusal>
    requires { T.is_sound tables.now }
    ensures { result ≡ refuse (T.state tables.now) (event.Alloc pid pages) }
{
    if !tables.is_alive(pid) {
        return Some(Refusal::Proc);
    }
    if !(1 <= pages && pages <= 64) {
        return Some(Refusal::Range);
    }
    refuse_new_region(tables, pid, pages)
}

pub(crate) fn refuse_unmap<T: Tables>(tables: &T, pid: u32, page: u32) -> Option<Refusal>
    requires { T.is_sound tables.now }
    ensures { result ≡ refuse (T.state tables.now) (event.Unmap pid page) }
{
    if !tables.is_alive(pid) {
        return Some(Refusal::Proc);
    }
    if tables.starting_at(pid, page).is_some() {
        return None;
    }
    Some(Refusal::Region)
}

// Whether a weak move has a region under way, or a weak input may still store in it.
fn must_stay_writable<T: Tables>(tables: &T, region: FoundRegion) -> bool
    requires { T.is_sound tables.now }
    ensures { result ≡ (not (is_live region.state) || list_any (is_weak_input_into region.number) (T.state tables.now).transfers) }
{
    !region.is_live() || tables.has_weak_input_into(region.number)
}

pub(crate) fn refuse_protect<T: Tables>(
    tables: &T,
    pid: u32,
    page: u32,
    writable: bool,
) -> Option<Refusal>
    requires { T.is_sound tables.now }
    ensures { result ≡ refuse (T.state tables.now) (event.Protect pid page writable) }
{
    if !tables.is_alive(pid) {
        return Some(Refusal::Proc);
    }
    match tables.starting_at(pid, page) {
        None => Some(Refusal::Region),
        Some(region) if !writable && must_stay_writable(tables, region) => Some(Refusal::State),
        Some(_) => None,
    }
}

pub(crate) fn refuse_read<T: Tables>(tables: &T, pid: u32, addr: u32, len: u32) -> Option<Refusal>
    requires { T.is_sound tables.now }
    ensures { result ≡ refuse (T.state tables.now) (event.Read pid addr len) }
{
    if !tables.is_alive(pid) {
        return Some(Refusal::Proc);
    }
    let page = tables.page().get();
    if !(1 <= len && len <= page && tables.reach(pid, addr, len).is_some()) {
        return Some(Refusal::Range);
    }
    None
}

pub(crate) fn refuse_write<T: Tables>(
    tables: &T,
    pid: u32,
    addr: u32,
    bytes: &[u8],
) -> Option<Refusal>
    requires sound { T.is_sound tables.now }
    requires short { length bytes.now ≤ 4096 }
    ensures { result ≡ refuse (T.state tables.now) (event.Write pid addr bytes.now) }
{
    if !tables.is_alive(pid) {
        return Some(Refusal::Proc);
    }
    let len = bytes.len() as u32;
    if !(1 <= len && len <= tables.page().get()) {
        return Some(Refusal::Range);
    }
    match tables.reach(pid, addr, len) {
        None => Some(Refusal::Range),
        Some(region) if region.writable => None,
        Some(_) => Some(Refusal::Denied),
    }
}
