//! Why calls, device steps and ends of transfers are refused.
ghost use Rattle.std.specs.Prelude.{◌≡◌, ℕ, ◌*◌, ◌≤◌, Option};
ghost use Rattle.genie_base.specs.declared.event.Event.TheVariants as event;
ghost use Rattle.genie_model.specs.Inputs.{address_or_zero};
ghost use Rattle.genie_model.specs.Refusing.{refuse, first_cause, app_causes, sys_causes, buffer_causes, target_causes, must_make};

use crate::limits::{has_input, has_output, most_of, pages_for, refuse_call, refuse_new_region};
use crate::tables::Tables;
use genie_base::{Class, Direction, Refusal, Semantics};
use genie_model::Phase;

/// The most bytes that one step of a device may move.
const MOST_STEP: u32 = 65_536;

pub(crate) fn refuse_output<T: Tables>(
    tables: &T,
    pid: u32,
    sem: Semantics,
    dev: u32,
    addr: u32,
    len: u32,
) -> Option<Refusal>
    requires { T.is_sound tables.now }
    ensures { (port : ℕ) (flow : Option ℕ) → result ≡ refuse (T.state tables.now) (event.Output pid sem dev port flow addr len) }
{
    if !tables.is_alive(pid) {
        return Some(Refusal::Proc);
    }
    if !has_output(tables, dev) {
        return Some(Refusal::Dev);
    }
    if len > most_of(tables, dev) {
        return Some(Refusal::Range);
    }
    let Some(region) = tables.reach(pid, addr, len) else {
        return Some(Refusal::Range);
    };
    if sem.system() && !sem.strong() && !region.writable {
        return Some(Refusal::Denied);
    }
    if sem.system() && !region.may_move() {
        return Some(Refusal::State);
    }
    refuse_call(tables, sem.class(), Direction::Outward, addr, len)
}

// Why a buffer of the application's is refused.
fn refuse_app<T: Tables>(tables: &T, pid: u32, most: u32, addr: u32, len: u32) -> Option<Refusal>
    requires { T.is_sound tables.now }
    ensures { result ≡ first_cause (app_causes (T.state tables.now) pid most addr len) }
{
    if len > most {
        return Some(Refusal::Range);
    }
    match tables.reach(pid, addr, len) {
        None => Some(Refusal::Range),
        Some(region) if region.writable => None,
        Some(_) => Some(Refusal::Denied),
    }
}

// Whether an input makes its region.
fn must_make<T: Tables>(tables: &T, pid: u32, class: Class, len: u32) -> bool
    requires { T.is_sound tables.now }
    ensures { result ≡ must_make (T.state tables.now) pid class len }
{
    match class {
        Class::Copy | Class::Share => false,
        Class::Move => true,
        Class::WeakMove => !tables.has_reusable(pid, pages_for(tables, len)),
    }
}

// Why a buffer of the system's is refused.
fn refuse_sys<T: Tables>(tables: &T, pid: u32, class: Class, most: u32, len: u32) -> Option<Refusal>
    requires sound { T.is_sound tables.now }
    requires most { most ≤ 64 * (T.state tables.now).config.page }
    ensures { result ≡ first_cause (sys_causes (T.state tables.now) pid class most len) }
{
    if !(1 <= len && len <= most) {
        return Some(Refusal::Range);
    }
    if must_make(tables, pid, class, len) {
        return refuse_new_region(tables, pid, pages_for(tables, len));
    }
    None
}

// Why the buffer of an input is refused.
fn refuse_buffer<T: Tables>(
    tables: &T,
    pid: u32,
    class: Class,
    most: u32,
    addr: u32,
    len: u32,
) -> Option<Refusal>
    requires sound { T.is_sound tables.now }
    requires most { most ≤ 64 * (T.state tables.now).config.page }
    ensures { result ≡ first_cause (buffer_causes (T.state tables.now) pid class most addr len) }
{
    if class.is_system() {
        refuse_sys(tables, pid, class, most, len)
    } else {
        refuse_app(tables, pid, most, addr, len)
    }
}

// Why an input is refused, but for the limits on pending transfers.
fn refuse_target<T: Tables>(
    tables: &T,
    pid: u32,
    class: Class,
    dev: u32,
    addr: u32,
    len: u32,
) -> Option<Refusal>
    requires { T.is_sound tables.now }
    ensures { result ≡ first_cause (target_causes (T.state tables.now) pid class dev addr len) }
{
    if !tables.is_alive(pid) {
        return Some(Refusal::Proc);
    }
    if !has_input(tables, dev) {
        return Some(Refusal::Dev);
    }
    refuse_buffer(tables, pid, class, most_of(tables, dev), addr, len)
}

// The address, or 0.
fn address_or_zero(addr: Option<u32>) -> u32
    ensures { result ≡ address_or_zero addr }
{
    addr.unwrap_or(0)
}

pub(crate) fn refuse_input<T: Tables>(
    tables: &T,
    pid: u32,
    sem: Semantics,
    dev: u32,
    addr: Option<u32>,
    len: u32,
) -> Option<Refusal>
    requires { T.is_sound tables.now }
    ensures { (port : ℕ) (flow : Option ℕ) → result ≡ refuse (T.state tables.now) (event.Input pid sem dev port flow addr len) }
{
    let addr = address_or_zero(addr);
    match refuse_target(tables, pid, sem.class(), dev, addr, len) {
        Some(refusal) => Some(refusal),
        None => refuse_call(tables, sem.class(), Direction::Inward, addr, len),
    }
}

pub(crate) fn refuse_send<T: Tables>(tables: &T, dev: u32, len: u32) -> Option<Refusal>
    requires { T.is_sound tables.now }
    ensures { result ≡ refuse (T.state tables.now) (event.Send dev len) }
{
    if !has_output(tables, dev) {
        return Some(Refusal::Dev);
    }
    if !(1 <= len && len <= MOST_STEP) {
        return Some(Refusal::Range);
    }
    None
}

pub(crate) fn refuse_recv<T: Tables>(tables: &T, dev: u32, len: u32) -> Option<Refusal>
    requires { T.is_sound tables.now }
    ensures { result ≡ refuse (T.state tables.now) (event.Recv dev len) }
{
    if !has_input(tables, dev) {
        return Some(Refusal::Dev);
    }
    if !(1 <= len && len <= MOST_STEP) {
        return Some(Refusal::Range);
    }
    None
}

pub(crate) fn refuse_finish<T: Tables>(tables: &T, id: u32) -> Option<Refusal>
    requires { T.is_sound tables.now }
    ensures { result ≡ refuse (T.state tables.now) (event.Finish id) }
{
    match tables.phase(id) {
        Some(Phase::Ready) => None,
        _ => Some(Refusal::State),
    }
}

pub(crate) fn refuse_cancel<T: Tables>(tables: &T, id: u32) -> Option<Refusal>
    requires { T.is_sound tables.now }
    ensures { result ≡ refuse (T.state tables.now) (event.Cancel id) }
{
    match tables.phase(id) {
        Some(Phase::Posted) => None,
        _ => Some(Refusal::State),
    }
}
