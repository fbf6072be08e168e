//! The pending transfers, as lists.
ghost use Rattle.std.specs.Prelude.{◌≡◌, ◌-◌, ◌*◌, ◌≤◌, ◌^◌, Some, length, map, filter, not, find, count_by, sum_by, OnOk};
ghost use Rattle.std.specs.List.{list_any};
ghost use Rattle.std.specs.Option.{option_copied};
ghost use Rattle.genie_model.specs.State.{Transfer as Pending};
ghost use Rattle.genie_model.specs.Pending.{awaits, has_arrived, is_numbered, waits_for, cost_of, names, names_weakly, covers};
ghost use Rattle.genie_model.specs.Space.{disowned, is_posted_by};
ghost use Rattle.genie_model.specs.Refusing.{is_weak_input_into};
ghost use Rattle.genie_model.specs.Sending.{unsent, after_sending, after_staging};
ghost use Rattle.genie_tables.specs.Changes.{turn_of, IsSmall};
ghost use Rattle.genie_model.specs.Tables.{change, without};

use crate::change::Turn;
use crate::transfer::Transfer;
use genie_base::{NoMemory, PageSize};

/// The first posted input that a record of this device and port, with this flow or none, meets.
pub fn first_posted(
    transfers: &[Transfer],
    device: u32,
    port: u16,
    flow: Option<u32>,
) -> Option<&Transfer>
    ensures { option_copied result ≡ find (awaits device port flow) transfers.now }
{
    transfers
        .iter()
        .find(|transfer| transfer.awaits(device, port, flow))
}

/// How many datagrams of a device wait for their `done`.
pub fn arrived(transfers: &[Transfer], device: u32) -> usize
    ensures { result ≡ count_by (has_arrived device) transfers.now }
{
    transfers
        .iter()
        .filter(|transfer| transfer.has_arrived(device))
        .count()
}

/// The one of this number takes a turn.
pub fn turn_first(transfers: &mut [Transfer], number: u32, turn: &Turn) -> Result<(), NoMemory>
    requires { IsSmall turn.now }
    ensures { OnOk result (transfers.new ≡ change (is_numbered number) (turn_of turn.now) transfers.old) }
{
    for i in 0..transfers.len() {
        let transfer = &mut transfers[i];
        if transfer.number() == number {
            return transfer.turn(turn);
        }
    }
    Ok(())
}

/// Whether one of them names this region or orphan.
pub fn any_names(transfers: &[Transfer], number: u32) -> bool
    ensures { result ≡ list_any (names number) transfers.now }
{
    transfers.iter().any(|transfer| transfer.names(number))
}

// Whether a weak one names this region or orphan.
pub(crate) fn any_names_weakly(transfers: &[Transfer], number: u32) -> bool
    ensures { result ≡ list_any (names_weakly number) transfers.now }
{
    transfers
        .iter()
        .any(|transfer| transfer.names_weakly(number))
}

/// Whether a weak input names this region or orphan.
pub fn any_weak_input_into(transfers: &[Transfer], number: u32) -> bool
    ensures { result ≡ list_any (is_weak_input_into number) transfers.now }
{
    transfers
        .iter()
        .any(|transfer| transfer.is_weak_input_into(number))
}

// Whether a weak one covers this place of this region or orphan.
pub(crate) fn any_covers(transfers: &[Transfer], number: u32, place: u32) -> bool
    ensures { result ≡ list_any (covers number place) transfers.now }
{
    transfers
        .iter()
        .any(|transfer| transfer.covers(number, place))
}

/// The first one that waits for a device.
pub fn first_queued(transfers: &[Transfer], device: u32) -> Option<&Transfer>
    ensures { option_copied result ≡ find (waits_for device) transfers.now }
{
    transfers
        .iter()
        .find(|transfer| transfer.is_queued_for(device))
}

/// The one of this number.
pub fn numbered(transfers: &[Transfer], number: u32) -> Option<&Transfer>
    ensures { option_copied result ≡ find (is_numbered number) transfers.now }
{
    transfers
        .iter()
        .find(|transfer| transfer.number() == number)
}

/// The frames that all of them may need.
pub fn wired(transfers: &[Transfer], page: PageSize) -> u64
    requires { length transfers.now ≤ 64 }
    ensures cost { result ≡ sum_by (cost_of page) transfers.now }
    ensures most { result ≤ 2 ^ 33 * length transfers.now }
{
    let mut wired = 0;
    for transfer in transfers {
        wired += transfer.cost(page);
    }
    wired
}

/// The next `k` bytes of the record of the first one that waits for a device are sent.
pub fn send_first(transfers: &mut [Transfer], device: u32, k: u64)
    requires { (t : Pending) → find (waits_for device) transfers.old ≡ Some t → k ≤ unsent t }
    ensures { transfers.new ≡ change (waits_for device) (after_sending k) transfers.old }
{
    for i in 0..transfers.len() {
        let transfer = &mut transfers[i];
        if transfer.is_queued_for(device) {
            transfer.send(k);
            return;
        }
    }
}

/// The next `k` bytes of the first one that waits for a device are staged.
pub fn stage_first(
    transfers: &mut [Transfer],
    device: u32,
    k: u32,
    bytes: &[u8],
) -> Result<(), NoMemory>
    requires { (t : Pending) → find (waits_for device) transfers.old ≡ Some t → k ≤ t.len - t.staged }
    ensures { OnOk result (transfers.new ≡ change (waits_for device) (after_staging k bytes.now) transfers.old) }
{
    for i in 0..transfers.len() {
        let transfer = &mut transfers[i];
        if transfer.is_queued_for(device) {
            return transfer.stage(k, bytes);
        }
    }
    Ok(())
}

// Ends the posted inputs of a process.
fn end_posted(transfers: &mut Vec<Transfer>, pid: u32)
    ensures rest { transfers.new.items ≡ filter (λ t. not (is_posted_by pid t)) transfers.old.items }
    ensures fewer { length transfers.new.items ≤ length transfers.old.items }
{
    transfers.retain(|transfer| !transfer.is_posted_by(pid));
}

fn disown_each(transfers: &mut [Transfer], pid: u32)
    ensures { transfers.new ≡ map (disowned pid) transfers.old }
{
    for transfer in transfers.iter_mut() {
        transfer.disown(pid);
    }
}

/// Ends the posted inputs of a process, and takes the owner from its other transfers.
pub fn disown_all(transfers: &mut Vec<Transfer>, pid: u32)
    ensures rest { transfers.new.items ≡ map (disowned pid) (filter (λ t. not (is_posted_by pid t)) transfers.old.items) }
    ensures fewer { length transfers.new.items ≤ length transfers.old.items }
{
    end_posted(transfers, pid);
    disown_each(transfers.as_mut_slice(), pid);
}

/// Takes the one of this number out.
pub fn take(transfers: &mut Vec<Transfer>, number: u32) -> Option<Transfer>
    ensures found { result ≡ find (is_numbered number) transfers.old.items }
    ensures rest { transfers.new.items ≡ without (is_numbered number) transfers.old.items }
    ensures fewer { length transfers.new.items ≤ length transfers.old.items }
{
    for i in 0..transfers.len() {
        if transfers[i].number() == number {
            return Some(transfers.remove(i));
        }
    }
    None
}
