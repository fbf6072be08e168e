//! The table of processes.
ghost use Rattle.std.specs.Prelude.{◌≡◌, ◌*◌, ◌<◌, ◌≤◌, ◌^◌, None, length, map, find, sum_by, slice_set, OnOk};
ghost use Rattle.std.specs.List.{list_any};
ghost use Rattle.std.specs.Option.{option_copied};
ghost use Rattle.genie_tables.specs.Changes.{change_of};
ghost use Rattle.genie_model.specs.Regions.{has_number, regions_of, region_pages, changed_in, change_process};
ghost use Rattle.genie_model.specs.Space.{with_region, without_region};
ghost use Rattle.genie_model.specs.Outputs.{moved_out_of};
ghost use Rattle.genie_model.specs.Inputs.{moved_in_of};
ghost use Rattle.genie_model.specs.Tables.{entry};

use crate::change::Change;
use crate::process::Process;
use crate::region::Region;
use genie_base::NoMemory;

/// What stands at a place of a table, where something does.
pub fn entry_of<T>(table: &[Option<T>], n: u32) -> Option<&T>
    ensures { option_copied result ≡ entry table.now n }
{
    match table.get(n as usize) {
        Some(Some(value)) => Some(value),
        _ => None,
    }
}

fn has_number_in(process: &Option<Process>, number: u32) -> bool
    ensures { result ≡ has_number number process.now }
{
    match process {
        Some(process) => process.has_number(number),
        None => false,
    }
}

/// Whether a region of some process has this number.
pub fn any_numbered(processes: &[Option<Process>], number: u32) -> bool
    ensures { result ≡ list_any (has_number number) processes.now }
{
    processes
        .iter()
        .any(|process| has_number_in(process, number))
}

/// The process that has a region of this number.
pub fn process_with(processes: &[Option<Process>], number: u32) -> Option<&Option<Process>>
    ensures { option_copied result ≡ find (has_number number) processes.now }
{
    processes
        .iter()
        .find(|process| has_number_in(process, number))
}

fn pages_of(process: &Option<Process>) -> u64
    ensures pages { result ≡ region_pages process.now }
    ensures most { result ≤ 2 ^ 37 }
{
    match process {
        Some(process) => process.pages(),
        None => 0,
    }
}

/// The pages of all regions.
pub fn committed(processes: &[Option<Process>]) -> u64
    requires { length processes.now ≤ 16 }
    ensures pages { result ≡ sum_by region_pages processes.now }
    ensures most { result ≤ 2 ^ 37 * length processes.now }
{
    let mut pages = 0;
    for process in processes {
        pages += pages_of(process);
    }
    pages
}

fn change_in(process: &mut Option<Process>, number: u32, change: &Change)
    ensures { process.new ≡ change_process (changed_in number (change_of change.now)) process.old }
{
    if let Some(process) = process {
        process.change(number, change);
    }
}

fn change_in_each(processes: &mut [Option<Process>], number: u32, change: &Change)
    ensures { processes.new ≡ map (change_process (changed_in number (change_of change.now))) processes.old }
{
    for process in processes.iter_mut() {
        change_in(process, number, change);
    }
}

/// Changes region `number`, whoever has it.
pub fn change_region(processes: &mut Vec<Option<Process>>, number: u32, change: &Change)
    ensures changed { processes.new.items ≡ map (change_process (changed_in number (change_of change.now))) processes.old.items }
    ensures places { length processes.new.items ≡ length processes.old.items }
{
    change_in_each(processes.as_mut_slice(), number, change);
}

/// Takes a process out.
pub fn take_process(processes: &mut Vec<Option<Process>>, pid: u32) -> Option<Process>
    ensures found { result ≡ entry processes.old.items pid }
    ensures rest { processes.new.items ≡ slice_set processes.old.items pid None }
    ensures places { length processes.new.items ≡ length processes.old.items }
{
    let pid = pid as usize;
    if pid < processes.len() {
        processes[pid].take()
    } else {
        None
    }
}

fn remove_from(process: &mut Option<Process>, number: u32)
    ensures { process.new ≡ change_process (without_region number) process.old }
{
    if let Some(process) = process {
        process.remove(number);
    }
}

fn remove_from_each(processes: &mut [Option<Process>], number: u32)
    ensures { processes.new ≡ map (change_process (without_region number)) processes.old }
{
    for process in processes.iter_mut() {
        remove_from(process, number);
    }
}

/// Takes region `number` away, whoever has it.
pub fn remove_region(processes: &mut Vec<Option<Process>>, number: u32)
    ensures rest { processes.new.items ≡ map (change_process (without_region number)) processes.old.items }
    ensures places { length processes.new.items ≡ length processes.old.items }
{
    remove_from_each(processes.as_mut_slice(), number);
}

fn move_out_in(process: &mut Option<Process>, number: u32) -> Result<(), NoMemory>
    ensures { OnOk result (process.new ≡ change_process (moved_out_of number) process.old) }
{
    match process {
        Some(process) => process.move_out(number),
        None => Ok(()),
    }
}

fn move_out_in_each(processes: &mut [Option<Process>], number: u32) -> Result<(), NoMemory>
    ensures { OnOk result (processes.new ≡ map (change_process (moved_out_of number)) processes.old) }
{
    for process in processes.iter_mut() {
        move_out_in(process, number)?;
    }
    Ok(())
}

/// Region `number` is Out, at the end of the weak queue of the process that has it.
pub fn move_out(processes: &mut Vec<Option<Process>>, number: u32) -> Result<(), NoMemory>
    ensures moved { OnOk result (processes.new.items ≡ map (change_process (moved_out_of number)) processes.old.items) }
    ensures places { length processes.new.items ≡ length processes.old.items }
{
    move_out_in_each(processes.as_mut_slice(), number)
}

fn move_in_in(process: &mut Option<Process>, number: u32)
    ensures { process.new ≡ change_process (moved_in_of number) process.old }
{
    if let Some(process) = process {
        process.move_in(number);
    }
}

fn move_in_in_each(processes: &mut [Option<Process>], number: u32)
    ensures { processes.new ≡ map (change_process (moved_in_of number)) processes.old }
{
    for process in processes.iter_mut() {
        move_in_in(process, number);
    }
}

/// Region `number` leaves the weak queue, and is In.
pub fn move_in(processes: &mut Vec<Option<Process>>, number: u32)
    ensures moved { processes.new.items ≡ map (change_process (moved_in_of number)) processes.old.items }
    ensures places { length processes.new.items ≡ length processes.old.items }
{
    move_in_in_each(processes.as_mut_slice(), number);
}

fn add_to(process: &mut Option<Process>, region: Region) -> Result<(), NoMemory>
    requires { length (regions_of process.old) < 32 }
    ensures { OnOk result (process.new ≡ change_process (with_region region) process.old) }
{
    match process {
        Some(process) => process.add(region),
        None => Ok(()),
    }
}

/// Gives a process a region.
pub fn add_region(
    processes: &mut Vec<Option<Process>>,
    pid: u32,
    region: Region,
) -> Result<(), NoMemory>
    requires { length (regions_of (entry processes.old.items pid)) < 32 }
    ensures ok { OnOk result (processes.new.items ≡ slice_set processes.old.items pid (change_process (with_region region) (entry processes.old.items pid))) }
    ensures places { length processes.new.items ≡ length processes.old.items }
{
    let pid = pid as usize;
    if pid < processes.len() {
        add_to(&mut processes[pid], region)
    } else {
        Ok(())
    }
}
