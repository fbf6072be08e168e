//! A pending transfer.
ghost use Rattle.std.specs.Prelude.{◌≡◌};
ghost use Rattle.genie_model.specs.Pending.{is_inward, is_queued, is_moving};
ghost use Rattle.genie_kernel.specs.Calls.{has_number, is_named, is_weak_input_into, waits_for, receives_from, begins_at, is_copy_input};
ghost use Rattle.genie_base.specs.Transfers.{class_of};
ghost use Rattle.genie_kernel.specs.Searches.{names};
ghost use Rattle.genie_kernel.specs.Changes.{changed_by};

use genie_base::{Class, Direction, Note, RegionId, Semantics, TransferId};
use genie_model::Phase;
use genie_plan::{InPlan, OutPlan};

/// The frames that are lent for a transfer.
#[derive(Drop)]
pub enum Loans {
    Nothing,
    Outward(OutPlan),
    Inward(InPlan),
}

/// A pending transfer. It holds no payload bytes: they are in the frames that are lent for it, in the buffer that it has,
/// or in its device.
#[derive(Drop)]
pub struct Transfer {
    pub id: TransferId,
    /// The process that made the call, until that is gone.
    pub owner: Option<u32>,
    pub sem: Semantics,
    pub dir: Direction,
    pub dev: u32,
    pub port: u16,
    pub flow: Option<u32>,
    /// The address of a copy input, else 0.
    pub addr: u32,
    /// The region of a weak transfer, or the one that is held for a move input.
    pub region: Option<RegionId>,
    /// Where the range of an output or a weak input begins in its region, else 0.
    pub offset: u32,
    /// How many bytes its buffer has.
    pub len: u32,
    pub phase: Phase,
    pub loans: Loans,
    /// The buffer of a pool, or of outboard memory, of a ready input on a device that isn't early.
    pub buffer: Option<u32>,
    /// How many bytes are stored of an input.
    pub stored: u32,
    pub note: Note,
}

/// What an event changes of a pending transfer.
#[derive(Clone, Copy, Debug, PartialEq, Eq)]
pub enum Change {
    /// How far it has come.
    Progress {
        phase: Phase,
        buffer: Option<u32>,
        stored: u32,
        note: Note,
    },
    /// Its process is gone. A weak transfer still names its region, or what is left of it.
    Ownerless {
        region: Option<RegionId>,
    },
}

impl Change {
    /// Changes a transfer.
    pub fn apply(self, transfer: &mut Transfer)
        ensures { transfer.new ≡ changed_by self transfer.old }
    {
        match self {
            Change::Progress {
                phase,
                buffer,
                stored,
                note,
            } => {
                transfer.phase = phase;
                transfer.buffer = buffer;
                transfer.stored = stored;
                transfer.note = note;
            }
            Change::Ownerless { region } => {
                transfer.owner = None;
                transfer.region = region;
            }
        }
    }
}

fn is_inward(direction: Direction) -> bool
    ensures { result ≡ is_inward direction }
{
    matches!(direction, Direction::Inward)
}

fn is_copy_input(semantics: Semantics, direction: Direction) -> bool
    ensures { result ≡ is_copy_input (class_of semantics) direction }
{
    match (semantics.class(), direction) {
        (Class::Copy, Direction::Inward) => true,
        _ => false,
    }
}

fn is_queued(phase: Phase) -> bool
    ensures { result ≡ is_queued phase }
{
    matches!(phase, Phase::Queued)
}

fn is_moving(phase: Phase) -> bool
    ensures { result ≡ is_moving phase }
{
    matches!(phase, Phase::Moving)
}

// Whether the region is the one with this number.
fn is_named(region: Option<RegionId>, number: u32) -> bool
    ensures { result ≡ is_named region number }
{
    match region {
        Some(id) => id.0 == number,
        None => false,
    }
}

impl Transfer {
    /// Whether it has this number.
    pub fn has_number(&self, id: u32) -> bool
        ensures { result ≡ has_number id self.now }
    {
        self.id.0 == id
    }

    /// The address of a copy input, or the place in its region: from there on its pages are counted.
    pub fn begins_at(&self) -> u32
        ensures { result ≡ begins_at self.now }
    {
        if is_copy_input(self.sem, self.dir) {
            self.addr
        } else {
            self.offset
        }
    }

    /// Whether it is an output of this device that isn't wholly sent.
    pub fn waits_for(&self, dev: u32) -> bool
        ensures { result ≡ waits_for dev self.now }
    {
        is_queued(self.phase) && self.dev == dev
    }

    /// Whether it is an input into which this device moves a datagram.
    pub fn receives_from(&self, dev: u32) -> bool
        ensures { result ≡ receives_from dev self.now }
    {
        is_moving(self.phase) && self.dev == dev
    }

    /// Whether it names this region or orphan.
    pub fn names(&self, region: u32) -> bool
        ensures { result ≡ names region self.now }
    {
        is_named(self.region, region)
    }

    /// Whether it is a weak input of this region or orphan.
    pub fn is_weak_input_into(&self, region: u32) -> bool
        ensures { result ≡ is_weak_input_into region self.now }
    {
        is_inward(self.dir) && !self.sem.strong() && is_named(self.region, region)
    }
}
