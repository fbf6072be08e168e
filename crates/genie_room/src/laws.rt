//! Laws of the room that a good kernel has.
ghost use Rattle.genie_room.specs.Frames.{PoolsAreFew, FramesAreLent, LoansAreWired, FourAreAvailable, CostsAreAvailable, CallsCanBegin, OutputsAreAvailable, InputsAreAvailable, PendingAreAvailable, CopiesAreAvailable, AvailableIsKept};
ghost use Rattle.genie_room.specs.Bounds.{PlansAreShort, CountsAreLow};
ghost use Rattle.genie_room.specs.Places.{PlacesFit, PagesAreCommitted, PlacesSuffice, PlacesAreKept, BuffersSuffice, ObjectsSuffice, QueuesSuffice};
ghost use Rattle.genie_room.specs.Rooms.{RoomIsKept};

/// Pools have at most the frames that they were given.
pub fn pools_are_few()
    ensures { PoolsAreFew }
{}

/// All frames can be had but those of pools and those that are lent for transfers.

pub fn frames_are_lent()
    ensures { FramesAreLent }
{}

/// The pending transfers have at most as many loans as they may need frames.

pub fn loans_are_wired()
    ensures { LoansAreWired }
{}

/// Four frames can always be had.

pub fn four_are_available()
    ensures { FourAreAvailable }
{}

/// Where the flat machine has frames for one more transfer, they can be had, and four.
pub fn costs_are_available()
    ensures { CostsAreAvailable }
{}

/// A call that isn't refused can have all frames that it may need, and touches at most 65 pages.
pub fn calls_can_begin()
    ensures { CallsCanBegin }
{}

/// An output that isn't refused can have all frames that it may need, by its address.
pub fn outputs_are_available()
    ensures { OutputsAreAvailable }
{}

/// So can an input.
pub fn inputs_are_available()
    ensures { InputsAreAvailable }
{}

/// A pending transfer can have the frames that it may need beside its loans.
pub fn pending_are_available()
    ensures { PendingAreAvailable }
{}

/// A copy input can have a frame for each page of its range beside its loans.
pub fn copies_are_available()
    ensures { CopiesAreAvailable }
{}

/// As many frames can be had after calls that keep loans, where no count has changed.
pub fn available_is_kept()
    ensures { AvailableIsKept }
{}

/// A pending transfer has at most 65 loans.
pub fn plans_are_short()
    ensures { PlansAreShort }
{}

/// A frame has at most 4,096 loans, and at most 4,096 wires.
pub fn counts_are_low()
    ensures { CountsAreLow }
{}

/// Where the pages of regions fit the slots, there are slots for pages in frames, and pages for frames without one.
pub fn places_fit()
    ensures { PlacesFit }
{}

/// The pages of a kernel's regions are those that the flat machine has committed.
pub fn pages_are_committed()
    ensures { PagesAreCommitted }
{}

/// A good kernel has slots for its pages in frames, and pages for its frames without one.
pub fn places_suffice()
    ensures { PlacesSuffice }
{}

/// Calls that keep the sizes leave that room.
pub fn places_are_kept()
    ensures { PlacesAreKept }
{}

/// There is room for the pages that the frames of a buffer become.
pub fn buffers_suffice()
    ensures { BuffersSuffice }
{}

/// Where a process has room for one more region, one more object can be there.
pub fn objects_suffice()
    ensures { ObjectsSuffice }
{}

/// The weak queue of a process has room for each of its regions that isn't Out.
pub fn queues_suffice()
    ensures { QueuesSuffice }
{}

/// Calls that keep loans and change no count leave the room that there was: an event makes room once, at its start, and
/// then takes frames.
pub fn room_is_kept()
    ensures { RoomIsKept }
{}
