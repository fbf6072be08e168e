//! Laws of a region that comes into another state.
ghost use Rattle.genie_changes.specs.Turned.{TurnedSettles, TurnedState, MovedOutState, MovedOutLists};

/// What is true between two changes stays so where a region comes into another state, and its process gets another queue of
/// its regions; the state is that with this process changed.
pub fn turned_regions()
    ensures settles { TurnedSettles }
    ensures state { TurnedState }
{}

/// A region that is moved out comes to the end of the queue.
pub fn moved_out_regions()
    ensures lists { MovedOutLists }
    ensures state { MovedOutState }
{}
