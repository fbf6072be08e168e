//! Laws of the buffers in which datagrams wait.
ghost use Rattle.genie_changes.specs.Released.{TransferEndsOver, BuffersShow, ReleasedEnds, ReleasedShows};

/// A kernel is settled without a transfer that no device works on, where frames of its pool may have been exchanged.
pub fn transfers_end_over()
    ensures { TransferEndsOver }
{}

/// Where buffers that are still in use show the same, the state is the same.
pub fn buffers_show()
    ensures { BuffersShow }
{}

/// A transfer's buffer that is free again is given up, and all others show the same.
pub fn buffers_are_released()
    ensures ends { ReleasedEnds }
    ensures shows { ReleasedShows }
{}
