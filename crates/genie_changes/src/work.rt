//! Laws of one transfer at another point of its work, on the state and on the parts of what is true of a kernel.
ghost use Rattle.genie_changes.specs.Working.{OrphansWorked, TransfersWorked, TransfersSent, CountedWorked, OwnedWorked, HeldWorked, PlannedWorked, FittingWorked, PostedWorked, PostedTaken, SendingWorked, ReceivingWorked, FirstWorked, ReceiverWorked, ArrivedWorked};

/// Orphans show the same, and the transfers are seen with that one changed, also where it is an output that is sent.
pub fn worked_view()
    ensures orphans { OrphansWorked }
    ensures transfers { TransfersWorked }
    ensures sent { TransfersSent }
{}

/// Loans, wires, owners, held pages and plans are as before.
pub fn worked_loans()
    ensures counted { CountedWorked }
    ensures owned { OwnedWorked }
    ensures held { HeldWorked }
    ensures planned { PlannedWorked }
    ensures fitting { FittingWorked }
{}

/// The posted inputs, where it isn't one before or afterwards, and where it is one no more.
pub fn worked_posted()
    ensures worked { PostedWorked }
    ensures taken { PostedTaken }
{}

/// Which output waits first, and into which input a device moves a datagram: all other devices go on as before.
pub fn worked_devices()
    ensures first { FirstWorked }
    ensures receiver { ReceiverWorked }
    ensures sending { SendingWorked }
    ensures receiving { ReceivingWorked }
{}

/// The datagrams that wait in buffers, with that of a transfer that has arrived.
pub fn worked_arrival()
    ensures { ArrivedWorked }
{}
