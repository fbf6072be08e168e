//! Frames that an input may need.
ghost use Rattle.std.specs.Prelude.{◌≡◌, ◌+◌, ◌^◌, ◌≤◌, count_by, OnOk};
ghost use Rattle.genie_base.specs.Causes.{HasCause};
ghost use Rattle.genie_frame.specs.FrameTable.{is_free};
ghost use Rattle.genie_hiding.specs.Rooms.{available};
ghost use Rattle.genie_object.specs.Costs.{AreBelow};
ghost use Rattle.genie_object.specs.Sound.{IsSized};
ghost use Rattle.genie_kernel.specs.Good.{IsGood};
ghost use Rattle.genie_kernel.specs.Rising.{MetersRise};
ghost use Rattle.genie_room.specs.Rooms.{HasRoom};
ghost use Rattle.genie_changes.specs.Making.{IsMoved};
ghost use Rattle.genie_copying.specs.Spending.{CopiesAtMost, NoDearer};
ghost use Rattle.genie_hiding.specs.Hidden.{objects_of};

use genie_changes::making::memory_moves;
use genie_kernel::Kernel;
use genie_pageout::make_room;
use genie_room::laws::{places_suffice, room_is_kept};
use genie_store::{Store, StoreFault};

// Makes `n` frames free. The kernel stands for what it stood for, also where the store fails.
pub(crate) fn make_free<S: Store>(
    kernel: &mut Kernel,
    store: &mut S,
    n: u32,
) -> Result<(), StoreFault>
    requires good { IsGood kernel.old }
    requires sized { IsSized kernel.old.memory (S.view store.old) }
    requires meters { AreBelow (2 ^ 63) kernel.old.memory.frames.meters }
    requires frames { n ≤ available kernel.old.memory.frames }
    ensures moved { IsMoved kernel.old kernel.new (S.view store.old) (S.view store.new) }
    ensures free { OnOk result (n ≤ count_by is_free kernel.new.memory.frames.owners) }
    ensures room { HasRoom kernel.old kernel.new.memory }
    ensures meters { AreBelow (2 ^ 63 + 2 ^ 20) kernel.new.memory.frames.meters }
    ensures cause { HasCause (S.view store.old).faults (S.view store.new).faults result }
    ensures rises { MetersRise (2 ^ 13) kernel.old.memory.frames kernel.new.memory.frames }
    ensures landed { kernel.new.memory.frames.landed ≡ kernel.old.memory.frames.landed }
    ensures gets { kernel.new.memory.frames.meters.gets ≡ kernel.old.memory.frames.meters.gets }
    ensures copying { CopiesAtMost 0 kernel.old.memory kernel.new.memory }
    ensures costs { NoDearer (objects_of kernel.old.hidden) kernel.old.memory kernel.new.memory }
{
    memory_moves();
    places_suffice();
    room_is_kept();
    match make_room(
        &mut kernel.memory,
        &mut kernel.hidden,
        &mut kernel.clock,
        store,
        n,
    ) {
        Ok(()) => Ok(()),
        Err(fault) => Err(fault),
    }
}
