//! A new process.
ghost use Rattle.std.specs.Prelude.{◌≡◌, ◌<◌, None, false};
ghost use Rattle.genie_base.specs.declared.event.Event.TheVariants as event;
ghost use Rattle.genie_model.specs.Refusing.{refuse};
ghost use Rattle.genie_space.specs.Spaces.{is_alive};
ghost use Rattle.genie_kernel.specs.Good.{IsGood};
ghost use Rattle.genie_kernel.specs.View.{outline};
ghost use Rattle.genie_spaces.specs.Serving.{IsServed};
ghost use Rattle.genie_spaces.specs.Tables.{spawned};

use genie_base::Reply;
use genie_hiding::WeakQueue;
use genie_kernel::Kernel;
use genie_kernel::laws::accepted_events_step;

// The tables with one process more.
fn add_process(kernel: &mut Kernel, pid: u32)
    requires number { pid < 16 }
    requires new { is_alive pid kernel.old.spaces ≡ false }
    ensures { kernel.new ≡ spawned kernel.old pid }
{
    kernel.spaces.spawn(pid);
    kernel.queues[pid as usize] = WeakQueue::new();
}

/// Makes a process without regions. Its number is below 16, and no process has it: otherwise the event is refused.
pub fn spawn(kernel: &mut Kernel, pid: u32) -> Reply<'static>
    requires good { IsGood kernel.old }
    requires accepted { refuse (outline kernel.old) (event.Spawn pid) ≡ None }
    ensures served { IsServed kernel.old (event.Spawn pid) kernel.new result }
    ensures numbers { kernel.new.next ≡ kernel.old.next }
{
    accepted_events_step();
    add_process(kernel, pid);
    Reply::Okay
}
