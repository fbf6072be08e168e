//! The end of an output that is sent.
ghost use Rattle.std.specs.Prelude.{◌≡◌, None, find};
ghost use Rattle.genie_base.specs.declared.event.Event.TheVariants as event;
ghost use Rattle.genie_model.specs.Refusing.{refuse};
ghost use Rattle.genie_kernel.specs.Calls.{has_number};
ghost use Rattle.genie_kernel.specs.Good.{IsGood};
ghost use Rattle.genie_kernel.specs.View.{outline};
ghost use Rattle.genie_endings.specs.Ends.{IsOutput};
ghost use Rattle.genie_endings.specs.Serving.{IsServed};

use crate::call::end_call;
use crate::laws::ending_laws;
use genie_base::{Reply, TransferId};
use genie_kernel::Kernel;

/// Ends an output that is wholly sent, and answers how many bytes it had, or that its process is gone. Its loans are given
/// back: a frame of its own is free then, or nobody's while another loan on it is out. Until all its bytes are sent, the
/// event is refused.
pub fn finish_output(kernel: &mut Kernel, id: u32) -> Reply<'static>
    requires good { IsGood kernel.old }
    requires accepted { refuse (outline kernel.old) (event.Finish id) ≡ None }
    requires output { IsOutput (find (has_number id) kernel.old.transfers) }
    ensures { IsServed kernel.old (event.Finish id) kernel.new result }
{
    ending_laws();
    let transfer = end_call(kernel, TransferId(id));
    match transfer.owner {
        Some(_) => Reply::Output { n: transfer.len },
        None => Reply::Gone,
    }
}
