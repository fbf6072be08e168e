//! Transfers that end.
ghost use Rattle.std.specs.Prelude.{◌≡◌, ◌^◌, ◌<◌, None, find};
ghost use Rattle.genie_base.specs.declared.event.Event.TheVariants as event;
ghost use Rattle.genie_object.specs.Costs.{AreBelow};
ghost use Rattle.genie_object.specs.Sound.{IsSized};
ghost use Rattle.genie_model.specs.Refusing.{refuse};
ghost use Rattle.genie_kernel.specs.Calls.{has_number};
ghost use Rattle.genie_kernel.specs.Good.{IsGood};
ghost use Rattle.genie_kernel.specs.View.{outline};
ghost use Rattle.genie_endings.specs.Ends.{IsOutput};
ghost use Rattle.genie_arrivals.specs.Cases.{IsOnEarly};
ghost use Rattle.genie_calls.specs.Serving.{ServedAlone, ServedByStore};

use crate::kinds::{is_output, kind_of};
use crate::late::{finish_outboard, finish_pooled};
use genie_base::{Kind, Reply, TransferId};
use genie_kernel::Kernel;
use genie_store::Store;

// A posted input is taken back.
pub(crate) fn cancel(kernel: &mut Kernel, id: u32) -> Reply<'static>
    requires good { IsGood kernel.old }
    requires accepted { refuse (outline kernel.old) (event.Cancel id) ≡ None }
    ensures { ServedAlone kernel.old (event.Cancel id) kernel.new result }
{
    genie_endings::cancel::cancel(kernel, id)
}

// An output that is sent ends. The store isn't asked.
pub(crate) fn finish_output<S: Store>(kernel: &mut Kernel, store: &mut S, id: u32) -> Reply<'static>
    requires good { IsGood kernel.old }
    requires sized { IsSized kernel.old.memory (S.view store.old) }
    requires accepted { refuse (outline kernel.old) (event.Finish id) ≡ None }
    requires output { IsOutput (find (has_number id) kernel.old.transfers) }
    ensures { ServedByStore kernel.old (event.Finish id) kernel.new (S.view store.old) (S.view store.new) result }
{
    genie_endings::output::finish_output(kernel, id)
}

// An input on an early device ends.
pub(crate) fn finish_early<S: Store>(kernel: &mut Kernel, store: &mut S, id: u32) -> Reply<'static>
    requires good { IsGood kernel.old }
    requires sized { IsSized kernel.old.memory (S.view store.old) }
    requires meters { AreBelow (2 ^ 63) kernel.old.memory.frames.meters }
    requires accepted { refuse (outline kernel.old) (event.Finish id) ≡ None }
    requires case { IsOnEarly kernel.old id }
    ensures { ServedByStore kernel.old (event.Finish id) kernel.new (S.view store.old) (S.view store.new) result }
{
    genie_arrivals::finish::finish_input_early(kernel, store, TransferId(id))
}

// A transfer ends.
pub(crate) fn finish<S: Store>(kernel: &mut Kernel, store: &mut S, id: u32) -> Reply<'static>
    requires good { IsGood kernel.old }
    requires sized { IsSized kernel.old.memory (S.view store.old) }
    requires meters { AreBelow (2 ^ 63) kernel.old.memory.frames.meters }
    requires landed { kernel.old.memory.frames.landed < 2 ^ 63 }
    requires accepted { refuse (outline kernel.old) (event.Finish id) ≡ None }
    ensures { ServedByStore kernel.old (event.Finish id) kernel.new (S.view store.old) (S.view store.new) result }
{
    if is_output(kernel, id) {
        return finish_output(kernel, store, id);
    }
    match kind_of(kernel, id) {
        Kind::Early => finish_early(kernel, store, id),
        Kind::Pooled => finish_pooled(kernel, store, id),
        Kind::Outboard => finish_outboard(kernel, store, id),
    }
}
