//! A kernel that is stepped by events.
ghost use Rattle.std.specs.Prelude.{◌≡◌, ℕ, ◌+◌, ◌^◌, ◌≤◌, ◌<◌, ◌↔◌, IfOk, IfErr, IsOk, OnErr, OnOk, IsTrue};
ghost use Rattle.genie_base.specs.Causes.{Rose};
ghost use Rattle.genie_base.specs.Configs.{config_of, Fits};
ghost use Rattle.genie_base.specs.Events.{is_whole, mark_of};
ghost use Rattle.genie_object.specs.Costs.{AreBelow};
ghost use Rattle.genie_object.specs.Sound.{IsSized};
ghost use Rattle.genie_kernel.specs.Booting.{BootsAs};
ghost use Rattle.genie_kernel.specs.Good.{IsGood};
ghost use Rattle.genie_kernel.specs.Handles.{HasHandles, KeepsOthers};
ghost use Rattle.genie_kernel.specs.Kept.{Kept};
ghost use Rattle.genie_kernel.specs.Rising.{MetersRise};
ghost use Rattle.genie_kernel.specs.Steps.{StepsTold};
ghost use Rattle.genie_kernel.specs.View.{view};
ghost use Rattle.genie_calls.specs.Closing.{IsClosed, KeepsRest};
ghost use Rattle.genie_calls.specs.Serving.{Touches, touched_by};
ghost use Rattle.genie_embed.specs.Machines.{HasRoom, HasRoomFor, IsOver};

use genie_base::{Config, Event, PageBuffer, Reply};
use genie_calls::close::close;
use genie_calls::step::step;
use genie_frame::Meters;
use genie_host::Host;
use genie_kernel::Kernel;
use genie_store::{Store, StoreRefused};
use std::alloc::Global;
use std::marker::Model;
use thiserror::Error;

// A step is taken only where all that is counted lies below this.
const MOST: u64 = 1 << 63;

/// A meter has come to 2^63, or no number is left for a transfer: the machine steps no further.
#[derive(Clone, Copy, Debug, PartialEq, Eq, Error)]
#[error("the machine can count no further")]
pub struct Stopped;

/// A good kernel. Contracts see the kernel.
#[derive(Drop)]
pub struct Machine {
    kernel: Kernel,
}

impl Model for Machine {
    ghost use Rattle.genie_kernel.specs.declared.kernel.Kernel.{Kernel};
    ghost use Rattle.genie_kernel.specs.Good.{IsGood};

    ghost Value = { Kernel };

    ghost view = { λ m. m.kernel };

    ghost invariant = { λ m. IsGood m.kernel };
}

fn are_below(meters: &Meters) -> bool
    ensures low { IsTrue result → AreBelow (2 ^ 63) meters.now }
    ensures high { AreBelow (2 ^ 63) meters.now → IsTrue result }
{
    meters.read < MOST
        && meters.written < MOST
        && meters.copied < MOST
        && meters.zeroed < MOST
        && meters.puts < MOST
        && meters.gets < MOST
        && meters.taken < MOST
}

fn has_room(kernel: &Kernel) -> bool
    ensures room { IsTrue result → HasRoom kernel.now }
    ensures full { HasRoom kernel.now → IsTrue result }
{
    are_below(&kernel.meters()) && kernel.memory.frames.landed() < MOST && kernel.next < u32::MAX
}

impl Machine {
    /// Boots a kernel of this configuration, and gives the store its slots. All memory is taken here.
    pub fn boot<S: Store>(
        alloc: Global,
        config: &Config,
        store: &mut S,
    ) -> Result<Machine, StoreRefused>
        requires fits { Fits (config_of config.now) }
        requires empty { (S.view store.old).count ≡ 0 }
        ensures good { IfOk result IsGood }
        ensures config { IfOk result (λ k. k.config ≡ config.now) }
        ensures state { IfOk result (λ k. BootsAs config.now k) }
        ensures sized { IfOk result (λ k. IsSized k.memory (S.view store.new)) }
        ensures room { IfOk result (λ k. HasRoomFor 1000000 k) }

        // A failure of the store has its cause, and without one no count has changed.
        ensures cause { IfErr result (λ e. e ≡ StoreRefused.Failed → Rose (S.view store.old).faults (S.view store.new).faults) }
        ensures kept { OnOk result ((S.view store.new).faults ≡ (S.view store.old).faults) }
    {
        let kernel = match Kernel::boot(alloc, config) {
            Ok(kernel) => kernel,
            Err(_) => return Err(StoreRefused::Memory),
        };
        match store.size(config.slots, config.page) {
            Ok(()) => Ok(Machine { kernel }),
            Err(refused) => Err(refused),
        }
    }

    /// One event. The bytes of a reply stand in `room`. It takes no memory.
    pub fn step<'a, H: Host, S: Store>(
        &mut self,
        host: &mut H,
        store: &mut S,
        event: &Event<'_>,
        room: &'a mut PageBuffer,
    ) -> Result<Reply<'a>, Stopped>
        requires over { IsOver self.old (H.view host.old) (S.view store.old) }
        requires whole { IsTrue (is_whole event.now) }
        ensures good { IsGood self.new }
        ensures over { IsOver self.new (H.view host.new) (S.view store.new) }
        ensures config { self.new.config ≡ self.old.config }

        // There is an answer exactly where there was room, and else nothing has changed.
        ensures answers { IsOk result ↔ HasRoom self.old }
        ensures stopped { OnErr result ((self.new ≡ self.old) × (H.view host.new ≡ H.view host.old) × (S.view store.new ≡ S.view store.old)) }

        // Where bytes are told, state and reply are those of the flat machine's step, under the mark that the reply shows.
        ensures step { IfOk result (λ reply. StepsTold (view self.old (H.view host.old) (S.view store.old)) event.now (view self.new (H.view host.new) (S.view store.new)) reply) }

        // A failure is shown only where the count of the store, or of the device's handle, rose in this step.
        ensures causes { IfOk result (λ reply. Touches (touched_by self.old.config event.now) (mark_of reply) (H.view host.old) (H.view host.new) (S.view store.old) (S.view store.new)) }

        // No frame is freed or gets another owner while a device holds it.
        ensures kept { IfOk result (λ _. Kept self.old self.new) }
        ensures others { KeepsOthers self.old.config (H.view host.old) (H.view host.new) }

        // The room that one step takes.
        ensures room { (n : ℕ) → HasRoomFor (n + 1) self.old → HasRoomFor n self.new }
    {
        if !has_room(&self.kernel) {
            return Err(Stopped);
        }
        Ok(step(&mut self.kernel, host, store, event, room))
    }

    /// Lends the kernel, to read its meters and tables.
    pub fn kernel(&self) -> &Kernel
        ensures { result.now ≡ self.now }
    {
        &self.kernel
    }

    /// Gives every loan back, whatever is pending, and hands the kernel out: no transfer is pending, no frame is lent or
    /// wired, and each frame is free or has a page.
    pub fn close(self) -> Kernel
        ensures closed { IsClosed result }
        ensures rest { KeepsRest self result }
    {
        let mut kernel = self.kernel;
        close(&mut kernel);
        kernel
    }
}
