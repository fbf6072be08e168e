//! Events of devices.
ghost use Rattle.std.specs.Prelude.{◌≡◌, ◌^◌, ◌<◌, None, true};
ghost use Rattle.genie_base.specs.declared.event.Event.TheVariants as event;
ghost use Rattle.genie_model.specs.Refusing.{refuse};
ghost use Rattle.genie_model.specs.Tables.{entry};
ghost use Rattle.genie_kernel.specs.Good.{IsGood};
ghost use Rattle.genie_kernel.specs.Handles.{HasHandles};
ghost use Rattle.genie_kernel.specs.Planned.{is_early_device};
ghost use Rattle.genie_kernel.specs.View.{outline};
ghost use Rattle.genie_kernel.specs.Transfers.{is_outboard_device};
ghost use Rattle.genie_pooling.specs.Pooled.{is_pooled_device};
ghost use Rattle.genie_calls.specs.Serving.{ServedByHost};

use crate::kinds::kind_at;
use genie_base::{Kind, Reply};
use genie_host::Host;
use genie_kernel::Kernel;

// A device sends.
pub(crate) fn send<H: Host>(kernel: &mut Kernel, host: &mut H, dev: u32, len: u32) -> Reply<'static>
    requires good { IsGood kernel.old }
    requires handles { HasHandles kernel.old.config (H.view host.old) }
    requires accepted { refuse (outline kernel.old) (event.Send dev len) ≡ None }
    ensures { ServedByHost kernel.old (event.Send dev len) kernel.new (H.view host.old) (H.view host.new) result }
{
    genie_sending::send::send(kernel, host, dev, len)
}

// An early device receives.
pub(crate) fn recv_early<H: Host>(
    kernel: &mut Kernel,
    host: &mut H,
    dev: u32,
    len: u32,
) -> Reply<'static>
    requires good { IsGood kernel.old }
    requires handles { HasHandles kernel.old.config (H.view host.old) }
    requires landed { kernel.old.memory.frames.landed < 2 ^ 63 }
    requires accepted { refuse (outline kernel.old) (event.Recv dev len) ≡ None }
    requires early { is_early_device (entry kernel.old.devices dev) ≡ true }
    ensures { ServedByHost kernel.old (event.Recv dev len) kernel.new (H.view host.old) (H.view host.new) result }
{
    genie_receiving::early::recv_early(kernel, host, dev, len)
}

// An outboard device receives.
pub(crate) fn recv_outboard<H: Host>(
    kernel: &mut Kernel,
    host: &mut H,
    dev: u32,
    len: u32,
) -> Reply<'static>
    requires good { IsGood kernel.old }
    requires handles { HasHandles kernel.old.config (H.view host.old) }
    requires accepted { refuse (outline kernel.old) (event.Recv dev len) ≡ None }
    requires outboard { is_outboard_device (entry kernel.old.devices dev) ≡ true }
    ensures { ServedByHost kernel.old (event.Recv dev len) kernel.new (H.view host.old) (H.view host.new) result }
{
    genie_gathering::outboard::recv_outboard(kernel, host, dev, len)
}

// A pooled device receives.
pub(crate) fn recv_pooled<H: Host>(
    kernel: &mut Kernel,
    host: &mut H,
    dev: u32,
    len: u32,
) -> Reply<'static>
    requires good { IsGood kernel.old }
    requires handles { HasHandles kernel.old.config (H.view host.old) }
    requires landed { kernel.old.memory.frames.landed < 2 ^ 63 }
    requires accepted { refuse (outline kernel.old) (event.Recv dev len) ≡ None }
    requires pooled { is_pooled_device (entry kernel.old.devices dev) ≡ true }
    ensures { ServedByHost kernel.old (event.Recv dev len) kernel.new (H.view host.old) (H.view host.new) result }
{
    genie_pooling::pooled::recv_pooled(kernel, host, dev, len)
}

// A device receives.
pub(crate) fn recv<H: Host>(kernel: &mut Kernel, host: &mut H, dev: u32, len: u32) -> Reply<'static>
    requires good { IsGood kernel.old }
    requires handles { HasHandles kernel.old.config (H.view host.old) }
    requires landed { kernel.old.memory.frames.landed < 2 ^ 63 }
    requires accepted { refuse (outline kernel.old) (event.Recv dev len) ≡ None }
    ensures { ServedByHost kernel.old (event.Recv dev len) kernel.new (H.view host.old) (H.view host.new) result }
{
    match kind_at(&kernel.config.devices, dev) {
        Kind::Early => recv_early(kernel, host, dev, len),
        Kind::Pooled => recv_pooled(kernel, host, dev, len),
        Kind::Outboard => recv_outboard(kernel, host, dev, len),
    }
}
