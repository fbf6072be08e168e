//! What an event's device or transfer is.
ghost use Rattle.std.specs.Prelude.{◌≡◌, ◌<◌, IfSome, IsSome, find, true, false};
ghost use Rattle.genie_base.specs.Transfers.{class_of};
ghost use Rattle.genie_base.specs.declared.semantics.Direction.TheVariants as direction;
ghost use Rattle.genie_model.specs.Tables.{entry};
ghost use Rattle.genie_kernel.specs.Calls.{has_number};
ghost use Rattle.genie_kernel.specs.Good.{IsGood};
ghost use Rattle.genie_endings.specs.Ends.{IsOutput};
ghost use Rattle.genie_calls.specs.Kinds.{HasKind, IsOfKind};

use genie_base::{Class, DeviceConfig, Direction, Kind};
use genie_kernel::{Kernel, Search};

// The kind of a device of the configuration.
pub(crate) fn kind_at(devices: &[Option<DeviceConfig>; 8], dev: u32) -> Kind
    requires number { dev < 8 }
    requires there { IsSome (entry devices.now dev) }
    ensures { HasKind result (entry devices.now dev) }
{
    match &devices[dev as usize] {
        Some(device) => device.kind,
        None => unreachable!(),
    }
}

// The kind of a pending transfer's device.
pub(crate) fn kind_of(kernel: &Kernel, id: u32) -> Kind
    requires good { IsGood kernel.now }
    requires pending { IsSome (find (has_number id) kernel.now.transfers) }
    ensures { IfSome (find (has_number id) kernel.now.transfers) (λ t. IsOfKind result (entry kernel.now.devices t.dev)) }
{
    match kernel.transfers.find(Search::Number(id)) {
        Some(transfer) => kind_at(&kernel.config.devices, transfer.dev),
        None => unreachable!(),
    }
}

// The class of a pending transfer.
pub(crate) fn class_at(kernel: &Kernel, id: u32) -> Class
    requires { IsSome (find (has_number id) kernel.now.transfers) }
    ensures { IfSome (find (has_number id) kernel.now.transfers) (λ t. class_of t.sem ≡ result) }
{
    match kernel.transfers.find(Search::Number(id)) {
        Some(transfer) => transfer.sem.class(),
        None => unreachable!(),
    }
}

// Whether a pending transfer is an output.
pub(crate) fn is_output(kernel: &Kernel, id: u32) -> bool
    requires { IsSome (find (has_number id) kernel.now.transfers) }
    ensures yes { result ≡ true → IsOutput (find (has_number id) kernel.now.transfers) }
    ensures no { result ≡ false → IfSome (find (has_number id) kernel.now.transfers) (λ t. t.dir ≡ direction.Inward) }
{
    match kernel.transfers.find(Search::Number(id)) {
        Some(transfer) => match transfer.dir {
            Direction::Outward => true,
            Direction::Inward => false,
        },
        None => unreachable!(),
    }
}
