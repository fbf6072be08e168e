//! The boot of a kernel, and of the store that it stands over.
ghost use Rattle.std.specs.Prelude.{◌≡◌};
ghost use Rattle.genie_base.specs.Configs.{Fits, config_of};
ghost use Rattle.genie_running.specs.Booted.{Boots};

use genie_base::Config;
use genie_calls::close::close;
use genie_kernel::Kernel;
use genie_store::{Store, StoreRefused};
use std::alloc::Global;

/// Boots a kernel of this configuration, and gives the store its slots. Where the store is refused there is no kernel.
pub(crate) fn boot<S: Store>(
    alloc: Global,
    config: &Config,
    store: &mut S,
) -> Result<Kernel, StoreRefused>
    requires fits { Fits (config_of config.now) }
    requires empty { (S.view store.old).count ≡ 0 }
    ensures { Boots config.now (S.view store.old) (S.view store.new) result }
{
    let mut kernel = match Kernel::boot(alloc, config) {
        Ok(kernel) => kernel,
        Err(_) => return Err(StoreRefused::Memory),
    };
    match store.size(config.slots, config.page) {
        Ok(()) => Ok(kernel),
        Err(refused) => {
            close(&mut kernel);
            Err(refused)
        }
    }
}
