//! How a run by the kernel ends.
ghost use Rattle.std.specs.Prelude.{◌≡◌, IfSome, None};
ghost use Rattle.genie_kernel.specs.Good.{IsGood};
ghost use Rattle.genie_running.specs.Ending.{Closes};

use genie_calls::close::close;
use genie_kernel::Kernel;
use genie_replay::Status;

/// How a run ended, and its kernel as it is after the last event: it is there exactly where it was booted and the store
/// has its slots.
#[derive(Drop)]
pub struct Ended {
    pub status: Status,
    pub kernel: Option<Kernel>,
}

impl Ended {
    /// A run that came to no event.
    pub fn unbooted(status: Status) -> Ended
        ensures status { result.status ≡ status }
        ensures kernel { result.kernel ≡ None }
    {
        Ended {
            status,
            kernel: None,
        }
    }

    /// Closes the kernel, which stays there: no transfer is pending, and no frame carries a loan or a wire.
    pub fn finish(&mut self) -> Status
        requires good { IfSome self.old.kernel IsGood }
        ensures closes { Closes self.old.kernel self.new.kernel }
        ensures status { result ≡ self.old.status }
        ensures kept { self.new.status ≡ self.old.status }
    {
        match &mut self.kernel {
            Some(kernel) => close(kernel),
            None => {}
        }
        self.status
    }
}
