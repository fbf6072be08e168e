//! Replaying a script by the kernel.
ghost use Rattle.std.specs.Prelude.{◌≡◌, ◌≢◌, ◌≤◌, IfSome};
ghost use Rattle.std.specs.Io.KnownBytes.{prepend_known};
ghost use Rattle.genie_host.specs.Host.{Reading};
ghost use Rattle.genie_replay.specs.Files.{HoldsOfInputs, HoldsOfOutputs, IsReading, IsWriting};
ghost use Rattle.genie_replay.specs.Outcome.{WroteNothing};
ghost use Rattle.genie_replay.specs.Places.{IsPlaced};
ghost use Rattle.genie_kernel.specs.Good.{IsGood};
ghost use Rattle.genie_playing.specs.Moments.{IsFresh, IsReady, moment};
ghost use Rattle.genie_playing.specs.Plays.{Leaves};
ghost use Rattle.genie_running.specs.Booted.{Begins, RunsBooted};
ghost use Rattle.genie_running.specs.Outcome.{HandsBack, HasRunCause, OutcomeOf};

use crate::booting::boot;
use crate::ended::Ended;
use crate::wiring::wired;
use genie_host::{Host, OpenRefused};
use genie_kernel::Kernel;
use genie_playing::costs::Listing;
use genie_playing::play::play;
use genie_playing::serving::{Buffers, REPLIES};
use genie_replay::booting::{BootRead, read_boot};
use genie_replay::files::open_files;
use genie_replay::{LineStep, Script, Status, write_all};
use genie_script::{BootPart, LineBuffer};
use genie_store::{Store, StoreRefused};
use std::alloc::Global;

// Writes the reply to the boot part, and steps the events.
fn run_started<H: Host, S: Store>(
    kernel: &mut Kernel,
    host: &mut H,
    store: &mut S,
    listing: Listing,
    script: &mut Script,
    line: &mut LineBuffer,
    buffers: &mut Buffers,
    step: LineStep,
    before: u64,
) -> Status
    requires ready { IsReady kernel.old (H.view host.old) (S.view store.old) }
    requires fresh { IsFresh kernel.old }
    requires input { ((H.view host.old).handle 1).mode ≡ Reading }
    requires few { before ≤ 1000000 }
    ensures ready { IsReady kernel.new (H.view host.new) (S.view store.new) }
    ensures begins { Begins listing result (prepend_known script.old ((H.view host.old).handle 1).bytes) step line.old before
        (moment kernel.old (H.view host.old) (S.view store.old)) (moment kernel.new (H.view host.new) (S.view store.new)) }
    ensures config { kernel.new.config ≡ kernel.old.config }
    ensures leaves { Leaves result (H.view host.old) (H.view host.new) }
    ensures no_memory { result ≢ Status.NoMemory }
    ensures not_usage { result ≢ Status.Usage }
{
    match write_all(host, REPLIES, b"ok\n") {
        Ok(()) => {}
        Err(_) => return Status::HostFault,
    }
    play(
        kernel, host, store, listing, script, line, buffers, step, before,
    )
}

// Boots the kernel and runs the script. The files are open.
fn run_booted<H: Host, S: Store>(
    alloc: Global,
    host: &mut H,
    store: &mut S,
    listing: Listing,
    script: &mut Script,
    line: &mut LineBuffer,
    buffers: &mut Buffers,
    part: &BootPart,
    step: LineStep,
    before: u64,
) -> Ended
    requires empty { (S.view store.old).count ≡ 0 }
    requires input { ((H.view host.old).handle 1).mode ≡ Reading }
    requires few { before ≤ 1000000 }
    requires placed { IsPlaced part.now }
    requires inputs { HoldsOfInputs (IsReading (H.view host.old)) 1 part.now.devices }
    requires outputs { HoldsOfOutputs (IsWriting (H.view host.old)) 1 part.now.devices }
    ensures runs { RunsBooted listing part.now (prepend_known script.old ((H.view host.old).handle 1).bytes) step line.old before
        result.status result.kernel (H.view host.old) (H.view host.new) (S.view store.old) (S.view store.new) }
    ensures kernel { HandsBack result.kernel (H.view host.new) (S.view store.new) }
    ensures fault { result.status ≡ Status.HostFault →
        HasRunCause (H.view host.old) (H.view host.new) (S.view store.old) (S.view store.new) }
    ensures not_usage { result.status ≢ Status.Usage }
{
    let config = wired(part);
    match boot(alloc, &config, store) {
        Ok(mut kernel) => {
            let status = run_started(
                &mut kernel,
                host,
                store,
                listing,
                script,
                line,
                buffers,
                step,
                before,
            );
            Ended {
                status,
                kernel: Some(kernel),
            }
        }
        Err(StoreRefused::Memory) => Ended::unbooted(Status::NoMemory),
        Err(StoreRefused::Failed) => Ended::unbooted(Status::HostFault),
    }
}

/// Replays the script of this name by a kernel over the store. The replies, and what each event cost where that is listed, go
/// to handle 0 of the host, and what each device sends to the output that the script names for it.
pub fn replay<H: Host, S: Store>(
    alloc: Global,
    listing: Listing,
    name: &[u8],
    host: &mut H,
    store: &mut S,
) -> Ended
    requires closed { (H.view host.old).opened ≡ 0 }
    requires empty { (S.view store.old).count ≡ 0 }

    // The replies and the outputs are the flat machine's, but for lines that say that a device or the store failed, each of
    // which was counted; the costs add up to what the kernel's meters show; and the run ends as the script does.
    ensures outcome { OutcomeOf listing name.now ((H.view host.old).names name.now) result.status result.kernel
        (H.view host.old) (H.view host.new) (S.view store.old) (S.view store.new) }

    // Whatever is told: a kernel that was booted is good, and is there exactly where the store was sized.
    ensures kernel { HandsBack result.kernel (H.view host.new) (S.view store.new) }
    ensures good { IfSome result.kernel IsGood }

    // A device's failure is a reply and no status.
    ensures fault { result.status ≡ Status.HostFault →
        HasRunCause (H.view host.old) (H.view host.new) (S.view store.old) (S.view store.new) }

    // Want of memory comes before the first reply.
    ensures memory { result.status ≡ Status.NoMemory → WroteNothing (H.view host.old) (H.view host.new) }
    ensures not_usage { result.status ≢ Status.Usage }
{
    match host.open_read(name) {
        Ok(_) => {}
        Err(OpenRefused::Memory) => return Ended::unbooted(Status::NoMemory),
        Err(OpenRefused::Failed) => return Ended::unbooted(Status::HostFault),
    }
    let mut script = Script::new();
    let mut line = LineBuffer::new();
    let mut buffers = Buffers::new();
    let (part, step, before) = match read_boot(
        alloc,
        host,
        &mut script,
        &mut line,
        &mut buffers.said,
        name,
    ) {
        Ok(BootRead::Whole(part, step, before)) => (part, step, before),
        Ok(BootRead::Refused(ending)) => return Ended::unbooted(Status::of(ending)),
        Ok(BootRead::NoMemory) => return Ended::unbooted(Status::NoMemory),
        Err(_) => return Ended::unbooted(Status::HostFault),
    };
    match open_files(host, part.devices()) {
        Ok(()) => run_booted(
            alloc,
            host,
            store,
            listing,
            &mut script,
            &mut line,
            &mut buffers,
            &part,
            step,
            before,
        ),
        Err(OpenRefused::Memory) => Ended::unbooted(Status::NoMemory),
        Err(OpenRefused::Failed) => Ended::unbooted(Status::HostFault),
    }
}
