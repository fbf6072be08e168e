//! An output waits.
ghost use Rattle.std.specs.Prelude.{◌≡◌, ◌-◌, ◌^◌, ◌<◌, length};
ghost use Rattle.genie_outputs.specs.Calls.{range_of, region_for, transfer_of, with_output};

use crate::call::Call;
use genie_base::{Direction, Note, RegionId, Semantics, TransferId};
use genie_kernel::{Kernel, Loans, Transfer};
use genie_model::Phase;
use genie_object::Range;
use genie_plan::OutPlan;
use genie_region::Region;

// The region that a call of these semantics names.
fn region_for(sem: Semantics, id: RegionId) -> Option<RegionId>
    ensures { result ≡ region_for sem id }
{
    if sem.strong() { None } else { Some(id) }
}

// The call waits behind the others.
pub(crate) fn add_output(
    kernel: &mut Kernel,
    call: &Call,
    region: &Region,
    range: &Range,
    plan: OutPlan,
)
    requires few { length kernel.old.transfers < 64 }
    requires numbered { kernel.old.next < 2 ^ 32 - 1 }
    requires range { range.now ≡ range_of kernel.old.config.page call.now region.now }
    ensures { kernel.new ≡ with_output kernel.old kernel.old.memory call.now region.now plan }
{
    let transfer = Transfer {
        id: TransferId(kernel.next),
        owner: Some(call.pid),
        sem: call.sem,
        dir: Direction::Outward,
        dev: call.dev,
        port: call.port,
        flow: call.flow,
        addr: 0,
        region: region_for(call.sem, region.id),
        offset: range.off,
        len: call.len,
        phase: Phase::Queued,
        loans: Loans::Outward(plan),
        buffer: None,
        stored: 0,
        note: Note::Whole,
    };
    kernel.transfers.add(transfer);
    kernel.next += 1;
}
