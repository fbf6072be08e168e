//! Laws of the flat machine.
ghost use Rattle.genie_laws.specs.Integrity.{OutputsKeepIntegrity, OutputsAreSentWhole, InputsKeepIntegrity, CoveredBytesStay, WeakTransfersKeepBytes};
ghost use Rattle.genie_laws.specs.Streams.{InputsGetRecords, DoneStoresRecords, DonesStoreTaken, LandedBytesAreNext};
ghost use Rattle.genie_laws.specs.Laws.{RefusalsChangeNothing, LevelsStepAlike, ThresholdsStepAlike, RunsAlike, RunsCount, MovesAreNotLost};

use genie_orderly::laws;

/// A refusal and a failure of the store leave the state as it is.
#[tactic(auto, using(crate::proofs::Runs::Refusals::refusals_change_nothing))]
pub fn refusals_change_nothing()
    ensures { RefusalsChangeNothing }
{}

/// An emulated call steps as the basic one.
#[tactic(auto, using(crate::proofs::Levels::Steps::levels_step_alike))]
pub fn levels_step_alike()
    ensures { LevelsStepAlike }
{}

/// No step looks at a threshold.
#[tactic(auto, using(crate::proofs::Levels::Thresholds::thresholds_step_alike))]
pub fn thresholds_step_alike()
    ensures { ThresholdsStepAlike }
{}

/// Where no fault comes, emulated and basic calls give the same replies under any thresholds, and the same last state but
/// for these.
#[tactic(auto, using(crate::proofs::Levels::Runs::runs_alike))]
pub fn runs_alike()
    ensures { RunsAlike }
{}

/// The calls of a run are numbered one after the other, so that no number is used again.
#[tactic(auto, using(crate::proofs::Runs::Numbers::runs_count))]
pub fn runs_count()
    ensures { RunsCount }
{}

/// A `done` of a move never answers `lost`.
#[tactic(auto, using(crate::proofs::Ends::Moves::moves_are_not_lost))]
pub fn moves_are_not_lost()
    ensures { MovesAreNotLost }
{}

/// What a device has sent is a front of the records of its accepted outputs; a strong one's payload is the bytes of its
/// call, and each byte of a weak one's stood in its place in a state from the call on.
pub fn outputs_keep_integrity()
    ensures { OutputsKeepIntegrity }
{
    laws::boot_is_orderly();
    laws::steps_stay_orderly();
}

/// Of the accepted outputs of a device the last ones wait; the records of all others, the ready ones too, were sent whole,
/// and then as many bytes as are moved of the first that waits.
pub fn outputs_are_sent_whole()
    ensures { OutputsAreSentWhole }
{
    laws::boot_is_orderly();
    laws::steps_stay_orderly();
    laws::runs_stay_orderly();
}

/// A receive step leaves each byte, or stores the payload's byte where the weak input that its record meets covers it; so a
/// strong input changes none before it is done.
#[tactic(auto, using(crate::proofs::Inputs::ReceiveSteps::inputs_keep_integrity))]
pub fn inputs_keep_integrity()
    ensures { InputsKeepIntegrity }
{}

/// In each state of a run a device has taken whole records of its input, one after the other, which stay taken; each of
/// them went to at most one input call, and no two to the same one. A ready input has the front of its record's payload that
/// fits its buffer, and a posted one nothing.
pub fn inputs_get_records()
    ensures { InputsGetRecords }
{
    laws::boot_is_orderly();
    laws::steps_stay_orderly();
}

/// `done` of an input that got a record stores the front of its payload at the buffer's start, and tells its length; but for
/// a weak input on an early device, where the bytes have landed before.
pub fn done_stores_records()
    ensures { DoneStoresRecords }
{}

/// So whatever a `done` of an input stores is the front of a record that its device has taken.
pub fn dones_store_taken()
    ensures { DonesStoreTaken }
{}

/// The bytes that a receive step lands in the region of a weak input are those of the record that comes next.
#[tactic(auto, using(crate::proofs::Streams::Landed::landed_bytes_are_next))]
pub fn landed_bytes_are_next()
    ensures { LandedBytesAreNext }
{}

/// Every event leaves a byte that a pending weak transfer covers before and after it, but where it is a write, a receive
/// step or a `done` that stores the new byte there.
pub fn covered_bytes_stay()
    ensures { CoveredBytesStay }
{
    laws::steps_stay_orderly();
}

/// From its call on until it ends, a weak transfer covers the same places, and each byte there stays until a write, a
/// receive step or a `done` stores another one in its place.
pub fn weak_transfers_keep_bytes()
    ensures { WeakTransfersKeepBytes }
{
    laws::steps_stay_orderly();
}
