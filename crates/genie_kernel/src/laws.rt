//! Laws of kernels.
ghost use Rattle.genie_kernel.specs.Handles.{CallsKeepHandles, CallsKeepOthers};
ghost use Rattle.genie_kernel.specs.Laws.{ViewIsTidy, StatesAreAlike, LentFramesSuffice, RefusesAlike, FreshIsAlike, RestsAreBlind, MemoryCallsKeepGood, MemoryCallsKeepLent, HiddenStay, GuardsStay, RegionsChange, OwnedGrows, PostedShrinks, TransfersTurn, ProgressKeepsLending, MovingAreReceivers};
ghost use Rattle.genie_kernel.specs.Lending.{CountsGrow, CountsShrink};
ghost use Rattle.genie_kernel.specs.Holding.{HeldMore, HeldLess, HeldAsOrphans};
ghost use Rattle.genie_kernel.specs.Owning.{OwnedMore, OwnedLess};
ghost use Rattle.genie_kernel.specs.Steps.{AcceptedStep, StaysOrderly, AloneIsTold};

use genie_orderly::laws::steps_stay_orderly;

/// Nothing is left of orphans but what pending weak transfers name and cover.
#[tactic(auto, using(crate::specs::Lemmas::Tidying::tidy_view))]
pub fn view_is_tidy()
    ensures { ViewIsTidy }
{}

/// The state is the same where entries, the frames that devices still need, and orphans show the same.
#[tactic(auto, using(crate::specs::Lemmas::Alike::state_alike))]
pub fn states_are_alike()
    ensures needed { StatesAreAlike }
    ensures lent { LentFramesSuffice }
{}

/// No cause of refusal looks at bytes: an event is refused or not by the outline alone.
pub fn refuses_alike()
    ensures { RefusesAlike }
{}

/// The number of a new region doesn't hang on the bytes.
#[tactic(auto, using(crate::specs::Lemmas::Fresh::fresh_view))]
pub fn fresh_is_alike()
    ensures { FreshIsAlike }
{}

/// A state stays orderly whatever is left of the inputs and was sent.
pub fn rests_are_blind()
    ensures { RestsAreBlind }
{}

/// An event that the outline accepts is one step of the flat machine, and what it steps to is orderly.
pub fn accepted_events_step()
    ensures step { AcceptedStep }
    ensures orderly { StaysOrderly }
    ensures alone { AloneIsTold }
{
    steps_stay_orderly();
}

/// A call of the memory that keeps loans leaves the kernel good, and no frame is freed by it or gets another owner while a
/// device holds it.
pub fn memory_calls_keep_good()
    ensures good { MemoryCallsKeepGood }
    ensures lent { MemoryCallsKeepLent }
{}

/// Hidden regions fit the memory, and read-only regions permit no writing, after a call that doesn't speak of their
/// entries.
pub fn unspoken_regions_stay()
    ensures hidden { HiddenStay }
    ensures guards { GuardsStay }
{}

/// A change of one region of one process is a change of that region, whoever has it.
pub fn regions_change()
    ensures { RegionsChange }
{}

/// A region more of a process is one more of all.
#[tactic(auto, using(crate::specs::Lemmas::Adding::owned_added))]
pub fn owned_grows()
    ensures { OwnedGrows }
{}

/// The posted inputs once a transfer is pending no more.
pub fn posted_shrinks()
    ensures { PostedShrinks }
{}

/// What one transfer, changed, leaves of the table: each search that it fails before and afterwards, and each sum but for
/// what it adds itself.
pub fn transfers_turn()
    ensures { TransfersTurn }
{}

/// The counts of the frames fit the pending transfers once frames are lent and wired for one more, and once those of one
/// that ends are given back.
pub fn counts_follow_transfers()
    ensures more { CountsGrow }
    ensures less { CountsShrink }
{}

/// Whose the frames are fits the pending transfers once frames are taken for one more, and once one has let its own go.
pub fn owners_follow_transfers()
    ensures more { OwnedMore }
    ensures less { OwnedLess }
{}

/// The pages that devices hold fit the pending transfers with one more and with one less, and those of a region that is
/// removed are an orphan's.
pub fn held_pages_follow_transfers()
    ensures more { HeldMore }
    ensures less { HeldLess }
    ensures orphans { HeldAsOrphans }
{}

/// How far a transfer has come is no matter of its loans: whose the frames are, and which pages devices hold.
pub fn progress_keeps_lending()
    ensures { ProgressKeepsLending }
{}

/// An input that is receiving is the one into which its device moves the datagram: there is one of a device at most.
pub fn moving_are_receivers()
    ensures { MovingAreReceivers }
{}

/// A call on one handle leaves the handles of the configuration open in their directions.
pub fn calls_keep_handles()
    ensures open_each { CallsKeepHandles }
    ensures others { CallsKeepOthers }
{}
