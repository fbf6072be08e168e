//! What every step keeps, and what is so of every state that a run reaches.
ghost use Rattle.std.specs.Prelude.{◌≡◌, length};
ghost use Rattle.genie_orderly.specs.Orderly.{RegionsAreApart, WiredIsBounded, CommittedIsBounded, NumbersRise, NumbersDiffer, NumbersAreBelow, BuffersAreFilled, QueuesListOut, OrphansAreNamed, OrphansRise, OrphanPlacesRise, OrphansAreTidy, RangesLie, HeldForOne, PostedAreInputs, MatchedAreInputs, DevicesAreConfigs, AreTransfers, OneIsSent, MovingAreReceived, ReceivedAreMoving, DatagramsSuit, DepthsAreKept, IsOrderly};
ghost use Rattle.genie_orderly.specs.Steps.{Stays, StepsGrow, StepsKeepConfig, PlainStepsShowNoFault, BootIsOrderly, RunsStayOrderly};

/// In a step devices keep their kinds and depths, what they have sent stays sent, and the number of the next transfer stays
/// or rises by one.
#[tactic(auto, using(crate::specs::Lemmas::Growth::steps_grow))]
pub fn steps_grow()
    ensures { StepsGrow }
{}

/// The reply to a step in which nothing fails shows no fault.
#[tactic(auto, using(crate::specs::Lemmas::Growth::plain_steps_show_no_fault))]
pub fn plain_steps_show_no_fault()
    ensures { PlainStepsShowNoFault }
{}

/// A step keeps the configuration.
#[tactic(auto, using(crate::specs::Lemmas::KeptCalls::steps_keep_config))]
pub fn steps_keep_config()
    ensures { StepsKeepConfig }
{}

/// A step leaves 16 places for processes.
#[tactic(auto, using(crate::proofs::Regions::Spaces::places_stay))]
pub fn places_stay()
    ensures { Stays (λ s. length s.processes ≡ 16) }
{}

/// A device is there exactly where the configuration has one, with its kind and depth.
#[tactic(auto, using(crate::specs::Lemmas::Growth::devices_are_configs))]
pub fn devices_are_configs()
    ensures { Stays DevicesAreConfigs }
{}

/// Regions of one process never overlap and stay in the order of their start pages.
pub fn regions_stay_apart()
    ensures { Stays RegionsAreApart }
{}

/// The pending transfers need no more frames than there are for them.
#[tactic(auto, using(crate::proofs::Transfers::Frames::wired_is_bounded))]
pub fn wired_is_bounded()
    ensures { Stays WiredIsBounded }
{}

/// The pages of all regions fit the store.
#[tactic(auto, using(crate::proofs::Regions::Spaces::committed_is_bounded))]
pub fn committed_is_bounded()
    ensures { Stays CommittedIsBounded }
{}

/// At most 64 transfers are pending, in the order of their numbers, all of which are below the next one.
pub fn numbers_rise()
    ensures { Stays NumbersRise }
{}

/// No two regions or orphans have the same number.
#[tactic(auto, using(crate::proofs::Regions::Distinct::numbers_differ))]
pub fn numbers_differ()
    ensures { Stays NumbersDiffer }
{}

/// All of these numbers are below 577.
pub fn numbers_are_below()
    ensures { Stays NumbersAreBelow }
{}

/// A region is In exactly while one weak move input of its process names it, and Held exactly while one move input does.
pub fn buffers_are_filled()
    ensures { Stays BuffersAreFilled }
{}

/// The weak queue of each process lists its Out regions, each once.
pub fn queues_list_out()
    ensures { Stays QueuesListOut }
{}

/// A pending weak transfer names each orphan.
#[tactic(auto, using(crate::proofs::Orphans::Named::orphans_are_named))]
pub fn orphans_are_named()
    ensures { Stays OrphansAreNamed }
{}

/// Orphans stand in the order of their numbers.
#[tactic(auto, using(crate::proofs::Orphans::Rising::orphans_rise))]
pub fn orphans_rise()
    ensures { Stays OrphansRise }
{}

/// The places of each orphan rise, none of them twice.
#[tactic(auto, using(crate::proofs::Orphans::Rising::orphan_places_rise))]
pub fn orphan_places_rise()
    ensures { Stays OrphanPlacesRise }
{}

/// Nothing is left of orphans but what pending weak transfers name and cover.
#[tactic(auto, using(crate::proofs::Orphans::Tidy::orphans_tidy))]
pub fn orphans_tidy()
    ensures { Stays OrphansAreTidy }
{}

/// Every named range lies in the region or the orphan that it names.
#[tactic(auto, using(crate::proofs::Names::Steps::ranges_lie))]
pub fn ranges_lie()
    ensures { Stays RangesLie }
{}

/// A weak transfer names a region or an orphan, and a strong one nothing; but a move input names the region that its owner
/// holds, which no other transfer names, until the owner is gone.
pub fn held_for_one()
    ensures { Stays HeldForOne }
{}

/// Only inputs are posted.
#[tactic(auto, using(crate::proofs::Inputs::Receivers::posted_are_inputs))]
pub fn posted_are_inputs()
    ensures { Stays PostedAreInputs }
{}

/// Of a datagram that a device is receiving some payload is still to come, and if it was matched, then to an input of that
/// device.
#[tactic(auto, using(crate::proofs::Inputs::Receivers::matched_are_inputs))]
pub fn matched_are_inputs()
    ensures { Stays MatchedAreInputs }
{}

/// An output is queued or ready, and an input posted, receiving or ready; only a copy input keeps an address, and a move's
/// buffer begins its region; and no more is stored than the buffer holds.
pub fn calls_stay()
    ensures { Stays AreTransfers }
{}

/// Of the outputs that wait for a device, nothing is staged or sent but of the first.
pub fn one_is_sent()
    ensures { Stays OneIsSent }
{}

/// An input is receiving only while its device receives a datagram that was matched to it.
pub fn moving_are_received()
    ensures { Stays MovingAreReceived }
{}

/// While a device receives a datagram that was matched to a pending input, that input is receiving.
pub fn received_are_moving()
    ensures { Stays ReceivedAreMoving }
{}

/// An early device matches or skips datagrams, another one gathers them, and none is longer than its device takes.
pub fn datagrams_suit()
    ensures { Stays DatagramsSuit }
{}

/// Where a device isn't early, the datagrams that wait for their `done` and the one on its way are at most its depth.
pub fn depths_are_kept()
    ensures { Stays DepthsAreKept }
{}

/// What a machine boots with is orderly.
#[tactic(auto, using(crate::proofs::Runs::Orderly::boot_is_orderly))]
pub fn boot_is_orderly()
    ensures { BootIsOrderly }
{}

/// A step from an orderly state leaves an orderly one.
pub fn steps_stay_orderly()
    ensures { Stays IsOrderly }
{}

/// Every state that a run reaches is orderly: it has all of this.
pub fn runs_stay_orderly()
    ensures { RunsStayOrderly }
{}
