//! Laws of runs.
ghost use Rattle.genie_runs.specs.Alike.{ScriptsRunAlike};
ghost use Rattle.genie_runs.specs.ByKernel.{KernelRunsAlike, KernelRunsAreSound, TextsRunAlike};
ghost use Rattle.genie_runs.specs.Outcomes.{OutcomesAreAlike};
ghost use Rattle.genie_runs.specs.Reached.{RunsAreSound};
ghost use Rattle.genie_runs.specs.Texts.{ScriptsSayAlike, TextsSayAlike};
ghost use Rattle.genie_runs.specs.Worked.{WorkedTextsAreAlike};

use genie_laws::laws;
use genie_orderly::laws::runs_stay_orderly;
use genie_script::laws::{lines_have_one_spelling, scripts_keep_limits, spellings_are_lines};

/// Two scripts that differ in nothing but the thresholds, or in whether their calls are emulated, give the same replies
/// and the same bytes of each device, where the inputs are told and are the same.
pub fn scripts_run_alike()
    ensures { ScriptsRunAlike }
{
    laws::runs_alike();
}

/// Every state that a run reaches is orderly; its outputs keep integrity up to there, and are sent whole but for those that
/// wait; its devices have taken records of their input, one of which a ready input has and its `done` stores, and a receive
/// step stores bytes of the next one; and bytes under weak transfers are kept from there on.
pub fn runs_are_sound()
    ensures { RunsAreSound }
{
    runs_stay_orderly();
    laws::outputs_keep_integrity();
    laws::outputs_are_sent_whole();
    laws::inputs_get_records();
    laws::dones_store_taken();
    laws::landed_bytes_are_next();
    laws::weak_transfers_keep_bytes();
    scripts_keep_limits();
}

/// Two texts that differ, line by line, in nothing but the thresholds of the boot line and the letter `e` of calls come to
/// the same devices, to the same configuration but for the thresholds, to the same events but for whether calls are
/// emulated, and to the same ending; or both end in their boot part, in the same way.
pub fn texts_say_alike()
    ensures alike { TextsSayAlike }
    ensures renamed { ScriptsSayAlike }
{
    lines_have_one_spelling();
    spellings_are_lines();
}

/// Two runs by the kernel, of the same devices and of the same events but for the thresholds and for whether calls are
/// emulated, give the same replies and the same bytes of each device, where bytes are told, the inputs are the same and no
/// reply shows a failure.
pub fn kernel_runs_alike()
    ensures { KernelRunsAlike }
{
    laws::runs_alike();
}

/// So do the runs by the kernel of all events of two scripts whose texts differ in nothing but the thresholds and the letter
/// `e`.
pub fn texts_run_alike()
    ensures { TextsRunAlike }
{
    texts_say_alike();
    kernel_runs_alike();
}

/// Such scripts, where they come to their events and no run of theirs is cut short, end with the same status, and all their
/// events are stepped.
pub fn outcomes_are_alike()
    ensures { OutcomesAreAlike }
{
    texts_say_alike();
    texts_run_alike();
}

/// What `runs_are_sound` says of the plain run is so of the run by the kernel, where bytes are told; the state that the
/// kernel stands for in the end is sound too.
pub fn kernel_runs_are_sound()
    ensures { KernelRunsAreSound }
{
    runs_stay_orderly();
    laws::outputs_keep_integrity();
    laws::outputs_are_sent_whole();
    laws::inputs_get_records();
    laws::dones_store_taken();
    laws::landed_bytes_are_next();
    laws::weak_transfers_keep_bytes();
    scripts_keep_limits();
}

/// A script with a boot line, an output and an input, and one with other thresholds, where the other of the two calls is
/// emulated.
#[tactic(auto, using(crate::proofs::Worked::worked_texts_are_alike))]
pub fn worked_texts_are_alike()
    ensures { WorkedTextsAreAlike }
{}
