//! The top call.
ghost use Rattle.std.specs.Prelude.{◌≡◌, ◌⊎◌, map, string_bytes};
ghost use Rattle.genie_words.specs.Forms.{IsNoForm, Meaning, Means};
ghost use Rattle.genie_replay.specs.Outcome.{WroteNothing};
ghost use Rattle.genie_running.specs.Outcome.{HasRunCause};
ghost use Rattle.genie_commands.specs.Forms.{Does, HandsOver, Unbegun};

use crate::make::make;
use genie_host::Host;
use genie_playing::costs::Listing;
use genie_replay::Status;
use genie_running::{Ended, replay};
use genie_store::Store;
use genie_words::{Form, WordsError, form_of};
use std::alloc::Global;

/// Does what the words ask for, by a kernel over the store. `replay SCRIPT` replays a script: its replies go to handle 0 of
/// the host, and what each device sends to the output that the script names for it. `cost SCRIPT` does the same, and writes
/// a line behind the reply to each event that says what it cost. `make SEED ROUNDS` replays a made script over a host of its
/// own, and writes six lines that sum up its replies to handle 0. The kernel is handed back as it is after the last event.
pub fn run<H: Host, S: Store>(alloc: Global, words: &[String], host: &mut H, store: &mut S) -> Ended
    requires closed { (H.view host.old).opened ≡ 0 }
    requires empty { (S.view store.old).count ≡ 0 }

    // `Usage` comes only where the words are none of the forms.
    ensures usage { result.status ≡ Status.Usage → IsNoForm (map string_bytes words.now) }

    // Where they are none, nothing but want of memory comes in its place, and the host and the store are as before.
    ensures no_form { IsNoForm (map string_bytes words.now) → (result.status ≡ Status.Usage) ⊎ (result.status ≡ Status.NoMemory) }
    ensures untouched { IsNoForm (map string_bytes words.now) → H.view host.new ≡ H.view host.old }
    ensures unused { IsNoForm (map string_bytes words.now) → S.view store.new ≡ S.view store.old }

    // The words are done as they mean, unless memory ran out while they were read.
    ensures outcome { (m : Meaning) → Means (map string_bytes words.now) m →
        Does m result.status result.kernel (H.view host.old) (H.view host.new) (S.view store.old) (S.view store.new)
        ⊎ Unbegun result.status result.kernel (H.view host.old) (H.view host.new) (S.view store.old) (S.view store.new) }

    // A kernel that was booted is good, and is handed back exactly where the store was sized.
    ensures kernel { HandsOver result.kernel (S.view store.new) }

    // `HostFault` comes only where a count rose: that of the replies' handle, of the script's or of the openings, or that of
    // a store that isn't sized. A device's failure is a reply and no status.
    ensures fault { result.status ≡ Status.HostFault →
        HasRunCause (H.view host.old) (H.view host.new) (S.view store.old) (S.view store.new) }

    // Want of memory comes before the first reply.
    ensures memory { result.status ≡ Status.NoMemory → WroteNothing (H.view host.old) (H.view host.new) }
{
    match form_of(alloc, words) {
        Err(WordsError::Usage) => Ended::unbooted(Status::Usage),
        Err(WordsError::NoMemory) => Ended::unbooted(Status::NoMemory),
        Ok(Form::Replay(name)) => replay(alloc, Listing::Replies, name.as_bytes(), host, store),
        Ok(Form::Cost(name)) => replay(alloc, Listing::Costs, name.as_bytes(), host, store),
        Ok(Form::Make(seed, rounds)) => make(alloc, seed, rounds, host, store),
    }
}
