//! The forms of words.
ghost use Rattle.std.specs.Prelude.{◌≡◌, ◌≤◌, ◌<◌, ◌^◌, ℕ, true, false, IfOk, IfSome, map, string_bytes, decimal, Some};
ghost use Rattle.genie_words.specs.Forms.{IsNoForm, MakeOf, Means, is_script_name, meaning};

use crate::found::{Asked, subcommand};
use crate::numbers::number;
use std::alloc::Global;
use thiserror::Error;

/// The most bytes of a script's name.
const LONGEST_NAME: usize = 4096;

/// The most rounds of a made run.
const MOST_ROUNDS: u64 = 30000;

/// Why the words weren't read.
#[derive(Clone, Copy, Debug, PartialEq, Eq, Error)]
pub enum WordsError {
    #[error("the words are none of the forms")]
    Usage,
    #[error("no memory")]
    NoMemory,
}

/// What the words ask for.
#[derive(Clone, Copy, Debug)]
pub enum Form<'a> {
    /// To replay the script of this name, of 1 to 4,096 bytes.
    Replay(&'a str),
    /// To replay it and to write what each event cost.
    Cost(&'a str),
    /// To replay a script made from this seed, of 1 to 30,000 rounds.
    Make(u64, u32),
}

fn is_name_of_script(name: &[u8]) -> bool
    ensures { result ≡ is_script_name name.now }
{
    match name.split_first() {
        None => false,
        Some((first, rest)) => *first != b'-' && rest.len() < LONGEST_NAME,
    }
}

// The number of rounds that a word says.
fn rounds_of(word: &str) -> Option<u32>
    ensures some { IfSome result (λ n. (word.now ≡ decimal n) × (1 ≤ n) × (n ≤ 30000)) }
    ensures every { (n : ℕ) → 1 ≤ n → n ≤ 30000 → word.now ≡ decimal n → result ≡ Some n }
{
    match number(word) {
        None => None,
        Some(rounds) => {
            if 1 <= rounds && rounds <= MOST_ROUNDS {
                Some(rounds as u32)
            } else {
                None
            }
        }
    }
}

/// What the words ask for. `Usage` comes only where they are none of the forms.
pub fn form_of<'a>(alloc: Global, words: &'a [String]) -> Result<Form<'a>, WordsError>
    ensures form { IfOk result (λ form. Means (map string_bytes words.entry.now) (meaning form)) }
    ensures usage { result ≡ Err WordsError.Usage → IsNoForm (map string_bytes words.entry.now) }
{
    match subcommand(alloc, words) {
        Err(error) => Err(error),
        Ok(Asked::Replay(name)) => {
            if !is_name_of_script(name.as_bytes()) {
                return Err(WordsError::Usage);
            }
            Ok(Form::Replay(name))
        }
        Ok(Asked::Cost(name)) => {
            if !is_name_of_script(name.as_bytes()) {
                return Err(WordsError::Usage);
            }
            Ok(Form::Cost(name))
        }
        Ok(Asked::Make(seed, rounds)) => match number(seed) {
            None => Err(WordsError::Usage),
            Some(seed) => match rounds_of(rounds) {
                None => Err(WordsError::Usage),
                Some(rounds) => Ok(Form::Make(seed, rounds)),
            },
        },
    }
}
