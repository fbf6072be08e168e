//! What `clap` finds in the words.
ghost use Rattle.std.specs.Prelude.{◌≡◌, ◌≢◌, ◌≤◌, true, false, IfOk, OnOk, map, length, string_bytes, option_map, Some};
ghost use Rattle.std.specs.List.{All, list_all};
ghost use Rattle.clap.specs.Words.{kind_of, subcommand_rows_of, subcommand_of};
ghost use Rattle.genie_words.specs.Command.{genie as genie_app};
ghost use Rattle.genie_words.specs.Shapes.{IsPlain, asked_shape, file_shape, found_shape, has_shape, is_asked, is_plain, make_shape, shape_of};

use crate::command::genie;
use crate::form::WordsError;
use clap::error::ErrorKind;
use clap::{ArgMatches, Error};
use std::alloc::Global;

fn cause(error: &Error) -> WordsError
    ensures { result ≡ WordsError.Usage → kind_of error.now ≢ ErrorKind.OutOfMemory }
{
    match error.kind() {
        ErrorKind::OutOfMemory => WordsError::NoMemory,
        _ => WordsError::Usage,
    }
}

// What clap finds in words that do not begin with a hyphen.
fn parsed<'a>(alloc: Global, words: &'a [String]) -> Result<ArgMatches<'a>, WordsError>
    requires plain { All IsPlain (map string_bytes words.now) }
    requires few { length words.now ≤ 3 }
    ensures ok { OnOk result (has_shape (map string_bytes words.entry.now) ≡ true) }
    ensures usage { result ≡ Err WordsError.Usage → has_shape (map string_bytes words.entry.now) ≡ false }
    ensures found { IfOk result (λ m. subcommand_rows_of m ≡ subcommand_of genie_app (map string_bytes words.entry.now)) }
{
    let Ok(command) = genie(alloc) else {
        return Err(WordsError::NoMemory);
    };
    match command.try_get_matches_from(words) {
        Ok(matches) => Ok(matches),
        Err(error) => Err(cause(&error)),
    }
}

/// A subcommand with its words.
#[derive(Clone, Copy, Debug)]
pub enum Asked<'a> {
    Replay(&'a str),
    Cost(&'a str),
    Make(&'a str, &'a str),
}

fn pair<'a>(seed: Option<&'a str>, rounds: Option<&'a str>) -> Option<Asked<'a>>
    ensures { option_map asked_shape result ≡ make_shape (option_map (λ s. s.now) seed.entry) (option_map (λ s. s.now) rounds.entry) }
{
    match seed {
        None => None,
        Some(seed) => match rounds {
            None => None,
            Some(rounds) => Some(Asked::Make(seed, rounds)),
        },
    }
}

fn single<'a>(name: &str, file: Option<&'a str>) -> Option<Asked<'a>>
    ensures { option_map asked_shape result ≡ file_shape name.now (option_map (λ s. s.now) file.entry) }
{
    match file {
        None => None,
        Some(file) => {
            if name == "replay" {
                Some(Asked::Replay(file))
            } else {
                Some(Asked::Cost(file))
            }
        }
    }
}

fn read<'a>(matches: &ArgMatches<'a>) -> Option<Asked<'a>>
    ensures { option_map asked_shape result ≡ found_shape (subcommand_rows_of matches.now) }
{
    match matches.subcommand() {
        None => None,
        Some((name, found)) => {
            if name == "make" {
                pair(found.get_str("seed"), found.get_str("rounds"))
            } else {
                single(name, found.get_str("file"))
            }
        }
    }
}

// What words ask for that do not begin with a hyphen.
fn words_of<'a>(alloc: Global, words: &'a [String]) -> Result<Asked<'a>, WordsError>
    requires plain { All IsPlain (map string_bytes words.now) }
    requires few { length words.now ≤ 3 }
    ensures ok { IfOk result (λ a. shape_of (map string_bytes words.entry.now) ≡ Some (asked_shape a)) }
    ensures usage { result ≡ Err WordsError.Usage → has_shape (map string_bytes words.entry.now) ≡ false }
{
    match parsed(alloc, words) {
        Err(error) => Err(error),
        Ok(matches) => match read(&matches) {
            Some(asked) => Ok(asked),
            None => unreachable!(),
        },
    }
}

fn is_plain_word(word: &str) -> bool
    ensures { result ≡ is_plain word.now }
{
    match word.as_bytes() {
        [first, ..] => *first != b'-',
        [] => true,
    }
}

fn are_plain(words: &[String]) -> bool
    ensures { result ≡ list_all (λ w. is_plain (string_bytes w)) words.now }
{
    words.iter().all(|word| is_plain_word(word.as_str()))
}

/// The subcommand that the words name, with its words.
pub(crate) fn subcommand<'a>(alloc: Global, words: &'a [String]) -> Result<Asked<'a>, WordsError>
    ensures ok { IfOk result (λ a. shape_of (map string_bytes words.entry.now) ≡ Some (asked_shape a)) }
    ensures usage { result ≡ Err WordsError.Usage → is_asked (map string_bytes words.entry.now) ≡ false }
{
    if words.len() > 3 {
        return Err(WordsError::Usage);
    }
    if !are_plain(words) {
        return Err(WordsError::Usage);
    }
    words_of(alloc, words)
}
