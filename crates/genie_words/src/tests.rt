//! Words, table by table.

use crate::{Form, WordsError, form_of};
use std::alloc::{AllocError, Global};
use std::test::Fail;

// What words come to.
#[derive(Clone, Copy, Debug, PartialEq, Eq)]
enum Said {
    Usage,
    NoMemory,
    // the length of the name
    Replay(usize),
    Cost(usize),
    Make(u64, u32),
}

fn said_of(alloc: Global, words: &[String]) -> Said {
    match form_of(alloc, words) {
        Err(WordsError::Usage) => Said::Usage,
        Err(WordsError::NoMemory) => Said::NoMemory,
        Ok(Form::Replay(name)) => Said::Replay(name.len()),
        Ok(Form::Cost(name)) => Said::Cost(name.len()),
        Ok(Form::Make(seed, rounds)) => Said::Make(seed, rounds),
    }
}

fn read_words(alloc: Global, words: &[&str]) -> Result<Said, AllocError> {
    let mut list = Vec::new(alloc);
    for word in words {
        list.push(String::from_str(alloc, word)?)?;
    }
    Ok(said_of(alloc, list.as_slice()))
}

const USAGE: &[&[&str]] = &[
    &[],
    &["replay"],
    &["cost"],
    &["make"],
    &["make", "1"],
    &["replay", "a", "b"],
    &["replay", "-x"],
    &["replay", "-"],
    &["replay", "--"],
    &["replay", ""],
    &["cost", ""],
    &["help"],
    &["--help"],
    &["--version"],
    &["-h", "replay", "s"],
    &["replay", "--", "s"],
    &["replay", "s", "--help"],
    &["Replay", "s"],
    &["repla", "s"],
    &["make", "1", "0"],
    &["make", "01", "1"],
    &["make", "1", "01"],
    &["make", "1", "30001"],
    &["make", "18446744073709551616", "1"],
    &["make", "+1", "1"],
    &["make", "", "1"],
    &["make", "1", ""],
    &["make", "-1", "1"],
    &["make", "1", "1", "1"],
    &["make", "a", "1"],
];

#[test]
fn words_that_are_no_form(rt: HostRuntime) -> Result<(), Fail> {
    for words in USAGE {
        assert_eq!(rt; read_words(rt.alloc(), words)?, Said::Usage);
    }
    Ok(())
}

const FORMS: &[(&[&str], Said)] = &[
    (&["replay", "s"], Said::Replay(1)),
    (&["replay", "replay"], Said::Replay(6)),
    (&["replay", "a-"], Said::Replay(2)),
    (&["cost", "a script"], Said::Cost(8)),
    (&["make", "0", "1"], Said::Make(0, 1)),
    (&["make", "7", "30000"], Said::Make(7, 30000)),
    (
        &["make", "18446744073709551615", "30000"],
        Said::Make(18446744073709551615, 30000),
    ),
];

#[test]
fn words_of_each_form(rt: HostRuntime) -> Result<(), Fail> {
    for (words, want) in FORMS {
        assert_eq!(rt; read_words(rt.alloc(), words)?, *want);
    }
    Ok(())
}

// A command with a name of this many bytes.
fn with_long_name(alloc: Global, command: &str, length: usize) -> Result<Said, AllocError> {
    let mut name = String::new(alloc);
    for _ in 0..length {
        name.push('s')?;
    }
    read_words(alloc, &[command, name.as_str()])
}

#[test]
fn a_name_has_at_most_4096_bytes(rt: HostRuntime) -> Result<(), Fail> {
    assert_eq!(rt;
        with_long_name(rt.alloc(), "replay", 4096)?,
        Said::Replay(4096)
    );
    assert_eq!(rt; with_long_name(rt.alloc(), "cost", 4096)?, Said::Cost(4096));
    assert_eq!(rt; with_long_name(rt.alloc(), "replay", 4097)?, Said::Usage);
    assert_eq!(rt; with_long_name(rt.alloc(), "cost", 4097)?, Said::Usage);
    Ok(())
}
