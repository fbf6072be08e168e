//! Decimal numbers.
ghost use Rattle.std.specs.Prelude.{◌≡◌};
ghost use Rattle.genie_script.specs.Words.{Gives, left};
ghost use Rattle.genie_script.specs.Numbers.{with_digit, digits_on, number_of, number_at, last_number as last_number_of, last_two as last_two_of, last_three as last_three_of};

use crate::words::{Words, last_word, next_word};

/// The number so far with one more digit, unless it grows past 4294967295.
fn push_digit(value: u32, byte: u8) -> Option<u32>
    ensures { result ≡ with_digit value byte }
{
    if !byte.is_ascii_digit() {
        return None;
    }
    let value = u64::from(value) * 10 + u64::from(byte - b'0');
    u32::try_from(value).ok()
}

#[tactic(auto, unfolding(crate::specs::Numbers::digits_on))]
fn digits(text: &[u8]) -> Option<u32>
    ensures { result ≡ digits_on 0 text.now }
{
    let mut value = 0;
    'digits: for byte in text {
        value = push_digit(value, *byte)?;
    }
    Some(value)
}

/// The number from 0 to 4294967295 that a text stands for.
#[tactic(auto, unfolding(crate::specs::Numbers::number_of))]
pub(crate) fn number(text: &[u8]) -> Option<u32>
    ensures { result ≡ number_of text.now }
{
    match text {
        [] | [b'0', _, ..] => None,
        _ => digits(text),
    }
}

#[tactic(auto, unfolding(crate::specs::Numbers::number_at))]
pub(crate) fn next_number(words: Words) -> Option<(u32, Words)>
    ensures { Gives (λ x. (x.0, left x.1)) result (number_at (left words.entry)) }
{
    let (word, rest) = next_word(words)?;
    let value = number(word)?;
    Some((value, rest))
}

#[tactic(auto, unfolding(crate::specs::Numbers::last_number))]
pub(crate) fn last_number(words: Words) -> Option<u32>
    ensures { result ≡ last_number_of (left words.entry) }
{
    number(last_word(words)?)
}

#[tactic(auto, unfolding(crate::specs::Numbers::last_two))]
pub(crate) fn last_two(words: Words) -> Option<(u32, u32)>
    ensures { result ≡ last_two_of (left words.entry) }
{
    let (first, rest) = next_number(words)?;
    let second = last_number(rest)?;
    Some((first, second))
}

#[tactic(auto, unfolding(crate::specs::Numbers::last_three))]
pub(crate) fn last_three(words: Words) -> Option<(u32, u32, u32)>
    ensures { result ≡ last_three_of (left words.entry) }
{
    let (first, rest) = next_number(words)?;
    let (second, third) = last_two(rest)?;
    Some((first, second, third))
}
