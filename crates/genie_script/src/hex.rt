//! Bytes as lower-case hex digits.
ghost use Rattle.std.specs.Prelude.{◌≡◌, ◌+◌, ◌<◌, length, option_map, IfSome};
ghost use Rattle.genie_script.specs.Words.{Gives, left};
ghost use Rattle.genie_script.specs.Hex.{nibble_of, pair_at, pairs_of, bytes_of, last_bytes as last_bytes_of};

use crate::words::{Words, last_word};
use genie_base::{PageBuffer, PageBytes};

fn nibble(digit: u8) -> Option<u8>
    ensures value { result ≡ nibble_of digit }
    ensures below { IfSome result (λ n. n < 16) }
{
    match digit {
        b'0'..=b'9' => Some(digit - b'0'),
        b'a'..=b'f' => Some(digit - b'a' + 10),
        _ => None,
    }
}

/// The byte that two digits stand for, and the digits after them.
#[tactic(auto, unfolding(crate::specs::Hex::pair_at))]
fn pair(text: &[u8]) -> Option<(u8, &[u8])>
    ensures value { Gives (λ x. (x.0, x.1.now)) result (pair_at text.now) }
    ensures shorter { IfSome result (λ x. length x.1.now + 2 ≡ length text.now) }
{
    match text {
        [high, low, rest @ ..] => {
            let high = nibble(*high)?;
            let low = nibble(*low)?;
            Some((16 * high + low, rest))
        }
        _ => None,
    }
}

/// Puts the bytes that pairs of digits stand for into the buffer, in place of what it had.
fn pairs(text: &[u8], into: &mut PageBuffer) -> Option<()>
    requires { length text.now < 8193 }
    ensures { option_map (λ _. into.new) result ≡ pairs_of text.now }
{
    into.clear();
    let mut rest = text;
    'pairs: while !rest.is_empty() {
        let Some((byte, after)) = pair(rest) else {
            return None;
        };
        into.push(byte);
        rest = after;
    }
    Some(())
}

/// The 1 to 4,096 bytes that a text stands for, in the buffer.
#[tactic(auto, unfolding(crate::specs::Hex::bytes_of))]
pub(crate) fn bytes<'a>(text: &[u8], into: &'a mut PageBuffer) -> Option<PageBytes<'a>>
    ensures { result ≡ bytes_of text.now }
{
    if text.is_empty() || text.len() > 8192 {
        return None;
    }
    pairs(text, into)?;
    Some(into.lend())
}

/// The one word that is left, as bytes in the buffer.
#[tactic(auto, unfolding(crate::specs::Hex::last_bytes))]
pub(crate) fn last_bytes<'a>(words: Words, into: &'a mut PageBuffer) -> Option<PageBytes<'a>>
    ensures { result ≡ last_bytes_of (left words.entry) }
{
    bytes(last_word(words)?, into)
}
