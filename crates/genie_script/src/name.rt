//! Names of files.
ghost use Rattle.std.specs.Prelude.{◌≡◌, ◌≤◌, length, true, Some, None, if◌then◌else◌};
ghost use Rattle.std.specs.List.{list_all};
ghost use Rattle.genie_script.specs.Words.{Gives, left};
ghost use Rattle.genie_script.specs.Names.{is_name_byte, is_name, file_of, file_at};

use crate::words::{Words, next_word};
use arrayvec::ArrayVec;
use std::marker::Model;

/// The name of a file: 1 to 255 bytes from hex 21 to 7e, other than `-` alone. Contracts see the list.
#[derive(Drop)]
pub struct Name {
    bytes: ArrayVec<u8, 255>,
    ghost valid: { is_name bytes.items ≡ true },
}

impl Model for Name {
    ghost use Rattle.std.specs.Prelude.{List, ℕ};

    ghost Value = { List ℕ };

    ghost view = { λ n. n.bytes.items };
}

impl Name {
    /// The name of these bytes, unless they aren't such a list.
    #[tactic(auto, unfolding(crate::specs::Names::is_name))]
    pub fn new(bytes: &[u8]) -> Option<Name>
        ensures { result ≡ (if is_name bytes.now then Some bytes.now else None) }
    {
        if !valid(bytes) {
            return None;
        }
        let mut name = ArrayVec::new();
        name.try_extend_from_slice(bytes).unwrap();
        Some(Name { bytes: name })
    }

    /// Lends the bytes.
    #[tactic(auto, unfolding(crate::specs::Names::is_name))]
    pub fn as_slice(&self) -> &[u8]
        ensures bytes { result.now ≡ self.now }
        ensures name { is_name self.now ≡ true }
        ensures most { length self.now ≤ 255 }
    {
        self.bytes.as_slice()
    }
}

fn visible(text: &[u8]) -> bool
    ensures { result ≡ list_all is_name_byte text.now }
{
    text.iter().all(|byte| 32 < *byte && *byte < 127)
}

#[tactic(auto, unfolding(crate::specs::Names::is_name))]
fn valid(text: &[u8]) -> bool
    ensures { result ≡ is_name text.now }
{
    !text.is_empty() && text.len() < 256 && visible(text) && text != b"-".as_slice()
}

/// The name that a word is, or none where it is `-`.
#[tactic(auto, unfolding(crate::specs::Names::file_of))]
fn file(text: &[u8]) -> Option<Option<Name>>
    ensures { result ≡ file_of text.now }
{
    if text == b"-".as_slice() {
        return Some(None);
    }
    Some(Some(Name::new(text)?))
}

#[tactic(auto, unfolding(crate::specs::Names::file_at))]
pub(crate) fn next_file(words: Words) -> Option<(Option<Name>, Words)>
    ensures { Gives (λ x. (x.0, left x.1)) result (file_at (left words.entry)) }
{
    let (word, rest) = next_word(words)?;
    let name = file(word)?;
    Some((name, rest))
}
