//! Reading a line word by word.
ghost use Rattle.std.specs.Prelude.{◌≡◌, ◌==◌, option_copied, position};
ghost use Rattle.genie_script.specs.Words.{Gives, left, word_at, front, back, last_word as last_word_of};

/// The text that is left of a line, or nothing after its last word.
pub(crate) type Words<'a> = Option<&'a [u8]>;

/// Where the first such byte stands.
fn place(text: &[u8], byte: u8) -> Option<usize>
    ensures { result ≡ position (λ b. b == byte) text.now }
{
    text.iter().position(|b| *b == byte)
}

/// The text before the first such byte, and the text after it; without one the whole text, and nothing.
#[tactic(auto, using(crate::proofs::Parts::cut_none, crate::proofs::Parts::cut_some))]
pub(crate) fn cut(text: &[u8], byte: u8) -> (&[u8], Option<&[u8]>)
    ensures front { result.0.now ≡ front byte text.now }
    ensures back { option_copied result.1 ≡ back byte text.now }
{
    match place(text, byte) {
        None => (text, None),
        Some(at) => (&text[..at], Some(&text[at + 1..])),
    }
}

/// The next word, and what is left after it.
#[tactic(auto, using(crate::proofs::Parts::words_at, crate::proofs::Parts::left_is))]
pub(crate) fn next_word(words: Words) -> Option<(&[u8], Words)>
    ensures { Gives (λ x. (x.0.now, left x.1)) result (word_at (left words.entry)) }
{
    Some(cut(words?, b' '))
}

/// The one word that is left.
#[tactic(auto, using(crate::proofs::Parts::last_word_more), unfolding(crate::specs::Words::last_word))]
pub(crate) fn last_word(words: Words) -> Option<&[u8]>
    ensures { Gives (λ x. x.now) result (last_word_of (left words.entry)) }
{
    match next_word(words)? {
        (word, None) => Some(word),
        (_, Some(_)) => None,
    }
}
