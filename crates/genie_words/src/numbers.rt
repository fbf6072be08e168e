//! Decimal numbers without leading zeros.
ghost use Rattle.std.specs.Prelude.{◌≡◌, ℕ, ◌^◌, ◌<◌, IfSome, Some, decimal};

use itoa::Buffer;

/// The number whose decimal a word is.
pub(crate) fn number(word: &str) -> Option<u64>
    ensures some { IfSome result (λ n. word.now ≡ decimal n) }
    ensures every { (n : ℕ) → n < 2 ^ 64 → word.now ≡ decimal n → result ≡ Some n }
{
    match word.parse::<u64>() {
        Err(_) => None,
        Ok(number) => {
            let mut digits = Buffer::new();
            if digits.format(number) == word {
                Some(number)
            } else {
                None
            }
        }
    }
}
