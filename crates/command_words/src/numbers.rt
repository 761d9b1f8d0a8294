//! Numbers in words.
ghost use Rattle.std.specs.Prelude.{◌≡◌, ◌≤◌, ℕ, MatchOption, decimal};

use itoa::Buffer;

/// The number that a word is, within these bounds, in decimal digits without sign or leading zero.
pub fn number_within(word: &str, least: u32, most: u32) -> Option<u32>
    ensures { MatchOption result ((number : ℕ) → least ≤ number → number ≤ most → word.now ≡ decimal number → ⊥) (λ number. (least ≤ number) × (number ≤ most) × (word.now ≡ decimal number)) }
{
    let Ok(number) = word.parse::<u32>() else {
        return None;
    };
    if number < least || number > most {
        return None;
    }
    let mut buffer = Buffer::new();
    if buffer.format(number) == word {
        Some(number)
    } else {
        None
    }
}
