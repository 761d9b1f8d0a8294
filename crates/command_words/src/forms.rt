//! Which lists of words are commands.
ghost use Rattle.std.specs.Prelude.{◌≡◌, ◌↔◌, ◌⊎◌, ℕ, List, IsTrue, string_bytes};
ghost use Rattle.command_words.specs.Words.{IsScript, IsScriptOn, IsMake, IsCommand};

use crate::file::is_file;
use crate::init::is_init;
use crate::numbers::number_within;
use made_script::MOST_ROUNDS;

fn is_word(word: &String, text: &str) -> bool
    ensures { IsTrue result ↔ (string_bytes word.now ≡ text.now) }
{
    word.as_str() == text
}

// Whether the words are `script` and `-` or FILE, or `make` and a number.
fn is_script_or_make(words: &[String]) -> bool
    ensures { IsTrue result ↔ (IsScript words.now ⊎ (((name : List ℕ) × IsScriptOn name words.now) ⊎ ((number : ℕ) × IsMake number words.now))) }
{
    if words.len() != 2 {
        return false;
    }
    if is_word(&words[0], "script") {
        return is_word(&words[1], "-") || is_file(words[1].as_str());
    }
    if !is_word(&words[0], "make") {
        return false;
    }
    number_within(words[1].as_str(), 1, MOST_ROUNDS).is_some()
}

/// Whether the words are one of the commands.
pub fn is_command(words: &[String]) -> bool
    ensures { IsTrue result ↔ IsCommand words.now }
{
    let Some((first, rest)) = words.split_first() else {
        return false;
    };
    if is_word(first, "init") {
        return is_init(rest);
    }
    is_script_or_make(words)
}
