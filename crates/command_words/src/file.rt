//! Words that may be FILE.
ghost use Rattle.std.specs.Prelude.{◌↔◌, IsTrue};
ghost use Rattle.command_words.specs.Words.{IsFile};

/// Whether a word may be FILE: it is not empty and does not begin with `-`.
pub fn is_file(word: &str) -> bool
    ensures { IsTrue result ↔ IsFile word.now }
{
    match word.as_bytes().first() {
        Some(first) => *first != b'-',
        None => false,
    }
}
