//! Keywords, in any case of letters.
ghost use Rattle.std.specs.Prelude.{◌≡◌};
ghost use Rattle.iv_types.specs.Terminals.{keywords};
ghost use Rattle.iv_types.specs.Tokens.{keyword_among};

use iv_types::{KEYWORDS, Terminal};

/// The keyword that a word is, in any case of letters.
pub fn keyword(word: &[u8]) -> Option<Terminal>
    ensures { result ≡ keyword_among keywords word.now }
{
    for k in &KEYWORDS {
        if word.eq_ignore_ascii_case(k.spelling().as_bytes()) {
            return Some(*k);
        }
    }
    None
}
