//! The words behind `init`.
ghost use Rattle.std.specs.Prelude.{◌≡◌, ◌↔◌, ◌≤◌, ◌++◌, ◌∷◌, ℕ, List, IsTrue, MatchOption, string_bytes, map, codes, decimal};
ghost use Rattle.command_words.specs.Words.{IsFile};
ghost use Rattle.command_words.specs.Init.{ValueAt, HasParts};
ghost use Rattle.command_words.specs.Parts.{PartAt, NoPartAt};

use crate::file::is_file;
use crate::limits::{LEAST_LOG_KIB, LEAST_PAGES, MOST_LOG_KIB, MOST_PAGES};
use crate::numbers::number_within;
use crate::parts::{Found, Met, Sort};

// The value of an option of this name with which the words begin, and how many words it is.
fn value_of<'a>(words: &'a [String], name: &str, joined: &str) -> Option<(&'a str, usize)>
    requires { joined.now ≡ name.now ++ codes "=" }
    ensures found { MatchOption result (Unit {0}) (λ r. ValueAt name.now (map string_bytes words.now) r.0.now r.1) }
    ensures none { MatchOption result ((value : List ℕ) (count : ℕ) → ValueAt name.now (map string_bytes words.now) value count → ⊥) (λ _. Unit {0}) }
{
    let (first, rest) = words.split_first()?;
    if first.as_str() == name {
        let (value, _) = rest.split_first()?;
        return Some((value.as_str(), 2));
    }
    let value = first.as_str().strip_prefix(joined)?;
    Some((value, 1))
}

// The option of this name with which the words begin.
fn option_at(words: &[String], name: &str, joined: &str, least: u32, most: u32) -> Option<usize>
    requires { joined.now ≡ name.now ++ codes "=" }
    ensures { MatchOption result ((number count : ℕ) → least ≤ number → number ≤ most → ValueAt name.now (map string_bytes words.now) (decimal number) count → ⊥) (λ count. (number : ℕ) × (least ≤ number) × (number ≤ most) × ValueAt name.now (map string_bytes words.now) (decimal number) count) }
{
    match value_of(words, name, joined) {
        Some((value, count)) => match number_within(value, least, most) {
            Some(_) => Some(count),
            None => None,
        },
        None => None,
    }
}

// FILE, where the words begin with it.
fn file_at(words: &[String]) -> Option<Found>
    ensures { MatchOption result ((name : List ℕ) (rest : List (List ℕ)) → IsFile name → map string_bytes words.now ≡ name ∷ rest → ⊥) (λ found. PartAt (map string_bytes words.now) found.sort found.words) }
{
    match words.split_first() {
        Some((first, _)) => {
            if is_file(first.as_str()) {
                return Some(Found {
                    sort: Sort::File,
                    words: 1,
                });
            }
            None
        }
        None => None,
    }
}

// The part with which the words begin.
fn part_at(words: &[String]) -> Option<Found>
    ensures { MatchOption result (NoPartAt (map string_bytes words.now)) (λ found. PartAt (map string_bytes words.now) found.sort found.words) }
{
    match option_at(words, "--pages", "--pages=", LEAST_PAGES, MOST_PAGES) {
        Some(count) => Some(Found {
            sort: Sort::Pages,
            words: count,
        }),
        None => match option_at(
            words,
            "--log-kib",
            "--log-kib=",
            LEAST_LOG_KIB,
            MOST_LOG_KIB,
        ) {
            Some(count) => Some(Found {
                sort: Sort::LogKib,
                words: count,
            }),
            None => file_at(words),
        },
    }
}

/// Whether the words behind `init` are FILE and each option at most once.
pub fn is_init(words: &[String]) -> bool
    ensures { IsTrue result ↔ HasParts (map string_bytes words.now) }
{
    let mut met = Met::NOTHING;
    let mut rest = words;
    while !rest.is_empty() {
        let Some(part) = part_at(rest) else {
            return false;
        };
        let Some(more) = met.with(part.sort) else {
            return false;
        };
        met = more;
        let (_, behind) = rest.split_at(part.words);
        rest = behind;
    }
    met.file
}
