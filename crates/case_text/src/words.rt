//! The words of a call, with one blank between them.
use anyhow::bail;
use std::alloc::Global;

/// The first word of a text, and what stands behind the blank after it.
pub fn first_word(text: &str) -> (&str, &str) {
    match text.split_once(' ') {
        Some(parts) => parts,
        None => (text, ""),
    }
}

/// The words of a text; an empty text has none.
pub fn all_words(alloc: Global, text: &str) -> anyhow::Result<Vec<&str>> {
    let mut words = Vec::new(alloc);
    if !text.is_empty() {
        for word in text.split(' ') {
            words.push(word)?;
        }
    }
    Ok(words)
}

/// The word at a place, counted from 0.
pub fn word_at<'a>(words: &[&'a str], place: usize) -> anyhow::Result<&'a str> {
    match words.get(place) {
        Some(word) => Ok(*word),
        None => bail!("a word is wanting"),
    }
}

/// The number at a place, counted from 0.
pub fn number_at(words: &[&str], place: usize) -> anyhow::Result<u64> {
    Ok(word_at(words, place)?.parse::<u64>()?)
}

/// The number of 32 bits at a place, counted from 0.
pub fn short_number_at(words: &[&str], place: usize) -> anyhow::Result<u32> {
    Ok(word_at(words, place)?.parse::<u32>()?)
}

/// The number of 8 bits at a place, counted from 0.
pub fn byte_at(words: &[&str], place: usize) -> anyhow::Result<u8> {
    Ok(word_at(words, place)?.parse::<u8>()?)
}
