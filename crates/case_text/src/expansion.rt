//! Short forms of long texts: `{3:a#@}` stands for `a10a21a32`, and `[3:a]`, also between braces, for `aaa`.
use anyhow::bail;
use std::alloc::Global;
use std::fmt::Write;

// Writes a piece with a number, counted from 0, for `@` and the next one for `#`.
fn write_piece(out: &mut String, piece: &str, number: u32) -> anyhow::Result<()> {
    for letter in piece.chars() {
        match letter {
            '@' => write!(out, "{number}")?,
            '#' => {
                let next = number.saturating_add(1);
                write!(out, "{next}")?;
            }
            _ => out.push(letter)?,
        }
    }
    Ok(())
}

// Writes what `3:ab` stands for between braces.
fn write_group(out: &mut String, group: &str) -> anyhow::Result<()> {
    let Some((count, piece)) = group.split_once(':') else {
        bail!("no piece")
    };
    let count = count.parse::<u32>()?;
    for number in 0..count {
        write_piece(out, piece, number)?;
    }
    Ok(())
}

// A text without such braces.
fn without(alloc: Global, text: &str, opening: char, closing: char) -> anyhow::Result<String> {
    let mut out = String::new(alloc);
    for part in text.split(opening) {
        match part.split_once(closing) {
            None => out.push_str(part)?,
            Some((group, behind)) => {
                write_group(&mut out, group)?;
                out.push_str(behind)?;
            }
        }
    }
    Ok(out)
}

pub fn expanded(alloc: Global, text: &str) -> anyhow::Result<String> {
    let outer = without(alloc, text, '[', ']')?;
    without(alloc, &outer, '{', '}')
}
