//! Numbers of the HUGE range as texts: digits, or `max` and `-max` for its ends.
ghost use Rattle.std.specs.Prelude.{IfOk};
ghost use Rattle.iv_types.specs.Encoding.{IsHuge};

use anyhow::bail;
use iv_types::GREATEST_HUGE;
use std::fmt::Write;

/// The number of a text.
pub fn number_of(text: &str) -> anyhow::Result<i128>
    ensures { IfOk result IsHuge }
{
    match text {
        "max" => Ok(GREATEST_HUGE),
        "-max" => Ok(-GREATEST_HUGE),
        _ => {
            let number = text.parse::<i128>()?;
            if number == i128::MIN {
                bail!("no number of the range");
            }
            Ok(number)
        }
    }
}

/// Writes a number as `number_of` reads it.
pub fn write_number(out: &mut String, number: i128) -> anyhow::Result<()> {
    match number {
        GREATEST_HUGE => out.push_str("max")?,
        _ => {
            if number == -GREATEST_HUGE {
                out.push_str("-max")?;
            } else {
                write!(out, "{number}")?;
            }
        }
    }
    Ok(())
}

/// Writes numbers with blanks between them.
pub fn write_numbers(out: &mut String, numbers: &[i128]) -> anyhow::Result<()> {
    let mut is_first = true;
    for number in numbers {
        out.push_str(if is_first { "" } else { " " })?;
        is_first = false;
        write_number(out, *number)?;
    }
    Ok(())
}
