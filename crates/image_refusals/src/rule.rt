//! A rule of the image that fails.
ghost use Rattle.std.specs.Prelude.{◌≡◌, IfOk};
ghost use Rattle.image_refusals.specs.Lines.{rule_line};

use image_finding::BadImage;
use iv_types::NoMemory;
use std::alloc::Global;

/// The line that tells a rule of the image that fails, and its place.
///
/// # Errors
///
/// Where there is no memory for it.
pub fn rule_line(alloc: Global, bad: BadImage) -> Result<Vec<u8>, NoMemory>
    ensures { IfOk result (λ line. line.items ≡ rule_line bad) }
{
    let BadImage { rule, place } = bad;
    let line = format!(in alloc; "BADIMAGE {rule} {place}\n")?;
    Ok(line.into_bytes())
}
