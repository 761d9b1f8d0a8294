//! Writing behind the bytes of a text. Where memory is wanting, a part may stand there.
ghost use Rattle.std.specs.Prelude.{◌≡◌, ◌∷◌, ◌++◌, [], OnOk, decimal};
ghost use Rattle.std.specs.Fmt.{signed_decimal};
ghost use Rattle.iv_types.specs.Printing.{quoted_text};
ghost use Rattle.iv_types.specs.Replies.{spaced, numbers_text};

use itoa::Buffer;
use iv_types::NoMemory;

/// Writes bytes.
pub fn push_bytes(text: &mut Vec<u8>, bytes: &[u8]) -> Result<(), NoMemory>
    ensures { OnOk result (text.new.items ≡ text.old.items ++ bytes.now) }
{
    text.extend_from_slice(bytes)?;
    Ok(())
}

/// Writes a number in decimal digits.
pub fn push_number(text: &mut Vec<u8>, number: u64) -> Result<(), NoMemory>
    ensures { OnOk result (text.new.items ≡ text.old.items ++ decimal number) }
{
    let mut buffer = Buffer::new();
    push_bytes(text, buffer.format(number).as_bytes())
}

/// Writes a number in decimal digits, behind `-` where it is below 0.
pub fn push_signed(text: &mut Vec<u8>, number: i128) -> Result<(), NoMemory>
    ensures { OnOk result (text.new.items ≡ text.old.items ++ signed_decimal number) }
{
    let mut buffer = Buffer::new();
    push_bytes(text, buffer.format(number).as_bytes())
}

/// A text between quotes, with two quotes for one.
pub fn push_quoted(text: &mut Vec<u8>, content: &[u8]) -> Result<(), NoMemory>
    ensures { OnOk result (text.new.items ≡ text.old.items ++ quoted_text content.now) }
{
    text.push(b'\'')?;
    for byte in content {
        if *byte == b'\'' {
            text.push(b'\'')?;
        }
        text.push(*byte)?;
    }
    text.push(b'\'')?;
    Ok(())
}

pub fn push_spaced(text: &mut Vec<u8>, bytes: &[u8]) -> Result<(), NoMemory>
    ensures { OnOk result (text.new.items ≡ text.old.items ++ spaced bytes.now) }
{
    text.push(b' ')?;
    push_bytes(text, bytes)
}

pub fn push_spaced_number(text: &mut Vec<u8>, number: u64) -> Result<(), NoMemory>
    ensures { OnOk result (text.new.items ≡ text.old.items ++ spaced (decimal number)) }
{
    text.push(b' ')?;
    push_number(text, number)
}

pub fn push_spaced_signed(text: &mut Vec<u8>, number: i128) -> Result<(), NoMemory>
    ensures { OnOk result (text.new.items ≡ text.old.items ++ spaced (signed_decimal number)) }
{
    text.push(b' ')?;
    push_signed(text, number)
}

pub fn push_numbers(text: &mut Vec<u8>, numbers: &[u64]) -> Result<(), NoMemory>
    ensures { OnOk result (text.new.items ≡ text.old.items ++ numbers_text numbers.now) }
{
    for number in numbers {
        push_spaced_number(text, *number)?;
    }
    Ok(())
}
