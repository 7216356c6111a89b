//! Words and numbers at the end of a text.

ghost use Rattle.std.specs.Prelude.{◌≡◌, ◌++◌, ◌∷◌, [], OnOk, decimal, map};
ghost use Rattle.uz_cert_writer.specs.Joined.{spaced};
ghost use Rattle.uz_cert_writer.specs.Spelling.{signed_word};

use itoa::Buffer;
use std::alloc::AllocError;

/// Adds a byte.
pub(crate) fn add_byte(text: &mut Vec<u8>, byte: u8) -> Result<(), AllocError>
    ensures { OnOk result (text.new.items ≡ text.old.items ++ (byte ∷ [])) }
{
    text.push(byte)?;
    Ok(())
}

/// Adds the LF that ends a line.
pub(crate) fn end_line(text: &mut Vec<u8>) -> Result<(), AllocError>
    ensures { OnOk result (text.new.items ≡ text.old.items ++ (10 ∷ [])) }
{
    add_byte(text, b'\n')
}

/// Adds a number in decimal.
pub(crate) fn add_decimal(text: &mut Vec<u8>, number: u32) -> Result<(), AllocError>
    ensures { OnOk result (text.new.items ≡ text.old.items ++ decimal number) }
{
    text.extend_from_slice(Buffer::new().format(number).as_bytes())
}

/// Adds a space and a word.
pub(crate) fn add_word(text: &mut Vec<u8>, word: &[u8]) -> Result<(), AllocError>
    ensures { OnOk result (text.new.items ≡ text.old.items ++ (32 ∷ word.now)) }
{
    add_byte(text, b' ')?;
    text.extend_from_slice(word)
}

/// Adds a space and a number.
pub(crate) fn add_number(text: &mut Vec<u8>, number: u32) -> Result<(), AllocError>
    ensures { OnOk result (text.new.items ≡ text.old.items ++ (32 ∷ decimal number)) }
{
    add_byte(text, b' ')?;
    add_decimal(text, number)
}

/// Adds numbers, each with a space before it.
pub(crate) fn add_numbers(text: &mut Vec<u8>, numbers: &[u32]) -> Result<(), AllocError>
    ensures { OnOk result (text.new.items ≡ text.old.items ++ spaced (map (λ n. decimal n) numbers.now)) }
{
    for number in numbers {
        add_number(text, *number)?;
    }
    Ok(())
}

/// Adds a space and a number with its sign, where that is below 0.
pub(crate) fn add_signed(text: &mut Vec<u8>, number: i16) -> Result<(), AllocError>
    ensures { OnOk result (text.new.items ≡ text.old.items ++ (32 ∷ signed_word number)) }
{
    add_byte(text, b' ')?;
    if number < 0 {
        add_byte(text, b'-')?;
    }
    add_decimal(text, u32::from(number.unsigned_abs()))
}
