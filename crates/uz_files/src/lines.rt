//! A name and a number, of which the commands' lines are made.

ghost use Rattle.std.specs.Prelude.{◌≡◌, ◌++◌, IfOk, OnOk, decimal};
ghost use Rattle.uz_files.specs.Lines.{number_line as line_of_number};

use itoa::Buffer;
use std::alloc::{AllocError, Global};

/// Puts a name, with the spaces that belong to it, and a value behind a text.
pub fn put_value(text: &mut Vec<u8>, name: &[u8], value: &[u8]) -> Result<(), AllocError>
    ensures { OnOk result (text.new.items ≡ text.old.items ++ name.now ++ value.now) }
{
    text.extend_from_slice(name)?;
    text.extend_from_slice(value)
}

/// Puts a name, with the spaces that belong to it, and a number behind a text.
pub fn put_number(text: &mut Vec<u8>, name: &[u8], value: u64) -> Result<(), AllocError>
    ensures { OnOk result (text.new.items ≡ text.old.items ++ name.now ++ decimal value) }
{
    put_value(text, name, Buffer::new().format(value).as_bytes())
}

/// The line of a name, with the space behind it, and a number.
pub fn number_line(alloc: Global, name: &[u8], value: u64) -> Result<Vec<u8>, AllocError>
    ensures { IfOk result (λ line. line.items ≡ line_of_number name.now value) }
{
    let mut line = Vec::new(alloc);
    put_number(&mut line, name, value)?;
    line.extend_from_slice(b"\n")?;
    Ok(line)
}
