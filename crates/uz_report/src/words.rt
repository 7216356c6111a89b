//! Words that the lines are made of.

ghost use Rattle.std.specs.Prelude.{◌≡◌, ◌++◌, OnOk, decimal};
ghost use Rattle.uz_report.specs.Words.{judged, range_words, time_words, verdict};

use crate::range::{Range, nanoseconds};
use itoa::Buffer;
use std::alloc::AllocError;

/// Puts a number in decimal.
pub(crate) fn put_decimal(text: &mut Vec<u8>, number: u64) -> Result<(), AllocError>
    ensures { OnOk result (text.new.items ≡ text.old.items ++ decimal number) }
{
    text.extend_from_slice(Buffer::new().format(number).as_bytes())
}

/// Puts a name, with the spaces that belong to it, and a number.
pub(crate) fn put_number(text: &mut Vec<u8>, name: &[u8], number: u64) -> Result<(), AllocError>
    ensures { OnOk result (text.new.items ≡ text.old.items ++ name.now ++ decimal number) }
{
    text.extend_from_slice(name)?;
    put_decimal(text, number)
}

/// Puts clocks, and the nanoseconds that they last.
pub(crate) fn put_time(text: &mut Vec<u8>, clocks: u32) -> Result<(), AllocError>
    ensures { OnOk result (text.new.items ≡ text.old.items ++ time_words clocks) }
{
    put_decimal(text, u64::from(clocks))?;
    put_number(text, b" clocks ", nanoseconds(clocks))?;
    text.extend_from_slice(b" ns")
}

/// Ends a line of which NTSC says something.
pub(crate) fn put_verdict(text: &mut Vec<u8>, is_ok: bool) -> Result<(), AllocError>
    ensures { OnOk result (text.new.items ≡ text.old.items ++ verdict is_ok) }
{
    if is_ok {
        text.extend_from_slice(b" ok\n")
    } else {
        text.extend_from_slice(b" out\n")
    }
}

/// Puts both ends of a range.
pub(crate) fn put_range(text: &mut Vec<u8>, least: u32, most: u32) -> Result<(), AllocError>
    ensures { OnOk result (text.new.items ≡ text.old.items ++ range_words least most) }
{
    put_number(text, b" range ", u64::from(least))?;
    put_number(text, b" to ", u64::from(most))
}

/// Puts the range of so many clocks, and whether they are in it; what has no range is out.
pub(crate) fn put_judged(
    text: &mut Vec<u8>,
    clocks: u32,
    range: Option<Range>,
) -> Result<(), AllocError>
    ensures { OnOk result (text.new.items ≡ text.old.items ++ judged clocks range) }
{
    match range {
        Some(range) => {
            put_range(text, range.least, range.most)?;
            put_verdict(text, range.has(clocks))
        }
        None => text.extend_from_slice(b" out\n"),
    }
}
