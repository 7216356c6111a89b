//! The lines of a pad file.

ghost use Rattle.std.specs.Prelude.{◌≡◌};
ghost use Rattle.uz_pads.specs.Lines.{word_of, pair_in, kind_of, is_blank_line as is_blank_of};

use crate::Pad;
use uz_hex::is_blank;

/// What a line of a pad file is.
#[derive(Clone, Copy)]
pub enum Line {
    /// Nothing but spaces and tabs.
    Blank,
    /// Four hexadecimal digits, one space, four hexadecimal digits.
    Pair(Pad),
    /// Anything else.
    Faulty,
}

/// The number that four hexadecimal digits of either case stand for.
fn word(a: u8, b: u8, c: u8, d: u8) -> Option<u16>
    ensures { result ≡ word_of a b c d }
{
    let mut bytes = [0; 2];
    match hex::decode_to_slice([a, b, c, d].as_slice(), bytes.as_mut_slice()) {
        Ok(()) => Some(u16::from_be_bytes(bytes)),
        Err(_) => None,
    }
}

fn is_blank_line(line: &[u8]) -> bool
    ensures { result ≡ is_blank_of line.now }
{
    for byte in line {
        if !is_blank(*byte) {
            return false;
        }
    }
    true
}

fn pair(line: &[u8]) -> Option<Pad>
    ensures { result ≡ pair_in line.now }
{
    match line {
        [a, b, c, d, b' ', e, f, g, h] => Some(Pad {
            one: word(*a, *b, *c, *d)?,
            two: word(*e, *f, *g, *h)?,
        }),
        _ => None,
    }
}

pub(crate) fn line_kind(line: &[u8]) -> Line
    ensures { result ≡ kind_of line.now }
{
    if is_blank_line(line) {
        return Line::Blank;
    }
    match pair(line) {
        Some(pad) => Line::Pair(pad),
        None => Line::Faulty,
    }
}
