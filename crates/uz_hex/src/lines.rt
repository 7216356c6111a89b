//! Cutting a text into lines.

ghost use Rattle.std.specs.Prelude.{◌≡◌, ◌==◌, position};
ghost use Rattle.uz_hex.specs.HexText.{trimmed};

use crate::is_blank;

/// How many bytes stand before the first LF, or `None` where there is none.
pub fn line_length(text: &[u8]) -> Option<usize>
    ensures { result ≡ position (λ c. c == 10) text.now }
{
    text.iter().position(|byte| *byte == b'\n')
}

/// A line without the spaces and tabs at its end.
pub fn without_blanks(line: &[u8]) -> &[u8]
    ensures { result.now ≡ trimmed line.now }
{
    let mut length = line.len();
    while length > 0 && is_blank(line[length - 1]) {
        length -= 1;
    }
    &line[..length]
}
