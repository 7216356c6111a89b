//! The kinds of bytes.

ghost use Rattle.std.specs.Prelude.{◌≡◌};
ghost use Rattle.avr_text.specs.Characters.{is_digit as is_digit_byte, begins_name as begins_name_byte};
ghost use Rattle.avr_text.specs.Characters.{is_word as is_word_byte, is_mark as is_mark_byte};
ghost use Rattle.avr_text.specs.Characters.{goes_on_line as goes_on_line_byte};

/// A decimal digit.
pub fn is_digit(b: u8) -> bool
    ensures { result ≡ is_digit_byte b }
{
    b >= b'0' && b <= b'9'
}

/// A letter or `_`.
pub fn begins_name(b: u8) -> bool
    ensures { result ≡ begins_name_byte b }
{
    (b >= b'A' && b <= b'Z') || (b >= b'a' && b <= b'z') || b == b'_'
}

/// A letter, a digit or `_`.
pub fn is_word(b: u8) -> bool
    ensures { result ≡ is_word_byte b }
{
    begins_name(b) || is_digit(b)
}

/// A byte that is a token by itself.
pub fn is_mark(b: u8) -> bool
    ensures { result ≡ is_mark_byte b }
{
    matches!(
        b,
        b':' | b','
            | b'='
            | b'.'
            | b'+'
            | b'-'
            | b'*'
            | b'/'
            | b'%'
            | b'('
            | b')'
            | b'|'
            | b'^'
            | b'&'
            | b'~'
    )
}

/// No LF.
pub fn goes_on_line(b: u8) -> bool
    ensures { result ≡ goes_on_line_byte b }
{
    b != b'\n'
}
