//! Bytes and words in hexadecimal, in upper case, with all their digits.

ghost use Rattle.std.specs.Prelude.{◌≡◌, ◌<◌};
ghost use Rattle.uz_hex.specs.Hexadecimals.{hex_byte, hex_digit, hex_word};

/// A digit of a value from 0 to 15.
fn digit(value: u8) -> u8
    requires { value < 16 }
    ensures { result ≡ hex_digit value }
{
    if value < 10 {
        b'0' + value
    } else {
        b'A' + (value - 10)
    }
}

/// The two digits of a byte.
pub fn byte_digits(value: u8) -> [u8; 2]
    ensures { result ≡ hex_byte value }
{
    [digit(value / 16 % 16), digit(value % 16)]
}

/// The four digits of a word.
pub fn word_digits(value: u16) -> [u8; 4]
    ensures { result ≡ hex_word value }
{
    [
        digit((value / 4096 % 16) as u8),
        digit((value / 256 % 16) as u8),
        digit((value / 16 % 16) as u8),
        digit((value % 16) as u8),
    ]
}
