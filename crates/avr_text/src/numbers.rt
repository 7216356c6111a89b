//! Numbers in a source text.

ghost use Rattle.std.specs.Prelude.{◌≡◌, ◌<◌, ◌≤◌, ◌^◌, ◌*◌, IfSome, length};
ghost use Rattle.avr_text.specs.Numbers.{digit_worth as digit_worth_of, goes_on_to, digits_of, number_of as number_of_word};

/// The numbers end below this one.
const NUMBER_LIMIT: u128 = 0x8000_0000_0000_0000;

/// What a digit of either case is worth, and 16 for a byte that is no digit.
fn digit_worth(b: u8) -> u8
    ensures worth { result ≡ digit_worth_of b }
    ensures small { result ≤ 16 }
{
    match b {
        b'0'..=b'9' => b - b'0',
        b'a'..=b'f' => b - b'a' + 10,
        b'A'..=b'F' => b - b'A' + 10,
        _ => 16,
    }
}

/// The number that the digits of a base write, where it fits.
#[tactic(auto, using(crate::proofs::Digits::past_limit))]
fn read_digits(digits: &[u8], base: u8) -> Option<u64>
    requires { 0 < base }
    ensures number { result ≡ goes_on_to base 0 digits.now }
    ensures below { IfSome result (λ n. n < 2 ^ 63) }
{
    let mut number: u128 = 0;
    for b in digits {
        if number >= NUMBER_LIMIT {
            return None;
        }
        let worth = digit_worth(*b);
        if worth >= base {
            return None;
        }
        number = number * u128::from(base) + u128::from(worth);
    }
    if number < NUMBER_LIMIT {
        Some(number as u64)
    } else {
        None
    }
}

fn digits_number(digits: &[u8], base: u8) -> Option<u64>
    requires { 0 < base }
    ensures number { result ≡ digits_of base digits.now }
    ensures below { IfSome result (λ n. n < 2 ^ 63) }
{
    if digits.len() == 0 {
        return None;
    }
    read_digits(digits, base)
}

/// The number that a word is, from 0 to 2^63 - 1.
pub fn number_of(word: &[u8]) -> Option<u64>
    ensures number { result ≡ number_of_word word.now }
    ensures below { IfSome result (λ n. n < 2 ^ 63) }
{
    if word.len() < 2 || word[0] != b'0' {
        return digits_number(word, 10);
    }
    match word[1] {
        b'x' => digits_number(&word[2..], 16),
        b'b' => digits_number(&word[2..], 2),
        _ => digits_number(word, 10),
    }
}
