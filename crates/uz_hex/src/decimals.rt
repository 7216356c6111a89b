//! Numbers as words: decimal digits without a sign or a leading zero.

ghost use Rattle.std.specs.Prelude.{◌≡◌, ◌<◌, ◌≤◌, IfSome};
ghost use Rattle.uz_hex.specs.Numbers.{all_digits, has_first, is_numeral, number_below};
ghost use Rattle.uz_hex.specs.Numbers.{number_within as number_from_low, number_after as number_going_on};

/// The number below the limit that these digits make.
#[tactic(auto, using(crate::proofs::NumberWords::past_limit))]
fn number_after(digits: &[u8], limit: u32) -> Option<u32>
    ensures number { result ≡ number_going_on limit 0 digits.now }
    ensures below { IfSome result (λ n. n < limit) }
{
    let mut n: u64 = 0;
    for b in digits {
        if n >= u64::from(limit) {
            return None;
        }
        if *b < b'0' || *b > b'9' {
            return None;
        }
        n = n * 10 + u64::from(*b - b'0');
    }
    if n < u64::from(limit) {
        Some(n as u32)
    } else {
        None
    }
}

/// Whether each byte is a decimal digit.
fn are_digits(word: &[u8]) -> bool
    ensures { result ≡ all_digits word.now }
{
    for b in word {
        if *b < b'0' || *b > b'9' {
            return false;
        }
    }
    true
}

/// Whether a word has a first byte, which isn't 0 where there are more.
fn starts_well(word: &[u8]) -> bool
    ensures { result ≡ has_first word.now }
{
    word.len() == 1 || (word.len() != 0 && word[0] != b'0')
}

/// Whether a word is spelled as a number, of any size: digits, at least one, the first not 0 where there are more.
pub fn is_number(word: &[u8]) -> bool
    ensures { result ≡ is_numeral word.now }
{
    starts_well(word) && are_digits(word)
}

/// The number below the limit that a word spells, or None exactly where it spells none.
pub fn number(word: &[u8], limit: u32) -> Option<u32>
    ensures number { result ≡ number_below limit word.now }
    ensures below { IfSome result (λ n. n < limit) }
{
    if !starts_well(word) {
        return None;
    }
    number_after(word, limit)
}

/// The number from `low` on and below the limit that a word spells, or None exactly where it spells none.
pub fn number_within(word: &[u8], low: u32, limit: u32) -> Option<u32>
    ensures number { result ≡ number_from_low low limit word.now }
    ensures low { IfSome result (λ n. low ≤ n) }
    ensures below { IfSome result (λ n. n < limit) }
{
    match number(word, limit) {
        Some(n) if low <= n => Some(n),
        _ => None,
    }
}

/// The same for numbers of 16 bits.
pub fn short_number(word: &[u8], low: u16, limit: u16) -> Option<u16>
    ensures number { result ≡ number_from_low low limit word.now }
    ensures low { IfSome result (λ n. low ≤ n) }
    ensures below { IfSome result (λ n. n < limit) }
{
    match number_within(word, u32::from(low), u32::from(limit)) {
        Some(n) => Some(n as u16),
        None => None,
    }
}
