//! The numbers of a line: what is asked of each, and its word read.

ghost use Rattle.std.specs.Prelude.{◌≡◌, ◌<◌, ◌≤◌, IfOk};
ghost use Rattle.uz_cert_lines.specs.Grammar.{next_as, number_of, rest_of};
ghost use Rattle.uz_cert_lines.specs.Lines.{within as within_limits, one_of as number_of_one, rising as rising_from};

use crate::{CertWhy, NumberBounds, Words};

/// A number from `low` on and below `limit`.
pub fn within(low: u32, limit: u32) -> NumberBounds
    ensures asked { result ≡ within_limits low limit }
    ensures low { result.low ≡ low }
    ensures limit { result.limit ≡ limit }
{
    NumberBounds {
        low,
        limit,
        beyond: CertWhy::Limit,
        hole: 0,
        hole_end: 0,
        least: 0,
        other: u32::MAX,
    }
}

/// The next word, which has to be a number from `low` on and below `limit`.
pub fn between(words: &mut Words, low: u32, limit: u32) -> Result<u32, CertWhy>
    ensures number { result ≡ next_as (number_of (within_limits low limit)) words.old }
    ensures low { IfOk result (λ n. low ≤ n) }
    ensures below { IfOk result (λ n. n < limit) }
    ensures rest { words.new ≡ rest_of words.old }
{
    words.number(within(low, limit))
}

/// The number of one of so many, which are counted from 0.
pub fn one_of(count: u32) -> NumberBounds
    ensures asked { result ≡ number_of_one count }
    ensures limit { result.limit ≡ count }
{
    NumberBounds {
        low: 0,
        limit: count,
        beyond: CertWhy::Unknown,
        hole: 0,
        hole_end: 0,
        least: 0,
        other: u32::MAX,
    }
}

/// The same, and at least so much to keep the order.
pub fn rising(least: u32, asked: NumberBounds) -> NumberBounds
    ensures asked { result ≡ rising_from least asked }
    ensures limit { result.limit ≡ asked.limit }
{
    NumberBounds { least, ..asked }
}

/// The next word, which has to be the number of one of so many.
pub fn one_number_of(words: &mut Words, count: u32) -> Result<u32, CertWhy>
    ensures number { result ≡ next_as (number_of (number_of_one count)) words.old }
    ensures below { IfOk result (λ n. n < count) }
    ensures rest { words.new ≡ rest_of words.old }
{
    words.number(one_of(count))
}

/// The next word, which has to be a number below `limit`, and at least so much to keep the order.
pub fn in_order(words: &mut Words, least: u32, limit: u32) -> Result<u32, CertWhy>
    ensures number { result ≡ next_as (number_of (rising_from least (within_limits 0 limit))) words.old }
    ensures below { IfOk result (λ n. n < limit) }
    ensures rest { words.new ≡ rest_of words.old }
{
    words.number(rising(least, within(0, limit)))
}
