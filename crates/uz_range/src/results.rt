//! Narrowing of a number by a flag of itself, or of the subtraction that made it. Numbers lie below twice `half`.

ghost use Rattle.std.specs.Prelude.{◌≡◌, ◌<◌, ◌≤◌, ◌+◌, ℕ};
ghost use Rattle.uz_range.specs.Narrowing.{by_value as by_value_ends, less as less_ends, left_less as left_less_ends, against as against_ends, valued as valued_ends, of_part as of_part_ends};
ghost use Rattle.uz_range.specs.Narrowing.{result_narrowed as result_narrowed_ends, bit_narrowed, LeftLiesIn, middle as middle_number};

use crate::differences::narrowed;
use crate::empty_ranges::{between, common, either_one, lower, upper};
use uz_schedule::Wide;

/// What flag Z or N of a number leaves of its range.
pub fn by_value(half: u16, flag: u8, is_set: bool, now: Wide) -> Option<Wide>
    requires { 0 < half }
    ensures row { result ≡ by_value_ends half flag is_set now }
    ensures inside { now.lo ≤ now.hi → LeftLiesIn now result }
{
    if flag == 1 {
        if is_set {
            between(now.lo(), 0)
        } else {
            between(now.lo().max(1), now.hi())
        }
    } else if flag == 2 {
        if is_set {
            upper(half, now)
        } else {
            lower(half, now)
        }
    } else {
        Some(now)
    }
}

/// The numbers of a range less `k`, where all or none of them are below `k`.
fn less(half: u16, a: Wide, k: u16) -> Wide
    requires { (0 < half) × (half ≤ 32768) × (k < half + half) }
    ensures { result ≡ less_ends half a k }
{
    let top = half - 1 + half;
    if k <= a.lo() {
        Wide::between(a.lo() - k, a.hi() - k)
    } else if a.hi() < k {
        Wide::between(top - (k - 1 - a.lo()), top - (k - 1 - a.hi()))
    } else {
        Wide::between(0, top)
    }
}

/// What is left of `now`, where the first of `left` is what is left of the numbers that `k` was taken from.
fn left_less(half: u16, k: u16, now: Wide, left: Option<(Wide, Wide)>) -> Option<Wide>
    requires { (0 < half) × (half ≤ 32768) × (k < half + half) }
    ensures { result ≡ left_less_ends half k now left }
{
    match left {
        Some(left) => common(less(half, left.0, k), now),
        None => None,
    }
}

/// What is left of a part of the old range, and of `k`.
fn against(half: u16, flag: u8, is_set: bool, k: u16, part: Option<Wide>) -> Option<(Wide, Wide)>
    requires { 0 < half }
    ensures { result ≡ against_ends half flag is_set k part }
{
    match part {
        Some(part) => narrowed(half, flag, is_set, part, Wide::single(k)),
        None => None,
    }
}

/// What is left of a range, by Z or N.
fn valued(half: u16, flag: u8, is_set: bool, now: Option<Wide>) -> Option<Wide>
    requires { 0 < half }
    ensures { result ≡ valued_ends half flag is_set now }
{
    match now {
        Some(now) => by_value(half, flag, is_set, now),
        None => None,
    }
}

/// What is left of the range `now`, of results that come of a part of the old range.
fn of_part(half: u16, flag: u8, is_set: bool, k: u16, now: Wide, part: Option<Wide>) -> Option<Wide>
    requires { (0 < half) × (half ≤ 32768) × (k < half + half) }
    ensures { result ≡ of_part_ends half flag is_set k now part }
{
    let left = left_less(half, k, now, against(half, flag, is_set, k, part));
    valued(half, flag, is_set, left)
}

/// What a flag leaves of the range `now` of a result, which is a number of `old` less `k`.
pub fn result_narrowed(
    half: u16,
    flag: u8,
    is_set: bool,
    old: Wide,
    k: u16,
    now: Wide,
) -> Option<Wide>
    requires { (0 < half) × (half ≤ 32768) × (k < half + half) }
    ensures row { result ≡ result_narrowed_ends half flag is_set old k now }
    ensures inside { now.lo ≤ now.hi → LeftLiesIn now result }
{
    result_by_parts(half, flag, is_set, old, k, now)
}

/// What [`result_narrowed`] answers.
fn result_by_parts(half: u16, flag: u8, is_set: bool, old: Wide, k: u16, now: Wide) -> Option<Wide>
    requires { (0 < half) × (half ≤ 32768) × (k < half + half) }
    ensures { result ≡ result_narrowed_ends half flag is_set old k now }
{
    either_one(
        of_part(half, flag, is_set, k, now, lower(k, old)),
        of_part(half, flag, is_set, k, now, upper(k, old)),
    )
}

/// What a bit (0 to 7) of a byte leaves of its range.
pub fn by_bit(bit: u8, is_set: bool, a: Wide) -> Option<Wide>
    requires { (bit < 8) × (a.hi < 256) }
    ensures row { result ≡ bit_narrowed bit is_set a }
    ensures inside { a.lo ≤ a.hi → LeftLiesIn a result }
{
    if a.lo() >> bit >> 1 == a.hi() >> bit >> 1 {
        let middle = middle(bit, a.lo());
        if is_set {
            between(a.lo().max(middle), a.hi())
        } else {
            between(a.lo(), a.hi().min(middle - 1))
        }
    } else {
        Some(a)
    }
}

/// The number that has the bits of `n` above this one, then a 1, and then zeros.
fn middle(bit: u8, n: u16) -> u16
    requires { (bit < 8) × (n < 256) }
    ensures { result ≡ middle_number bit n }
{
    let unit = 1u16 << bit;
    n - n % (2 * unit) + unit
}
