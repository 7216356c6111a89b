//! What the rules of narrowing leave of drawn ranges, beside the numbers of them that have the flag.

ghost use Rattle.std.specs.Prelude.{◌<◌};

use crate::drawn::{bits, bytes, pair_results, pairs, results, span, values, wide};
use crate::least::{Least, wide_of};
use random_numbers::Random;
use uz_range::{narrow, narrow_bit, narrow_pair, narrow_pair_result, narrow_result, narrow_value};
use uz_schedule::{Span, Wide};

/// How many answers are wrong.
#[derive(Clone, Copy)]
pub(crate) struct Count {
    /// Those that lack a number with the flag.
    pub(crate) lost: u32,
    /// Those that aren't the least ranges, where the rule promises them.
    pub(crate) wide: u32,
}

impl Count {
    pub(crate) fn new() -> Count {
        Count { lost: 0, wide: 0 }
    }

    /// With one answer more.
    fn with(self, is_lost: bool, is_wide: bool) -> Count {
        Count {
            lost: self.lost.saturating_add(u32::from(is_lost)),
            wide: self.wide.saturating_add(u32::from(is_wide)),
        }
    }

    /// With the answer for a number; `least` where it has to be the least range.
    fn with_one(self, left: Option<Wide>, found: Least, least: bool) -> Count {
        match left {
            None => self.with(!found.is_nothing(), false),
            Some(left) => self.with(!found.is_in(left), least && !found.is(left)),
        }
    }

    /// With the answer for two numbers.
    fn with_both(self, left: Option<(Wide, Wide)>, found: (Least, Least), least: bool) -> Count {
        match left {
            None => self.with(!found.0.is_nothing(), false),
            Some(left) => self.with(
                !(found.0.is_in(left.0) && found.1.is_in(left.1)),
                least && !(found.0.is(left.0) && found.1.is(left.1)),
            ),
        }
    }
}

fn one(left: Option<Span>) -> Option<Wide> {
    match left {
        Some(left) => Some(wide_of(left)),
        None => None,
    }
}

fn both(left: Option<(Span, Span)>) -> Option<(Wide, Wide)> {
    match left {
        Some(left) => Some((wide_of(left.0), wide_of(left.1))),
        None => None,
    }
}

/// Whether the answer for two numbers is the least: by C, Z and S.
fn is_told(flag: u8) -> bool {
    matches!(flag, 0 | 1 | 4)
}

/// Two bytes, by each flag.
pub(crate) fn try_bytes(random: &mut Random, count: Count) -> Count {
    let a = span(random);
    let b = span(random);
    let mut count = count;
    for flag in 0..7u8 {
        let clear = both(narrow(flag, false, a, b));
        count = count.with_both(clear, bytes(flag, false, a, b), is_told(flag));
        let set = both(narrow(flag, true, a, b));
        count = count.with_both(set, bytes(flag, true, a, b), is_told(flag));
    }
    count
}

/// Two pairs near edges, by each flag.
pub(crate) fn try_pairs(random: &mut Random, count: Count) -> Count {
    let a = wide(random);
    let b = wide(random);
    let mut count = count;
    for flag in 0..7u8 {
        let clear = narrow_pair(flag, false, a, b);
        count = count.with_both(clear, pairs(flag, false, a, b), is_told(flag));
        let set = narrow_pair(flag, true, a, b);
        count = count.with_both(set, pairs(flag, true, a, b), is_told(flag));
    }
    count
}

/// A byte that a constant was taken from, by each flag. By C, Z and N it is the least range.
pub(crate) fn try_results(random: &mut Random, count: Count) -> Count {
    let old = span(random);
    let k = random.byte();
    let now = span(random);
    let mut count = count;
    for flag in 0..7u8 {
        let clear = one(narrow_result(flag, false, old, k, now));
        count = count.with_one(clear, results(flag, false, old, k, now), flag < 3);
        let set = one(narrow_result(flag, true, old, k, now));
        count = count.with_one(set, results(flag, true, old, k, now), flag < 3);
    }
    count
}

/// A pair that a constant was taken from, by each flag, near edges.
pub(crate) fn try_pair_results(random: &mut Random, count: Count) -> Count {
    let old = wide(random);
    let k = wide(random).lo();
    let lo = old
        .lo()
        .wrapping_sub(k)
        .saturating_sub(random.below(9) as u16);
    let now = Wide::between(lo, lo.saturating_add(random.below(24) as u16));
    let mut count = count;
    for flag in 0..7u8 {
        let clear = narrow_pair_result(flag, false, old, k, now);
        count = count.with_one(clear, pair_results(flag, false, old, k, now), flag < 3);
        let set = narrow_pair_result(flag, true, old, k, now);
        count = count.with_one(set, pair_results(flag, true, old, k, now), flag < 3);
    }
    count
}

/// A byte, by its own Z and N, and by each bit.
pub(crate) fn try_values(random: &mut Random, count: Count) -> Count {
    let a = span(random);
    let mut count = count;
    for flag in 1..3u8 {
        let clear = one(narrow_value(flag, false, a));
        count = count.with_one(clear, values(flag, false, a), true);
        let set = one(narrow_value(flag, true, a));
        count = count.with_one(set, values(flag, true, a), true);
    }
    for bit in 0..8u8 {
        let least = a.lo() >> bit >> 1 == a.hi() >> bit >> 1;
        count = count.with_one(one(narrow_bit(bit, false, a)), bits(bit, false, a), least);
        count = count.with_one(one(narrow_bit(bit, true, a)), bits(bit, true, a), least);
    }
    count
}
