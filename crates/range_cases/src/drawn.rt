//! Drawn ranges of bytes and pairs, and the numbers of them whose flags the machine's own arithmetic gives.

ghost use Rattle.std.specs.Prelude.{◌<◌};

use crate::least::Least;
use random_numbers::Random;
use uz_core::{Flags, and8, sub8};
use uz_schedule::{Span, Wide};

/// Numbers beside which edges of the rules lie.
const EDGES: [u16; 5] = [0, 255, 32767, 32768, 65535];

/// A range of bytes: a single one, some about the least negative byte, or any.
pub(crate) fn span(random: &mut Random) -> Span {
    match random.below(6) {
        0 => Span::single(random.byte()),
        1 => between(128 - random.below(5) as u8, 127 + random.below(5) as u8),
        2 => between(random.byte() % 8, random.byte()),
        _ => between(random.byte(), random.byte()),
    }
}

/// A range of at most 24 numbers about an edge.
pub(crate) fn wide(random: &mut Random) -> Wide {
    let edge = EDGES[random.below(5) as usize];
    let lo = edge.saturating_sub(random.below(12) as u16);
    Wide::between(lo, lo.saturating_add(random.below(24) as u16))
}

/// A range of bytes between two.
fn between(a: u8, b: u8) -> Span {
    if a <= b {
        Span::between(a, b)
    } else {
        Span::between(b, a)
    }
}

/// Whether a flag, by its bit in SREG, is set.
fn is_set(flag: u8, flags: Flags) -> bool
    requires { flag < 7 }
{
    flags.value >> flag & 1 == 1
}

/// What SUBI and SBCI of two pairs leave, or CP and CPC compare.
fn subtract(x: u16, y: u16) -> (u16, Flags) {
    let (low, first) = sub8((x % 256) as u8, (y % 256) as u8, false, true);
    let carry = first.value % 2 == 1;
    let zero = first.value / 2 % 2 == 1;
    let (high, flags) = sub8((x / 256) as u8, (y / 256) as u8, carry, zero);
    (u16::from(high) * 256 + u16::from(low), flags)
}

/// The least ranges of a byte x and those of `b` where a flag of x less these is so.
fn beside(flag: u8, set: bool, x: u8, b: Span, found: (Least, Least)) -> (Least, Least)
    requires { flag < 7 }
{
    let mut found = found;
    for y in b.lo()..=b.hi() {
        if is_set(flag, sub8(x, y, false, true).1) == set {
            found = (found.0.with(u16::from(x)), found.1.with(u16::from(y)));
        }
    }
    found
}

/// The least ranges of two bytes of two ranges where a flag of the first less the second is so.
pub(crate) fn bytes(flag: u8, set: bool, a: Span, b: Span) -> (Least, Least)
    requires { flag < 7 }
{
    let mut found = (Least::nothing(), Least::nothing());
    for x in a.lo()..=a.hi() {
        found = beside(flag, set, x, b, found);
    }
    found
}

/// The least ranges of a pair x and those of `b` where a flag of x less these is so.
fn beside_pair(flag: u8, set: bool, x: u16, b: Wide, found: (Least, Least)) -> (Least, Least)
    requires { flag < 7 }
{
    let mut found = found;
    for y in b.lo()..=b.hi() {
        if is_set(flag, subtract(x, y).1) == set {
            found = (found.0.with(x), found.1.with(y));
        }
    }
    found
}

/// The least ranges of two pairs of two ranges where a flag of the first less the second is so.
pub(crate) fn pairs(flag: u8, set: bool, a: Wide, b: Wide) -> (Least, Least)
    requires { flag < 7 }
{
    let mut found = (Least::nothing(), Least::nothing());
    for x in a.lo()..=a.hi() {
        found = beside_pair(flag, set, x, b, found);
    }
    found
}

/// The least range of the bytes of `now` that are one of `old` less k, where a flag of that difference is so.
pub(crate) fn results(flag: u8, set: bool, old: Span, k: u8, now: Span) -> Least
    requires { flag < 7 }
{
    let mut found = Least::nothing();
    for x in old.lo()..=old.hi() {
        let (value, flags) = sub8(x, k, false, true);
        if now.lo() <= value && value <= now.hi() && is_set(flag, flags) == set {
            found = found.with(u16::from(value));
        }
    }
    found
}

/// The same of pairs.
pub(crate) fn pair_results(flag: u8, set: bool, old: Wide, k: u16, now: Wide) -> Least
    requires { flag < 7 }
{
    let mut found = Least::nothing();
    for x in old.lo()..=old.hi() {
        let (value, flags) = subtract(x, k);
        if now.lo() <= value && value <= now.hi() && is_set(flag, flags) == set {
            found = found.with(value);
        }
    }
    found
}

/// The least range of the bytes of a range where flag Z or N of AND with themselves is so.
pub(crate) fn values(flag: u8, set: bool, now: Span) -> Least
    requires { flag < 7 }
{
    let mut found = Least::nothing();
    for x in now.lo()..=now.hi() {
        if is_set(flag, and8(x, x).1) == set {
            found = found.with(u16::from(x));
        }
    }
    found
}

/// The least range of the bytes of a range where a bit is so.
pub(crate) fn bits(bit: u8, set: bool, a: Span) -> Least
    requires { bit < 8 }
{
    let mut found = Least::nothing();
    for x in a.lo()..=a.hi() {
        if (x >> bit & 1 == 1) == set {
            found = found.with(u16::from(x));
        }
    }
    found
}
