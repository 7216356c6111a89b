//! What a point's facts say of a byte or a pair, at a line and a count.

ghost use Rattle.std.specs.Prelude.{◌≡◌, ◌+◌, ◌*◌, ◌%◌};
ghost use Rattle.uz_schedule.specs.Ends.{hull as hull_of};
ghost use Rattle.uz_schedule.specs.Instances.{val_of as val_of_fact, span_of_val, pair_by as pair_of_fact};

use crate::facts::{Fact, PairFact, Val};
use crate::ranges::{Span, Wide, hull};

/// Every byte.
fn whole_byte() -> Span
    ensures { result ≡ record { lo = 0; hi = 255 } }
{
    Span::between(0, 255)
}

/// `factor * n + offset`, modulo 256.
fn byte_at(factor: u8, n: u16, offset: u8) -> u8
    ensures { result ≡ (factor * n + offset) % 256 }
{
    ((u32::from(factor) * u32::from(n) + u32::from(offset)) % 256) as u8
}

/// `factor * n + offset`, modulo 65,536.
pub fn word_at(factor: u16, n: u16, offset: u16) -> u16
    ensures { result ≡ (factor * n + offset) % 65536 }
{
    ((u32::from(factor) * u32::from(n) + u32::from(offset)) % 65536) as u16
}

/// What a fact says of a byte at a line and a count.
pub fn val_of(fact: &Fact, line: u16, count: u8) -> Val
    ensures { result ≡ val_of_fact line count fact.now }
{
    match *fact {
        Fact::Any => Val::Range(whole_byte()),
        Fact::Between(span) => Val::Range(span),
        Fact::Line(a, b) => Val::Range(Span::single(byte_at(a, line, b))),
        Fact::Loop(a, b) => Val::Range(Span::single(byte_at(a, u16::from(count), b))),
        Fact::Old(r) => Val::Old(r),
        Fact::OldFlags => Val::OldFlags,
    }
}

/// The values that a byte may have.
pub fn span_of(val: &Val) -> Span
    ensures { result ≡ span_of_val val.now }
{
    match *val {
        Val::Range(span) => span,
        _ => whole_byte(),
    }
}

/// The hull of two bytes of which this is known: the range from the least to the greatest number that they may make.
pub fn hull_of_bytes(low: &Val, high: &Val) -> Wide
    ensures { result ≡ hull_of (span_of_val low.now) (span_of_val high.now) }
{
    hull(span_of(low), span_of(high))
}

/// What a fact says of a pair at a line and a count, where its bytes say `bytes`.
pub fn pair_by(fact: &PairFact, line: u16, count: u8, bytes: Wide) -> Wide
    ensures { result ≡ pair_of_fact line count bytes fact.now }
{
    match *fact {
        PairFact::Any => bytes,
        PairFact::Between(wide) => wide,
        PairFact::Line(a, b) => Wide::single(word_at(a, line, b)),
        PairFact::Loop(a, b) => Wide::single(word_at(a, u16::from(count), b)),
    }
}
