//! Facts of points that follow each other along a dimension.

ghost use Rattle.std.specs.Prelude.{◌≡◌, ◌+◌, ◌*◌, ◌%◌, ℕ, IfSome, Some};
ghost use Rattle.uz_schedule.specs.Ends.{one_number};
ghost use Rattle.uz_schedule.specs.declared.facts.Fact.TheVariants.{Between};
ghost use Rattle.uz_schedule.specs.declared.facts.Val.TheVariants.{Range};
ghost use Rattle.uz_join.specs.Along.{val_along};

use crate::dimension::Dimension;
use uz_schedule::{Fact, PairFact, Span, Val};

/// The byte that a fact tells, where it tells one.
#[tactic(auto, using(crate::proofs::GrowthLemmas::one_of))]
fn single(fact: &Fact) -> Option<u8>
    ensures told { IfSome result (λ b. fact.now ≡ Between (one_number b)) }
    ensures all { (b : ℕ) → fact.now ≡ Between (one_number b) → result ≡ Some b }
{
    match fact {
        Fact::Between(span) if span.lo() == span.hi() => Some(span.lo()),
        _ => None,
    }
}

/// Whether a fact says the same all along a dimension.
fn is_steady(fact: &Fact, dimension: Dimension) -> bool {
    match dimension {
        Dimension::Lines => !matches!(fact, Fact::Line(_, _)),
        Dimension::Counts => !matches!(fact, Fact::Loop(_, _)),
    }
}

/// Whether each of these facts says the same all along a dimension.
pub(crate) fn are_steady(facts: &[Fact], dimension: Dimension) -> bool {
    for fact in facts {
        if !is_steady(fact, dimension) {
            return false;
        }
    }
    true
}

/// Whether a pair's fact says the same all along a dimension.
pub(crate) fn is_pair_steady(fact: &PairFact, dimension: Dimension) -> bool {
    match dimension {
        Dimension::Lines => !matches!(fact, PairFact::Line(_, _)),
        Dimension::Counts => !matches!(fact, PairFact::Loop(_, _)),
    }
}

/// What is known of a byte.
pub trait KnownByte: PartialEq {
    /// The byte, where one is told.
    fn byte(&self) -> Option<u8>;

    /// A number for what is known, the same for all that tell one byte.
    fn code(&self) -> u64;
}

impl KnownByte for Fact {
    fn byte(&self) -> Option<u8> {
        single(self)
    }

    fn code(&self) -> u64 {
        match self {
            Fact::Any => 1,
            Fact::Between(span) => span.code(),
            Fact::Line(a, b) => 4 + 8 * u64::from(*a) + 2048 * u64::from(*b),
            Fact::Loop(a, b) => 5 + 8 * u64::from(*a) + 2048 * u64::from(*b),
            Fact::Old(r) => 6 + 8 * u64::from(*r),
            Fact::OldFlags => 7,
        }
    }
}

impl KnownByte for Span {
    fn byte(&self) -> Option<u8> {
        if self.lo() == self.hi() {
            Some(self.lo())
        } else {
            None
        }
    }

    fn code(&self) -> u64 {
        if self.lo() == self.hi() {
            2
        } else {
            3 + 8 * u64::from(self.lo()) + 2048 * u64::from(self.hi())
        }
    }
}

impl KnownByte for Val {
    fn byte(&self) -> Option<u8> {
        match self {
            Val::Range(span) => span.byte(),
            Val::Old(_) | Val::OldFlags => None,
        }
    }

    fn code(&self) -> u64 {
        match self {
            Val::Range(span) => span.code(),
            Val::Old(r) => 6 + 8 * u64::from(*r),
            Val::OldFlags => 7,
        }
    }
}

/// Whether two facts are the same but for the byte that they tell.
fn same_but_byte<T: KnownByte>(a: &T, b: &T) -> bool {
    match (a.byte(), b.byte()) {
        (Some(_), Some(_)) => true,
        _ => a == b,
    }
}

/// Whether two lists of facts are the same but for the bytes that they tell.
pub(crate) fn same_but_bytes<T: KnownByte>(a: &[T], b: &[T]) -> bool {
    if a.len() != b.len() {
        return false;
    }
    for i in 0..a.len() {
        if !same_but_byte(&a[i], &b[i]) {
            return false;
        }
    }
    true
}

/// By how much the byte of a fact grows to that of another, modulo 256: 0 where one of them tells none.
fn growth<T: KnownByte>(from: &T, to: &T) -> u8 {
    match (from.byte(), to.byte()) {
        (Some(from), Some(to)) => to.wrapping_sub(from),
        _ => 0,
    }
}

/// Writes by how much each byte grows from some facts to others.
pub(crate) fn put_growths<T: KnownByte>(growths: &mut [u8], from: &[T], to: &[T]) {
    for i in 0..growths.len() {
        growths[i] = match (from.get(i), to.get(i)) {
            (Some(from), Some(to)) => growth(from, to),
            _ => 0,
        };
    }
}

/// Whether a fact follows another with this growth of its byte.
fn follows<T: KnownByte>(by: u8, last: &T, new: &T) -> bool {
    match (last.byte(), new.byte()) {
        (Some(from), Some(to)) => to.wrapping_sub(from) == by,
        _ => by == 0 && last == new,
    }
}

/// Whether facts follow others with these growths of their bytes.
pub(crate) fn follow_by<T: KnownByte>(growths: &[u8], last: &[T], new: &[T]) -> bool {
    if last.len() != new.len() {
        return false;
    }
    for i in 0..new.len() {
        let by = match growths.get(i) {
            Some(by) => *by,
            None => 0,
        };
        if !follows(by, &last[i], &new[i]) {
            return false;
        }
    }
    true
}

/// How many bytes differ.
pub(crate) fn differences<T: KnownByte>(a: &[T], b: &[T]) -> u32 {
    let mut count: u32 = 0;
    for i in 0..a.len() {
        if let Some(other) = b.get(i) {
            if growth(&a[i], other) != 0 {
                count = count.saturating_add(1);
            }
        }
    }
    count
}

/// What `factor * n` has to be raised by to make a byte, modulo 256.
#[tactic(auto, using(crate::proofs::GrowthLemmas::offset_makes))]
fn offset_for(factor: u8, n: u16, byte: u8) -> u8
    ensures { (factor * n + result) % 256 ≡ byte }
{
    let before = u32::from(factor) * u32::from(n) % 256;
    ((256 + u32::from(byte) - before) % 256) as u8
}

/// By how much a byte grows to another, modulo 256.
#[tactic(auto, using(crate::proofs::GrowthLemmas::step_makes))]
fn step(from: u8, to: u8) -> u8
    ensures { (from + result) % 256 ≡ to }
{
    ((256 + u32::from(to) - u32::from(from)) % 256) as u8
}

/// The fact of a byte that is this one at a line or count, and grows by `factor` to the next.
#[tactic(auto, using(crate::proofs::GrowthLemmas::next_makes))]
fn moving_fact(dimension: Dimension, factor: u8, n: u16, byte: u8) -> Fact
    ensures here { (m : ℕ) → val_along dimension n m result ≡ Range (one_number byte) }
    ensures next { (m : ℕ) → val_along dimension (n + 1) m result ≡ Range (one_number ((byte + factor) % 256)) }
{
    let offset = offset_for(factor, n, byte);
    match dimension {
        Dimension::Lines => Fact::Line(factor, offset),
        Dimension::Counts => Fact::Loop(factor, offset),
    }
}

/// What is known all along a box that begins at the line or count `start`, where `first` is known there and `second` at the one after it.
pub fn fact_along(dimension: Dimension, first: &Fact, second: &Fact, start: u16) -> Fact
    ensures first { (m : ℕ) → val_along dimension start m result ≡ val_along dimension start m first.now }
    ensures second { (a b m : ℕ) → first.now ≡ Between (one_number a) → second.now ≡ Between (one_number b) →
        val_along dimension (start + 1) m result ≡ Range (one_number b) }
{
    match (single(first), single(second)) {
        (Some(from), Some(to)) if from != to => moving_fact(dimension, step(from, to), start, from),
        _ => *first,
    }
}
