//! After how many counts what a point's facts say comes again. A fact by count says `factor * count + offset`, modulo 256 of a byte
//! and modulo 65,536 of a pair, so that this number, the period, is a power of two. Its exponent is what is kept.

ghost use Rattle.std.specs.Prelude.{◌≡◌, ◌≤◌, ◌+◌, ◌-◌, ◌^◌, All, min};
ghost use Rattle.uz_rules.specs.Periods.{count_factor, pair_count_factor, ByteRepeats, PairRepeats, PairsRepeat, PointRepeats};

use uz_schedule::{Fact, PairFact, Point};

/// The first fact of a list that has the longest period.
#[derive(Clone, Copy)]
pub(crate) struct Longest {
    /// Its place.
    pub(crate) place: usize,
    /// The exponent of its period, 0 to 8.
    pub(crate) exponent: u32,
}

/// The longest periods of a point's facts.
#[derive(Clone, Copy)]
pub(crate) struct Periods {
    /// Of the registers.
    pub(crate) registers: Longest,
    /// Of the bytes of the stack.
    pub(crate) stack: Longest,
    /// Of the cells.
    pub(crate) cells: Longest,
    /// The exponent of the longest period of all, pairs included, 0 to 16: that of the point.
    pub(crate) exponent: u32,
}

/// The factor of the count in a fact of a byte, 0 where it says the same at each count.
fn count_factor(fact: &Fact) -> u8
    ensures { result ≡ count_factor fact.now }
{
    match *fact {
        Fact::Loop(factor, _) => factor,
        _ => 0,
    }
}

/// The factor of the count in a fact of a pair, 0 where it says the same at each count.
fn pair_count_factor(fact: &PairFact) -> u16
    ensures { result ≡ pair_count_factor fact.now }
{
    match *fact {
        PairFact::Loop(factor, _) => factor,
        _ => 0,
    }
}

/// The exponent of the period of a fact of a byte: of the least power of two that makes its factor a multiple of 256.
#[tactic(auto, using(crate::proofs::PeriodLaws::byte_repeats))]
fn byte_exponent(fact: &Fact) -> u32
    ensures { ByteRepeats (2 ^ result) fact.now }
{
    8 - count_factor(fact).trailing_zeros()
}

/// The exponent of the period of a fact of a pair: of the least power of two that makes its factor a multiple of 65,536.
#[tactic(auto, using(crate::proofs::PeriodLaws::pair_repeats))]
fn pair_exponent(fact: &PairFact) -> u32
    ensures { PairRepeats (2 ^ result) fact.now }
{
    16 - pair_count_factor(fact).trailing_zeros()
}

/// The greater one of two numbers.
fn greater(a: u32, b: u32) -> u32
    ensures first { a ≤ result }
    ensures second { b ≤ result }
{
    if a < b { b } else { a }
}

/// The longest so far, or a further one that is longer.
fn longer(so_far: Longest, place: usize, exponent: u32) -> Longest
    ensures so_far { so_far.exponent ≤ result.exponent }
    ensures further { exponent ≤ result.exponent }
{
    if so_far.exponent < exponent {
        Longest { place, exponent }
    } else {
        so_far
    }
}

/// The first fact that has the longest period; place 0 where no fact is by count.
fn longest_of(facts: &[Fact]) -> Longest
    ensures { All (ByteRepeats (2 ^ result.exponent)) facts.now }
{
    let mut longest = Longest {
        place: 0,
        exponent: 0,
    };
    for place in 0..facts.len() {
        longest = longer(longest, place, byte_exponent(&facts[place]));
    }
    longest
}

/// The exponent of the longest period of the facts of pairs.
fn longest_of_pairs(facts: &[PairFact; 3]) -> u32
    ensures { PairsRepeat (2 ^ result) facts.now }
{
    let of_x = pair_exponent(&facts[0]);
    let of_y = pair_exponent(&facts[1]);
    let of_z = pair_exponent(&facts[2]);
    greater(of_x, greater(of_y, of_z))
}

/// The longest periods of a point's facts.
pub(crate) fn periods_of(point: &Point) -> Periods
    ensures { PointRepeats (2 ^ result.exponent) point.now }
{
    let registers = longest_of(&point.regs);
    let stack = longest_of(point.stack.as_slice());
    let cells = longest_of(point.cells.as_slice());
    let pairs = longest_of_pairs(&point.pairs);
    let bytes = greater(registers.exponent, greater(stack.exponent, cells.exponent));
    Periods {
        registers,
        stack,
        cells,
        exponent: greater(bytes, pairs),
    }
}

/// The last count of a first period, by the period's exponent, where there are so many counts; else the last count of all.
pub(crate) fn last_of_period(first: u8, last: u8, exponent: u32) -> u8
    ensures { result ≡ min last (first + (2 ^ exponent - 1)) }
{
    if exponent < 8 {
        last.min(first.saturating_add((1 << exponent) - 1))
    } else {
        last
    }
}
