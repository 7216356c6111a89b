//! When the pairs X, Y and Z of an instance lie in what a point's facts say of them at the instance's line and a count.

ghost use Rattle.std.specs.Prelude.{◌≡◌, ◌<◌, ◌+◌, true, ℕ, map};
ghost use Rattle.uz_schedule.specs.Ends.{whole_byte, whole_pair, hull};
ghost use Rattle.uz_schedule.specs.Instances.{val_of, cell_span, hull_at, pair_of, pairs_of};
ghost use Rattle.uz_transfer.specs.Values.{pair_at};
ghost use Rattle.uz_transfer.specs.Refusals.{range_inside};
ghost use Rattle.uz_rules.specs.Inside.{pairs_inside};

use crate::inclusion::wide_inside;
use uz_schedule::{Fact, Instance, PairFact, Point, Wide, hull_of_bytes, pair_by, val_of};

/// Whether a fact says nothing of a byte but whose it is, so that it may be any.
fn is_any_byte(fact: &Fact) -> bool
    ensures { result ≡ true → (l c : ℕ) → cell_span l c fact.now ≡ whole_byte }
{
    matches!(fact, Fact::Any | Fact::Old(_) | Fact::OldFlags)
}

/// Whether a range is one of 16 bits, as each is.
fn is_of_pairs(range: &Wide) -> bool
    ensures { result ≡ range_inside range.now whole_pair }
{
    range.hi() <= 65535
}

/// Whether the range of a pair lies in what facts say of its bytes, at a line and a count. Where both may be any, so may the pair.
fn lies_in_bytes(range: &Wide, low: &Fact, high: &Fact, line: u16, count: u8) -> bool
    ensures { result ≡ range_inside range.now (hull (cell_span line count low.now) (cell_span line count high.now)) }
{
    if is_any_byte(low) && is_any_byte(high) {
        is_of_pairs(range)
    } else {
        wide_inside(
            range,
            &hull_of_bytes(&val_of(low, line, count), &val_of(high, line, count)),
        )
    }
}

/// Whether the range of a pair, whose low register is `low`, lies in what facts say of the registers.
#[tactic(auto, using(crate::proofs::FactPlaces::value_of_fact))]
fn lies_in_registers(range: &Wide, regs: &[Fact; 32], low: usize, line: u16, count: u8) -> bool
    requires { low < 31 }
    ensures { result ≡ range_inside range.now (hull_at (map (val_of line count) regs.now) low) }
{
    lies_in_bytes(range, &regs[low], &regs[low + 1], line, count)
}

/// Whether the range of a pair, whose low register is `low`, lies in what its fact says, or its bytes where the fact says nothing.
fn lies_in_pair_fact(
    range: &Wide,
    fact: &PairFact,
    regs: &[Fact; 32],
    low: usize,
    line: u16,
    count: u8,
) -> bool
    requires { low < 31 }
    ensures { result ≡ range_inside range.now (pair_of line count (map (val_of line count) regs.now) low fact.now) }
{
    match fact {
        PairFact::Any => lies_in_registers(range, regs, low, line, count),
        PairFact::Between(span) => wide_inside(range, span),
        PairFact::Line(_, _) | PairFact::Loop(_, _) => wide_inside(
            range,
            &pair_by(fact, line, count, Wide::between(0, 65535)),
        ),
    }
}

/// What is known of a pair, 0 to 2.
fn pair(pairs: &[Wide; 3], k: usize) -> Wide
    requires { k < 3 }
    ensures { result ≡ pair_at pairs.now k }
{
    pairs[k]
}

/// Whether the pairs X, Y and Z lie in what the point's facts say of them.
#[tactic(auto, using(crate::proofs::Below::below_three))]
pub(crate) fn pairs_in_facts(at: &Instance, point: &Point, count: u8) -> bool
    ensures { result ≡ pairs_inside at.now.pairs
        (pairs_of at.now.line count (map (val_of at.now.line count) point.now.regs) point.now.pairs) }
{
    let facts = &point.pairs;
    let regs = &point.regs;
    lies_in_pair_fact(&pair(&at.pairs, 0), &facts[0], regs, 26, at.line, count)
        && (lies_in_pair_fact(&pair(&at.pairs, 1), &facts[1], regs, 28, at.line, count)
            && lies_in_pair_fact(&pair(&at.pairs, 2), &facts[2], regs, 30, at.line, count))
}
