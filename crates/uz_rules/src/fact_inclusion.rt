//! When an instance lies in what a point's facts say at the instance's line and a count. The point's instance isn't made: each
//! item is compared with its fact, and the first that doesn't lie in it is the last that is looked at.

ghost use Rattle.std.specs.Prelude.{◌≡◌, ◌<◌, length, map, true};
ghost use Rattle.uz_schedule.specs.Ends.{whole_byte};
ghost use Rattle.uz_schedule.specs.Instances.{val_of, cell_span};
ghost use Rattle.uz_transfer.specs.Values.{value_at, span_at};
ghost use Rattle.uz_transfer.specs.Refusals.{range_inside};
ghost use Rattle.uz_rules.specs.Inside.{value_inside, all_below, registers_inside, slots_inside, cells_inside};
ghost use Rattle.uz_rules.specs.FactInclusion.{facts_inside};

use crate::facts::cell_by;
use crate::inclusion::{compared_inside, flags_inside, span_inside, value_inside};
use crate::pair_inclusion::pairs_in_facts;
use uz_schedule::{Fact, Instance, Point, Span, Val, val_of};

/// Whether a range is one of bytes, as each is.
fn is_of_bytes(range: &Span) -> bool
    ensures { result ≡ range_inside range.now whole_byte }
{
    range.hi() <= 255
}

/// Whether what is known of a byte lies in what a fact says of it. Two ranges, or two interrupted registers, are compared as they
/// stand, which most are, and a range lies in any byte; else the value is made that the fact says at this line and count.
fn lies_in_fact(val: &Val, fact: &Fact, line: u16, count: u8) -> bool
    ensures { result ≡ value_inside val.now (val_of line count fact.now) }
{
    match (val, fact) {
        (Val::Range(range), Fact::Between(span)) => span_inside(range, span),
        (Val::Old(r), Fact::Old(s)) => r == s,
        (Val::Range(range), Fact::Any) => is_of_bytes(range),
        _ => value_inside(val, &val_of(fact, line, count)),
    }
}

/// Whether what is known of a byte lies in what the fact at a place says.
#[tactic(auto, using(crate::proofs::FactPlaces::value_of_fact))]
fn lies_in_fact_at(val: &Val, facts: &[Fact], at: usize, line: u16, count: u8) -> bool
    requires { at < length facts.now }
    ensures { result ≡ value_inside val.now (value_at (map (val_of line count) facts.now) at) }
{
    lies_in_fact(val, &facts[at], line, count)
}

/// Whether what is known of bytes lies in what as many facts say.
#[tactic(auto, using(crate::proofs::Below::below_none, crate::proofs::Below::below_passed))]
fn values_in_facts(vals: &[Val], facts: &[Fact], line: u16, count: u8) -> bool
    requires { length vals.now ≡ length facts.now }
    ensures { result ≡ all_below (length vals.now)
        (λ i. value_inside (value_at vals.now i) (value_at (map (val_of line count) facts.now) i)) }
{
    for i in 0..vals.len() {
        if !lies_in_fact_at(&vals[i], facts, i, line, count) {
            return false;
        }
    }
    true
}

/// Whether the registers lie in what the facts say of them.
fn registers_in_facts(vals: &[Val; 32], facts: &[Fact; 32], line: u16, count: u8) -> bool
    ensures { result ≡ registers_inside vals.now (map (val_of line count) facts.now) }
{
    values_in_facts(vals, facts, line, count)
}

/// Whether the bytes of a stack lie in what the facts say, which are as many.
fn slots_in_facts(vals: &[Val], facts: &[Fact], line: u16, count: u8) -> bool
    ensures { result ≡ slots_inside vals.now (map (val_of line count) facts.now) }
{
    vals.len() == facts.len() && values_in_facts(vals, facts, line, count)
}

/// Whether ranges of cells lie in what as many facts say.
#[tactic(auto, using(crate::proofs::Below::below_none, crate::proofs::Below::below_passed))]
fn spans_in_facts(spans: &[Span], facts: &[Fact], line: u16, count: u8) -> bool
    requires { length spans.now ≡ length facts.now }
    ensures { result ≡ all_below (length spans.now)
        (λ j. range_inside (span_at spans.now j) (span_at (map (cell_span line count) facts.now) j)) }
{
    for j in 0..spans.len() {
        if !span_inside(&spans[j], &cell_by(facts, j, line, count)) {
            return false;
        }
    }
    true
}

/// Whether ranges of cells lie in what the facts say, which are as many.
fn cells_in_facts(spans: &[Span], facts: &[Fact], line: u16, count: u8) -> bool
    ensures { result ≡ cells_inside spans.now (map (cell_span line count) facts.now) }
{
    spans.len() == facts.len() && spans_in_facts(spans, facts, line, count)
}

/// Whether all that is known in an instance lies in what a point's facts say at the instance's line and this count.
#[tactic(auto, unfolding(crate::specs::FactInclusion::facts_inside))]
pub(crate) fn facts_inside(at: &Instance, point: &Point, count: u8) -> bool
    ensures { result ≡ facts_inside at.now point.now count }
{
    slots_in_facts(at.stack.as_slice(), point.stack.as_slice(), at.line, count)
        && (cells_in_facts(at.cells.as_slice(), point.cells.as_slice(), at.line, count)
            && (flags_inside(&at.flags, &point.flags)
                && (compared_inside(&at.compared, &point.compared)
                    && (pairs_in_facts(at, point, count)
                        && registers_in_facts(&at.regs, &point.regs, at.line, count)))))
}
