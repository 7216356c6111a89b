//! The byte or the pair by which a point's counts are told apart. Its fact has another value at each count of a period, so that all
//! of these but one are dismissed by one test each.

ghost use Rattle.std.specs.Prelude.{◌≡◌, true, length, map};
ghost use Rattle.uz_schedule.specs.Instances.{val_of, cell_span};
ghost use Rattle.uz_transfer.specs.Values.{value_at, span_at};
ghost use Rattle.uz_transfer.specs.Refusals.{range_inside};
ghost use Rattle.uz_rules.specs.Inside.{value_inside, all_below};
ghost use Rattle.uz_rules.specs.FactInclusion.{facts_inside};

use crate::facts::{cell_by, value_by};
use crate::inclusion::{span_inside, value_inside};
use crate::pair_inclusion::pairs_in_facts;
use crate::periods::Periods;
use uz_schedule::{Fact, Instance, Point, Span, Val};

/// The place of a fact that depends on the count as far as one does.
#[derive(Clone, Copy)]
pub(crate) enum CountKey {
    /// A register, 0 to 31.
    Register(usize),
    /// A byte of the stack, from the bottom.
    Slot(usize),
    /// A cell.
    Cell(usize),
    /// One of X, Y and Z.
    Pairs,
    /// No fact depends on the count.
    Nothing,
}

/// The place of the fact with the longest period, of those that a byte has; of pairs where theirs are longer than any byte's. The
/// choice is one of speed: any place will do.
pub(crate) fn key_of(periods: &Periods) -> CountKey {
    let most = periods.exponent.min(8);
    if most == 0 {
        CountKey::Nothing
    } else if periods.cells.exponent == most {
        CountKey::Cell(periods.cells.place)
    } else if periods.registers.exponent == most {
        CountKey::Register(periods.registers.place)
    } else if periods.stack.exponent == most {
        CountKey::Slot(periods.stack.place)
    } else {
        CountKey::Pairs
    }
}

/// Whether the byte at a place lies in what its fact says; true where there is none.
fn byte_fits(vals: &[Val], facts: &[Fact], place: usize, line: u16, count: u8) -> bool
    ensures { all_below (length vals.now)
        (λ i. value_inside (value_at vals.now i) (value_at (map (val_of line count) facts.now) i)) ≡ true → result ≡ true }
{
    if place < vals.len() && place < facts.len() {
        value_inside(&vals[place], &value_by(facts, place, line, count))
    } else {
        true
    }
}

/// Whether the cell at a place lies in what its fact says; true where there is none.
fn cell_fits(spans: &[Span], facts: &[Fact], place: usize, line: u16, count: u8) -> bool
    ensures { all_below (length spans.now)
        (λ j. range_inside (span_at spans.now j) (span_at (map (cell_span line count) facts.now) j)) ≡ true → result ≡ true }
{
    if place < spans.len() && place < facts.len() {
        span_inside(&spans[place], &cell_by(facts, place, line, count))
    } else {
        true
    }
}

/// Whether an instance may lie in what a point's facts say at a count, as far as the key's place tells.
#[tactic(auto, using(crate::proofs::CountKeys::pairs_tell))]
pub(crate) fn may_lie(key: &CountKey, at: &Instance, point: &Point, count: u8) -> bool
    ensures { facts_inside at.now point.now count ≡ true → result ≡ true }
{
    match *key {
        CountKey::Register(place) => byte_fits(&at.regs, &point.regs, place, at.line, count),
        CountKey::Slot(place) => byte_fits(
            at.stack.as_slice(),
            point.stack.as_slice(),
            place,
            at.line,
            count,
        ),
        CountKey::Cell(place) => cell_fits(
            at.cells.as_slice(),
            point.cells.as_slice(),
            place,
            at.line,
            count,
        ),
        CountKey::Pairs => pairs_in_facts(at, point, count),
        CountKey::Nothing => true,
    }
}
