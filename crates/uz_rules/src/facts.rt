//! What a point's facts say of bytes at a line and a count, where its instance isn't made.

ghost use Rattle.std.specs.Prelude.{◌≡◌, ◌<◌, length, map};
ghost use Rattle.uz_schedule.specs.Instances.{val_of, cell_span};
ghost use Rattle.uz_transfer.specs.Values.{value_at, span_at};

use uz_schedule::{Fact, Span, Val, span_of, val_of};

/// What facts say of the byte at a place, at a line and a count.
#[tactic(auto, using(crate::proofs::FactPlaces::value_of_fact))]
pub(crate) fn value_by(facts: &[Fact], at: usize, line: u16, count: u8) -> Val
    requires { at < length facts.now }
    ensures { result ≡ value_at (map (val_of line count) facts.now) at }
{
    val_of(&facts[at], line, count)
}

/// The values that the cell at a place may have by its fact, at a line and a count.
#[tactic(auto, using(crate::proofs::FactPlaces::span_of_fact))]
pub(crate) fn cell_by(facts: &[Fact], at: usize, line: u16, count: u8) -> Span
    requires { at < length facts.now }
    ensures { result ≡ span_at (map (cell_span line count) facts.now) at }
{
    span_of(&val_of(&facts[at], line, count))
}
