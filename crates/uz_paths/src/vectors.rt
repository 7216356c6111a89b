//! Which instances are the handler's first states after a rest: they share a point, the rest's vector.

ghost use Rattle.std.specs.Prelude.{◌≡◌, ◌<◌, ◌≤◌, ◌+◌, ◌^◌, ◌↔◌, ℕ, IsTrue, MatchOption, length, slice_get, Some};
ghost use Rattle.uz_schedule.specs.Limits.{most_lines};
ghost use Rattle.uz_schedule.specs.Lines.{order_of};
ghost use Rattle.uz_schedule.specs.Schedule.{response_clocks};
ghost use Rattle.uz_schedule.specs.declared.states.Rest.{Rest};
ghost use Rattle.uz_paths.specs.Numbers.{IsFirst, IsFirstAfter, IsVectorOf};

use arrayvec::ArrayVec;
use uz_schedule::{
    Instance, Response, Rest, Schedule, Span, equal_instances_are_one, handler_entry,
};
use uz_search::last_clock;

/// The latest clock at which the handler's interrupt is taken.
const LATEST: u16 = 3;

/// Whether two instances are one.
fn is_same(a: &Instance, b: &Instance) -> bool
    ensures { IsTrue result ↔ (a.now ≡ b.now) }
{
    equal_instances_are_one();
    *a == *b
}

/// Whether an instance is the handler's first state on its line, with these ranges of its cells and this OCR1A.
fn is_first(response: Response, cells: &ArrayVec<Span, 16>, top: u16, at: &Instance) -> bool
    ensures { IsTrue result ↔ IsFirst (response_clocks response) cells.now.items top at.now }
{
    let earliest = response.clocks();
    earliest <= at.clock
        && at.clock <= earliest + LATEST
        && is_same(at, &handler_entry(cells, at.line, at.clock, at.level, top))
}

/// Whether an instance is the handler's first state after a rest.
fn is_first_after(response: Response, schedule: &Schedule, rest: &Rest, at: &Instance) -> bool
    requires few { length schedule.now.lines ≤ most_lines }
    requires line { rest.now.line < length schedule.now.lines }
    ensures { IsTrue result ↔ IsFirstAfter (response_clocks response) (order_of schedule.now) rest.now at.now }
{
    let top = last_clock(schedule, rest.line);
    schedule.next(rest.line) == at.line && is_first(response, &rest.cells, top, at)
}

/// The number of the first rest whose vector an instance is.
pub(crate) fn vector_of(
    response: Response,
    schedule: &Schedule,
    rests: &[Rest],
    at: &Instance,
) -> Option<u32>
    requires few { length rests.now < 2 ^ 32 }
    requires lines { length schedule.now.lines ≤ most_lines }
    requires line { (k : ℕ) (rest : Rest) → slice_get rests.now k ≡ Some rest → rest.line < length schedule.now.lines }
    ensures { MatchOption result ((k : ℕ) → IsVectorOf (response_clocks response) (order_of schedule.now) rests.now k at.now
        → ⊥) (λ k. IsVectorOf (response_clocks response) (order_of schedule.now) rests.now k at.now) }
{
    for (k, rest) in rests.iter().enumerate() {
        if is_first_after(response, schedule, rest, at) {
            return Some(k as u32);
        }
    }
    None
}
