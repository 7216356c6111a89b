//! The rests that noted returns make, and the handler's first states after them.

ghost use Rattle.std.specs.Prelude.{◌≡◌, ◌<◌, ◌≤◌, ◌^◌, IfOk, length};
ghost use Rattle.uz_schedule.specs.Instances.{level_or_zero};
ghost use Rattle.uz_schedule.specs.Limits.{ScheduleFits};
ghost use Rattle.uz_paths.specs.Linked.{first_after as first_state_after};
ghost use Rattle.uz_paths.specs.Rests.{rests_of as rests_of_returns};

use arrayvec::ArrayVec;
use std::alloc::{AllocError, Global};
use uz_schedule::{Instance, Rest, Schedule, Span, handler_entry};
use uz_search::{Program, Return, last_clock};

/// A copy of the ranges of cells.
fn copied_cells(cells: &ArrayVec<Span, 16>) -> ArrayVec<Span, 16>
    ensures { result.items ≡ cells.now.items }
{
    let mut copy = ArrayVec::new();
    for range in cells.as_slice() {
        copy.push(*range);
    }
    copy
}

/// The rest of a line's return.
fn rest_of(line: u16, vector: u32, noted: &Return) -> Rest
    ensures { result ≡ record { line = line; clock = noted.now.clock; vector = vector; cells = record { items = noted.now.cells.items } } }
{
    Rest {
        line,
        clock: noted.clock,
        vector,
        cells: copied_cells(&noted.cells),
    }
}

/// A rest for each line with a return, in their order.
pub(crate) fn rests_of(alloc: Global, returns: &[Option<Return>]) -> Result<Vec<Rest>, AllocError>
    requires { length returns.now < 2 ^ 16 }
    ensures { IfOk result (λ rests. rests.items ≡ rests_of_returns returns.now) }
{
    let mut rests = Vec::new(alloc);
    for (line, noted) in returns.iter().enumerate() {
        if let Some(noted) = noted {
            let vector = rests.len() as u32;
            rests.push(rest_of(line as u16, vector, noted))?;
        }
    }
    Ok(rests)
}

/// The level of sync at a clock of a line, 0 where the schedule has none.
fn level_at(schedule: &Schedule, line: u16, clock: u16) -> u8
    requires { ScheduleFits schedule.now }
    ensures { result ≡ level_or_zero schedule.now line clock }
{
    match schedule.level_at_clock(line, clock) {
        Some(level) => level,
        None => 0,
    }
}

/// The handler's first state after a rest, where its interrupt is taken at clock `c` of the next line, with the schedule's level there.
pub(crate) fn first_after(program: &Program, schedule: &Schedule, rest: &Rest, c: u16) -> Instance
    requires schedule { ScheduleFits schedule.now }
    requires line { rest.now.line < length schedule.now.lines }
    requires clock { c ≤ 3 }
    ensures { result ≡ first_state_after program.now schedule.now rest.now c }
{
    let line = schedule.next(rest.line);
    let clock = c + program.head.irq.clocks();
    handler_entry(
        &rest.cells,
        line,
        clock,
        level_at(schedule, line, clock),
        last_clock(schedule, rest.line),
    )
}
