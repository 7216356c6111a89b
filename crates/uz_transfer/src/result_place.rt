//! Where the results of an instruction stand.

ghost use Rattle.std.specs.Prelude.{◌≡◌, ◌<◌, ◌≤◌, ◌+◌, ◌%◌, ◌&&◌, ◌||◌, not, length, ℕ, if◌then◌else◌};
ghost use Rattle.uz_schedule.specs.Limits.{most_lines};
ghost use Rattle.uz_schedule.specs.Schedule.{scanline};
ghost use Rattle.uz_schedule.specs.Lines.{order_of, line_after, clock_after};
ghost use Rattle.uz_transfer.specs.Kinds.{is_main as is_main_kind, is_handler as is_handler_kind};
ghost use Rattle.uz_transfer.specs.Emission.{level_after as level_of_event};
ghost use Rattle.uz_transfer.specs.Step.{ends_line as line_ends, at_exit};

use crate::memory::{is_handler, is_main};
use crate::step::Exit;
use uz_schedule::{EventKind, Instance, Schedule};

/// The level of sync after an event.
fn level_after(emitted: Option<EventKind>, level: u8) -> u8
    ensures { result ≡ level_of_event emitted level }
{
    match emitted {
        Some(EventKind::Sync(new)) => new,
        _ => level,
    }
}

/// Line and clock of a result. Main keeps its own.
fn place(schedule: &Schedule, at: &Instance, clocks: u8) -> (u16, u16)
    requires count { length schedule.now.lines ≤ most_lines }
    requires line { at.now.line < length schedule.now.lines }
    requires clock { at.now.clock < scanline }
    ensures line { result.0 ≡ (if is_main_kind at.now.kind then at.now.line else line_after (order_of schedule.now) at.now.line
        (at.now.clock + clocks)) }
    ensures clock { result.1 ≡ (if is_main_kind at.now.kind then at.now.clock else clock_after (order_of schedule.now) at.now.line
        (at.now.clock + clocks)) }
{
    if is_main(at.kind) {
        (at.line, at.clock)
    } else {
        schedule.advance(at.line, at.clock + clocks as u16)
    }
}

/// The level of sync of a result. Main keeps its own.
fn level(at: &Instance, emitted: Option<EventKind>) -> u8
    ensures { result ≡ (if is_main_kind at.now.kind then at.now.level else level_of_event emitted (at.now.level % 2)) }
{
    if is_main(at.kind) {
        at.level
    } else {
        level_after(emitted, at.level % 2)
    }
}

/// Whether a line ends in an instruction of so many clocks.
fn ends_line(schedule: &Schedule, at: &Instance, clocks: u8) -> bool
    requires clock { at.now.clock < scanline }
    ensures { result ≡ line_ends (order_of schedule.now) at.now.line (at.now.clock + clocks) }
{
    schedule.length(at.line) <= at.clock + clocks as u16
}

/// Whether a match waits for its interrupt at a result: in a handler where a line ended, unless it was cleared.
fn is_pending(schedule: &Schedule, at: &Instance, clears: bool, clocks: u8) -> bool
    requires clock { at.now.clock < scanline }
    ensures { result ≡ (if is_handler_kind at.now.kind then not clears &&
        (at.now.pending || line_ends (order_of schedule.now) at.now.line (at.now.clock + clocks)) else at.now.pending) }
{
    if is_handler(at.kind) {
        !clears && (at.pending || ends_line(schedule, at, clocks))
    } else {
        at.pending
    }
}

/// Puts what is known after an instruction of `at` to one of its exits, in place: `draft` may stand at another exit. `emitted` is what the
/// instruction emits, and `clears` whether it clears the compare match. Takes no memory.
pub fn put_at(
    draft: &mut Instance,
    schedule: &Schedule,
    at: &Instance,
    emitted: Option<EventKind>,
    clears: bool,
    exit: Exit,
)
    requires count { length schedule.now.lines ≤ most_lines }
    requires line { at.now.line < length schedule.now.lines }
    requires clock { at.now.clock < scanline }
    ensures { draft.new ≡ at_exit (order_of schedule.now) at.now draft.old emitted clears exit }
{
    let (line, clock) = place(schedule, at, exit.clocks);
    draft.kind = at.kind;
    draft.pc = exit.pc;
    draft.line = line;
    draft.clock = clock;
    draft.level = level(at, emitted);
    draft.pending = is_pending(schedule, at, clears, exit.clocks);
}
