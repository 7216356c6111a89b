//! What an instance passes on its way to its results, and what it shows there.

ghost use Rattle.std.specs.Prelude.{◌≡◌, ◌<◌, ◌≤◌, ◌-◌, nat_lt, if◌then◌else◌};
ghost use Rattle.uz_schedule.specs.Limits.{most_lines};
ghost use Rattle.uz_search.specs.Following.{clock_on as clock_of, line_on as line_of, place_on as place_of, line_start as start_of_line};
ghost use Rattle.uz_search.specs.Following.{clocks_between as between, most_clocks as most_of, lines_of, shown_at};

use crate::program::Program;
use uz_schedule::{EventKind, Instance, SCANLINE};

/// The first position of a line. Each line has as many as the longest one has clocks; that of the line past the last one is the number of
/// all.
pub(crate) fn line_start(line: u16) -> u32
    ensures value { result ≡ start_of_line line }
    ensures few { result < 119300000 }
{
    u32::from(SCANLINE) * u32::from(line)
}

/// The clocks from an instance to its result.
pub(crate) fn clocks_between(program: &Program, at: &Instance, to: &Instance) -> u32
    ensures clocks { result ≡ between program.now at.now to.now }
    ensures few { result < 140000 }
{
    if at.clock < to.clock {
        u32::from(to.clock - at.clock)
    } else {
        let length = program.schedule.length(at.line);
        u32::from(length).saturating_sub(u32::from(at.clock)) + u32::from(to.clock)
    }
}

/// The clocks that the longest of these results takes.
pub(crate) fn most_clocks(program: &Program, at: &Instance, out: &[Instance]) -> u32
    ensures clocks { result ≡ most_of program.now at.now out.now }
    ensures few { result < 140000 }
{
    let mut most = 0;
    'each: for to in out {
        most = most.max(clocks_between(program, at, to));
    }
    most
}

/// What is shown that many clocks after the start.
pub(crate) fn shown_after(emit: Option<(u8, EventKind)>, clocks: u32) -> Option<EventKind>
    ensures { result ≡ shown_at emit clocks }
{
    match emit {
        Some((when, event)) if u32::from(when) == clocks => Some(event),
        _ => None,
    }
}

/// The line on which an instance is some clocks on.
fn line_on(program: &Program, at: &Instance, clocks: u32) -> u16
    requires lines { lines_of program.now ≤ most_lines }
    requires line { at.now.line < lines_of program.now }
    requires clocks { clocks ≤ 140000 }
    ensures { result ≡ line_of program.now at.now clocks }
{
    let length = program.schedule.length(at.line);
    if u32::from(at.clock) + clocks < u32::from(length) {
        at.line
    } else {
        program.schedule.next(at.line)
    }
}

/// The clock of that line.
pub(crate) fn clock_on(program: &Program, at: &Instance, clocks: u32) -> u32
    requires { clocks ≤ 140000 }
    ensures value { result ≡ clock_of program.now at.now clocks }
    ensures few { result < 210000 }
{
    let length = u32::from(program.schedule.length(at.line));
    let clock = u32::from(at.clock) + clocks;
    if clock < length {
        clock
    } else {
        clock - length
    }
}

/// The position that an instance passes some clocks on.
pub(crate) fn place_on(program: &Program, at: &Instance, clocks: u32) -> u32
    requires lines { lines_of program.now ≤ most_lines }
    requires line { at.now.line < lines_of program.now }
    requires clocks { clocks ≤ 140000 }
    ensures { result ≡ place_of program.now at.now clocks }
{
    line_start(line_on(program, at, clocks)) + clock_on(program, at, clocks)
}
