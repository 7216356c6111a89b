//! Runs of a console from one turn to another.

ghost use Rattle.std.specs.Prelude.{ℕ, ◌≡◌, ◌≤◌, ◌*◌, MatchBool};
ghost use Rattle.uz_console.specs.Consoles.{clock_of};
ghost use Rattle.uz_core.specs.PadLine.{PadHistory};
ghost use Rattle.uz_core.specs.Turn.{State};
ghost use Rattle.uz_debug.specs.Sessions.{IsBreak};
ghost use Rattle.uz_debug.specs.Timelines.{IsAt, IsHalt, stops_of};

use crate::breakpoints::Breakpoints;
use uz_console::Console;

/// How a run ended.
#[derive(Clone, Copy)]
pub(crate) enum Halt {
    /// At its goal, and at no breakpoint.
    Goal,
    /// At a breakpoint behind its beginning.
    Breakpoint,
    /// At a turn before the goal from which no turn goes on.
    Stuck,
}

/// Whether the console is at a breakpoint that is heeded.
fn stops_at(stops: Option<&Breakpoints>, console: &Console) -> bool
    ensures { (start : State PadHistory) (turn : ℕ) → IsAt start turn console.now
        → MatchBool result (IsBreak start (stops_of stops.entry) turn) (IsBreak start (stops_of stops.entry) turn → ⊥) }
{
    match stops {
        Some(breakpoints) => breakpoints.contains(console.pc()),
        None => false,
    }
}

/// Makes turns up to a goal, a turn number, or to the first breakpoint behind the beginning. Answers the turn that it
/// came to, and how it ended. Nothing is allocated.
pub(crate) fn run_console(
    console: &mut Console,
    from: u32,
    goal: u32,
    stops: Option<&Breakpoints>,
) -> (u32, Halt)
    requires clock { clock_of console.old ≤ 5 * from }
    requires onward { from ≤ goal }
    requires limit { goal ≤ 100000000 }
    ensures run { (start : State PadHistory) → IsAt start from console.old
        → IsAt start result.0 console.new × IsHalt start (stops_of stops.entry) from goal result.0 result.1 }
    ensures goal { result.1 ≡ Halt.Goal → result.0 ≡ goal }
    ensures clock { clock_of console.new ≤ 5 * result.0 }
    ensures within { result.0 ≤ goal }
    ensures onward { from ≤ result.0 }
{
    let mut turn = from;
    while turn < goal {
        if console.pass_turn().is_some() {
            return (turn, Halt::Stuck);
        }
        turn += 1;
        if stops_at(stops, console) {
            return (turn, Halt::Breakpoint);
        }
    }
    (turn, Halt::Goal)
}
