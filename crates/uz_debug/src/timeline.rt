//! A console at a turn, with save states of other turns to go back to.

ghost use Rattle.std.specs.Prelude.{◌≡◌, ◌≤◌, ◌<◌, ◌*◌, ℕ, All, IfOk, length, slice_index_or};
ghost use Rattle.uz_schedule.specs.Schedule.{response_clocks};
ghost use Rattle.uz_console.specs.Consoles.{clock_of};
ghost use Rattle.uz_console.specs.SaveStates.{clock_saved};
ghost use Rattle.uz_core.specs.PadLine.{PadHistory};
ghost use Rattle.uz_core.specs.Turn.{State, state_at_reset, history_at_reset};
ghost use Rattle.uz_pads.specs.Pads.{pairs_of};

use crate::breakpoints::Breakpoints;
use crate::checkpoints::{add, is_kept, latest};
use crate::run::{Halt, run_console};
use std::alloc::{AllocError, Global};
use uz_console::{Console, Response, SaveState};
use uz_hex::Image;
use uz_pads::Pad;

/// So many turns lie between two save states of the lowest rank: as many as take about 0.1 milliseconds.
const SPACING: u32 = 4096;

/// A checkpoint: the save state of a turn.
#[derive(Drop)]
pub(crate) struct Checkpoint {
    turn: u32,
    /// How long it stays: only so many of a rank do.
    rank: u32,
    save: SaveState,
    ghost in_limit: { turn ≤ 100000000 },
    ghost timed: { clock_saved save ≤ 5 * turn },
}

impl Checkpoint {
    ghost use Rattle.uz_debug.specs.Checkpoints.{turn_in};

    pub(crate) fn rank(&self) -> u32 {
        self.rank
    }

    pub(crate) fn turn(&self) -> u32
        ensures { result ≡ turn_in self.now }
    {
        self.turn
    }
}

/// The console at a turn, the save state of the reset, and those of some turns.
///
/// While the console runs, one is kept every 4,096 turns; its rank is how often 2 divides its number. The latest four of
/// each rank stay, so the turns that are kept lie the closer the nearer they are: to go back by n turns takes a run of at most
/// about n / 4 turns, or of 4,095. A rank is at most 14, so there are at most 60 of these.
#[derive(Drop)]
pub(crate) struct Timeline {
    console: Console,
    turn: u32,
    first: SaveState,
    saves: Vec<Checkpoint>,
    ghost in_limit: { turn ≤ 100000000 },
    ghost timed: { clock_of console ≤ 5 * turn },
    ghost begun: { clock_saved first ≡ 0 },
}

impl Timeline {
    ghost use Rattle.uz_debug.specs.Checkpoints.{IsTimeline, HasState, turn_in, turn_of, saves_of, console_of};
    ghost use Rattle.uz_debug.specs.declared.timeline.Checkpoint.{Checkpoint};
    ghost use Rattle.uz_debug.specs.Timelines.{IsHalt, IsAt, stops_of};
    ghost use Rattle.uz_debug.specs.Sessions.{IsAfter};

    /// A console at reset.
    pub(crate) fn new(
        alloc: Global,
        image: Image,
        pads: Vec<Pad>,
        irq: Response,
    ) -> Result<Timeline, AllocError>
        ensures begins { IfOk result (IsTimeline (state_at_reset image (history_at_reset (pairs_of pads.items)) (response_clocks irq))) }
        ensures turn { IfOk result (λ timeline. turn_of timeline ≡ 0) }
    {
        let console = Console::reset(alloc, image, pads, irq)?;
        let first = console.save(alloc)?;
        Ok(Timeline {
            console,
            turn: 0,
            first,
            saves: Vec::new(alloc),
        })
    }

    pub(crate) fn turn(&self) -> u32
        ensures turn { result ≡ turn_of self.now }
        ensures limit { result ≤ 100000000 }
    {
        self.turn
    }

    pub(crate) fn console(&self) -> &Console
        ensures console { result.now ≡ console_of self.now }
        ensures stands { (start : State PadHistory) → IsTimeline start self.now → IsAt start (turn_of self.now) result.now }
    {
        &self.console
    }

    /// Keeps the state of this turn in a rank of its own for a slot, where memory is there for it.
    pub(crate) fn mark(&mut self, alloc: Global, slot: u8)
        ensures keeps { (start : State PadHistory) → IsTimeline start self.old → IsTimeline start self.new }
        ensures turn { turn_of self.new ≡ turn_of self.old }
    {
        self.keep(alloc, 32 + u32::from(slot));
    }

    /// Keeps the state of this turn, where memory is there for it.
    fn keep(&mut self, alloc: Global, rank: u32)
        ensures keeps { (start : State PadHistory) → IsTimeline start self.old → IsTimeline start self.new }
        ensures turn { turn_of self.new ≡ turn_of self.old }
    {
        if let Ok(save) = self.console.save(alloc) {
            let kept = Checkpoint {
                turn: self.turn,
                rank,
                save,
            };
            add(&mut self.saves, kept);
        }
    }

    /// Makes turns up to a goal, or to the first breakpoint behind this turn, or to a turn from which none goes on.
    fn run_to(&mut self, goal: u32, stops: Option<&Breakpoints>) -> Halt
        requires onward { turn_of self.old ≤ goal }
        requires limit { goal ≤ 100000000 }
        ensures run { (start : State PadHistory) → IsTimeline start self.old
            → IsTimeline start self.new × IsHalt start (stops_of stops.entry) (turn_of self.old) goal
            (turn_of self.new) result }
        ensures goal { result ≡ Halt.Goal → turn_of self.new ≡ goal }
        ensures within { turn_of self.new ≤ goal }
        ensures onward { turn_of self.old ≤ turn_of self.new }
    {
        let (turn, halt) = run_console(&mut self.console, self.turn, goal, stops);
        self.turn = turn;
        halt
    }
    /// Makes turns up to a goal, or to the first breakpoint behind this turn, or to a turn from which none goes on. Keeps
    /// states on the way.
    pub(crate) fn go_on(&mut self, alloc: Global, goal: u32, stops: Option<&Breakpoints>) -> Halt
        requires onward { turn_of self.old ≤ goal }
        requires limit { goal ≤ 100000000 }
        ensures { (start : State PadHistory) → IsTimeline start self.old
            → IsTimeline start self.new × IsHalt start (stops_of stops.entry) (turn_of self.old) goal
            (turn_of self.new) result }
    {
        while self.turn < goal {
            match self.run_to(next_goal(self.turn, goal), stops) {
                Halt::Goal => self.keep_on_way(alloc),
                Halt::Breakpoint => return Halt::Breakpoint,
                Halt::Stuck => return Halt::Stuck,
            }
        }
        Halt::Goal
    }

    /// Keeps the state of this turn, if it is one of those that are kept on the way and isn't kept yet.
    fn keep_on_way(&mut self, alloc: Global)
        ensures keeps { (start : State PadHistory) → IsTimeline start self.old → IsTimeline start self.new }
        ensures turn { turn_of self.new ≡ turn_of self.old }
    {
        if self.turn % SPACING == 0 && !is_kept(self.saves.as_slice(), self.turn) {
            self.keep(alloc, (self.turn / SPACING).trailing_zeros());
        }
    }

    /// Goes to a turn that has a state: back to the latest state at or before it that is kept, and on from there. Where this
    /// turn isn't behind it and nothing nearer is kept, it goes on from here.
    pub(crate) fn go_to(&mut self, alloc: Global, target: u32)
        requires { target ≤ 100000000 }
        ensures { (start : State PadHistory) → IsTimeline start self.old → HasState start target
            → IsTimeline start self.new × (turn_of self.new ≡ target) }
    {
        self.rewind(target);
        self.go_on(alloc, target, None);
    }

    /// Goes to the latest of this turn, the reset and the states that are kept that isn't behind a turn.
    fn rewind(&mut self, target: u32)
        ensures keeps { (start : State PadHistory) → IsTimeline start self.old → IsTimeline start self.new }
        ensures within { turn_of self.new ≤ target }
    {
        match latest(self.saves.as_slice(), target) {
            Some(at) => self.load(at, target),
            None => {
                if self.turn > target {
                    self.reset();
                }
            }
        }
    }

    /// Goes to a state that is kept, unless this turn is as near to the target.
    fn load(&mut self, at: usize, target: u32)
        requires place { at < length (saves_of self.old) }
        requires within { (d : Checkpoint) → turn_in (slice_index_or (saves_of self.old) at d) ≤ target }
        ensures keeps { (start : State PadHistory) → IsTimeline start self.old → IsTimeline start self.new }
        ensures within { turn_of self.new ≤ target }
    {
        let kept = &self.saves[at];
        if self.turn > target || self.turn < kept.turn {
            self.console.load(&kept.save);
            self.turn = kept.turn;
        }
    }

    /// Goes to the reset.
    fn reset(&mut self)
        ensures keeps { (start : State PadHistory) → IsTimeline start self.old → IsTimeline start self.new }
        ensures turn { turn_of self.new ≡ 0 }
    {
        self.console.load(&self.first);
        self.turn = 0;
    }
}

/// The next turn at which a state is kept, or the goal where that comes first.
fn next_goal(turn: u32, goal: u32) -> u32
    requires before { turn < goal }
    requires limit { goal ≤ 100000000 }
    ensures onward { turn < result }
    ensures within { result ≤ goal }
{
    goal.min((turn / SPACING + 1) * SPACING)
}
