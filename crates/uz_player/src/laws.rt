//! Laws of live play.

ghost use Rattle.std.specs.Prelude.{ℕ, List};
ghost use Rattle.uz_core.specs.declared.machine.Edge.{Edge};
ghost use Rattle.uz_core.specs.PadLine.{PadHistory, latches};
ghost use Rattle.uz_core.specs.Run.{MachineTurn, Run};
ghost use Rattle.uz_core.specs.Turn.{State};
ghost use Rattle.uz_player.specs.PadRuns.{AreOneRun, FindTheSame, InCalls, IsReady, RunsAlike, SamePresent};

/// The law that a run depends on its pads by PORTA's value, its changes since the last latch, and the pairs that latches find, the last
/// one of before and those of the run, alone: over another history that has the same of these it is the same run, with the same edges. Does
/// nothing.
#[tactic(auto, using(crate::proofs::PadRunLaws::runs_alike))]
pub fn run_depends_on_latched_pairs()
    ensures { (turns : ℕ) (s last : State PadHistory) (edges : List Edge) (pads : PadHistory) → Run MachineTurn turns s edges last
        → SamePresent s.space.pads pads → FindTheSame (latches last.space.pads.levels) s.space.pads pads
        → RunsAlike turns s edges last pads }
{}

/// The law that calls one after another, in each of which a pair of words is held, are one run: over the pairs that their latches
/// found, as a pad file records them, and whatever follows. Does nothing.
#[tactic(auto, using(crate::proofs::CallRuns::one_run))]
pub fn calls_are_one_run()
    ensures { (calls : List ((ℕ × ℕ) × ℕ)) (s last : State PadHistory) (edges : List Edge) → InCalls calls s edges last → IsReady s
        → AreOneRun calls s edges last }
{}
