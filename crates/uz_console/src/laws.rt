//! Laws of the machine: one turn, one run, and states that stay in range.

ghost use Rattle.std.specs.Prelude.{◌≡◌, ℕ, List};
ghost use Rattle.std.specs.Ordering.{nat_cmp};
ghost use Rattle.std.specs.FinMap.{FinMap};
ghost use Rattle.uz_schedule.specs.Schedule.{response_clocks};
ghost use Rattle.uz_schedule.specs.declared.kinds.Response.{Response};
ghost use Rattle.uz_hex.specs.Cells.{IsFlash};
ghost use Rattle.uz_core.specs.declared.machine.Edge.{Edge};
ghost use Rattle.uz_core.specs.PadLine.{PadHistory};
ghost use Rattle.uz_core.specs.Space.{history_wiring};
ghost use Rattle.uz_core.specs.Turn.{State, Turn, state_at_reset, history_at_reset};
ghost use Rattle.uz_core.specs.Run.{Run, MachineTurn, IsRunPart, IsClockRun, IsStoppedRun};
ghost use Rattle.uz_core.specs.StateRange.{IsState};

/// The law that a state has at most one turn. Does nothing.
pub fn turn_is_unique()
    ensures { (s n1 n2 : State PadHistory) (e1 e2 : List Edge) → Turn history_wiring s e1 n1 → Turn history_wiring s e2 n2
        → (e1 ≡ e2) × (n1 ≡ n2) }
{}

/// The law that a state has at most one run of so many clocks, and that it is over or stopped and not both. Does nothing.
pub fn run_is_unique()
    ensures over { (limit : ℕ) (s l1 l2 : State PadHistory) (e1 e2 : List Edge) → IsClockRun limit s e1 l1
        → IsClockRun limit s e2 l2 → (e1 ≡ e2) × (l1 ≡ l2) }
    ensures stopped { (limit : ℕ) (s l1 l2 : State PadHistory) (e1 e2 : List Edge) → IsStoppedRun limit s e1 l1
        → IsStoppedRun limit s e2 l2 → (e1 ≡ e2) × (l1 ≡ l2) }
    ensures apart { (limit : ℕ) (s l1 l2 : State PadHistory) (e1 e2 : List Edge) → IsClockRun limit s e1 l1
        → IsStoppedRun limit s e2 l2 → ⊥ }
{}

/// The law that the state at reset has its parts in range, whatever the image, the pads and the response. Does nothing.
pub fn reset_is_in_range()
    ensures { (image : FinMap nat_cmp ℕ) (pairs : List (ℕ × ℕ)) (irq : Response) → IsFlash image
        → IsState (state_at_reset image (history_at_reset pairs) (response_clocks irq)) }
{}

/// The law that a run keeps the parts of a state in range, and so does a part of the run of so many clocks. Does nothing.
pub fn run_keeps_states()
    ensures run { (n : ℕ) (s last : State PadHistory) (edges : List Edge) → Run MachineTurn n s edges last → IsState s → IsState last }
    ensures part { (limit : ℕ) (s last : State PadHistory) (edges : List Edge) → IsRunPart limit s edges last → IsState s → IsState last }
{}
