//! What a played run is worth: from the first state that meets the entry condition of a certified pair on, its events are
//! the schedule's, and its picture's lines are as long as the schedule's. A law, as the contract of a function that does
//! nothing.

ghost use Rattle.std.specs.Prelude.{◌≡◌, List, ℕ};
ghost use Rattle.std.specs.Ordering.{nat_cmp};
ghost use Rattle.std.specs.FinMap.{FinMap};
ghost use Rattle.uz_console.specs.Approaches.{EntersFirst};
ghost use Rattle.uz_core.specs.declared.machine.Edge.{Edge};
ghost use Rattle.uz_core.specs.PadLine.{PadHistory};
ghost use Rattle.uz_core.specs.Run.{IsClockRun, IsStoppedRun};
ghost use Rattle.uz_core.specs.StateRange.{IsState};
ghost use Rattle.uz_core.specs.Turn.{State, sync_level};
ghost use Rattle.uz_check.specs.Keeping.{KeepsSchedule};
ghost use Rattle.uz_schedule.specs.declared.certificate.Cert.{Cert};
ghost use Rattle.uz_schedule.specs.Limits.{ScheduleFits};
ghost use Rattle.uz_check.specs.Certified.{Certified};
ghost use Rattle.uz_check.specs.Steady.{IsSteady};

use crate::soundness_laws::soundness;
use uz_schedule::{event_by_line, lines_have_lengths, places_go_on};

/// A run of so many clocks from a state in range whose sync is low, as it is at reset: once a state of it meets the entry
/// condition of a certificate that is certified with its image, it keeps to the schedule, and it isn't stopped.
pub fn played_runs_keep()
    ensures keeps { (image : FinMap nat_cmp ℕ) (cert : Cert) (start : State PadHistory) (limit clock p : ℕ)
        → Certified image cert → IsSteady cert.schedule → ScheduleFits cert.schedule
        → IsState start → start.image ≡ image → sync_level start.space ≡ 0 → EntersFirst cert limit start clock p
        → (edges : List Edge) (last : State PadHistory) → IsClockRun limit start edges last → KeepsSchedule cert limit clock p edges }
    ensures never_stops { (image : FinMap nat_cmp ℕ) (cert : Cert) (start : State PadHistory) (limit clock p : ℕ) → Certified image cert
        → IsState start → start.image ≡ image → EntersFirst cert limit start clock p
        → (edges : List Edge) (last : State PadHistory) → IsStoppedRun limit start edges last → ⊥ }
{
    soundness();
    event_by_line();
    places_go_on();
    lines_have_lengths();
}
