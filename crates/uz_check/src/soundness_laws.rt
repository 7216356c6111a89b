//! Laws of the definitions. Each is the contract of a function that does nothing.

ghost use Rattle.std.specs.Prelude.{◌≡◌, ◌<◌, Contains, ℕ};
ghost use Rattle.std.specs.Ordering.{nat_cmp};
ghost use Rattle.std.specs.FinMap.{FinMap};
ghost use Rattle.uz_hex.specs.Cells.{IsFlash};
ghost use Rattle.uz_core.specs.PadLine.{PadHistory};
ghost use Rattle.uz_core.specs.Turn.{State};
ghost use Rattle.uz_core.specs.StateRange.{IsState};
ghost use Rattle.uz_schedule.specs.Schedule.{length_of};
ghost use Rattle.uz_schedule.specs.WellFormed.{WellFormed};
ghost use Rattle.uz_schedule.specs.declared.certificate.Cert.{Cert};
ghost use Rattle.uz_schedule.specs.declared.kinds.Kind.TheVariants.{Main};
ghost use Rattle.uz_schedule.specs.declared.states.Rest.{Rest};
ghost use Rattle.uz_console.specs.Entry.{EntryCondition};
ghost use Rattle.uz_check.specs.Acceptance.{Accepts};
ghost use Rattle.uz_check.specs.Certified.{Certified};
ghost use Rattle.uz_check.specs.Invariant.{KeepsInvariant, HoldsAlong, BeginsWithIt};
ghost use Rattle.uz_check.specs.Played.{Plays};
ghost use Rattle.uz_check.specs.ReturnTimes.{ReturnsHold};
ghost use Rattle.uz_check.specs.Steady.{IsSteady};
ghost use Rattle.uz_check.specs.Ways.{EveryTurnGoes, MainsTimeHolds};

use uz_rules::{
    alone_contained, cover_meets, handler_contained, lies_in_point_tells, main_contained,
    state_inside,
};

/// What is accepted is certified: every run from a state that meets the entry condition keeps to the schedule. The entry
/// condition gives the invariant, each turn keeps it and says which way it goes (entry, return, main, handler, alone), so
/// that it holds at every state of a run; main's time follows. Of what is certified: the handler returns at exactly the
/// clocks whose positions have a return in the schedule; and runs of so many clocks that a console makes keep to it too.
pub fn soundness()
    ensures certified { (image : FinMap nat_cmp ℕ) (cert : Cert) → WellFormed cert → Accepts image cert → Certified image cert }
    ensures begins { (image : FinMap nat_cmp ℕ) (cert : Cert) → WellFormed cert → Accepts image cert → BeginsWithIt image cert }
    ensures kept { (image : FinMap nat_cmp ℕ) (cert : Cert) → WellFormed cert → Accepts image cert → KeepsInvariant image cert }
    ensures along { (image : FinMap nat_cmp ℕ) (cert : Cert) → WellFormed cert → Accepts image cert → HoldsAlong image cert }
    ensures goes { (image : FinMap nat_cmp ℕ) (cert : Cert) → WellFormed cert → Accepts image cert → EveryTurnGoes image cert }
    ensures mains_time { (image : FinMap nat_cmp ℕ) (cert : Cert) → WellFormed cert → Accepts image cert → MainsTimeHolds image cert }
    ensures returns { (image : FinMap nat_cmp ℕ) (cert : Cert) → Certified image cert → ReturnsHold image cert }
    ensures plays { (image : FinMap nat_cmp ℕ) (cert : Cert) → Certified image cert → Plays image cert }
{
    alone_contained();
    handler_contained();
    main_contained();
    state_inside();
    lies_in_point_tells();
    cover_meets();
}

/// The claim is never empty: whatever the flash image, and whatever the well formed certificate whose schedule is steady and
/// whose entry, if it is main's, has a rest at a clock of its line, there is a state with that image that meets the entry condition.
pub fn some_state_enters()
    ensures { (image : FinMap nat_cmp ℕ) (cert : Cert) → IsFlash image → WellFormed cert → IsSteady cert.schedule
        → (cert.entry.kind ≡ Main → (rest : Rest) × Contains cert.rests rest
        × (rest.clock < length_of cert.schedule rest.line))
        → (s : State PadHistory) × (p : ℕ) × IsState s × (s.image ≡ image) × EntryCondition cert s p }
{}
