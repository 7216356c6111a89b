//! Laws of the definitions of a schedule. Each function does nothing: its clauses are the law.

ghost use Rattle.std.specs.Prelude.{◌≡◌, true, All, List, ℕ, suc, ◌+◌, ◌%◌, ◌<◌, ◌≤◌, length, Some};
ghost use Rattle.uz_schedule.specs.declared.lines.Event.{Event};
ghost use Rattle.uz_schedule.specs.declared.lines.Schedule.{Schedule};
ghost use Rattle.uz_schedule.specs.Schedule.{scanline, half_line, length_of, start_of, frame_of, next_line, At};
ghost use Rattle.uz_schedule.specs.Schedule.{event_at, event_in_kind, events_of, sync_at, or_else, level_at};
ghost use Rattle.uz_schedule.specs.Limits.{ScheduleFits};
ghost use Rattle.uz_schedule.specs.declared.states.Instance.{Instance};
ghost use Rattle.uz_schedule.specs.declared.certificate.Cert.{Cert};
ghost use Rattle.uz_schedule.specs.WellFormed.{WellFormed};
ghost use Rattle.uz_schedule.specs.Instances.{instance_at};
ghost use Rattle.uz_schedule.specs.InstanceLimits.{InstanceFits};
ghost use Rattle.uz_schedule.specs.Lines.{Lines, order_of, uniform, line_after, clock_after};

use crate::states::Instance;

/// The event at clock k of line l is that of the line's kind at this clock.
#[tactic(auto, using(crate::proofs::Starts::event_of_place))]
pub fn event_by_line()
    ensures { (s : Schedule) (l k : ℕ) → l < length s.lines → k < length_of s l
        → event_at s (start_of s l + k) ≡ event_in_kind (events_of s l) k }
{}

/// A line has the clocks of half a scanline or more, and of a whole one at most; its events stand at clocks of it; and a
/// frame has clocks.
pub fn lines_have_lengths()
    ensures within { (s : Schedule) → ScheduleFits s → (l : ℕ) → (half_line ≤ length_of s l) × (length_of s l ≤ scanline) }
    ensures events { (s : Schedule) → ScheduleFits s → (l : ℕ) (events : List Event) → l < length s.lines
        → events_of s l ≡ Some events → All (λ e. e.clock < length_of s l) events }
    ensures frame { (s : Schedule) → ScheduleFits s → 0 < frame_of s }
{}

/// Positions are taken modulo the frame.
#[tactic(auto, using(crate::proofs::Modulo::event_at_mod, crate::proofs::Modulo::level_mod))]
pub fn positions_go_round()
    ensures events { (s : Schedule) (p q : ℕ) → p % frame_of s ≡ q % frame_of s → event_at s p ≡ event_at s q }
    ensures levels { (s : Schedule) (p q : ℕ) → p % frame_of s ≡ q % frame_of s → level_at s p ≡ level_at s q }
{}

/// A place goes on with its position: clocks count on, also past the line's end, and where they reach it, the next line
/// begins.
#[tactic(auto, using(crate::proofs::Places::places))]
pub fn places_go_on()
    ensures more { (s : Schedule) (p l k c : ℕ) → At s p l k → At s (p + c) l (k + c) }
    ensures next { (s : Schedule) (p l k : ℕ) → At s p l (length_of s l + k) → At s p (next_line s l) k }
    ensures after { (s : Schedule) (p l k : ℕ) → At s p l k → At s p (line_after (order_of s) l k) (clock_after (order_of s) l k) }
    ensures events { (s : Schedule) (p l k : ℕ) → At s p l k → event_at s p ≡ event_at s (start_of s l + k) }
    ensures levels { (s : Schedule) (p l k : ℕ) → At s p l k → level_at s p ≡ level_at s (start_of s l + k) }
    ensures inside { (s : Schedule) (l k : ℕ) → l < length s.lines → k < length_of s l → start_of s l + k < frame_of s }
    ensures order { (s : Schedule) → All (λ n. n ≡ scanline) s.lengths → order_of s ≡ uniform (length s.lines) }
{}

/// From one position to the next the level is what is set there, and else stays.
#[tactic(auto, using(crate::proofs::Modulo::level_step))]
pub fn level_goes_on()
    ensures { (s : Schedule) (p : ℕ) → 0 < frame_of s → level_at s (suc p) ≡ or_else (sync_at s (suc p)) (level_at s p) }
{}

/// Where the level is set anywhere in the frame, there is one everywhere; and each level is 0 or 1.
#[tactic(auto, using(crate::proofs::SomeLevel::level_somewhere, crate::proofs::SomeLevel::level_bit))]
pub fn level_exists()
    ensures some { (s : Schedule) (p q v : ℕ) → 0 < frame_of s → sync_at s q ≡ Some v → (u : ℕ) × (level_at s p ≡ Some u) }
    ensures bit { (s : Schedule) (p v : ℕ) → ScheduleFits s → level_at s p ≡ Some v → v ≤ 1 }
{}

/// An instance of a well formed certificate is within limits: its place is one of the frame, it has all registers and flags, no
/// more slots than its kind may push, a range for each cell that its kind tracks, and interrupted values in handlers alone.
pub fn instance_is_within_limits()
    ensures { (cert : Cert) (id l c : ℕ) (inst : Instance) → WellFormed cert → instance_at cert id l c ≡ Some inst
        → InstanceFits cert inst }
{}

/// Instances that compare equal are one. Does nothing.
pub fn equal_instances_are_one()
    ensures { (a b : Instance) → ⟦<Instance as PartialEq>⟧.eq a b ≡ true → a ≡ b }
{}
