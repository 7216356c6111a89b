//! Laws of the definitions. Each is the contract of a function that does nothing.

ghost use Rattle.std.specs.Prelude.{◌≡◌, ◌↔◌, ℕ, ◌-◌, ◌*◌, ◌%◌, true, Contains, List, None};
ghost use Rattle.uz_core.specs.declared.machine.Effect.{Effect};
ghost use Rattle.uz_schedule.specs.Ends.{whole_byte};
ghost use Rattle.uz_schedule.specs.Instances.{instance_at};
ghost use Rattle.uz_schedule.specs.Limits.{ScheduleFits};
ghost use Rattle.uz_schedule.specs.Lines.{uniform};
ghost use Rattle.uz_schedule.specs.Schedule.{scanline, length_of, start_of, frame_of, At, event_at, level_at};
ghost use Rattle.uz_schedule.specs.WellFormed.{WellFormed};
ghost use Rattle.uz_schedule.specs.declared.certificate.Cert.{Cert};
ghost use Rattle.uz_schedule.specs.declared.header.Head.{Head};
ghost use Rattle.uz_schedule.specs.declared.lines.Schedule.{Schedule};
ghost use Rattle.uz_schedule.specs.declared.states.Instance.{Instance};
ghost use Rattle.uz_schedule.specs.declared.states.Rest.{Rest};
ghost use Rattle.uz_hex.specs.Reading.{Flash};
ghost use Rattle.uz_transfer.specs.declared.step.Exit.{Exit};
ghost use Rattle.uz_transfer.specs.InTime.{clock_holds};
ghost use Rattle.uz_transfer.specs.Refusals.{fail_of};
ghost use Rattle.uz_check.specs.Acceptance.{Accepts};
ghost use Rattle.uz_check.specs.FrameRules.{RestPasses, EntryPasses};
ghost use Rattle.uz_check.specs.ByPosition.{AreScanlines, position, frame_clocks, event_by_position, level_by_position};
ghost use Rattle.uz_check.specs.ByPosition.{instance_by_position, RestByPosition, EntryByPosition};
ghost use Rattle.uz_check.specs.OldRules.{IsOld, AcceptsOld};

use uz_rules::lies_in_point_tells;

/// In a frame of scanlines each line begins a scanline's clocks after the one before it, so that places, events and levels
/// are those by positions. Does nothing.
pub fn scanlines_by_position()
    ensures lengths { (s : Schedule) (l : ℕ) → AreScanlines s → length_of s l ≡ scanline }
    ensures starts { (s : Schedule) (l : ℕ) → AreScanlines s → start_of s l ≡ position l 0 }
    ensures frame { (s : Schedule) → AreScanlines s → frame_of s ≡ frame_clocks s }
    ensures places { (s : Schedule) (p l k : ℕ) → AreScanlines s
        → At s p l k ↔ (p % frame_clocks s ≡ position l k % frame_clocks s) }
    ensures events { (s : Schedule) (p : ℕ) → ScheduleFits s → AreScanlines s → event_at s p ≡ event_by_position s p }
    ensures levels { (s : Schedule) (p : ℕ) → ScheduleFits s → AreScanlines s → level_at s p ≡ level_by_position s p }
{}

/// And so are the instances of points. Does nothing.
pub fn instances_by_position()
    ensures { (cert : Cert) (id l c : ℕ) → ScheduleFits cert.schedule → AreScanlines cert.schedule
        → instance_at cert id l c ≡ instance_by_position cert id l c }
{}

/// And so are the rules of rests and of the entry. Whether a schedule is steady is asked of each line's events, whatever its
/// length. Does nothing.
pub fn frame_rules_by_position()
    ensures rests { (cert : Cert) (rest : Rest) → WellFormed cert → AreScanlines cert.schedule → Contains cert.rests rest
        → RestPasses cert rest ↔ RestByPosition cert rest }
    ensures entry { (cert : Cert) → WellFormed cert → AreScanlines cert.schedule → EntryPasses cert ↔ EntryByPosition cert }
{
    lies_in_point_tells();
}

/// And so is the whole acceptance, the local rule too: of a certificate that says what a text of version 1 can say the rules of that version
/// accept what today's accept, and nothing else. Does nothing.
pub fn old_rules_accept_the_same()
    ensures { (image : Flash) (cert : Cert) → WellFormed cert → IsOld cert → AcceptsOld image cert ↔ Accepts image cert }
{
    lies_in_point_tells();
}

/// The rule that the timer keeps time with the lines refuses nothing there: where an instance's OCR1A is the last clock of a scanline and
/// its TEMP may be any byte, no instruction that isn't refused elsewhere changes OCR1A. So version 1 has no such rule. Does nothing.
pub fn old_timer_keeps_time()
    ensures { (head : Head) (e : Effect) (inst : Instance) (exits : List Exit) (n : ℕ) → inst.top ≡ scanline - 1
        → inst.temp ≡ whole_byte → fail_of head e inst ≡ None → clock_holds (uniform n) e inst exits ≡ true }
{}
