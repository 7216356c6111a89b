//! What the words of a schedule's text are worth.

ghost use Rattle.std.specs.Prelude.{◌≡◌, true};
ghost use Rattle.uz_schedule.specs.declared.lines.Schedule.{Schedule};
ghost use Rattle.uz_report.specs.Order.{is_field, pulses_of, IsSomeField};

/// The line of the pulses says `ok` only where from some line of the frame on, round the frame, the lines are those of a field:
/// 6 equalizing pulses, 6 broad ones and 6 equalizing ones on half lines, and horizontal sync on whole lines. Does nothing.
pub fn ok_is_a_field()
    ensures { (s : Schedule) → is_field s (pulses_of s) ≡ true → IsSomeField s (pulses_of s) }
{}
