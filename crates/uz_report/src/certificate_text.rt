//! The schedule of a certificate for a person.

ghost use Rattle.std.specs.Prelude.{◌≡◌, ◌++◌, IfOk, OnOk};
ghost use Rattle.uz_schedule.specs.Limits.{ScheduleFits};
ghost use Rattle.uz_report.specs.Findings.{findings as findings_in};
ghost use Rattle.uz_report.specs.FrameText.{frame_lines};
ghost use Rattle.uz_report.specs.Timing.{last_line, timing_text};

use crate::findings::{kinds_out, one_unless};
use crate::frame_text::{is_frame, put_all_falls, put_frame, put_order};
use crate::kind_text::put_kinds;
use crate::order::{is_field, line_pulses};
use crate::words::put_number;
use std::alloc::{AllocError, Global};
use uz_schedule::{Cert, Schedule};

/// Puts the last line, of so many findings.
fn put_last(text: &mut Vec<u8>, findings: u32) -> Result<(), AllocError>
    ensures { OnOk result (text.new.items ≡ text.old.items ++ last_line findings) }
{
    if findings == 0 {
        return text.extend_from_slice(b"ntsc ok\n");
    }
    put_number(text, b"ntsc out ", u64::from(findings))?;
    text.extend_from_slice(b"\n")
}

/// Puts the lines of the frame, and the last line.
#[tactic(auto, unfolding(crate::specs::FrameText::frame_lines, crate::specs::Findings::findings))]
fn put_frame_lines(text: &mut Vec<u8>, alloc: Global, schedule: &Schedule) -> Result<(), AllocError>
    requires { ScheduleFits schedule.now }
    ensures { OnOk result (text.new.items ≡ text.old.items ++ frame_lines schedule.now ++ last_line (findings_in schedule.now)) }
{
    let pulses = line_pulses(alloc, schedule)?;
    let is_field = is_field(schedule, pulses.as_slice());
    let clocks = schedule.frame();
    put_frame(text, schedule.lines.len(), clocks)?;
    put_order(text, pulses.as_slice(), is_field)?;
    put_all_falls(text, alloc, schedule)?;
    put_last(
        text,
        kinds_out(schedule) + one_unless(is_frame(clocks)) + one_unless(is_field),
    )
}

/// What `timing` prints of a certificate's schedule: a block for each kind of line, the lines of the frame, and `ntsc ok` or
/// how many lines are out of the ranges of NTSC. The one error is want of memory.
pub fn timing(alloc: Global, cert: &Cert) -> Result<Vec<u8>, AllocError>
    requires { ScheduleFits cert.now.schedule }
    ensures exact { IfOk result (λ text. text.items ≡ timing_text cert.now) }
{
    let mut text = Vec::new(alloc);
    put_kinds(&mut text, alloc, &cert.schedule)?;
    put_frame_lines(&mut text, alloc, &cert.schedule)?;
    Ok(text)
}
