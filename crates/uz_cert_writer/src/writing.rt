//! The text of a certificate.

ghost use Rattle.std.specs.Prelude.{◌≡◌, ◌≤◌, ◌<◌, ◌++◌, ◌∷◌, [], ◌^◌, IfOk, OnOk, codes, length};
ghost use Rattle.uz_schedule.specs.Limits.{ScheduleFits};
ghost use Rattle.uz_schedule.specs.WellFormed.{WellFormed};
ghost use Rattle.uz_cert_lines.specs.Lines.{head_line, text_version};
ghost use Rattle.uz_cert_writer.specs.Joined.{head_text, line_end, schedule_text, state_text};
ghost use Rattle.uz_cert_writer.specs.Spelling.{spelling};

use crate::head_lines::{add_cell_lines, add_irq, add_size, add_stack};
use crate::schedule_lines::{add_fall, add_kinds, add_runs};
use crate::state_lines::{add_entry, add_points, add_rests};
use std::alloc::{AllocError, Global};
use uz_schedule::{Cert, RuleVersion, Schedule};

/// The least number of bytes that the line of a point takes, `point main 0 0 0 0 0 0 0 0` with its LF.
const POINT_BYTES: usize = 27;

/// The first line of the text of a certificate that is judged by these rules, with its LF.
fn first_line(version: RuleVersion) -> &'static [u8]
    ensures { result.now ≡ line_end (head_line (text_version version) ∷ []) }
{
    match version {
        RuleVersion::Two => b"uzcert 2\n",
        RuleVersion::Three => b"uzcert 3\n",
    }
}

/// Adds the first line and the lines of the head.
fn add_head(text: &mut Vec<u8>, cert: &Cert) -> Result<(), AllocError>
    requires { WellFormed cert.now }
    ensures { OnOk result (text.new.items ≡ text.old.items ++ head_text cert.now) }
{
    text.extend_from_slice(first_line(cert.head.version))?;
    add_size(text, cert)?;
    add_irq(text, &cert.head)?;
    add_stack(text, &cert.head)?;
    add_cell_lines(text, cert.head.cells.as_slice())
}

/// Adds the lines of the schedule.
fn add_schedule(text: &mut Vec<u8>, schedule: &Schedule) -> Result<(), AllocError>
    requires { ScheduleFits schedule.now }
    ensures { OnOk result (text.new.items ≡ text.old.items ++ schedule_text schedule.now) }
{
    add_kinds(text, schedule.kinds.as_slice(), schedule.lengths.as_slice())?;
    add_fall(text, schedule)?;
    add_runs(text, schedule.lines.as_slice())
}

/// Adds the lines of the rests, the entry and the points, and the last line.
fn add_states(text: &mut Vec<u8>, cert: &Cert) -> Result<(), AllocError>
    requires { WellFormed cert.now }
    ensures { OnOk result (text.new.items ≡ text.old.items ++ state_text cert.now) }
{
    let cells = cert.head.cells.as_slice();
    add_rests(text, cert.rests.as_slice())?;
    add_entry(text, cells, &cert.entry)?;
    add_points(text, cells, cert.points.as_slice())?;
    text.extend_from_slice(b"end\n")?;
    Ok(())
}

/// Adds the three parts of the text.
fn add_all(text: &mut Vec<u8>, cert: &Cert) -> Result<(), AllocError>
    requires { WellFormed cert.now }
    ensures { OnOk result (text.new.items ≡ text.old.items ++
        (head_text cert.now ++ (schedule_text cert.now.schedule ++ state_text cert.now))) }
{
    add_head(text, cert)?;
    add_schedule(text, &cert.schedule)?;
    add_states(text, cert)
}

/// Adds the text of a certificate.
fn add_text(text: &mut Vec<u8>, cert: &Cert) -> Result<(), AllocError>
    requires { WellFormed cert.now }
    ensures { OnOk result (text.new.items ≡ text.old.items ++ spelling (text_version cert.now.head.version) cert.now) }
{
    add_all(text, cert)?;
    Ok(())
}

/// The text, of the version of its rules, of a certificate that is within the limits and orders of its text, `well_formed`. The one
/// error is want of memory. The text is written in one pass, in time linear in its length.
pub fn write_cert(alloc: Global, cert: &Cert) -> Result<Vec<u8>, AllocError>
    requires { WellFormed cert.now }
    ensures { IfOk result (λ text. text.items ≡ spelling (text_version cert.now.head.version) cert.now) }
{
    let mut text = Vec::with_capacity(alloc, cert.points.len() * POINT_BYTES)?;
    add_text(&mut text, cert)?;
    Ok(text)
}
