//! The lines of a report.

ghost use Rattle.std.specs.Prelude.{◌≡◌, ◌++◌, IfOk, OnOk};
ghost use Rattle.uz_report.specs.MainsTime.{MainsTimeTells};
ghost use Rattle.uz_certificate_commands.specs.ReportCommand.{range_text, report_text, slack_line, slack_lines};

use std::alloc::{AllocError, Global};
use uz_check::Accepted;
use uz_files::put_number;
use uz_report::{Slack, frame_slack, slacks};

/// Adds the least and the most, and the line's end.
fn push_range(text: &mut Vec<u8>, least: u32, most: u32) -> Result<(), AllocError>
    ensures { OnOk result (text.new.items ≡ text.old.items ++ range_text least most) }
{
    put_number(text, b" least ", u64::from(least))?;
    put_number(text, b" most ", u64::from(most))?;
    text.extend_from_slice(b"\n")
}

/// Adds the line of a rest.
fn push_slack(text: &mut Vec<u8>, slack: Slack) -> Result<(), AllocError>
    ensures { OnOk result (text.new.items ≡ text.old.items ++ slack_line slack) }
{
    put_number(text, b"line ", u64::from(slack.line))?;
    push_range(text, u32::from(slack.least), slack.most())
}

/// Adds a line for each rest.
fn push_slacks(text: &mut Vec<u8>, slacks: &[Slack]) -> Result<(), AllocError>
    ensures { OnOk result (text.new.items ≡ text.old.items ++ slack_lines slacks.now) }
{
    for slack in slacks {
        push_slack(text, *slack)?;
    }
    Ok(())
}

/// The report of an accepted pair: a line for each rest, and one for the frame.
pub(crate) fn report_text(alloc: Global, pair: &Accepted) -> Result<Vec<u8>, AllocError>
    ensures text { IfOk result (λ text. text.items ≡ report_text pair.now.cert) }
    ensures worth { IfOk result (λ _. MainsTimeTells pair.now.image pair.now.cert) }
{
    let mut text = Vec::new(alloc);
    let rests = slacks(alloc, pair)?;
    push_slacks(&mut text, rests.as_slice())?;
    let (least, most) = frame_slack(pair);
    text.extend_from_slice(b"frame")?;
    push_range(&mut text, least, most)?;
    Ok(text)
}
