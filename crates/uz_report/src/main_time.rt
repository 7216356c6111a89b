//! The clocks that a certificate leaves to the main program.

ghost use Rattle.std.specs.Prelude.{◌≡◌, IfOk};
ghost use Rattle.uz_report.specs.Slacks.{frame_least, frame_most, slack_of as slack_after, slacks_of};
ghost use Rattle.uz_report.specs.MainsTime.{MainsTimeTells};

use std::alloc::{AllocError, Global};
use uz_check::{Accepted, soundness};
use uz_schedule::{Rest, Schedule, places_go_on};

/// An interrupt is taken up to so many clocks after its line's end, while an instruction of main ends.
const LATEST: u32 = 3;

/// What main has after the handler's return on a line.
#[derive(Clone, Copy)]
pub struct Slack {
    /// The line of the return, counted from 0.
    pub line: u16,
    /// The clocks from the return to the line's end. The next entry comes 0 to 3 clocks later.
    pub least: u16,
}

impl Slack {
    ghost use Rattle.std.specs.Prelude.{◌+◌};
    ghost use Rattle.uz_report.specs.Slacks.{latest};

    /// The most clocks from the return to the next entry.
    pub fn most(self) -> u32
        ensures { result ≡ self.least + latest }
    {
        u32::from(self.least) + LATEST
    }
}

/// What main has after a rest.
fn slack_of(schedule: &Schedule, rest: &Rest) -> Slack
    ensures { result ≡ slack_after schedule.now rest.now }
{
    Slack {
        line: rest.line,
        least: schedule.length(rest.line).saturating_sub(rest.clock),
    }
}

/// What main has after each return, in the order of the lines. Only want of memory refuses it.
pub fn slacks(alloc: Global, accepted: &Accepted) -> Result<Vec<Slack>, AllocError>
    ensures exact { IfOk result (λ all. all.items ≡ slacks_of accepted.now.cert) }
    ensures worth { IfOk result (λ all. MainsTimeTells accepted.now.image accepted.now.cert) }
{
    soundness();
    places_go_on();
    let cert = accepted.cert();
    let mut all = Vec::new(alloc);
    for rest in cert.rests.as_slice() {
        all.push(slack_of(&cert.schedule, rest))?;
    }
    Ok(all)
}

/// The clocks that main has in a frame, least and most: the sums over all returns. Takes no memory.
pub fn frame_slack(accepted: &Accepted) -> (u32, u32)
    ensures least { result.0 ≡ frame_least accepted.now.cert }
    ensures most { result.1 ≡ frame_most accepted.now.cert }
{
    let cert = accepted.cert();
    let mut least: u32 = 0;
    for rest in cert.rests.as_slice() {
        least += u32::from(slack_of(&cert.schedule, rest).least);
    }
    (least, least + LATEST * cert.rests.len() as u32)
}
