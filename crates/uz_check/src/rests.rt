//! The rules of the rests.

ghost use Rattle.std.specs.Prelude.{◌≡◌, ◌<◌, ◌+◌, length, Some, None, true, false};
ghost use Rattle.uz_schedule.specs.Limits.{ScheduleFits};
ghost use Rattle.uz_schedule.specs.Schedule.{events_of as events_on};
ghost use Rattle.uz_schedule.specs.WellFormed.{WellFormed};
ghost use Rattle.uz_check.specs.FrameTests.{none_after as after, none_until as until, none_after_in, none_until_in};
ghost use Rattle.uz_check.specs.FrameTests.{leaves_at as leaves_at_clock, is_quiet_rest as quiet_rest, enters_at};
ghost use Rattle.uz_check.specs.FrameTests.{enters_always, rest_test};
ghost use Rattle.uz_check.specs.Refusal.{RestRefusal, RestsRefusal};

use crate::refusal::RefusedWhy;
use uz_rules::lies_in_point;
use uz_schedule::{Cert, Event, EventKind, Rest, Schedule};

/// Whether no event stands after a clock.
fn none_after(events: &[Event], clock: u16) -> bool
    ensures { result ≡ after clock events.now }
{
    for event in events {
        if event.clock > clock {
            return false;
        }
    }
    true
}

/// Whether no event stands up to a clock.
fn none_until(events: &[Event], clock: u16) -> bool
    ensures { result ≡ until clock events.now }
{
    for event in events {
        if event.clock <= clock {
            return false;
        }
    }
    true
}

/// Whether no event of a line stands after a clock.
fn is_quiet_after(schedule: &Schedule, line: u16, clock: u16) -> bool
    requires { line < length schedule.now.lines }
    ensures { result ≡ none_after_in clock (events_on schedule.now line) }
{
    let lines = schedule.lines.as_slice();
    let kind = lines[line as usize];
    match schedule.kinds.as_slice().get(kind as usize) {
        Some(events) => none_after(events.as_slice(), clock),
        None => true,
    }
}

/// Whether no event of a line stands up to a clock.
fn is_quiet_until(schedule: &Schedule, line: u16, clock: u16) -> bool
    requires { line < length schedule.now.lines }
    ensures { result ≡ none_until_in clock (events_on schedule.now line) }
{
    let lines = schedule.lines.as_slice();
    let kind = lines[line as usize];
    match schedule.kinds.as_slice().get(kind as usize) {
        Some(events) => none_until(events.as_slice(), clock),
        None => true,
    }
}

/// Whether the handler's return stands at a clock of a line. A clock past the line's end is none of it, whatever stands
/// there on the next line.
fn leaves_at(schedule: &Schedule, line: u16, clock: u16) -> bool
    requires fits { ScheduleFits schedule.now }
    ensures { result ≡ leaves_at_clock schedule.now line clock }
{
    clock < schedule.length(line)
        && matches!(schedule.at_clock(line, clock), Some(EventKind::Leave))
}

/// Whether the handler's return stands at the rest's clock, no event after it on its line, and none on the next line where
/// an interrupt may come.
fn is_quiet_rest(cert: &Cert, rest: &Rest) -> bool
    requires fits { ScheduleFits cert.now.schedule }
    requires line { rest.now.line < length cert.now.schedule.lines }
    ensures { result ≡ quiet_rest cert.now rest.now }
{
    let schedule = &cert.schedule;
    let next = schedule.next(rest.line);
    let last = cert.head.irq.clocks() + 3;
    leaves_at(schedule, rest.line, rest.clock)
        && (is_quiet_after(schedule, rest.line, rest.clock) && is_quiet_until(schedule, next, last))
}

/// Whether the handler's first state lies in the vector's point, where the interrupt is taken with TCNT1 `c`.
fn enters_with(cert: &Cert, rest: &Rest, c: u8) -> bool
    requires fits { WellFormed cert.now }
    requires line { rest.now.line < length cert.now.schedule.lines }
    ensures { result ≡ enters_at cert.now rest.now c }
{
    lies_in_point(cert, rest.vector, &cert.rest_instance(rest, c))
}

/// Whether it does whatever the latency, 0 to 3.
fn enters(cert: &Cert, rest: &Rest) -> bool
    requires fits { WellFormed cert.now }
    requires line { rest.now.line < length cert.now.schedule.lines }
    ensures { result ≡ enters_always cert.now rest.now }
{
    enters_with(cert, rest, 0)
        && (enters_with(cert, rest, 1)
            && (enters_with(cert, rest, 2) && enters_with(cert, rest, 3)))
}

/// Whether a rest passes.
#[tactic(auto, unfolding(crate::specs::FrameTests::rest_test))]
fn rest_passes(cert: &Cert, rest: &Rest) -> bool
    requires fits { WellFormed cert.now }
    requires line { rest.now.line < length cert.now.schedule.lines }
    ensures { result ≡ rest_test cert.now rest.now }
{
    is_quiet_rest(cert, rest) && enters(cert, rest)
}

/// Why a rest is refused.
fn rest_refusal(cert: &Cert, rest: &Rest) -> Option<RefusedWhy>
    requires fits { WellFormed cert.now }
    requires line { rest.now.line < length cert.now.schedule.lines }
    ensures { RestRefusal cert.now rest.now result }
{
    if rest_passes(cert, rest) {
        None
    } else {
        Some(RefusedWhy::Rest { line: rest.line })
    }
}

/// The first refusal among all rests.
#[tactic(auto, unfolding(crate::specs::Refusal::RestsRefusal))]
pub(crate) fn rests_refusal(cert: &Cert) -> Option<RefusedWhy>
    requires fits { WellFormed cert.now }
    ensures { RestsRefusal cert.now result }
{
    for (i, rest) in cert.rests.as_slice().iter().enumerate() {
        let _ = i; // said of in the loop's invariant alone
        if let Some(why) = rest_refusal(cert, rest) {
            return Some(why);
        }
    }
    None
}
