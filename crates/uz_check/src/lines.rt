//! Which lines are of one kind with the lines about them, and have the same rests.

ghost use Rattle.std.specs.Prelude.{◌≡◌, ◌<◌, ◌≤◌, ◌+◌, length};
ghost use Rattle.std.specs.Option.{option_map};
ghost use Rattle.uz_schedule.specs.Limits.{ScheduleFits};
ghost use Rattle.uz_schedule.specs.WellFormed.{WellFormed};
ghost use Rattle.uz_rules.specs.Local.{rest_in};
ghost use Rattle.uz_check.specs.Folding.{kind_of as line_kind, line_before as line_ahead};
ghost use Rattle.uz_check.specs.Folding.{kinds_alike as kinds_same, same_spans as spans_same};
ghost use Rattle.uz_check.specs.Folding.{same_rest as rest_same, rests_alike as rests_same};
ghost use Rattle.uz_check.specs.Folding.{lines_alike as alike};
ghost use Rattle.uz_check.specs.ImpliedLines.{IsRun, RunsFrom};

use uz_schedule::{Cert, Rest, Schedule, Span};

/// The number of a line's kind.
fn kind_of(schedule: &Schedule, line: u16) -> u16
    requires { line < length schedule.now.lines }
    ensures { result ≡ line_kind schedule.now line }
{
    schedule.lines.as_slice()[usize::from(line)]
}

/// The line before a line, round the frame.
fn line_before(schedule: &Schedule, line: u16) -> u16
    requires fits { ScheduleFits schedule.now }
    requires line { line < length schedule.now.lines }
    ensures value { result ≡ line_ahead schedule.now line }
    ensures there { result < length schedule.now.lines }
{
    if line == 0 {
        (schedule.lines.len() - 1) as u16
    } else {
        line - 1
    }
}

/// Whether a line, the one before it and the two that follow it have one kind.
fn kinds_alike(schedule: &Schedule, line: u16) -> bool
    requires fits { ScheduleFits schedule.now }
    requires line { line < length schedule.now.lines }
    ensures { result ≡ kinds_same schedule.now line }
{
    let kind = kind_of(schedule, line);
    let next = schedule.next(line);
    kind_of(schedule, line_before(schedule, line)) == kind
        && (kind_of(schedule, next) == kind && kind_of(schedule, schedule.next(next)) == kind)
}

/// Whether these are the same ranges.
fn same_spans(a: &[Span], b: &[Span]) -> bool
    ensures { result ≡ spans_same a.now b.now }
{
    if a.len() != b.len() {
        return false;
    }
    'each: for i in 0..a.len() {
        if a[i] != b[i] {
            return false;
        }
    }
    true
}

/// The rest of a line, where it has one.
fn rest_of_line(rests: &[Rest], line: u16) -> Option<&Rest>
    ensures { option_map (λ r. r.now) result ≡ rest_in rests.now line }
{
    'each: for rest in rests {
        if rest.line == line {
            return Some(rest);
        }
    }
    None
}

/// Whether neither is a rest, or both are, with the same clock and the same ranges of cells.
fn same_rest(a: Option<&Rest>, b: Option<&Rest>) -> bool
    ensures { result ≡ rest_same (option_map (λ x. x.now) a.entry) (option_map (λ x. x.now) b.entry) }
{
    match (a, b) {
        (None, None) => true,
        (Some(a), Some(b)) => a.clock == b.clock
            && same_spans(a.cells.as_slice(), b.cells.as_slice()),
        _ => false,
    }
}

/// Whether a line and the two that follow it have the same rest, or none.
fn rests_alike(cert: &Cert, line: u16) -> bool
    requires fits { ScheduleFits cert.now.schedule }
    requires line { line < length cert.now.schedule.lines }
    ensures { result ≡ rests_same cert.now.schedule cert.now.rests line }
{
    let rests = cert.rests.as_slice();
    let next = cert.schedule.next(line);
    let here = rest_of_line(rests, line);
    same_rest(here, rest_of_line(rests, next))
        && same_rest(here, rest_of_line(rests, cert.schedule.next(next)))
}

/// Whether the conditions on lines hold of a line and of the one that follows it.
fn lines_alike(cert: &Cert, line: u16) -> bool
    requires fits { ScheduleFits cert.now.schedule }
    requires line { line < length cert.now.schedule.lines }
    ensures { result ≡ alike cert.now line }
{
    kinds_alike(&cert.schedule, line) && rests_alike(cert, line)
}

/// The line up to which the conditions on lines hold from this one on, where that of the line after it is known.
#[tactic(auto, using(crate::proofs::Runs::run_goes_on, crate::proofs::Runs::run_ends))]
fn run_end(cert: &Cert, line: u16, after: u16) -> u16
    requires fits { ScheduleFits cert.now.schedule }
    requires line { line < length cert.now.schedule.lines }
    requires after { IsRun cert.now (length cert.now.schedule.lines) (line + 1) after }
    ensures { IsRun cert.now (length cert.now.schedule.lines) line result }
{
    if lines_alike(cert, line) { after } else { line }
}

/// Of each line of the frame the line up to which, from this one on, each line, the one before it and the two that follow it are of one
/// kind, and the three have the same rest or none; the number of lines where no line is otherwise. No memory.
pub fn alike_runs(cert: &Cert) -> [u16; 525]
    requires { WellFormed cert.now }
    ensures length { length result ≡ 525 }
    ensures each { RunsFrom cert.now result 0 }
{
    let count = cert.schedule.lines.len() as u16;
    let mut runs = [0; 525];
    let mut end = count;
    'each: for back in 0..count {
        let line = count - 1 - back;
        end = run_end(cert, line, end);
        runs[usize::from(line)] = end;
    }
    runs
}
