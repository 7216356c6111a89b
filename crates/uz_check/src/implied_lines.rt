//! Which lines of a point's box the line before implies: the local rule has the same answer there.

ghost use Rattle.std.specs.Prelude.{◌≡◌, ◌<◌, ◌≤◌, ℕ, Some, suc, true, length, slice_get};
ghost use Rattle.uz_schedule.specs.Limits.{ScheduleFits};
ghost use Rattle.uz_schedule.specs.WellFormed.{WellFormed};
ghost use Rattle.uz_check.specs.Folding.{lines_alike as alike, boxes_even as all_even};
ghost use Rattle.uz_check.specs.ImpliedLines.{RunsFrom, IsReach, IsNextToCheck, is_implied as implied};

use crate::boxes::boxes_even;
use crate::reach::Reach;
use uz_schedule::{Cert, Point};

/// The end of the run of lines that begins at a line, as it is noted.
fn end_of_run(runs: &[u16; 525], line: u16) -> u16
    requires { line < 525 }
    ensures { slice_get runs.now line ≡ Some result }
{
    runs[usize::from(line)]
}

/// Whether the conditions on lines hold of a line, as it is noted.
#[tactic(auto, using(crate::proofs::Runs::alike_tells))]
fn is_alike(cert: &Cert, runs: &[u16; 525], line: u16) -> bool
    requires fits { ScheduleFits cert.now.schedule }
    requires line { line < length cert.now.schedule.lines }
    requires noted { RunsFrom cert.now runs.now 0 }
    ensures { result ≡ alike cert.now line }
{
    line < end_of_run(runs, line)
}

/// Whether the box of each named successor holds a line and the two that follow it, or none of them. Where all three are in every box, the
/// successors aren't looked at.
fn are_even(cert: &Cert, reach: Reach, point: &Point, line: u16) -> bool
    requires fits { ScheduleFits cert.now.schedule }
    requires line { line < length cert.now.schedule.lines }
    requires reach { IsReach cert.now point.now reach }
    ensures { result ≡ all_even cert.now point.now line }
{
    if reach.first <= line && line + 2 <= reach.last {
        return true;
    }
    boxes_even(cert, point, line)
}

/// Whether a line of a point's box isn't its first, and the line before implies it.
fn is_implied(cert: &Cert, runs: &[u16; 525], reach: Reach, point: &Point, line: u16) -> bool
    requires fits { ScheduleFits cert.now.schedule }
    requires line { line < length cert.now.schedule.lines }
    requires noted { RunsFrom cert.now runs.now 0 }
    requires reach { IsReach cert.now point.now reach }
    ensures { result ≡ implied cert.now point.now line }
{
    point.l0 < line
        && (is_alike(cert, runs, line - 1)
            && (reach.plain && are_even(cert, reach, point, line - 1)))
}

/// The first line of a point's box, from this one on, that the run of lines about the line before, and the lines in every successor's
/// box, don't imply.
fn line_past_run(cert: &Cert, runs: &[u16; 525], reach: Reach, point: &Point, line: u16) -> u16
    requires fits { ScheduleFits cert.now.schedule }
    requires box_fits { point.now.l1 < length cert.now.schedule.lines }
    requires line { line ≤ suc point.now.l1 }
    requires noted { RunsFrom cert.now runs.now 0 }
    requires reach { IsReach cert.now point.now reach }
    ensures onward { line ≤ result }
    ensures within { result ≤ suc point.now.l1 }
    ensures implied { (l : ℕ) → line ≤ l → l < result → implied cert.now point.now l ≡ true }
{
    if line <= point.l0 || line <= reach.first || reach.last <= line || !reach.plain {
        return line;
    }
    let run = end_of_run(runs, line - 1);
    let end = run.min(reach.last - 1).min(point.l1) + 1;
    end.max(line)
}

/// The first line of a point's box, from this one on, that the line before doesn't imply; the one past the box's last where
/// there is none. `runs` is what `alike_runs` answers, and `reach` what `reach_of` answers of the point. No memory.
pub fn next_to_check(cert: &Cert, runs: &[u16; 525], reach: Reach, point: &Point, line: u16) -> u16
    requires fits { WellFormed cert.now }
    requires box_fits { point.now.l1 < length cert.now.schedule.lines }
    requires line { line ≤ suc point.now.l1 }
    requires noted { RunsFrom cert.now runs.now 0 }
    requires reach { IsReach cert.now point.now reach }
    ensures { IsNextToCheck cert.now point.now line result }
{
    let end = point.l1 + 1;
    let start = line_past_run(cert, runs, reach, point, line);
    'each: for l in start..end {
        if !is_implied(cert, runs, reach, point, l) {
            return l;
        }
    }
    end
}
