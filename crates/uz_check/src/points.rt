//! The local rule of all instances, in order. A line that the line before implies isn't looked at.

ghost use Rattle.std.specs.Prelude.{◌≡◌, ◌≤◌, ◌+◌, ◌-◌, suc};
ghost use Rattle.uz_schedule.specs.WellFormed.{WellFormed};
ghost use Rattle.uz_check.specs.ImpliedLines.{RunsFrom, instances_to_check_of, instances_to_check};
ghost use Rattle.uz_rules.specs.Visit.{IsVisit, Keeps};
ghost use Rattle.uz_check.specs.Refusal.{InstanceRefusal, LineRefusal, PointRefusal, PointsRefusal};

use crate::family_laws::lines_fold;
use crate::implied_lines::next_to_check;
use crate::lines::alike_runs;
use crate::reach::reach_of;
use crate::refusal::RefusedWhy;
use uz_hex::Image;
use uz_rules::{LastInstance, Visit};
use uz_schedule::Cert;

/// Why an instance of the visited point is refused. It is looked at once.
#[tactic(auto, unfolding(crate::specs::Refusal::InstanceRefusal))]
fn instance_refusal(
    visit: &Visit<'_>,
    last: &mut LastInstance,
    l: u16,
    c: u8,
    looked: &mut u64,
) -> Option<RefusedWhy>
    requires fits { WellFormed visit.now.cert.now }
    requires visit { IsVisit visit.now }
    requires keeps { Keeps visit.now.point.now last.old }
    ensures why { InstanceRefusal visit.now.image.now visit.now.cert.now visit.now.id l c result }
    ensures one { looked.new ≤ looked.old + 1 }
    ensures keeps { Keeps visit.now.point.now last.new }
{
    match visit.local(last, l, c, looked) {
        Ok(()) => None,
        Err(why) => Some(RefusedWhy::Point {
            id: visit.id,
            l,
            c,
            why,
        }),
    }
}

/// The first refusal among a point's instances on a line. Each is looked at once.
#[tactic(auto, unfolding(crate::specs::Refusal::LineRefusal))]
fn line_refusal(
    visit: &Visit<'_>,
    last: &mut LastInstance,
    l: u16,
    looked: &mut u64,
) -> Option<RefusedWhy>
    requires fits { WellFormed visit.now.cert.now }
    requires visit { IsVisit visit.now }
    requires keeps { Keeps visit.now.point.now last.old }
    requires counts { visit.now.point.now.c1 ≤ 255 }
    requires order { visit.now.point.now.c0 ≤ visit.now.point.now.c1 }
    ensures first { LineRefusal visit.now.image.now visit.now.cert.now visit.now.id visit.now.point.now l result }
    ensures few { looked.new ≤ looked.old + (suc visit.now.point.now.c1 - visit.now.point.now.c0) }
    ensures keeps { Keeps visit.now.point.now last.new }
{
    for c in u16::from(visit.point.c0)..u16::from(visit.point.c1) + 1 {
        if let Some(why) = instance_refusal(visit, last, l, c as u8, looked) {
            return Some(why);
        }
    }
    None
}

/// The first refusal among a point's instances, line by line. Those on lines that the line before implies aren't looked at.
#[tactic(auto, unfolding(crate::specs::Refusal::PointRefusal))]
fn lines_refusal(
    visit: &Visit<'_>,
    last: &mut LastInstance,
    runs: &[u16; 525],
    looked: &mut u64,
) -> Option<RefusedWhy>
    requires fits { WellFormed visit.now.cert.now }
    requires visit { IsVisit visit.now }
    requires keeps { Keeps visit.now.point.now last.old }
    requires noted { RunsFrom visit.now.cert.now runs.now 0 }
    ensures first { PointRefusal visit.now.image.now visit.now.cert.now visit.now.id visit.now.point.now result }
    ensures few { looked.new ≤ looked.old + instances_to_check_of visit.now.cert.now visit.now.point.now }
{
    lines_fold();
    let reach = reach_of(visit.cert, visit.point);
    let mut l = visit.point.l0;
    'lines: while l <= visit.point.l1 {
        if let Some(why) = line_refusal(visit, last, l, looked) {
            return Some(why);
        }
        l = next_to_check(visit.cert, runs, reach, visit.point, l + 1);
    }
    None
}

/// The first refusal among the instances of a point whose box has one line. It implies no other line, so nothing is asked of that.
#[tactic(auto, using(crate::proofs::Looked::one_line_refusal, crate::proofs::Looked::one_line_looked, crate::proofs::Totals::box_of))]
fn one_line_refusal(
    visit: &Visit<'_>,
    last: &mut LastInstance,
    looked: &mut u64,
) -> Option<RefusedWhy>
    requires fits { WellFormed visit.now.cert.now }
    requires visit { IsVisit visit.now }
    requires keeps { Keeps visit.now.point.now last.old }
    requires one { visit.now.point.now.l0 ≡ visit.now.point.now.l1 }
    ensures first { PointRefusal visit.now.image.now visit.now.cert.now visit.now.id visit.now.point.now result }
    ensures few { looked.new ≤ looked.old + instances_to_check_of visit.now.cert.now visit.now.point.now }
{
    line_refusal(visit, last, visit.point.l0, looked)
}

/// The first refusal among a point's instances. `last` is room for them, whatever it has.
fn point_refusal(
    visit: &Visit<'_>,
    last: &mut LastInstance,
    runs: &[u16; 525],
    looked: &mut u64,
) -> Option<RefusedWhy>
    requires fits { WellFormed visit.now.cert.now }
    requires visit { IsVisit visit.now }
    requires noted { RunsFrom visit.now.cert.now runs.now 0 }
    ensures first { PointRefusal visit.now.image.now visit.now.cert.now visit.now.id visit.now.point.now result }
    ensures few { looked.new ≤ looked.old + instances_to_check_of visit.now.cert.now visit.now.point.now }
{
    last.forget();
    if visit.point.l0 == visit.point.l1 {
        one_line_refusal(visit, last, looked)
    } else {
        lines_refusal(visit, last, runs, looked)
    }
}

/// The first refusal among all points.
#[tactic(auto, unfolding(crate::specs::Refusal::PointsRefusal))]
pub(crate) fn points_refusal(image: &Image, cert: &Cert, looked: &mut u64) -> Option<RefusedWhy>
    requires { WellFormed cert.now }
    ensures first { PointsRefusal image.now cert.now result }
    ensures few { looked.new ≤ looked.old + instances_to_check cert.now }
{
    let runs = alike_runs(cert);
    let mut last = LastInstance::none();
    'points: for id in 0..cert.points.len() as u32 {
        let visit = Visit::new(image, cert, id);
        if let Some(why) = point_refusal(&visit, &mut last, &runs, looked) {
            return Some(why);
        }
    }
    None
}
