//! The limits of what only the rules of version 3 have: what the flags tell, and the register of a cover.

ghost use Rattle.std.specs.Prelude.{◌≡◌, ◌↔◌, IsTrue};
ghost use Rattle.uz_schedule.specs.WellFormed.{AgainstFits, ComparedFits, IsWithoutRules, RulesFit, SplitFits};

use crate::{Against, Compared, Kind, Point, RuleVersion};

fn against_fits(source: Against) -> bool
    ensures { IsTrue result ↔ AgainstFits source }
{
    match source {
        Against::Register(r) => r < 32,
        Against::Constant(_) => true,
    }
}

fn compared_fits(compared: Compared) -> bool
    ensures { IsTrue result ↔ ComparedFits compared }
{
    match compared {
        Compared::Nothing => true,
        Compared::Byte(d, source) => d < 32 && against_fits(source),
        Compared::Pair(d, low, high) => d < 31 && against_fits(low) && high < 32,
        Compared::Result(d, _, old) => d < 32 && old.lo() <= old.hi(),
        Compared::PairResult(d, _, old) => d < 31 && old.lo() <= old.hi(),
        Compared::Value(d) => d < 32,
    }
}

fn split_fits(split: Option<u8>) -> bool
    ensures { IsTrue result ↔ SplitFits split }
{
    match split {
        None => true,
        Some(r) => r < 32,
    }
}

/// Whether a point has none of it.
fn is_without_rules(point: &Point) -> bool
    ensures { IsTrue result ↔ IsWithoutRules point.now }
{
    matches!(point.compared, Compared::Nothing) && point.split.is_none()
}

/// Whether what a point has of it is within its limits: none by the rules of version 2, and outside main.
pub fn rules_fit(version: RuleVersion, point: &Point) -> bool
    ensures { IsTrue result ↔ RulesFit version point.now.kind point.now }
{
    match (version, point.kind) {
        (RuleVersion::Three, Kind::Main) => {
            compared_fits(point.compared) && split_fits(point.split)
        }
        _ => is_without_rules(point),
    }
}
