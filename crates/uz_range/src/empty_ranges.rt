//! Ranges of numbers that may be empty, and pairs of them.

ghost use Rattle.std.specs.Prelude.{◌≡◌, ◌<◌};
ghost use Rattle.uz_range.specs.Narrowing.{between as between_ends, common as common_ends, lower as lower_part};
ghost use Rattle.uz_range.specs.Narrowing.{upper as upper_part, both as both_ends, joined as joined_ends, either as either_ends, either_one as either_one_ends};

use uz_schedule::Wide;

/// The numbers from `lo` to `hi`.
pub fn between(lo: u16, hi: u16) -> Option<Wide>
    ensures { result ≡ between_ends lo hi }
{
    Wide::new(lo, hi)
}

/// What two ranges share.
pub fn common(a: Wide, b: Wide) -> Option<Wide>
    ensures { result ≡ common_ends a b }
{
    between(a.lo().max(b.lo()), a.hi().min(b.hi()))
}

/// The numbers of a range that aren't negative, those below `half`.
pub fn lower(half: u16, a: Wide) -> Option<Wide>
    ensures { result ≡ lower_part half a }
{
    between(a.lo(), a.hi().min(half.saturating_sub(1)))
}

/// The numbers of a range that are negative, those from `half` on.
pub fn upper(half: u16, a: Wide) -> Option<Wide>
    ensures { result ≡ upper_part half a }
{
    between(a.lo().max(half), a.hi())
}

/// Two ranges, of which none is empty.
pub fn both(a: Option<Wide>, b: Option<Wide>) -> Option<(Wide, Wide)>
    ensures { result ≡ both_ends a b }
{
    match a {
        Some(a) => match b {
            Some(b) => Some((a, b)),
            None => None,
        },
        None => None,
    }
}

/// The least range that holds two ranges.
fn joined(a: Wide, b: Wide) -> Wide
    ensures { result ≡ joined_ends a b }
{
    Wide::between(a.lo().min(b.lo()), a.hi().max(b.hi()))
}

/// The least ranges that hold what either is.
pub fn either(p: Option<(Wide, Wide)>, q: Option<(Wide, Wide)>) -> Option<(Wide, Wide)>
    ensures { result ≡ either_ends p q }
{
    match p {
        None => q,
        Some(p) => match q {
            None => Some(p),
            Some(q) => Some((joined(p.0, q.0), joined(p.1, q.1))),
        },
    }
}

/// The least range that holds what either is.
pub fn either_one(a: Option<Wide>, b: Option<Wide>) -> Option<Wide>
    ensures { result ≡ either_one_ends a b }
{
    match a {
        None => b,
        Some(a) => match b {
            None => Some(a),
            Some(b) => Some(joined(a, b)),
        },
    }
}
