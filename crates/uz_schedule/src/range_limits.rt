//! Ranges within others, and ranges that say something.

ghost use Rattle.std.specs.Prelude.{◌≡◌, ◌↔◌, All, IsTrue};
ghost use Rattle.uz_schedule.specs.Ends.{is_within as lies_within};
ghost use Rattle.uz_schedule.specs.WellFormed.{RangeFits, PartFits};

use crate::{Span, Wide};

/// Whether a byte's range isn't the whole one.
pub fn is_part(span: &Span) -> bool
    ensures { IsTrue result ↔ PartFits 255 span.now }
{
    let (lo, hi) = (span.lo(), span.hi());
    0 < lo || hi < 255
}

/// Whether a pair's range isn't the whole one.
pub fn is_wide_part(wide: &Wide) -> bool
    ensures { IsTrue result ↔ PartFits 65535 wide.now }
{
    let (lo, hi) = (wide.lo(), wide.hi());
    0 < lo || hi < 65535
}

/// Whether each of these ranges is one of bytes, as it is by its type.
pub fn ranges_fit(spans: &[Span]) -> bool
    ensures { IsTrue result ↔ All (RangeFits 255) spans.now }
{
    spans.iter().all(|s| s.lo() <= s.hi())
}

/// Whether a range lies in another.
pub fn is_within(a: &Span, b: &Span) -> bool
    ensures { result ≡ lies_within a.now b.now }
{
    b.lo() <= a.lo() && a.hi() <= b.hi()
}
