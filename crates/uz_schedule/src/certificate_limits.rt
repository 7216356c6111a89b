//! Whether a whole certificate is within its limits.

ghost use Rattle.std.specs.Prelude.{◌↔◌, IsTrue};
ghost use Rattle.uz_schedule.specs.WellFormed.{WellFormed};

use crate::entries::{entry_fits, rests_fit};
use crate::head::head_fits;
use crate::points::points_fit;
use crate::{Cert, schedule_fits};

/// Whether the certificate is within the limits and orders of its text. Takes no memory, and one look at each part.
pub fn well_formed(cert: &Cert) -> bool
    ensures { IsTrue result ↔ WellFormed cert.now }
{
    let lines = cert.schedule.lines.len();
    let points = cert.points.as_slice();
    head_fits(&cert.head)
        && schedule_fits(&cert.schedule)
        && rests_fit(&cert.head, lines, points.len(), cert.rests.as_slice())
        && entry_fits(&cert.head, lines, points.len(), &cert.entry)
        && points_fit(&cert.head, lines, points)
}
