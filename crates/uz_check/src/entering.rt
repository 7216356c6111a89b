//! The rule of the entry.

ghost use Rattle.std.specs.Prelude.{◌≡◌, true, false};
ghost use Rattle.uz_schedule.specs.WellFormed.{WellFormed};
ghost use Rattle.uz_check.specs.FrameTests.{needs_no_rest as no_rest_needed, entry_test};
ghost use Rattle.uz_check.specs.Refusal.{EntryRefusal};

use crate::refusal::RefusedWhy;
use uz_rules::lies_in_point;
use uz_schedule::{Cert, Kind};

/// Whether an entry of this kind needs no rest.
fn needs_no_rest(kind: Kind) -> bool
    ensures { result ≡ no_rest_needed kind }
{
    match kind {
        Kind::Main => false,
        Kind::Handler | Kind::Alone => true,
    }
}

/// Whether a main entry has a rest, and the entry's state lies in its point.
#[tactic(auto, unfolding(crate::specs::FrameTests::entry_test))]
fn entry_passes(cert: &Cert) -> bool
    requires { WellFormed cert.now }
    ensures { result ≡ entry_test cert.now }
{
    (needs_no_rest(cert.entry.kind) || cert.rests.len() > 0)
        && lies_in_point(cert, cert.entry.id, &cert.entry_instance())
}

/// Why the entry is refused.
pub(crate) fn entry_refusal(cert: &Cert) -> Option<RefusedWhy>
    requires { WellFormed cert.now }
    ensures { EntryRefusal cert.now result }
{
    if entry_passes(cert) {
        None
    } else {
        Some(RefusedWhy::Entry)
    }
}
