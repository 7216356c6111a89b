//! Events beside edges: what of an edge of the machine a certificate's schedule speaks of.

ghost use Rattle.std.specs.Prelude.{◌≡◌};
ghost use Rattle.uz_rules.specs.Events.{event_of};

use uz_core::EdgeKind;
use uz_schedule::EventKind;

/// The event that an edge is: sync with its level, a pixel, a sound or a leave without its value. An interrupt that is
/// entered is no event.
pub fn event_of(edge: EdgeKind) -> Option<EventKind>
    ensures { result ≡ event_of edge }
{
    match edge {
        EdgeKind::Sync(level) => Some(EventKind::Sync(level)),
        EdgeKind::Pixel(_) => Some(EventKind::Pixel),
        EdgeKind::Sound(_) => Some(EventKind::Sound),
        EdgeKind::Enter(_) => None,
        EdgeKind::Leave => Some(EventKind::Leave),
    }
}
