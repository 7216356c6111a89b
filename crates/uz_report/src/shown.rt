//! What a line shows beside sync.

ghost use Rattle.std.specs.Prelude.{◌≡◌, IfOk};
ghost use Rattle.uz_report.specs.Shown.{clocks_of as clocks_shown, shows as is_shown};

use std::alloc::{AllocError, Global};
use uz_schedule::{Event, EventKind};

/// What a line shows beside sync.
#[derive(Clone, Copy)]
pub(crate) enum Shown {
    Pixels,
    Sounds,
    /// Returns of the handler.
    Returns,
}

/// Whether an event is one of these.
fn shows(what: Shown, kind: EventKind) -> bool
    ensures { result ≡ is_shown what kind }
{
    match what {
        Shown::Pixels => matches!(kind, EventKind::Pixel),
        Shown::Sounds => matches!(kind, EventKind::Sound),
        Shown::Returns => matches!(kind, EventKind::Leave),
    }
}

/// The clocks of those among these events.
pub(crate) fn clocks_of(
    alloc: Global,
    what: Shown,
    events: &[Event],
) -> Result<Vec<u16>, AllocError>
    ensures { IfOk result (λ clocks. clocks.items ≡ clocks_shown what events.now) }
{
    let mut clocks = Vec::new(alloc);
    for event in events {
        if shows(what, event.kind) {
            clocks.push(event.clock)?;
        }
    }
    Ok(clocks)
}
