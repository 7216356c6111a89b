//! The clocks between the last falls of sync in a window.

use crate::no_hints::{NoFrame, NoHints};
use uz_core::{Edge, EdgeKind};

/// The clocks between the last falls of sync, the last ones last; 0 where there are fewer.
fn last_distances(edges: &[Edge]) -> [u32; 4] {
    let mut apart = [0u32; 4];
    let mut before = None;
    for edge in edges {
        if matches!(edge.kind, EdgeKind::Sync(0)) {
            if let Some(clock) = before {
                let distance = u32::try_from(edge.clock.saturating_sub(clock)).unwrap_or(u32::MAX);
                apart = [apart[1], apart[2], apart[3], distance];
            }
            before = Some(edge.clock);
        }
    }
    apart
}

/// Why there are no hints, with the falls of sync where the lines make no frame.
pub(crate) fn with_falls(why: NoHints, edges: &[Edge]) -> NoHints {
    match why {
        NoHints::Frame(found) => {
            let apart = last_distances(edges);
            NoHints::Frame(NoFrame {
                lines: found.lines,
                apart,
                short: found.short,
            })
        }
        other => other,
    }
}
