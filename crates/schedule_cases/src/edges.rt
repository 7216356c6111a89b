//! The event that an edge is.

use anyhow::Result;
use table_rows::Row;
use uz_core::EdgeKind;
use uz_rules::event_of;

/// The event of an edge of this kind, if it is one.
pub(crate) fn tell_event(rt: HostRuntime, row: &mut Row) -> Result<()> {
    let edge = match row.word() {
        "sync" => EdgeKind::Sync(row.byte()),
        "pixel" => EdgeKind::Pixel(row.byte()),
        "sound" => EdgeKind::Sound(row.byte()),
        "enter" => EdgeKind::Enter(row.short()),
        _ => EdgeKind::Leave,
    };
    println!(rt; "{:?}", event_of(edge))?;
    Ok(())
}
