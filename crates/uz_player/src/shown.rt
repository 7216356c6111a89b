//! What a play has more of the picture.

ghost use Rattle.uz_player.specs.Frames.{IsEndOf, ScansEdge};

use uz_core::Edge;
use uz_scan::{Scan, Scanner, end_record, row_record};

/// What a play has more of the picture, or why it has none.
#[derive(Clone, Copy)]
pub enum Shown {
    /// The record of a row, at the end of its line.
    Row([u8; 461]),
    /// The record of a frame's end, once it is known.
    End([u8; 5]),
    /// The clock was reached, and nothing more is shown.
    Quiet,
    /// The next turn's instruction is in no row of the instruction table, or it is SPM.
    Stopped,
}

/// Scans an edge, and gives the record that comes with it. Edges come in the order of time: one whose clock is below the
/// last one's is passed over.
pub(crate) fn scan(scanner: &mut Scanner, edge: Edge) -> Shown
    ensures scans { ScansEdge scanner.old scanner.new edge result }
    ensures end { IsEndOf result }
{
    if edge.clock < scanner.clock() {
        return Shown::Quiet;
    }
    match scanner.edge(edge) {
        Scan::More => Shown::Quiet,
        Scan::Line(line) if line.frame == 0 => Shown::Quiet,
        Scan::Line(line) => Shown::Row(row_record(&line, scanner.row())),
        Scan::Frame(frame) => Shown::End(end_record(&frame)),
    }
}
