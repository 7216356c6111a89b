//! The records and the numbers of edges, one by one.

ghost use Rattle.std.specs.Prelude.{◌≡◌, ◌≤◌, [], List, None};
ghost use Rattle.uz_core.specs.declared.machine.Edge.{Edge};
ghost use Rattle.uz_scan.specs.Scanning.{clock_of};
ghost use Rattle.uz_player.specs.Counting.{with_kind};

use crate::counts::Counts;
use uz_core::{Edge, EdgeKind};
use uz_scan::{FrameInfo, LineInfo, Scan, Scanner};

/// Takes edges in the order of time.
#[derive(Drop)]
pub(crate) struct Recorder {
    pub scanner: Scanner,
    pub counts: Counts,
}

/// What a record is of. Its bytes are made where it is handed out: most edges have none, and nothing of a row's size is moved
/// for them.
#[derive(Clone, Copy)]
pub(crate) enum Record {
    /// A line that has ended: its samples are the scanner's row.
    Row(LineInfo),
    /// A frame that has ended.
    End(FrameInfo),
}

impl Recorder {
    ghost use Rattle.uz_player.specs.Seen.{HasSeen, Takes};

    pub fn new() -> Recorder
        ensures seen { HasSeen result [] }
        ensures clock { clock_of result.scanner ≡ 0 }
        ensures entered { result.counts.entered ≡ None }
    {
        Recorder {
            scanner: Scanner::new(),
            counts: Counts {
                entered: None,
                frames: 0,
                rows: 0,
                sync: 0,
                pixels: 0,
                sounds: 0,
            },
        }
    }

    /// Counts an edge by its kind.
    fn count(&mut self, kind: EdgeKind)
        ensures counts { self.new.counts ≡ with_kind kind self.old.counts }
        ensures scanner { self.new.scanner ≡ self.old.scanner }
    {
        match kind {
            EdgeKind::Sync(_) => self.counts.sync = self.counts.sync.wrapping_add(1),
            EdgeKind::Pixel(_) => self.counts.pixels = self.counts.pixels.wrapping_add(1),
            EdgeKind::Sound(_) => self.counts.sounds = self.counts.sounds.wrapping_add(1),
            EdgeKind::Enter(_) => {}
            EdgeKind::Leave => {}
        }
    }

    /// Takes an edge, and gives the record that comes with it. Edges come in the order of time: one whose clock is below
    /// the last one's is passed over.
    pub fn take(&mut self, edge: Edge) -> Option<Record>
        ensures entered { self.new.counts.entered ≡ self.old.counts.entered }
        ensures takes { (seen : List Edge) → Takes self.old self.new edge result seen }
    {
        if edge.clock < self.scanner.clock() {
            return None;
        }
        self.count(edge.kind);
        match self.scanner.edge(edge) {
            Scan::More => None,
            Scan::Line(line) if line.frame == 0 => None,
            Scan::Line(line) => {
                self.counts.rows = self.counts.rows.wrapping_add(1);
                Some(Record::Row(line))
            }
            Scan::Frame(frame) => {
                self.counts.frames = self.counts.frames.wrapping_add(1);
                Some(Record::End(frame))
            }
        }
    }
}
