//! The scanner: edges come one by one, and one line is held.

ghost use Rattle.std.specs.Prelude.{◌≡◌, ◌≤◌, ◌∷◌, [], List};
ghost use Rattle.uz_core.specs.declared.machine.Edge.{Edge};

use crate::records::{FrameInfo, LineInfo};
use crate::sampler::Sampler;
use crate::tracker::Tracker;
use uz_core::{Edge, EdgeKind};

/// What the picture has more with an edge.
#[derive(Clone, Copy)]
pub enum Scan {
    More,
    /// A line has ended: the edge is the fall that begins the next one.
    Line(LineInfo),
    /// A frame has ended: the edge is the rise that shows that the next one began, and its number is the ended one's.
    Frame(FrameInfo),
}

/// Reads edges in the order of time. It holds the last ended line's row and the line that runs.
#[derive(Drop)]
pub struct Scanner {
    /// The last edge's clock.
    pub(crate) clock: u64,
    pub(crate) tracker: Tracker,
    pub(crate) sampler: Sampler,
    /// The last ended line's row, or zeros.
    pub(crate) row: [u8; 455],
}

impl Scanner {
    ghost use Rattle.uz_scan.specs.Pictures.{last_row, shown_by};
    ghost use Rattle.uz_scan.specs.Scanning.{StandsFor, TakesLine, clock_of, synced, sync_shows};

    /// A scanner that has seen no edge: the level is low, the pixel and sound values are 0, and no line has begun.
    pub fn new() -> Scanner
        ensures clock { clock_of result ≡ 0 }
        ensures stands { StandsFor result [] }
    {
        Scanner {
            clock: 0,
            tracker: Tracker::new(),
            sampler: Sampler::new(),
            row: [0; 455],
        }
    }

    /// Takes the next edge, whose clock isn't below the last one's, and says what the picture has more.
    pub fn edge(&mut self, edge: Edge) -> Scan
        requires { clock_of self.old ≤ edge.clock }
        ensures clock { clock_of self.new ≡ edge.clock }
        ensures stands { (edges : List Edge) → StandsFor self.old edges → StandsFor self.new (edge ∷ edges) }
        ensures shown { (edges : List Edge) → StandsFor self.old edges → result ≡ shown_by edge edges }
    {
        self.clock = edge.clock;
        match edge.kind {
            EdgeKind::Sync(value) => self.sync(edge.clock, value != 0),
            EdgeKind::Pixel(value) => {
                self.sampler.pixel(self.tracker.start, edge.clock, value);
                Scan::More
            }
            EdgeKind::Sound(value) => {
                self.tracker.sound = value;
                Scan::More
            }
            EdgeKind::Enter(_) => Scan::More,
            EdgeKind::Leave => Scan::More,
        }
    }

    fn sync(&mut self, clock: u64, level: bool) -> Scan
        ensures clock { self.new.clock ≡ self.old.clock }
        ensures tracker { self.new.tracker ≡ synced clock level self.old.tracker }
        ensures shown { result ≡ sync_shows clock level self.old.tracker }
        ensures line { TakesLine result self.old.sampler self.old.row self.new }
    {
        let shown = self.tracker.sync(clock, level);
        if let Scan::Line(line) = shown {
            self.row = self.sampler.finish(line.length);
        }
        shown
    }

    /// The last edge's clock, or 0.
    pub fn clock(&self) -> u64
        ensures { result ≡ clock_of self.now }
    {
        self.clock
    }

    /// The row of the last ended line, or zeros. Sample k is PORTC's value 4k clocks after the line's start, and 0 where
    /// the line is over.
    pub fn row(&self) -> &[u8; 455]
        ensures { (edges : List Edge) → StandsFor self.now edges → result.now ≡ last_row edges }
    {
        &self.row
    }
}
