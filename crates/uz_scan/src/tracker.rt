//! Sync, lines, frames and sound.

ghost use Rattle.std.specs.Prelude.{◌≡◌, []};
ghost use Rattle.uz_scan.specs.Scanning.{Tracks, broad, fallen, frame_until, line_until, risen, sync_shows, synced};

use crate::records::{FrameInfo, LineInfo};
use crate::scanner::Scan;

/// A low time of so many clocks or more is a broad pulse (this project's profile).
const BROAD: u64 = 300;

/// What is known of the line and the frame that run.
#[derive(Clone, Copy)]
pub(crate) struct Tracker {
    pub is_high: bool,
    pub sound: u8,
    /// The clock of the fall that began the line, if one has begun.
    pub start: Option<u64>,
    /// Clocks from that fall to the line's rise, once that has come.
    pub low: Option<u64>,
    /// Whether the line before was broad.
    pub after_broad: bool,
    /// Frames that have begun.
    pub frame: u64,
    /// Lines of the frame that have ended.
    pub rows: u64,
}

fn is_broad(low: Option<u64>) -> bool
    ensures { result ≡ broad low }
{
    match low {
        Some(clocks) => clocks >= BROAD,
        None => false,
    }
}

impl Tracker {
    pub fn new() -> Tracker
        ensures { Tracks result [] }
    {
        Tracker {
            is_high: false,
            sound: 0,
            start: None,
            low: None,
            after_broad: false,
            frame: 0,
            rows: 0,
        }
    }

    /// Takes a sync edge, and says whether it ends a line or a frame.
    pub fn sync(&mut self, clock: u64, level: bool) -> Scan
        ensures state { self.new ≡ synced clock level self.old }
        ensures shown { result ≡ sync_shows clock level self.old }
    {
        match (self.is_high, level) {
            (true, false) => self.fall(clock),
            (false, true) => self.rise(clock),
            (true, true) => Scan::More,
            (false, false) => Scan::More,
        }
    }

    /// A fall ends the line that runs and begins the next one.
    fn fall(&mut self, clock: u64) -> Scan
        ensures state { self.new ≡ fallen clock self.old }
        ensures shown { result ≡ line_until clock self.old self.old.start }
    {
        let ended = self.line_until(clock);
        if self.start.is_some() && self.frame > 0 {
            self.rows = self.rows.wrapping_add(1);
        }
        self.is_high = false;
        self.after_broad = is_broad(self.low);
        self.start = Some(clock);
        self.low = None;
        ended
    }

    fn line_until(&self, clock: u64) -> Scan
        ensures { result ≡ line_until clock self.now self.now.start }
    {
        match self.start {
            None => Scan::More,
            Some(start) => Scan::Line(LineInfo {
                frame: self.frame,
                row: self.rows,
                length: clock.saturating_sub(start),
                low: self.low.unwrap_or(0),
                sound: self.sound,
            }),
        }
    }

    /// A rise tells the line's low time, and so whether a frame begins with it.
    fn rise(&mut self, clock: u64) -> Scan
        ensures state { self.new ≡ risen clock self.old }
        ensures shown { result ≡ frame_until clock self.old }
    {
        let low = self.start.map(|start| clock.saturating_sub(start));
        self.is_high = true;
        self.low = low;
        if is_broad(low) || !self.after_broad {
            return Scan::More;
        }
        let over = FrameInfo {
            frame: self.frame,
            rows: self.rows,
        };
        self.frame = self.frame.wrapping_add(1);
        self.rows = 0;
        if over.frame > 0 {
            Scan::Frame(over)
        } else {
            Scan::More
        }
    }
}
