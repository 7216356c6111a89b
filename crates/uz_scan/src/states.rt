//! What a scanner knows, as plain values.

ghost use Rattle.std.specs.Prelude.{◌≡◌, ◌≤◌, List};
ghost use Rattle.uz_core.specs.declared.machine.Edge.{Edge};
ghost use Rattle.uz_scan.specs.ScanStates.{HasSeen, IsOf, tracker_in};
ghost use Rattle.uz_scan.specs.Scanning.{StandsFor, clock_of};

use crate::sampler::{Sampler, WIDTH};
use crate::scanner::Scanner;
use crate::tracker::Tracker;

/// What a scanner knows.
#[derive(Clone, Copy)]
pub struct ScanState {
    /// The last edge's clock.
    pub clock: u64,
    /// The sync level.
    pub is_high: bool,
    /// The sound value.
    pub sound: u8,
    /// The clock of the fall that began the line, if one has begun.
    pub start: Option<u64>,
    /// Clocks from that fall to the line's rise, once that has come.
    pub low: Option<u64>,
    /// Whether the line before was broad.
    pub after_broad: bool,
    /// Frames that have begun.
    pub frame: u64,
    /// Lines of the frame that have ended.
    pub rows: u64,
    /// PORTC's value.
    pub value: u8,
    /// So many samples of the line are known.
    pub filled: usize,
    pub samples: [u8; 455],
    /// The last ended line's row, or zeros.
    pub row: [u8; 455],
}

/// The line and the frame that run.
fn tracker_of(state: &ScanState) -> Tracker
    ensures { result ≡ tracker_in state.now }
{
    Tracker {
        is_high: state.is_high,
        sound: state.sound,
        start: state.start,
        low: state.low,
        after_broad: state.after_broad,
        frame: state.frame,
        rows: state.rows,
    }
}

/// The samples of the line that runs.
fn sampler_of(state: &ScanState) -> Sampler
    ensures value { result.value ≡ state.now.value }
    ensures filled { state.now.filled ≤ 455 → result.filled ≡ state.now.filled }
    ensures samples { result.samples ≡ state.now.samples }
{
    Sampler {
        value: state.value,
        filled: if state.filled < WIDTH {
            state.filled
        } else {
            WIDTH
        },
        samples: state.samples,
    }
}

impl Sampler {
    /// How many samples are known.
    fn known(&self) -> usize
        ensures value { result ≡ self.now.filled }
        ensures within { result ≤ 455 }
    {
        self.filled
    }
}

impl Scanner {
    /// What it knows.
    #[tactic(auto, using(crate::proofs::ScanStateLaws::seen_by))]
    pub fn state(&self) -> ScanState
        ensures clock { result.clock ≡ clock_of self.now }
        ensures seen { (edges : List Edge) → StandsFor self.now edges → HasSeen result edges }
    {
        self.state_parts()
    }

    fn state_parts(&self) -> ScanState
        ensures { IsOf result self.now }
    {
        ScanState {
            clock: self.clock,
            is_high: self.tracker.is_high,
            sound: self.tracker.sound,
            start: self.tracker.start,
            low: self.tracker.low,
            after_broad: self.tracker.after_broad,
            frame: self.tracker.frame,
            rows: self.tracker.rows,
            value: self.sampler.value,
            filled: self.sampler.known(),
            samples: self.sampler.samples,
            row: self.row,
        }
    }

    /// A scanner that knows this. Where more samples are known than a row has, it knows a row's.
    #[tactic(auto, using(crate::proofs::ScanStateLaws::seen_again))]
    pub fn of_state(state: &ScanState) -> Scanner
        ensures clock { clock_of result ≡ state.now.clock }
        ensures stands { (edges : List Edge) → HasSeen state.now edges → StandsFor result edges }
    {
        Scanner::of_parts(state)
    }

    fn of_parts(state: &ScanState) -> Scanner
        ensures clock { result.clock ≡ state.now.clock }
        ensures parts { state.now.filled ≤ 455 → IsOf state.now result }
    {
        Scanner {
            clock: state.clock,
            tracker: tracker_of(state),
            sampler: sampler_of(state),
            row: state.row,
        }
    }
}
