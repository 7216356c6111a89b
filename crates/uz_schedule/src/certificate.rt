//! A whole certificate.

use crate::header::Head;
use crate::lines::Schedule;
use crate::sequence::Sequence;
use crate::states::{Entry, Point, Rest};

/// The claim that a program keeps the timing of a frame's lines, with what shows it.
#[derive(Drop)]
pub struct Cert {
    /// What is said once.
    pub head: Head,
    /// The events that each line has.
    pub schedule: Schedule,
    /// Where the handler returns, for lines with a rest, lines rising.
    pub rests: Sequence<Rest>,
    /// Where runs enter.
    pub entry: Entry,
    /// The points, numbered from 0.
    pub points: Sequence<Point>,
}
