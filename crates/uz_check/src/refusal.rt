//! Which item of a certificate refuses it.

use uz_transfer::Fail;

/// The first failing item of a pair of an image and a certificate: the schedule by line and clock, rests by line, the
/// entry, then points by number, line and count.
#[derive(Clone, Copy, Debug, PartialEq, Eq)]
pub enum RefusedWhy {
    /// The line's first event isn't sync 0 at the schedule's fall (`clock` is that event's), or a later event of it is
    /// sync 0 (`clock` is the first such event's).
    Schedule {
        /// The line, counted from 0.
        line: u16,
        /// The clock of the line.
        clock: u16,
    },
    /// The rest's clock isn't one of its line, the handler's return doesn't stand there, an event stands after it on its
    /// line or on the next line where an interrupt may come, or the handler's first state doesn't lie in the vector's
    /// point.
    Rest {
        /// The line, counted from 0.
        line: u16,
    },
    /// The entry is main's and there is no rest, or its state lies in no instance of its point.
    Entry,
    /// An instance of a point breaks the local rule.
    Point {
        /// The point's number, counted from 0.
        id: u32,
        /// The line of the instance.
        l: u16,
        /// The count of the instance.
        c: u8,
        /// The least reason that stands.
        why: Fail,
    },
}
