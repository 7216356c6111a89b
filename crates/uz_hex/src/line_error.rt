//! The first faulty line of a text.

use std::alloc::{AllocError, AllocFailed};

/// The causes for which lines of a text are refused, with one for want of memory.
pub trait LineWhy {
    ghost use Rattle.std.specs.Prelude.{◌≡◌};

    /// Memory ran out. This says nothing of the text.
    ghost memory: { Self };

    /// The cause for want of memory.
    fn memory() -> Self
        ensures { result ≡ memory };
}

/// The first faulty line, counted from 1, and why it is refused. Where memory ran out the line is 0.
#[derive(Clone, Copy, Debug)]
pub struct LineError<W> {
    pub line: u32,
    pub why: W,
}

impl<W: LineWhy> From<AllocError> for LineError<W> {
    ghost use Rattle.std.specs.Prelude.{◌≡◌};

    ghost from_gives = { λ _ e. (e.line ≡ 0) × (e.why ≡ W.memory) };

    fn from(_e: AllocError) -> LineError<W> {
        LineError {
            line: 0,
            why: W::memory(),
        }
    }
}

impl<T: Drop, W: LineWhy> From<AllocFailed<T>> for LineError<W> {
    ghost use Rattle.std.specs.Prelude.{◌≡◌};

    ghost from_gives = { λ _ e. (e.line ≡ 0) × (e.why ≡ W.memory) };

    fn from(_e: AllocFailed<T>) -> LineError<W> {
        LineError {
            line: 0,
            why: W::memory(),
        }
    }
}
