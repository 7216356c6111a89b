//! The abstract results of an instance.

ghost use Rattle.std.specs.Prelude.{◌≡◌, None, false, []};

use arrayvec::ArrayVec;
use uz_schedule::{EventKind, Instance};

/// What an instruction makes of an instance.
#[derive(Drop)]
pub struct Next {
    /// What is emitted, and how many clocks after the start: at the instruction's end. RETI emits a leave.
    pub emit: Option<(u8, EventKind)>,
    /// Whether the instruction is RETI. Then `out` holds the one state at its end.
    pub back: bool,
    /// The results: one, two of an undecided branch or skip, or one for each target of an indirect jump.
    pub out: ArrayVec<Instance, 16>,
}

impl Next {
    /// No results, nothing emitted, not RETI: to begin with, where results are put in place of others.
    pub fn empty() -> Next
        ensures { result ≡ record { emit = None; back = false; out = record { items = [] } } }
    {
        Next {
            emit: None,
            back: false,
            out: ArrayVec::new(),
        }
    }
}
