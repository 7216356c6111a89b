//! Why a run gives no hints.

use std::alloc::AllocError;
use uz_core::Why;

/// Lines that make no frame.
#[derive(Clone, Copy, Debug)]
pub struct NoFrame {
    /// How many they are.
    pub lines: u32,
    /// The clocks between the last falls of sync, the last ones last; 0 where there are fewer.
    pub apart: [u32; 4],
    /// Whether the run may be too short for two frames.
    pub short: bool,
}

/// Why a run gives no hints.
#[derive(Clone, Copy, Debug)]
pub enum NoHints {
    /// There was not enough memory.
    Memory,
    /// The run stops at a pc.
    Stopped { pc: u16, why: Why },
    /// The lines have no frame of at most 525 lines that came twice, or one of a line that is no scanline and no half line.
    Frame(NoFrame),
    /// No instruction of main came twice at the greatest SP.
    Loop,
    /// Sync doesn't fall.
    Fall,
}

impl From<AllocError> for NoHints {
    ghost use Rattle.std.specs.Prelude.{◌≡◌};
    ghost use Rattle.uz_proposal.specs.declared.no_hints.NoHints.TheVariants.{Memory};

    ghost from_gives = { λ _ error. error ≡ Memory };

    fn from(_e: AllocError) -> NoHints {
        NoHints::Memory
    }
}
