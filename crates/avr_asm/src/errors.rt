//! Why a source is refused.

ghost use Rattle.std.specs.Prelude.{◌≡◌, ◌⊎◌};
ghost use Rattle.avr_text.specs.declared.errors.AsmWhy.TheVariants.{Memory};

use avr_text::AsmWhy;
use std::alloc::{AllocError, AllocFailed};

/// The fault for which a source is refused.
#[derive(Clone, Copy, Debug)]
pub struct AsmError {
    /// The line, counted from 1; 0 for want of memory.
    pub line: u32,
    /// What is wrong there.
    pub why: AsmWhy,
}

impl AsmError {
    /// The fault of a line, counted from 1. Want of memory is no line's.
    pub(crate) fn in_line(line: u32, why: AsmWhy) -> AsmError
        ensures why { result.why ≡ why }
        ensures line { (why ≡ Memory) ⊎ (result.line ≡ line) }
        ensures memory { result.why ≡ Memory → result.line ≡ 0 }
    {
        match why {
            AsmWhy::Memory => AsmError { line: 0, why },
            _ => AsmError { line, why },
        }
    }
}

impl From<AllocError> for AsmError {
    ghost use Rattle.std.specs.Prelude.{◌≡◌};
    ghost use Rattle.avr_text.specs.declared.errors.AsmWhy.TheVariants.{Memory};

    ghost from_gives = { λ _ e. (e.why ≡ Memory) × (e.line ≡ 0) };

    fn from(_e: AllocError) -> AsmError {
        AsmError {
            line: 0,
            why: AsmWhy::Memory,
        }
    }
}

impl<T: Drop> From<AllocFailed<T>> for AsmError {
    ghost use Rattle.std.specs.Prelude.{◌≡◌};
    ghost use Rattle.avr_text.specs.declared.errors.AsmWhy.TheVariants.{Memory};

    ghost from_gives = { λ _ e. (e.why ≡ Memory) × (e.line ≡ 0) };

    fn from(_e: AllocFailed<T>) -> AsmError {
        AsmError {
            line: 0,
            why: AsmWhy::Memory,
        }
    }
}
