//! A refused text.

use std::alloc::AllocError;
use uz_cert_lines::CertWhy;

/// A refused text: its first faulty line, counted from 1, and why. With `Memory` the line is 0.
#[derive(Clone, Copy, Debug)]
pub struct CertError {
    pub line: u32,
    pub why: CertWhy,
}

impl From<AllocError> for CertError {
    ghost use Rattle.std.specs.Prelude.{◌≡◌};
    ghost use Rattle.uz_cert_lines.specs.declared.why.CertWhy.TheVariants.{Memory};

    ghost from_gives = { λ _ e. (e.line ≡ 0) × (e.why ≡ Memory) };

    fn from(_e: AllocError) -> CertError {
        CertError {
            line: 0,
            why: CertWhy::Memory,
        }
    }
}
