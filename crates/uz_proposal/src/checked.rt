//! The source of some hints, tried by the assembler.

ghost use Rattle.std.specs.Prelude.{◌≡◌, ◌<◌, ◌≤◌, ◌^◌, [], IfOk, IfSome, IsTrue, length};
ghost use Rattle.std.specs.FinMap as map;
ghost use Rattle.uz_proposal.specs.Sources.{IsSilent, PutsOutNothing, most_bytes};
ghost use Rattle.uz_proposal.specs.Text.{source_of};

use crate::remarks::Remarked;
use crate::text::hint_source;
use avr_asm::{AsmError, AsmWhy, Built, assemble};
use std::alloc::{AllocError, Global};

/// The most bytes of a source of hints: 1 MiB.
const MOST_BYTES: usize = 1 << 20;

/// Whether there is no instruction and no byte.
fn is_empty(built: &Built) -> bool
    ensures { IsTrue result → IsSilent built.now }
{
    built.items.is_empty() && built.image.count() == 0
}

/// Whether the assembler takes a source, and puts out nothing for it.
#[tactic(auto, using(crate::proofs::SourceLemmas::silent))]
fn puts_out_nothing(alloc: Global, text: &[u8]) -> Result<bool, AllocError>
    ensures nothing { IfOk result (λ nothing. IsTrue nothing → PutsOutNothing text.now) }
    ensures short { IfOk result (λ nothing. IsTrue nothing → length text.now ≤ most_bytes) }
{
    if text.len() > MOST_BYTES {
        return Ok(false);
    }
    match assemble(alloc, text) {
        Ok(built) => Ok(is_empty(&built)),
        Err(
            AsmError {
                why: AsmWhy::Memory,
                ..
            },
        ) => Err(AllocError),
        Err(_) => Ok(false),
    }
}

/// The source of some hints, as `hint_source` writes it, of at most 1 MiB. `None` comes where it is longer, where the assembler doesn't
/// take it, and where that puts out an instruction or a byte for it. The one error is want of memory.
pub fn checked_source(alloc: Global, hints: &[Remarked]) -> Result<Option<Vec<u8>>, AllocError>
    ensures source { IfOk result (λ some. IfSome some (λ text. text.items ≡ source_of hints.now)) }
    ensures silent { IfOk result (λ some. IfSome some (λ text. PutsOutNothing text.items)) }
    ensures short { IfOk result (λ some. IfSome some (λ text. length text.items ≤ most_bytes)) }
{
    let text = hint_source(alloc, hints)?;
    if puts_out_nothing(alloc, text.as_slice())? {
        Ok(Some(text))
    } else {
        Ok(None)
    }
}
