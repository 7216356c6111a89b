//! Reading a pad file.

ghost use Rattle.std.specs.Prelude.{◌≡◌, ◌<◌, ◌-◌, ◌^◌, ◌⊎◌, IfOk, IfErr, length, map};
ghost use Rattle.uz_hex.specs.Lines.{lines_of, lines_of_pieces};
ghost use Rattle.uz_pads.specs.Lines.{IsRead, IsFirstFault};
ghost use Rattle.uz_pads.specs.declared.errors.PadWhy.TheVariants.{Memory};

use crate::errors::{PadError, PadWhy};
use crate::lines::{Line, line_kind};
use crate::pads::Pad;
use std::alloc::Global;
use uz_hex::{line_at, pieces};

/// The greatest number of pairs in a file.
const MAX_PAIRS: usize = 65_536;

/// Reads the lines that pieces of a text are.
#[tactic(auto, using(crate::proofs::LineLemmas::readings))]
fn read_pieces(alloc: Global, pieces: &[&[u8]]) -> Result<Vec<Pad>, PadError>
    requires { length pieces.now < 2 ^ 32 }
    ensures read { IfOk result (λ list. IsRead (lines_of_pieces (map (λ piece. piece.now) pieces.now)) list.items) }
    ensures refused { IfErr result (λ e. (e.why ≡ Memory)
        ⊎ IsFirstFault (lines_of_pieces (map (λ piece. piece.now) pieces.now)) e.line e.why) }
    ensures memory { IfErr result (λ e. e.why ≡ Memory → e.line ≡ 0) }
{
    let mut list = Vec::new(alloc);
    for at in 0..pieces.len() {
        let line = at as u32 + 1;
        match line_kind(line_at(pieces, at)) {
            Line::Blank => {}
            Line::Pair(pad) => {
                if list.len() == MAX_PAIRS {
                    return Err(PadError {
                        line,
                        why: PadWhy::Count,
                    });
                }
                list.push(pad)?;
            }
            Line::Faulty => {
                return Err(PadError {
                    line,
                    why: PadWhy::Digits,
                });
            }
        }
    }
    Ok(list)
}

/// Reads a pad file: lines that end in LF or CRLF, each blank (nothing but spaces and tabs) or four hexadecimal
/// digits, one space, four hexadecimal digits. Digits are of either case. The answer is the pairs in order, or the
/// first faulty line: `Digits` where it is neither blank nor a pair, `Count` where it holds pair number 65,537.
/// `Memory` may come at any point, and its line is 0.
pub fn read_pads(alloc: Global, text: &[u8]) -> Result<Vec<Pad>, PadError>
    requires { length text.now < 2 ^ 32 - 1 }
    ensures read { IfOk result (λ list. IsRead (lines_of text.now) list.items) }
    ensures refused { IfErr result (λ e. (e.why ≡ Memory) ⊎ IsFirstFault (lines_of text.now) e.line e.why) }
    ensures memory { IfErr result (λ e. e.why ≡ Memory → e.line ≡ 0) }
{
    let pieces = pieces(alloc, text)?;
    read_pieces(alloc, pieces.as_slice())
}
