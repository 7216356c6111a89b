//! Reading a script.

ghost use Rattle.std.specs.Prelude.{◌≡◌, ◌<◌, ◌-◌, ◌^◌, ◌⊎◌, All, IfOk, IfErr, length, map};
ghost use Rattle.uz_hex.specs.Lines.{lines_of, lines_of_pieces};
ghost use Rattle.uz_debug.specs.Scripts.{IsFirstFault, IsLineInRange, IsScript, kind_of};
ghost use Rattle.uz_debug.specs.Sessions.{IsInRange};
ghost use Rattle.uz_debug.specs.declared.errors.ScriptWhy.TheVariants.{Memory};

use crate::command::Command;
use crate::errors::{ScriptError, ScriptWhy};
use crate::script_lines::{Line, line_kind, words};
use std::alloc::{AllocError, Global};
use uz_hex::{line_at, pieces};

/// The greatest number of commands in a script.
const MOST_COMMANDS: usize = 65_536;

/// What a line is.
fn kind(alloc: Global, line: &[u8]) -> Result<Line, AllocError>
    ensures line { IfOk result (λ kind. kind ≡ kind_of line.now) }
    ensures range { IfOk result IsLineInRange }
{
    let words = words(alloc, line)?;
    Ok(line_kind(words.as_slice()))
}

/// Reads the lines that pieces of a text are.
#[tactic(auto, using(crate::proofs::ScriptLemmas::readings))]
fn read_pieces(alloc: Global, pieces: &[&[u8]]) -> Result<Vec<Command>, ScriptError>
    requires { length pieces.now < 2 ^ 32 }
    ensures read { IfOk result (λ list. IsScript (lines_of_pieces (map (λ piece. piece.now) pieces.now)) list.items) }
    ensures range { IfOk result (λ list. All IsInRange list.items) }
    ensures refused { IfErr result (λ e. (e.why ≡ Memory)
        ⊎ IsFirstFault (lines_of_pieces (map (λ piece. piece.now) pieces.now)) e.line e.why) }
    ensures memory { IfErr result (λ e. e.why ≡ Memory → e.line ≡ 0) }
{
    let mut list = Vec::new(alloc);
    for at in 0..pieces.len() {
        let line = at as u32 + 1;
        match kind(alloc, line_at(pieces, at))? {
            Line::Blank => {}
            Line::Command(command) => {
                if list.len() == MOST_COMMANDS {
                    return Err(ScriptError {
                        line,
                        why: ScriptWhy::Count,
                    });
                }
                list.push(command)?;
            }
            Line::Faulty(why) => return Err(ScriptError { line, why }),
        }
    }
    Ok(list)
}

/// Reads a script: lines that end in LF or CRLF, each blank or one command of lower-case words that stand apart by spaces and
/// tabs. `step N`, `run N` and `back N` have N 1 to 100,000,000; `break PC` and `clear PC` PC below 32,768; `save I` and
/// `load I` I 0 to 9; `show` has no number; `mem A N` has A up to 65,535 and N 1 to 16. Numbers are decimal without
/// leading zeros. The answer is the commands in order, each within its ranges, or the first faulty line with the least number of
/// what is wrong with it. `Memory` may come at any point, and its line is 0.
pub fn read_script(alloc: Global, text: &[u8]) -> Result<Vec<Command>, ScriptError>
    requires { length text.now < 2 ^ 32 - 1 }
    ensures read { IfOk result (λ list. IsScript (lines_of text.now) list.items) }
    ensures range { IfOk result (λ list. All IsInRange list.items) }
    ensures refused { IfErr result (λ e. (e.why ≡ Memory) ⊎ IsFirstFault (lines_of text.now) e.line e.why) }
    ensures memory { IfErr result (λ e. e.why ≡ Memory → e.line ≡ 0) }
{
    let pieces = pieces(alloc, text)?;
    read_pieces(alloc, pieces.as_slice())
}
