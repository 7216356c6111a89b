//! The lines that tell what hints a run gives, or why it gives none.

ghost use Rattle.std.specs.Prelude.{◌≡◌, ◌++◌, IfOk, codes, filter, length};
ghost use Rattle.uz_program_commands.specs.HintsCommand.{cell_count, fact_count, frame_lines, hints_line as line_of_hints};
ghost use Rattle.uz_program_commands.specs.HintsCommand.{is_cell, is_fact, no_hints_line, why_lines};

use avr_asm::Hint;
use std::alloc::{AllocError, Global};
use uz_files::{put_number, stop_line};
use uz_proposal::{NoHints, Remarked, frame_text};

/// The lines of the frame that some hints name: those of the first that does, 0 where none does.
fn lines_named(hints: &[Remarked]) -> u16
    ensures { result ≡ frame_lines hints.now }
{
    for remarked in hints {
        if let Hint::Lines { lines, .. } = remarked.hint {
            return lines;
        }
    }
    0
}

/// Whether a hint is a `.fact`.
fn is_of_fact(hint: Hint) -> bool
    ensures { result ≡ is_fact hint }
{
    matches!(hint, Hint::Fact { .. })
}

/// Whether a hint is a `.cell`.
fn is_of_cell(hint: Hint) -> bool
    ensures { result ≡ is_cell hint }
{
    matches!(hint, Hint::Cell { .. })
}

/// How many `.fact` there are.
fn count_facts(hints: &[Remarked]) -> usize
    ensures { result ≡ fact_count hints.now }
{
    let mut count = 0;
    for remarked in hints {
        if is_of_fact(remarked.hint) {
            count += 1;
        }
    }
    count
}

/// How many `.cell` there are.
fn count_cells(hints: &[Remarked]) -> usize
    ensures { result ≡ cell_count hints.now }
{
    let mut count = 0;
    for remarked in hints {
        if is_of_cell(remarked.hint) {
            count += 1;
        }
    }
    count
}

/// The line that tells the numbers of some hints.
pub(crate) fn hints_line(alloc: Global, hints: &[Remarked]) -> Result<Vec<u8>, AllocError>
    ensures { IfOk result (λ line. line.items ≡ line_of_hints hints.now) }
{
    let mut line = Vec::new(alloc);
    put_number(&mut line, b"hints ", u64::from(lines_named(hints)))?;
    put_number(&mut line, b" lines ", count_facts(hints) as u64)?;
    put_number(&mut line, b" facts ", count_cells(hints) as u64)?;
    line.extend_from_slice(b" cells\n")?;
    Ok(line)
}

/// Puts the line that says why there are no hints behind others.
pub(crate) fn no_hints(mut lines: Vec<u8>, why: &[u8]) -> Result<Vec<u8>, AllocError>
    ensures { IfOk result (λ all. all.items ≡ lines.items ++ no_hints_line why.now) }
{
    lines.extend_from_slice(b"no hints ")?;
    lines.extend_from_slice(why)?;
    lines.extend_from_slice(b"\n")?;
    Ok(lines)
}

/// The lines that say why a run gives no hints: numbers on lines of their own, and then the cause.
pub(crate) fn why_none(alloc: Global, why: NoHints) -> Result<Vec<u8>, AllocError>
    ensures { IfOk result (λ lines. lines.items ≡ why_lines why) }
{
    match why {
        NoHints::Stopped { pc, why } => no_hints(stop_line(alloc, pc, why)?, b"Stopped"),
        NoHints::Frame(found) => no_hints(frame_text(alloc, &found)?, b"Frame"),
        NoHints::Loop => no_hints(Vec::new(alloc), b"Loop"),
        NoHints::Fall => no_hints(Vec::new(alloc), b"Fall"),
        NoHints::Memory => Ok(Vec::new(alloc)),
    }
}
