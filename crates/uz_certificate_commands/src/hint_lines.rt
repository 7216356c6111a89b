//! What is told of a hint at fault, or of a missing one.

ghost use Rattle.std.specs.Prelude.{◌≡◌, IfOk};
ghost use Rattle.avr_asm.specs.SourceMap.{hint_lines_of};
ghost use Rattle.uz_certificate_commands.specs.HintLines.{broken_lines as lines_of_broken, fault_text as text_of_fault};
ghost use Rattle.uz_certificate_commands.specs.HintLines.{hint_text as text_of_hint, line_of as line_of_text};
ghost use Rattle.uz_certificate_commands.specs.HintLines.{missing_line as line_of_missing, place_line as line_of_place};
ghost use Rattle.uz_certificate_commands.specs.HintedValues.{hints_seen};

use crate::hinted::HintsRead;
use std::alloc::{AllocError, Global};
use uz_files::{put_number, put_value};
use uz_hex::{line_at, pieces};
use uz_paths::Rule;
use uz_program_commands::{name_at, origin_of};

/// The line of a text by its number, counted from 1, without its end; empty if there is none.
fn line_of(alloc: Global, text: &[u8], line: u32) -> Result<Vec<u8>, AllocError>
    ensures { IfOk result (λ told. told.items ≡ line_of_text text.now line) }
{
    let pieces = pieces(alloc, text)?;
    let at = line.saturating_sub(1) as usize;
    if at < pieces.len() {
        Vec::from_slice(alloc, line_at(pieces.as_slice(), at))
    } else {
        Ok(Vec::new(alloc))
    }
}

/// The place and the text of a hint's flat line.
#[tactic(auto, unfolding(crate::specs::HintLines::place_line))]
fn place_line(alloc: Global, hints: &HintsRead, line: u32) -> Result<Vec<u8>, AllocError>
    ensures { IfOk result (λ text. text.items ≡ line_of_place (hints_seen hints.now) line) }
{
    let source = &hints.source;
    let at = origin_of(source.flat.origins.as_slice(), line);
    let name = name_at(source.names.as_slice(), at.file as usize);
    let told = line_of(alloc, source.flat.text.as_slice(), line)?;
    let mut text = Vec::new(alloc);
    put_value(&mut text, b"hint ", name.as_bytes())?;
    put_number(&mut text, b" line ", u64::from(at.line))?;
    put_value(&mut text, b": ", told.as_slice())?;
    text.extend_from_slice(b"\n")?;
    Ok(text)
}

/// The line that tells a missing hint.
fn missing_line(alloc: Global, rule: Rule) -> Result<Vec<u8>, AllocError>
    ensures { IfOk result (λ text. text.items ≡ line_of_missing rule) }
{
    let mut text = Vec::new(alloc);
    put_value(&mut text, b"hint missing: ", rule.words().as_bytes())?;
    text.extend_from_slice(b"\n")?;
    Ok(text)
}

/// The lines that tell a hint at fault: where it stands, and which rule it breaks.
fn broken_lines(
    alloc: Global,
    hints: &HintsRead,
    line: u32,
    rule: Rule,
) -> Result<Vec<u8>, AllocError>
    ensures { IfOk result (λ text. text.items ≡ lines_of_broken (hints_seen hints.now) line rule) }
{
    let mut text = place_line(alloc, hints, line)?;
    put_value(&mut text, b"hint breaks: ", rule.words().as_bytes())?;
    text.extend_from_slice(b"\n")?;
    Ok(text)
}

/// What is told of a hint at fault, by its flat line, or of a missing one.
fn fault_text(
    alloc: Global,
    hints: &HintsRead,
    line: Option<u32>,
    rule: Rule,
) -> Result<Vec<u8>, AllocError>
    ensures { IfOk result (λ text. text.items ≡ text_of_fault (hints_seen hints.now) line rule) }
{
    match line {
        None => missing_line(alloc, rule),
        Some(line) => broken_lines(alloc, hints, line, rule),
    }
}

/// What is told of the hint of an index, counted from 0, that breaks a rule, or of a missing one. The flat lines of the hints
/// are handed in.
pub(crate) fn hint_text(
    alloc: Global,
    hints: &HintsRead,
    lines: &[u32],
    index: u32,
    rule: Rule,
) -> Result<Vec<u8>, AllocError>
    requires { lines.now ≡ hint_lines_of hints.now.source.flat.text.items }
    ensures { IfOk result (λ text. text.items ≡ text_of_hint (hints_seen hints.now) index rule) }
{
    fault_text(alloc, hints, lines.get(index as usize).copied(), rule)
}
