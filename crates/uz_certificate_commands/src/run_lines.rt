//! The lines of a run that is played.

ghost use Rattle.std.specs.Prelude.{◌≡◌, ◌++◌, IfOk, OnOk};
ghost use Rattle.uz_certificate_commands.specs.Runs.{entered_line, not_entered_line};
ghost use Rattle.uz_certificate_commands.specs.RunValues.{counts_text, edge_counts, end_status, end_text, over_status, over_text};

use std::alloc::{AllocError, Global};
use uz_files::{Ending, Status, put_number, stop_line_at};
use uz_player::{Captured, Counts, RunEnd};

/// Adds the numbers of the run.
fn push_counts(text: &mut Vec<u8>, counts: Counts) -> Result<(), AllocError>
    ensures { OnOk result (text.new.items ≡ text.old.items ++ counts_text counts) }
{
    put_number(text, b"frames ", u64::from(counts.frames))?;
    put_number(text, b" rows ", u64::from(counts.rows))?;
    push_edge_counts(text, counts)
}

fn push_edge_counts(text: &mut Vec<u8>, counts: Counts) -> Result<(), AllocError>
    ensures { OnOk result (text.new.items ≡ text.old.items ++ edge_counts counts) }
{
    put_number(text, b" sync ", u64::from(counts.sync))?;
    put_number(text, b" pixels ", u64::from(counts.pixels))?;
    put_number(text, b" sounds ", u64::from(counts.sounds))?;
    text.extend_from_slice(b"\n")
}

/// The first state that meets the entry condition: its clock and line.
fn entered_line(alloc: Global, clock: u64, line: u16) -> Result<Vec<u8>, AllocError>
    ensures { IfOk result (λ text. text.items ≡ entered_line clock line) }
{
    let mut text = Vec::new(alloc);
    put_number(&mut text, b"entered clock ", clock)?;
    put_number(&mut text, b" line ", u64::from(line))?;
    text.extend_from_slice(b"\n")?;
    Ok(text)
}

/// The lines of a run that is over.
fn over_text(alloc: Global, counts: Counts) -> Result<Vec<u8>, AllocError>
    ensures { IfOk result (λ text. text.items ≡ over_text counts.entered counts) }
{
    match counts.entered {
        Some((clock, line)) => {
            let mut text = entered_line(alloc, clock, line)?;
            push_counts(&mut text, counts)?;
            Ok(text)
        }
        None => {
            let mut text = Vec::new(alloc);
            text.extend_from_slice(b"not entered\n")?;
            Ok(text)
        }
    }
}

/// The status of a run that is over.
fn over_status_of(counts: Counts) -> Status
    ensures { result ≡ over_status counts.entered }
{
    match counts.entered {
        Some(_) => Status::Done,
        None => Status::NotEntered,
    }
}

/// The status and the lines of a run whose records are written.
pub fn ending_of(alloc: Global, captured: Captured) -> Result<Ending, AllocError>
    ensures { IfOk result (λ e. (e.status ≡ end_status captured.end captured.counts)
        × (e.line.items ≡ end_text captured.end captured.counts)) }
{
    match captured.end {
        RunEnd::Stopped { pc, word } => Ok(Ending {
            status: Status::Stopped,
            line: stop_line_at(alloc, pc, word)?,
        }),
        RunEnd::Over => Ok(Ending {
            status: over_status_of(captured.counts),
            line: over_text(alloc, captured.counts)?,
        }),
    }
}
