//! The lines of the head at the end of a text.

ghost use Rattle.std.specs.Prelude.{◌≡◌, ◌<◌, ◌++◌, ◌^◌, OnOk, length, map};
ghost use Rattle.uz_cert_writer.specs.Joined.{ended, line_end};
ghost use Rattle.uz_schedule.specs.WellFormed.{WellFormed};
ghost use Rattle.uz_cert_writer.specs.Spelling.{size_words, irq_words, stack_words, owner_word, cell_words, line_of};

use crate::words::{add_number, add_numbers, add_word, end_line};
use std::alloc::AllocError;
use uz_schedule::{Cell, Cert, Head, Owner};

/// Adds `size KINDS LINES RESTS POINTS CELLS`.
pub(crate) fn add_size(text: &mut Vec<u8>, cert: &Cert) -> Result<(), AllocError>
    requires { WellFormed cert.now }
    ensures { OnOk result (text.new.items ≡ text.old.items ++ line_end (size_words cert.now)) }
{
    text.extend_from_slice(b"size")?;
    add_numbers(
        text,
        &[
            cert.schedule.kinds.len() as u32,
            cert.schedule.lines.len() as u32,
            cert.rests.len() as u32,
            cert.points.len() as u32,
            cert.head.cells.len() as u32,
        ],
    )?;
    end_line(text)
}

/// Adds `irq R`.
pub(crate) fn add_irq(text: &mut Vec<u8>, head: &Head) -> Result<(), AllocError>
    ensures { OnOk result (text.new.items ≡ text.old.items ++ line_end (irq_words head.now)) }
{
    text.extend_from_slice(b"irq")?;
    add_number(text, u32::from(head.irq.clocks()))?;
    end_line(text)
}

/// Adds `stack LO HI MAIN HANDLER`.
pub(crate) fn add_stack(text: &mut Vec<u8>, head: &Head) -> Result<(), AllocError>
    ensures { OnOk result (text.new.items ≡ text.old.items ++ line_end (stack_words head.now)) }
{
    text.extend_from_slice(b"stack")?;
    add_numbers(
        text,
        &[
            u32::from(head.lo),
            u32::from(head.hi),
            u32::from(head.main),
            u32::from(head.handler),
        ],
    )?;
    end_line(text)
}

/// The word of an owner.
fn owner(owner: Owner) -> &'static [u8]
    ensures { result.now ≡ owner_word owner }
{
    match owner {
        Owner::Main => b"main",
        Owner::Handler => b"handler",
    }
}

/// Adds `cell ADDRESS OWNER LO HI`.
fn add_cell_line(text: &mut Vec<u8>, cell: &Cell) -> Result<(), AllocError>
    ensures { OnOk result (text.new.items ≡ text.old.items ++ line_end (cell_words cell.now)) }
{
    text.extend_from_slice(b"cell")?;
    add_number(text, u32::from(cell.at))?;
    add_word(text, owner(cell.owner))?;
    add_numbers(
        text,
        &[u32::from(cell.range.lo()), u32::from(cell.range.hi())],
    )?;
    end_line(text)
}

/// Adds the lines of the cells.
pub(crate) fn add_cell_lines(text: &mut Vec<u8>, cells: &[Cell]) -> Result<(), AllocError>
    ensures { OnOk result (text.new.items ≡ text.old.items ++ ended (map (λ m. line_of (cell_words m)) cells.now)) }
{
    for cell in cells {
        add_cell_line(text, cell)?;
    }
    Ok(())
}
