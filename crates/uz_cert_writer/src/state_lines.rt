//! The lines of rests, of the entry and of points at the end of a text.

ghost use Rattle.std.specs.Prelude.{◌≡◌, ◌≤◌, ◌++◌, OnOk, length, map};
ghost use Rattle.uz_cert_writer.specs.Joined.{ended, line_end, spaced, rest_text, entry_place, entry_facts, entry_text};
ghost use Rattle.uz_cert_writer.specs.Joined.{point_box, point_steps, point_place, core_text, memory_text, point_text};
ghost use Rattle.uz_cert_writer.specs.Spelling.{ends_word, rest_words, kind_word, entry_words, truth_word, point_words, line_of};

use crate::facts::add_span;
use crate::items::{
    add_cells, add_flags, add_onward, add_pairs, add_registers, add_slots, facts_of,
};
use crate::words::{add_byte, add_number, add_numbers, add_signed, add_word, end_line};
use std::alloc::AllocError;
use uz_schedule::{Cell, Entry, Kind, Point, Rest, Span};

/// Adds ranges, each with a space before it.
fn add_spans(text: &mut Vec<u8>, spans: &[Span]) -> Result<(), AllocError>
    ensures { OnOk result (text.new.items ≡ text.old.items ++ spaced (map (ends_word 255) spans.now)) }
{
    for span in spans {
        add_byte(text, b' ')?;
        add_span(text, span)?;
    }
    Ok(())
}

/// Adds the words of a rest's line, and its LF.
fn add_rest_words(text: &mut Vec<u8>, rest: &Rest) -> Result<(), AllocError>
    ensures { OnOk result (text.new.items ≡ text.old.items ++ rest_text rest.now) }
{
    text.extend_from_slice(b"rest")?;
    add_numbers(
        text,
        &[u32::from(rest.line), u32::from(rest.clock), rest.vector],
    )?;
    add_spans(text, rest.cells.as_slice())?;
    end_line(text)
}

/// Adds `rest LINE CLOCK VECTOR SPANS`.
fn add_rest(text: &mut Vec<u8>, rest: &Rest) -> Result<(), AllocError>
    ensures { OnOk result (text.new.items ≡ text.old.items ++ line_end (rest_words rest.now)) }
{
    add_rest_words(text, rest)?;
    Ok(())
}

/// Adds the lines of rests.
pub(crate) fn add_rests(text: &mut Vec<u8>, rests: &[Rest]) -> Result<(), AllocError>
    ensures { OnOk result (text.new.items ≡ text.old.items ++ ended (map (λ r. line_of (rest_words r)) rests.now)) }
{
    for rest in rests {
        add_rest(text, rest)?;
    }
    Ok(())
}

/// The word of a kind.
fn kind(kind: Kind) -> &'static [u8]
    ensures { result.now ≡ kind_word kind }
{
    match kind {
        Kind::Main => b"main",
        Kind::Handler => b"handler",
        Kind::Alone => b"alone",
    }
}

/// Adds the items of an entry.
fn add_entry_items(text: &mut Vec<u8>, cells: &[Cell], entry: &Entry) -> Result<(), AllocError>
    requires { length cells.now ≤ 16 }
    ensures { OnOk result (text.new.items ≡ text.old.items ++ entry_facts cells.now entry.now) }
{
    add_registers(text, entry.kind, facts_of(&entry.regs).as_slice())?;
    add_flags(text, entry.kind, &entry.flags)?;
    add_slots(text, facts_of(entry.stack.as_slice()).as_slice())?;
    let facts = facts_of(entry.cells.as_slice());
    add_cells(text, entry.kind, cells, facts.as_slice())
}

/// Adds `KIND ID PC LINE CLOCK`, each with a space before it.
fn add_entry_place(text: &mut Vec<u8>, entry: &Entry) -> Result<(), AllocError>
    ensures { OnOk result (text.new.items ≡ text.old.items ++ spaced (entry_place entry.now)) }
{
    add_word(text, kind(entry.kind))?;
    add_numbers(
        text,
        &[
            entry.id,
            u32::from(entry.pc),
            u32::from(entry.line),
            u32::from(entry.clock),
        ],
    )
}

/// Adds the words of an entry's line, and its LF.
fn add_entry_words(text: &mut Vec<u8>, cells: &[Cell], entry: &Entry) -> Result<(), AllocError>
    requires { length cells.now ≤ 16 }
    ensures { OnOk result (text.new.items ≡ text.old.items ++ entry_text cells.now entry.now) }
{
    text.extend_from_slice(b"entry")?;
    add_entry_place(text, entry)?;
    add_entry_items(text, cells, entry)?;
    end_line(text)
}

/// Adds `entry KIND ID PC LINE CLOCK ITEMS`.
pub(crate) fn add_entry(text: &mut Vec<u8>, cells: &[Cell], entry: &Entry) -> Result<(), AllocError>
    requires { length cells.now ≤ 16 }
    ensures { OnOk result (text.new.items ≡ text.old.items ++ line_end (entry_words cells.now entry.now)) }
{
    add_entry_words(text, cells, entry)?;
    Ok(())
}

/// Adds what is known of registers, pairs and flags.
fn add_core(text: &mut Vec<u8>, point: &Point) -> Result<(), AllocError>
    ensures { OnOk result (text.new.items ≡ text.old.items ++ core_text point.now) }
{
    add_registers(text, point.kind, &point.regs)?;
    add_pairs(text, &point.pairs)?;
    add_flags(text, point.kind, &point.flags)
}

/// Adds what is known of slots and cells.
fn add_memory(text: &mut Vec<u8>, cells: &[Cell], point: &Point) -> Result<(), AllocError>
    requires { length cells.now ≤ 16 }
    ensures { OnOk result (text.new.items ≡ text.old.items ++ memory_text cells.now point.now) }
{
    add_slots(text, point.stack.as_slice())?;
    add_cells(text, point.kind, cells, point.cells.as_slice())
}

/// The word of a truth.
fn truth(holds: bool) -> &'static [u8]
    ensures { result.now ≡ truth_word holds }
{
    if holds { b"1" } else { b"0" }
}

/// Adds `KIND PC L0 L1 C0 C1 CLOCK`, each with a space before it.
fn add_box(text: &mut Vec<u8>, point: &Point) -> Result<(), AllocError>
    ensures { OnOk result (text.new.items ≡ text.old.items ++ spaced (point_box point.now)) }
{
    add_word(text, kind(point.kind))?;
    add_numbers(
        text,
        &[
            u32::from(point.pc),
            u32::from(point.l0),
            u32::from(point.l1),
            u32::from(point.c0),
            u32::from(point.c1),
            u32::from(point.clock),
        ],
    )
}

/// Adds `SLOPE PENDING`, each with a space before it.
fn add_steps(text: &mut Vec<u8>, point: &Point) -> Result<(), AllocError>
    ensures { OnOk result (text.new.items ≡ text.old.items ++ spaced (point_steps point.now)) }
{
    add_signed(text, point.slope)?;
    add_word(text, truth(point.pending))
}

/// Adds `KIND PC L0 L1 C0 C1 CLOCK SLOPE PENDING`, each with a space before it.
fn add_place(text: &mut Vec<u8>, point: &Point) -> Result<(), AllocError>
    ensures { OnOk result (text.new.items ≡ text.old.items ++ spaced (point_place point.now)) }
{
    add_box(text, point)?;
    add_steps(text, point)?;
    Ok(())
}

/// Adds the words of a point's line, and its LF.
fn add_point_words(text: &mut Vec<u8>, cells: &[Cell], point: &Point) -> Result<(), AllocError>
    requires { length cells.now ≤ 16 }
    ensures { OnOk result (text.new.items ≡ text.old.items ++ point_text cells.now point.now) }
{
    text.extend_from_slice(b"point")?;
    add_place(text, point)?;
    add_core(text, point)?;
    add_memory(text, cells, point)?;
    add_onward(text, point)?;
    end_line(text)
}

/// Adds `point KIND PC L0 L1 C0 C1 CLOCK SLOPE PENDING ITEMS`.
fn add_point(text: &mut Vec<u8>, cells: &[Cell], point: &Point) -> Result<(), AllocError>
    requires { length cells.now ≤ 16 }
    ensures { OnOk result (text.new.items ≡ text.old.items ++ line_end (point_words cells.now point.now)) }
{
    add_point_words(text, cells, point)?;
    Ok(())
}

/// Adds the lines of points.
pub(crate) fn add_points(
    text: &mut Vec<u8>,
    cells: &[Cell],
    points: &[Point],
) -> Result<(), AllocError>
    requires { length cells.now ≤ 16 }
    ensures { OnOk result (text.new.items ≡ text.old.items ++ ended (map (λ p. line_of (point_words cells.now p)) points.now)) }
{
    for point in points {
        add_point(text, cells, point)?;
    }
    Ok(())
}
