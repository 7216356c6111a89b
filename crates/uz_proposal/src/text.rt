//! Hints as a source without bytes.

ghost use Rattle.std.specs.Prelude.{◌≡◌, ◌*◌, ◌%◌, ◌++◌, IfOk, OnOk};
ghost use Rattle.uz_proposal.specs.NoFrames.{apart_words, distance_word, no_frame_lines, short_line};
ghost use Rattle.uz_proposal.specs.Text.{addressed, counts_part, fact_line, falling_part, half_line, hint_line, kind_word, lines_line, numbered, paired};
ghost use Rattle.uz_proposal.specs.Text.{place_word, remark_line, remarked_lines, source_of, falls_line, handler_cell_line, main_cell_line, stack_line, start_line, stored_line};

use crate::no_hints::NoFrame;
use crate::remarks::{Remark, Remarked};
use avr_asm::Hint;
use itoa::Buffer;
use std::alloc::{AllocError, Global};
use uz_hex::word_digits;
use uz_schedule::Kind;

/// Adds some text and a number in decimal.
fn add_number(text: &mut Vec<u8>, before: &[u8], number: u32) -> Result<(), AllocError>
    ensures { OnOk result (text.new.items ≡ text.old.items ++ numbered before.now number) }
{
    text.extend_from_slice(before)?;
    text.extend_from_slice(Buffer::new().format(number).as_bytes())
}

/// Adds some text and an address, `0x` with four digits.
fn add_address(text: &mut Vec<u8>, before: &[u8], at: u16) -> Result<(), AllocError>
    ensures { OnOk result (text.new.items ≡ text.old.items ++ addressed before.now at) }
{
    text.extend_from_slice(before)?;
    text.extend_from_slice(b"0x")?;
    text.extend_from_slice(&word_digits(at))
}

/// Adds some text and a number, twice.
fn add_two(
    text: &mut Vec<u8>,
    before: &[u8],
    first: u32,
    between: &[u8],
    second: u32,
) -> Result<(), AllocError>
    ensures { OnOk result (text.new.items ≡ text.old.items ++ (numbered before.now first ++ numbered between.now second)) }
{
    add_number(text, before, first)?;
    add_number(text, between, second)
}

/// Adds some text, a number, a comma and another number.
fn add_pair(text: &mut Vec<u8>, before: &[u8], first: u32, second: u32) -> Result<(), AllocError>
    ensures { OnOk result (text.new.items ≡ text.old.items ++ paired before.now first second) }
{
    add_two(text, before, first, b", ", second)
}

fn add_lines(text: &mut Vec<u8>, lines: u16, fall: u16) -> Result<(), AllocError>
    ensures { OnOk result (text.new.items ≡ text.old.items ++ lines_line lines fall) }
{
    add_pair(text, b".lines ", u32::from(lines), u32::from(fall))
}

fn add_half(text: &mut Vec<u8>, from: u16, to: u16) -> Result<(), AllocError>
    ensures { OnOk result (text.new.items ≡ text.old.items ++ half_line from to) }
{
    add_pair(text, b".half ", u32::from(from), u32::from(to))
}

fn add_stack(text: &mut Vec<u8>, lo: u16, hi: u16, main: u8, handler: u8) -> Result<(), AllocError>
    ensures { OnOk result (text.new.items ≡ text.old.items ++ stack_line lo hi main handler) }
{
    add_address(text, b".stack ", lo)?;
    add_address(text, b", ", hi)?;
    add_pair(text, b", ", u32::from(main), u32::from(handler))
}

/// The word of a start's kind.
fn start_word(kind: Kind) -> &'static [u8]
    ensures { result.now ≡ kind_word kind }
{
    match kind {
        Kind::Main => b"main, ",
        Kind::Handler | Kind::Alone => b"alone, ",
    }
}

/// The byte address of a word.
fn byte_address(at: u16) -> u16
    ensures { result ≡ 2 * at % 65536 }
{
    (2 * u32::from(at) % 65536) as u16
}

fn add_start(text: &mut Vec<u8>, kind: Kind, at: u16) -> Result<(), AllocError>
    ensures { OnOk result (text.new.items ≡ text.old.items ++ start_line kind at) }
{
    text.extend_from_slice(b".start ")?;
    add_address(text, start_word(kind), byte_address(at))
}

fn add_main_cell(text: &mut Vec<u8>, at: u16, lo: u8, hi: u8) -> Result<(), AllocError>
    ensures { OnOk result (text.new.items ≡ text.old.items ++ main_cell_line at lo hi) }
{
    add_address(text, b".cell ", at)?;
    add_pair(text, b", main, ", u32::from(lo), u32::from(hi))
}

fn add_handler_cell(
    text: &mut Vec<u8>,
    at: u16,
    lo: u8,
    hi: u8,
    first: u8,
) -> Result<(), AllocError>
    ensures { OnOk result (text.new.items ≡ text.old.items ++ handler_cell_line at lo hi first) }
{
    add_address(text, b".cell ", at)?;
    add_pair(text, b", handler, ", u32::from(lo), u32::from(hi))?;
    add_number(text, b", ", u32::from(first))
}

/// Adds a register, or X, Y or Z.
fn add_place(text: &mut Vec<u8>, place: u8) -> Result<(), AllocError>
    ensures { OnOk result (text.new.items ≡ text.old.items ++ place_word place) }
{
    if place == 32 {
        text.extend_from_slice(b".fact X")
    } else if place == 33 {
        text.extend_from_slice(b".fact Y")
    } else if place == 34 {
        text.extend_from_slice(b".fact Z")
    } else {
        add_number(text, b".fact r", u32::from(place))
    }
}

fn add_fact(text: &mut Vec<u8>, at: u16, place: u8, lo: u16, hi: u16) -> Result<(), AllocError>
    ensures { OnOk result (text.new.items ≡ text.old.items ++ fact_line at place lo hi) }
{
    add_place(text, place)?;
    add_pair(text, b", ", u32::from(lo), u32::from(hi))?;
    add_address(text, b", ", byte_address(at))
}

/// Adds a hint's line.
fn add_hint(text: &mut Vec<u8>, hint: Hint) -> Result<(), AllocError>
    ensures { OnOk result (text.new.items ≡ text.old.items ++ hint_line hint) }
{
    match hint {
        Hint::Start { kind, at } => add_start(text, kind, at),
        Hint::Lines { lines, fall } => add_lines(text, lines, fall),
        Hint::Half { from, to } => add_half(text, from, to),
        Hint::Stack {
            lo,
            hi,
            main,
            handler,
        } => add_stack(text, lo, hi, main, handler),
        Hint::Cell {
            at,
            owner: Kind::Handler,
            lo,
            hi,
            first,
        } => add_handler_cell(text, at, lo, hi, first),
        Hint::Cell { at, lo, hi, .. } => add_main_cell(text, at, lo, hi),
        Hint::Fact { at, place, lo, hi } => add_fact(text, at, place, lo, hi),
    }
}

/// Adds of how many lines sync falls at a clock.
fn add_falling(text: &mut Vec<u8>, clock: u16, falling: u16) -> Result<(), AllocError>
    ensures { OnOk result (text.new.items ≡ text.old.items ++ falling_part clock falling) }
{
    add_two(
        text,
        b"; sync falls at clock ",
        u32::from(clock),
        b" of ",
        u32::from(falling),
    )
}

/// Adds how many lines there are, and how many of them are half lines.
fn add_counts(text: &mut Vec<u8>, lines: u16, halves: u16) -> Result<(), AllocError>
    ensures { OnOk result (text.new.items ≡ text.old.items ++ counts_part lines halves) }
{
    add_two(
        text,
        b" of the ",
        u32::from(lines),
        b" lines; half lines: ",
        u32::from(halves),
    )
}

fn add_falls(
    text: &mut Vec<u8>,
    clock: u16,
    falling: u16,
    lines: u16,
    halves: u16,
) -> Result<(), AllocError>
    ensures { OnOk result (text.new.items ≡ text.old.items ++ falls_line clock falling lines halves) }
{
    add_falling(text, clock, falling)?;
    add_counts(text, lines, halves)
}

fn add_stored(text: &mut Vec<u8>, least: u8, greatest: u8) -> Result<(), AllocError>
    ensures { OnOk result (text.new.items ≡ text.old.items ++ stored_line least greatest) }
{
    add_two(
        text,
        b"; stored: ",
        u32::from(least),
        b" to ",
        u32::from(greatest),
    )
}

/// Adds the comment that says what was seen of a hint.
fn add_remark(text: &mut Vec<u8>, remark: Remark) -> Result<(), AllocError>
    ensures { OnOk result (text.new.items ≡ text.old.items ++ remark_line remark) }
{
    match remark {
        Remark::Falls {
            clock,
            falling,
            lines,
            halves,
        } => add_falls(text, clock, falling, lines, halves),
        Remark::Halves => text.extend_from_slice(b"; half lines"),
        Remark::Pushes => {
            text.extend_from_slice(
                b"; SP at main's loop, and what main and the handler push at most",
            )
        }
        Remark::Loop { visits } => add_number(text, b"; main's loop; visits: ", visits),
        Remark::Fall { visits } => add_number(text, b"; the fall of sync; visits: ", visits),
        Remark::Stored { least, greatest } => add_stored(text, least, greatest),
        Remark::Unwritten => text.extend_from_slice(b"; read, and nothing stored"),
        Remark::Constant { visits } => add_number(text, b"; the same at all visits: ", visits),
    }
}

/// Adds a hint behind its comment, each on a line of its own.
fn add_remarked(text: &mut Vec<u8>, remarked: Remarked) -> Result<(), AllocError>
    ensures { OnOk result (text.new.items ≡ text.old.items ++ remarked_lines remarked) }
{
    add_remark(text, remarked.remark)?;
    text.extend_from_slice(b"\n")?;
    add_hint(text, remarked.hint)?;
    text.extend_from_slice(b"\n")
}

/// Adds the clocks between falls of sync.
fn add_apart(text: &mut Vec<u8>, apart: &[u32]) -> Result<(), AllocError>
    ensures { OnOk result (text.new.items ≡ text.old.items ++ apart_words apart.now) }
{
    for clocks in apart {
        add_distance(text, *clocks)?;
    }
    Ok(())
}

/// Adds the clocks between two falls of sync, if there are two.
fn add_distance(text: &mut Vec<u8>, clocks: u32) -> Result<(), AllocError>
    ensures { OnOk result (text.new.items ≡ text.old.items ++ distance_word clocks) }
{
    if clocks == 0 {
        Ok(())
    } else {
        add_number(text, b" ", clocks)
    }
}

/// Adds the line that says that the run is too short, if it is.
fn add_short(text: &mut Vec<u8>, short: bool) -> Result<(), AllocError>
    ensures { OnOk result (text.new.items ≡ text.old.items ++ short_line short) }
{
    if short {
        text.extend_from_slice(b"run longer: fewer than two frames\n")
    } else {
        Ok(())
    }
}

/// The lines that tell of lines that make no frame: how many they are, the clocks between the last falls of sync, and whether the run
/// is too short. The one error is want of memory.
pub fn frame_text(alloc: Global, found: &NoFrame) -> Result<Vec<u8>, AllocError>
    ensures { IfOk result (λ text. text.items ≡ no_frame_lines found.now) }
{
    let mut text = Vec::new(alloc);
    add_number(&mut text, b"lines ", found.lines)?;
    text.extend_from_slice(b"\nfalls")?;
    let apart = found.apart;
    add_apart(&mut text, &apart)?;
    text.extend_from_slice(b"\n")?;
    add_short(&mut text, found.short)?;
    Ok(text)
}

/// A source without bytes that says some hints in their order, each on a line of its own behind a comment that says what was seen.
/// The one error is want of memory.
pub fn hint_source(alloc: Global, hints: &[Remarked]) -> Result<Vec<u8>, AllocError>
    ensures { IfOk result (λ text. text.items ≡ source_of hints.now) }
{
    let mut text = Vec::new(alloc);
    for remarked in hints {
        add_remarked(&mut text, *remarked)?;
    }
    Ok(text)
}
