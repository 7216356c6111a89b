//! The lines of a trail.

ghost use Rattle.std.specs.Prelude.{◌≡◌, ◌++◌, ◌+◌, ◌-◌, ◌*◌, ◌≤◌, [], None, Option, OnOk, IfOk, codes, decimal, nat_eq, if◌then◌else◌};
ghost use Rattle.std.specs.String.{string_bytes};
ghost use Rattle.avr_table.specs.declared.Instr.{Instr};
ghost use Rattle.uz_explanations.specs.Numbers.{counted};
ghost use Rattle.uz_explanations.specs.Readings.{Reading, IsReading};
ghost use Rattle.uz_explanations.specs.TrailLines.{clock_text, kind_text, place_text, second_of, instruction_text};
ghost use Rattle.uz_explanations.specs.TrailLines.{distance_text, nearest_text, trail_line};

use crate::reading::row_at;
use avr_asm::Labels;
use avr_dis::{data_word, print_one, write_words};
use avr_table::{Instr, words};
use itoa::Buffer;
use std::alloc::{AllocError, Global};
use uz_hex::{Image, word_digits};
use uz_schedule::{Instance, Kind};
use uz_transfer::word_after;

/// Puts a name and a number behind a text.
pub(crate) fn put_number(text: &mut Vec<u8>, name: &[u8], number: u64) -> Result<(), AllocError>
    ensures { OnOk result (text.new.items ≡ text.old.items ++ (name.now ++ decimal number)) }
{
    text.extend_from_slice(name)?;
    text.extend_from_slice(Buffer::new().format(number).as_bytes())
}

/// Puts a name, a number and its word behind a text. The word ends in `s` unless there is one.
pub(crate) fn put_counted(
    text: &mut Vec<u8>,
    name: &[u8],
    number: u64,
    word: &[u8],
) -> Result<(), AllocError>
    ensures { OnOk result (text.new.items ≡ text.old.items ++ (name.now ++ counted number word.now)) }
{
    put_number(text, name, number)?;
    text.extend_from_slice(word)?;
    if number == 1 {
        return Ok(());
    }
    text.extend_from_slice(b"s")
}

/// Adds a kind, a line and a clock of it.
fn add_clock(text: &mut Vec<u8>, kind: &[u8], line: u16, clock: u16) -> Result<(), AllocError>
    ensures { OnOk result (text.new.items ≡ text.old.items ++ clock_text kind.now line clock) }
{
    text.extend_from_slice(kind)?;
    put_number(text, b" line ", u64::from(line))?;
    put_number(text, b" clock ", u64::from(clock))
}

/// Adds what an instance belongs to, and of one outside main its line and clock.
fn add_kind(text: &mut Vec<u8>, at: &Instance) -> Result<(), AllocError>
    ensures { OnOk result (text.new.items ≡ text.old.items ++ kind_text at.now.kind at.now.line at.now.clock) }
{
    match at.kind {
        Kind::Main => text.extend_from_slice(b"main"),
        Kind::Handler => add_clock(text, b"handler", at.line, at.clock),
        Kind::Alone => add_clock(text, b"alone", at.line, at.clock),
    }
}

/// Adds the place of an instance.
fn add_place(text: &mut Vec<u8>, at: &Instance) -> Result<(), AllocError>
    ensures { OnOk result (text.new.items ≡ text.old.items ++ place_text at.now) }
{
    add_kind(text, at)?;
    text.extend_from_slice(b" pc 0x")?;
    text.extend_from_slice(&word_digits(at.pc))?;
    text.extend_from_slice(b": ")
}

/// The second word of an instruction of two.
fn second_word(image: &Image, pc: u16, i: &Instr) -> Option<u16>
    ensures { result ≡ second_of image.now pc i.now }
{
    if words(i) == 2 {
        Some(image.word(word_after(pc, 1)))
    } else {
        None
    }
}

/// Adds the words and the text of what is read at a program counter.
fn add_instruction(
    alloc: Global,
    text: &mut Vec<u8>,
    image: &Image,
    pc: u16,
    row: Option<Instr>,
) -> Result<(), AllocError>
    ensures { OnOk result (text.new.items ≡ text.old.items ++ instruction_text image.now pc row) }
{
    let first = image.word(pc % 32768);
    match row {
        Some(i) => {
            write_words(text, first, second_word(image, pc, &i))?;
            let written = print_one(alloc, pc, &i)?;
            text.extend_from_slice(written.as_bytes())
        }
        None => {
            write_words(text, first, None)?;
            let written = data_word(alloc, first)?;
            text.extend_from_slice(written.as_bytes())
        }
    }
}

/// Adds how many bytes an address is behind a label.
fn add_distance(text: &mut Vec<u8>, bytes: u32) -> Result<(), AllocError>
    ensures { OnOk result (text.new.items ≡ text.old.items ++ distance_text bytes) }
{
    if bytes == 0 {
        return Ok(());
    }
    put_number(text, b"+", u64::from(bytes))
}

/// Adds the nearest label of a byte address, where there is one.
fn add_label(text: &mut Vec<u8>, labels: &Labels, address: u32) -> Result<(), AllocError>
    ensures { OnOk result (text.new.items ≡ text.old.items ++ nearest_text labels.now address) }
{
    match labels.nearest(address) {
        Some(label) => {
            text.extend_from_slice(b" ; ")?;
            text.extend_from_slice(label.name.as_slice())?;
            add_distance(text, address.saturating_sub(label.address))
        }
        None => Ok(()),
    }
}

/// Adds the line of an instance at which this is read.
#[tactic(auto, unfolding(crate::specs::TrailLines::trail_line))]
pub(crate) fn add_line(
    alloc: Global,
    text: &mut Vec<u8>,
    image: &Image,
    labels: &Labels,
    at: &Instance,
    row: Option<Instr>,
) -> Result<(), AllocError>
    ensures { OnOk result (text.new.items ≡ text.old.items ++ trail_line image.now labels.now row at.now) }
{
    add_place(text, at)?;
    add_instruction(alloc, text, image, at.pc, row)?;
    add_label(text, labels, 2 * u32::from(at.pc))?;
    text.extend_from_slice(b"\n")
}

/// Adds the line of an instance.
pub(crate) fn add_trail_line(
    alloc: Global,
    text: &mut Vec<u8>,
    image: &Image,
    labels: &Labels,
    at: &Instance,
) -> Result<(), AllocError>
    ensures { OnOk result ((read : Reading) → IsReading image.now read
        → text.new.items ≡ text.old.items ++ trail_line image.now labels.now (read at.now.pc) at.now) }
{
    let row = row_at(image, at.pc);
    add_line(alloc, text, image, labels, at, row)
}
