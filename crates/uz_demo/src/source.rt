//! The whole source.

ghost use Rattle.std.specs.Prelude.{◌≡◌, ◌≤◌, ◌++◌, IfOk, OnOk, length, map};
ghost use Rattle.uz_demo.specs.Pieces.{ended};
ghost use Rattle.uz_demo.specs.Source.{closing, console, frame, gap, opening, picture, pixels, shown, source};

use crate::pieces::{
    BLANK, DRAW, DRAWN, HANDLER, HINTS, MAIN_LOOP, NAMES, NEXT_ROW, PIX, RESET, ROW,
};
use crate::waits::{add_decimal, add_set, add_wait};
use std::alloc::{AllocError, Global};

/// The lines before the picture.
const BEFORE: u16 = 38;

/// The most bytes of a source.
const LONGEST: usize = 2048;

/// The lines of the picture, 64 to 224.
fn lines_shown(number: u16) -> u8
    ensures { result ≡ shown number }
{
    (64 + number % 161) as u8
}

/// The pixels of a line, 16 to 80.
fn pixels_shown(number: u16) -> u8
    ensures pixels { result ≡ pixels number }
    ensures most { result ≤ 80 }
{
    (16 + number / 161 % 65) as u8
}

/// The clocks from the last pixel to the next line.
fn gap_clocks(number: u16) -> u16
    ensures { result ≡ gap number }
{
    566 + 11 * u16::from(80 - pixels_shown(number))
}

/// Adds lines, each with LF.
#[tactic(auto, unfolding(crate::specs::Pieces::ended))]
fn add_lines(text: &mut Vec<u8>, lines: &[&[u8]]) -> Result<(), AllocError>
    ensures { OnOk result (text.new.items ≡ text.old.items ++ ended (map (λ l. l.now) lines.now)) }
{
    for line in lines {
        text.extend_from_slice(line)?;
        text.push(b'\n')?;
    }
    Ok(())
}

/// Adds the hint of the frame's lines.
fn add_frame(text: &mut Vec<u8>, number: u16) -> Result<(), AllocError>
    ensures { OnOk result (text.new.items ≡ text.old.items ++ frame number) }
{
    text.extend_from_slice(b".lines ")?;
    add_decimal(text, BEFORE + u16::from(lines_shown(number)))?;
    text.extend_from_slice(b", 28\n")
}

/// Adds names, hints and vectors.
fn add_opening(text: &mut Vec<u8>, number: u16) -> Result<(), AllocError>
    ensures { OnOk result (text.new.items ≡ text.old.items ++ opening number) }
{
    add_lines(text, &NAMES)?;
    add_frame(text, number)?;
    add_lines(text, &HINTS)
}

/// Adds what is the same in all of them.
fn add_console(text: &mut Vec<u8>) -> Result<(), AllocError>
    ensures { OnOk result (text.new.items ≡ text.old.items ++ console) }
{
    add_lines(text, &RESET)?;
    add_lines(text, &MAIN_LOOP)?;
    add_lines(text, &HANDLER)?;
    add_lines(text, &BLANK)
}

/// Adds a line of the picture up to its last pixel.
fn add_picture(text: &mut Vec<u8>, number: u16) -> Result<(), AllocError>
    ensures { OnOk result (text.new.items ≡ text.old.items ++ picture number) }
{
    add_lines(text, &DRAW)?;
    add_set(text, 30, lines_shown(number))?;
    add_lines(text, &ROW)?;
    add_set(text, 31, pixels_shown(number))?;
    add_lines(text, &PIX)
}

/// Adds the rest of a line, and what follows the last one.
fn add_closing(text: &mut Vec<u8>, number: u16) -> Result<(), AllocError>
    ensures { OnOk result (text.new.items ≡ text.old.items ++ closing number) }
{
    add_wait(text, gap_clocks(number))?;
    add_lines(text, &NEXT_ROW)?;
    add_lines(text, &DRAWN)
}

/// The source of a demo: the sample console with a picture of `64 + number mod 161` lines of `16 + number / 161 mod 65`
/// pixels, in at most 2,048 bytes. The one error is want of memory.
#[tactic(auto, using(crate::proofs::Lengths::short_source))]
pub fn demo_source(alloc: Global, number: u16) -> Result<Vec<u8>, AllocError>
    ensures source { IfOk result (λ text. text.items ≡ source number) }
    ensures short { IfOk result (λ text. length text.items ≤ 2048) }
{
    let mut text = Vec::with_capacity(alloc, LONGEST)?;
    add_opening(&mut text, number)?;
    add_console(&mut text)?;
    add_picture(&mut text, number)?;
    add_closing(&mut text, number)?;
    Ok(text)
}
