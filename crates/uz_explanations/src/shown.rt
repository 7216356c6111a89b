//! What the last instruction of a way shows, and when.

ghost use Rattle.std.specs.Prelude.{◌≡◌, ◌<◌, ◌+◌, ◌++◌, ◌%◌, [], OnOk, codes, decimal, if◌then◌else◌, map, max};
ghost use Rattle.avr_table.specs.Rows.{clocks_of, words_of};
ghost use Rattle.uz_core.specs.Effects.{effect_of};
ghost use Rattle.uz_core.specs.OperandRanges.{EffectFits};
ghost use Rattle.uz_transfer.specs.Emission.{emission};
ghost use Rattle.uz_transfer.specs.Kinds.{is_main};
ghost use Rattle.uz_transfer.specs.Step.{following_of};
ghost use Rattle.uz_explanations.specs.Ways.{clock_line, clocks_out, end_clock as clock_of_end, event_line, event_text, most as most_of};
ghost use Rattle.uz_explanations.specs.Ways.{shown_line, shows_line};

use crate::trail_lines::put_number;
use avr_table::{Instr, Outcome, clocks, words};
use std::alloc::AllocError;
use uz_core::{Effect, effect};
use uz_hex::Image;
use uz_schedule::{EventKind, Instance, Kind};
use uz_transfer::{Exit, branch_exits, shown_by, skip_exits, word_after};

/// The greater of two numbers.
fn greater(a: u8, b: u8) -> u8
    ensures { result ≡ max a b }
{
    if a < b { b } else { a }
}

/// The clocks of the exit that takes most.
fn most_clocks(exits: &[Exit]) -> u8
    ensures { result ≡ most_of (map (λ exit. exit.clocks) exits.now) }
{
    let mut most = 0;
    for exit in exits {
        most = greater(most, exit.clocks);
    }
    most
}

/// The word address of the next instruction.
fn following(at: &Instance, i: &Instr) -> u16
    ensures is { result ≡ following_of (words_of i.now) at.now }
    ensures low { result < 32768 }
{
    word_after(at.pc, words(i))
}

/// The clocks to the last exit of an instruction of this effect.
fn clocks_to_last(image: &Image, at: &Instance, i: &Instr, e: Effect) -> u8
    requires fits { EffectFits e }
    ensures { result ≡ clocks_out image.now e (words_of i.now) (clocks_of i.now) at.now }
{
    match e {
        Effect::Branch { flag, set, offset } => {
            most_clocks(branch_exits(at, i, following(at, i), flag, set, offset).as_slice())
        }
        Effect::SkipIf { test } => {
            most_clocks(skip_exits(at, image, i, following(at, i), test).as_slice())
        }
        _ => clocks(i, Outcome::Next),
    }
}

/// The clock of its line at which an instruction of this effect ends.
fn end_clock(image: &Image, at: &Instance, i: &Instr, e: Effect) -> u64
    requires fits { EffectFits e }
    requires effect { e ≡ effect_of i.now }
    ensures { result ≡ clock_of_end image.now i.now at.now }
{
    u64::from(at.clock) + u64::from(clocks_to_last(image, at, i, e))
}

/// Adds an event.
fn add_event(text: &mut Vec<u8>, event: EventKind) -> Result<(), AllocError>
    ensures { OnOk result (text.new.items ≡ text.old.items ++ event_text event) }
{
    match event {
        EventKind::Sync(level) => put_number(text, b"sync ", u64::from(level)),
        EventKind::Pixel => text.extend_from_slice(b"pixel"),
        EventKind::Sound => text.extend_from_slice(b"sound"),
        EventKind::Leave => text.extend_from_slice(b"leave"),
    }
}

/// Adds what is shown.
fn add_shows(text: &mut Vec<u8>, event: EventKind) -> Result<(), AllocError>
    ensures { OnOk result (text.new.items ≡ text.old.items ++ (codes "shows " ++ event_text event)) }
{
    text.extend_from_slice(b"shows ")?;
    add_event(text, event)
}

/// Adds words and a clock, and ends the line.
fn add_clock_line(text: &mut Vec<u8>, words: &[u8], clock: u64) -> Result<(), AllocError>
    ensures { OnOk result (text.new.items ≡ text.old.items ++ clock_line words.now clock) }
{
    put_number(text, words, clock)?;
    text.extend_from_slice(b"\n")
}

/// Adds the line of what is shown, or that nothing is, up to a clock.
fn add_event_line(
    text: &mut Vec<u8>,
    shown: Option<EventKind>,
    clock: u64,
) -> Result<(), AllocError>
    ensures { OnOk result (text.new.items ≡ text.old.items ++ event_line shown clock) }
{
    match shown {
        Some(event) => {
            add_shows(text, event)?;
            add_clock_line(text, b" at clock ", clock)
        }
        None => add_clock_line(text, b"shows nothing to clock ", clock),
    }
}

/// Adds the line of what an instruction shows outside main.
fn add_outside(
    text: &mut Vec<u8>,
    image: &Image,
    at: &Instance,
    i: &Instr,
) -> Result<(), AllocError>
    ensures { OnOk result (text.new.items
        ≡ text.old.items ++ shows_line (emission (effect_of i.now) at.now) (clock_of_end image.now i.now at.now)) }
{
    let e = effect(i);
    let clock = end_clock(image, at, i, e);
    match shown_by(e, at) {
        Some(shown) => add_event_line(text, shown, clock),
        None => Ok(()),
    }
}

/// Adds the line of what an instruction shows.
fn add_instruction(
    text: &mut Vec<u8>,
    image: &Image,
    at: &Instance,
    i: &Instr,
) -> Result<(), AllocError>
    ensures { OnOk result (text.new.items ≡ text.old.items
        ++ (if is_main at.now.kind then [] else shows_line (emission (effect_of i.now) at.now) (clock_of_end image.now i.now at.now))) }
{
    match at.kind {
        Kind::Main => Ok(()),
        Kind::Handler => add_outside(text, image, at, i),
        Kind::Alone => add_outside(text, image, at, i),
    }
}

/// Adds the line of what an instance shows at which this is read.
pub(crate) fn add_shown(
    text: &mut Vec<u8>,
    image: &Image,
    at: &Instance,
    row: Option<Instr>,
) -> Result<(), AllocError>
    ensures { OnOk result (text.new.items ≡ text.old.items ++ shown_line image.now row at.now) }
{
    match row {
        Some(i) => add_instruction(text, image, at, &i),
        None => Ok(()),
    }
}
