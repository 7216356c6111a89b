//! The lines of a schedule at the end of a text.

ghost use Rattle.std.specs.Prelude.{◌≡◌, ◌<◌, ◌≤◌, ◌+◌, ◌++◌, ◌∷◌, [], ℕ, List, All, IfOk, OnOk, length, map};
ghost use Rattle.uz_schedule.specs.Limits.{most_lines, most_events};
ghost use Rattle.uz_schedule.specs.declared.lines.Event.{Event};
ghost use Rattle.uz_cert_lines.specs.declared.version.Version.TheVariants.{Second};
ghost use Rattle.uz_cert_writer.specs.Joined.{ended, line_end, run_lines, run_on, spaced};
ghost use Rattle.uz_cert_writer.specs.Spelling.{kind_words, event_kind_words, event_words, fall_words, run_before};
ghost use Rattle.uz_cert_writer.specs.Spelling.{runs_of, run_words, kinds_then, line_of};

use crate::words::{add_decimal, add_number, add_numbers, add_word, end_line};
use std::alloc::AllocError;
use uz_schedule::{Event, EventKind, LineEvents, Schedule};

/// Adds `kind EVENTS LENGTH`.
fn add_kind(text: &mut Vec<u8>, events: &[Event], clocks: u16) -> Result<(), AllocError>
    requires { length events.now ≤ most_events }
    ensures { OnOk result (text.new.items ≡ text.old.items ++ line_end (kind_words Second (length events.now) clocks)) }
{
    text.extend_from_slice(b"kind")?;
    add_numbers(text, &[events.len() as u32, u32::from(clocks)])?;
    end_line(text)
}

/// Adds what is seen, with a space before each word.
fn add_event_kind(text: &mut Vec<u8>, kind: EventKind) -> Result<(), AllocError>
    ensures { OnOk result (text.new.items ≡ text.old.items ++ spaced (event_kind_words kind)) }
{
    match kind {
        EventKind::Sync(level) => {
            add_word(text, b"sync")?;
            add_number(text, u32::from(level))
        }
        EventKind::Pixel => add_word(text, b"pixel"),
        EventKind::Sound => add_word(text, b"sound"),
        EventKind::Leave => add_word(text, b"leave"),
    }
}

/// Adds `CLOCK sync V`, `CLOCK pixel`, `CLOCK sound` or `CLOCK leave`.
fn add_event(text: &mut Vec<u8>, event: &Event) -> Result<(), AllocError>
    ensures { OnOk result (text.new.items ≡ text.old.items ++ line_end (event_words event.now)) }
{
    add_decimal(text, u32::from(event.clock))?;
    add_event_kind(text, event.kind)?;
    end_line(text)
}

/// Adds the lines of events.
fn add_events(text: &mut Vec<u8>, events: &[Event]) -> Result<(), AllocError>
    ensures { OnOk result (text.new.items ≡ text.old.items ++ ended (map (λ e. line_of (event_words e)) events.now)) }
{
    for event in events {
        add_event(text, event)?;
    }
    Ok(())
}

/// Adds the lines of a kind of line.
#[tactic(auto, using(crate::proofs::Steps::kind_added))]
fn add_kind_lines(text: &mut Vec<u8>, events: &[Event], clocks: u16) -> Result<(), AllocError>
    requires { length events.now ≤ most_events }
    ensures { OnOk result ((kinds : List (List Event)) (lengths : List ℕ)
        → text.new.items ++ ended (kinds_then Second kinds lengths [])
        ≡ text.old.items ++ ended (kinds_then Second (events.now ∷ kinds) (clocks ∷ lengths) [])) }
{
    add_kind(text, events, clocks)?;
    add_events(text, events)
}

/// Adds the lines of the kinds of line, of these lengths, each followed by those of its events.
pub(crate) fn add_kinds(
    text: &mut Vec<u8>,
    kinds: &[LineEvents],
    lengths: &[u16],
) -> Result<(), AllocError>
    requires few { All (λ events. length events ≤ most_events) kinds.now }
    requires lengths { length kinds.now ≤ length lengths.now }
    ensures { OnOk result (text.new.items ≡ text.old.items ++ ended (kinds_then Second kinds.now lengths.now [])) }
{
    for (k, kind) in kinds.iter().enumerate() {
        add_kind_lines(text, kind.as_slice(), lengths[k])?;
    }
    Ok(())
}

/// Adds `fall CLOCK`.
pub(crate) fn add_fall(text: &mut Vec<u8>, schedule: &Schedule) -> Result<(), AllocError>
    ensures { OnOk result (text.new.items ≡ text.old.items ++ line_end (fall_words schedule.now)) }
{
    text.extend_from_slice(b"fall")?;
    add_number(text, u32::from(schedule.fall))?;
    end_line(text)
}

/// Adds `run COUNT KIND`.
fn add_run(text: &mut Vec<u8>, count: u32, kind: u16) -> Result<(), AllocError>
    ensures { OnOk result (text.new.items ≡ text.old.items ++ line_end (run_words (count, kind))) }
{
    text.extend_from_slice(b"run")?;
    add_numbers(text, &[count, u32::from(kind)])?;
    end_line(text)
}

/// One more line, after `count` lines of a kind: adds their run where the line is of another kind, and tells how many lines
/// of its own kind now follow each other.
#[tactic(auto, using(crate::proofs::Runs::run_kept, crate::proofs::Runs::run_over))]
fn add_line(text: &mut Vec<u8>, count: u32, kind: u16, next: u16) -> Result<u32, AllocError>
    requires { count ≤ most_lines }
    ensures few { IfOk result (λ n. n ≤ count + 1) }
    ensures runs { IfOk result (λ n. (runs : List (ℕ × ℕ))
        → text.new.items ++ ended (run_lines (run_on n next runs))
        ≡ text.old.items ++ ended (run_lines (run_on count kind (run_before next runs)))) }
{
    if next == kind {
        return Ok(count + 1);
    }
    add_run(text, count, kind)?;
    Ok(1)
}

/// Adds the runs of a line of this kind and those that follow it.
fn add_runs_from(text: &mut Vec<u8>, first: u16, others: &[u16]) -> Result<(), AllocError>
    requires { length others.now < most_lines }
    ensures { OnOk result (text.new.items ≡ text.old.items ++ ended (run_lines (runs_of (first ∷ others.now)))) }
{
    let mut kind = first;
    let mut count: u32 = 1;
    for next in others {
        count = add_line(text, count, kind, *next)?;
        kind = *next;
    }
    add_run(text, count, kind)
}

/// Adds the runs of these lines: how many lines that follow each other are of one kind, and the kind.
pub(crate) fn add_runs(text: &mut Vec<u8>, lines: &[u16]) -> Result<(), AllocError>
    requires { length lines.now ≤ most_lines }
    ensures { OnOk result (text.new.items ≡ text.old.items ++ ended (run_lines (runs_of lines.now))) }
{
    match lines {
        [first, others @ ..] => add_runs_from(text, *first, others),
        [] => Ok(()),
    }
}
