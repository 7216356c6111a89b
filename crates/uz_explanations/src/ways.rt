//! The way of a trail, and the two ways of trails that differ.

ghost use Rattle.std.specs.Prelude.{◌≡◌, ◌≤◌, ◌-◌, ◌++◌, OnOk, length, slice_get, take};
ghost use Rattle.std.specs.Option.{option_copied};
ghost use Rattle.uz_explanations.specs.Readings.{Reading, IsReading};
ghost use Rattle.uz_explanations.specs.Known.{known_line};
ghost use Rattle.uz_explanations.specs.TrailLines.{trail_line};
ghost use Rattle.uz_explanations.specs.Ways.{last_text, way_text, last_shown, same_instance, shared, from_last, both_ways};

use crate::known::add_known;
use crate::reading::row_at;
use crate::shown::add_shown;
use crate::trail_lines::add_line;
use crate::turns::add_turned;
use avr_asm::Labels;
use std::alloc::{AllocError, Global};
use uz_hex::Image;
use uz_schedule::Instance;

/// Adds the line of the last instance, and what is known of what it reads.
fn add_last(
    alloc: Global,
    text: &mut Vec<u8>,
    image: &Image,
    labels: &Labels,
    at: &Instance,
) -> Result<(), AllocError>
    ensures { OnOk result ((read : Reading) → IsReading image.now read → text.new.items
        ≡ text.old.items ++ (trail_line image.now labels.now (read at.now.pc) at.now ++ known_line (read at.now.pc) at.now)) }
{
    let row = row_at(image, at.pc);
    add_line(alloc, text, image, labels, at, row)?;
    add_known(alloc, text, row, at)
}

/// Adds what is told of the last instance, where there is one.
fn add_last_of(
    alloc: Global,
    text: &mut Vec<u8>,
    image: &Image,
    labels: &Labels,
    last: Option<&Instance>,
) -> Result<(), AllocError>
    ensures { OnOk result ((read : Reading) → IsReading image.now read
        → text.new.items ≡ text.old.items ++ last_text image.now read labels.now (option_copied last.entry)) }
{
    match last {
        Some(at) => add_last(alloc, text, image, labels, at),
        None => Ok(()),
    }
}

/// The last instance of a trail.
fn last_of(trail: &[Instance]) -> Option<&Instance>
    ensures { option_copied result ≡ slice_get trail.now (length trail.now - 1) }
{
    trail.last()
}

/// A trail without its last instance.
fn but_last(trail: &[Instance]) -> &[Instance]
    ensures { result.now ≡ take (length trail.now - 1) trail.now }
{
    &trail[..trail.len().saturating_sub(1)]
}

/// Adds the way of a trail.
pub(crate) fn add_way(
    alloc: Global,
    text: &mut Vec<u8>,
    image: &Image,
    labels: &Labels,
    trail: &[Instance],
) -> Result<(), AllocError>
    ensures { OnOk result ((read : Reading) → IsReading image.now read
        → text.new.items ≡ text.old.items ++ way_text image.now read labels.now trail.now) }
{
    add_turned(alloc, text, image, labels, but_last(trail))?;
    add_last_of(alloc, text, image, labels, last_of(trail))
}

/// Adds what the last instance shows, where there is one.
fn add_shown_of(
    text: &mut Vec<u8>,
    image: &Image,
    last: Option<&Instance>,
) -> Result<(), AllocError>
    ensures { OnOk result ((read : Reading) → IsReading image.now read
        → text.new.items ≡ text.old.items ++ last_shown image.now read (option_copied last.entry)) }
{
    match last {
        Some(at) => add_shown(text, image, at, row_at(image, at.pc)),
        None => Ok(()),
    }
}

/// Adds what the last instance of a trail shows.
fn add_last_shown(text: &mut Vec<u8>, image: &Image, trail: &[Instance]) -> Result<(), AllocError>
    ensures { OnOk result ((read : Reading) → IsReading image.now read
        → text.new.items ≡ text.old.items ++ last_shown image.now read (slice_get trail.now (length trail.now - 1))) }
{
    add_shown_of(text, image, last_of(trail))
}

/// How many instances two trails share.
fn shared(first: &[Instance], second: &[Instance]) -> usize
    ensures { result ≡ shared first.now second.now }
{
    for (k, x) in first.iter().enumerate() {
        match second.get(k) {
            Some(y) => if x != y {
                return k;
            },
            None => return k,
        }
    }
    first.len()
}

/// A trail from the last of so many instances on.
fn from_last(trail: &[Instance], count: usize) -> &[Instance]
    requires { count ≤ length trail.now }
    ensures { result.now ≡ from_last count trail.now }
{
    &trail[count.saturating_sub(1)..]
}

/// Adds the two ways of trails that differ, and what the last instance of each shows.
pub(crate) fn add_ways(
    alloc: Global,
    text: &mut Vec<u8>,
    image: &Image,
    labels: &Labels,
    first: &[Instance],
    second: &[Instance],
) -> Result<(), AllocError>
    ensures { OnOk result ((read : Reading) → IsReading image.now read
        → text.new.items ≡ text.old.items ++ both_ways image.now read labels.now first.now second.now) }
{
    let count = shared(first, second);
    text.extend_from_slice(b"way 1\n")?;
    add_way(alloc, text, image, labels, from_last(first, count))?;
    add_last_shown(text, image, from_last(first, count))?;
    text.extend_from_slice(b"way 2\n")?;
    add_way(alloc, text, image, labels, from_last(second, count))?;
    add_last_shown(text, image, from_last(second, count))
}
