//! The lines of a trail, in which turns of a loop that come again are one line.

ghost use Rattle.std.specs.Prelude.{◌≡◌, ◌<◌, ◌≤◌, ◌+◌, ◌-◌, ◌/◌, ◌%◌, ◌++◌, ◌∷◌, List, Some, OnOk, IfOk, length, slice_get};
ghost use Rattle.uz_schedule.specs.declared.states.Instance.{Instance};
ghost use Rattle.uz_explanations.specs.Beginnings.{common};
ghost use Rattle.uz_explanations.specs.Numbers.{come};
ghost use Rattle.uz_explanations.specs.Readings.{Reading, IsReading};
ghost use Rattle.uz_explanations.specs.Turns.{same_pc, repeated, comes_again, stretch, turns_line, lines_from, turned_lines};

use crate::trail_lines::{add_trail_line, put_counted};
use avr_asm::Labels;
use std::alloc::{AllocError, Global};
use uz_hex::Image;
use uz_schedule::Instance;

/// The longest stretch that is looked for.
const MOST_INSTANCES: usize = 64;

/// How many program counters two lists begin with alike.
fn alike(a: &[Instance], b: &[Instance]) -> usize
    ensures { result ≡ common same_pc a.now b.now }
{
    for (k, x) in a.iter().enumerate() {
        match b.get(k) {
            Some(y) => if x.pc != y.pc {
                return k;
            },
            None => return k,
        }
    }
    a.len()
}

/// How many instances from a place on have the program counter of the one `n` places before.
fn repeated(trail: &[Instance], i: usize, n: usize) -> usize
    requires { i ≤ length trail.now }
    ensures { result ≡ repeated trail.now i n }
{
    alike(&trail[i..], &trail[i.saturating_sub(n)..])
}

/// Whether the `n` instances before a place come again there.
fn comes_again(trail: &[Instance], i: usize, n: usize) -> bool
    requires { i ≤ length trail.now }
    ensures { result ≡ comes_again trail.now i n }
{
    n <= i && n <= repeated(trail, i, n)
}

/// The length of the shortest stretch that comes again at a place, 0 where none does.
fn stretch(trail: &[Instance], i: usize) -> usize
    requires { i ≤ length trail.now }
    ensures { result ≡ stretch trail.now i }
{
    for tried in 0..MOST_INSTANCES {
        if comes_again(trail, i, tried + 1) {
            return tried + 1;
        }
    }
    0
}

/// Says that so many come.
fn verb(n: usize) -> &'static [u8]
    ensures { result.now ≡ come n }
{
    if n == 1 { b" comes " } else { b" come " }
}

/// Adds the line of a stretch that comes again.
#[tactic(auto, unfolding(crate::specs::Turns::turns_line))]
fn add_turns(text: &mut Vec<u8>, n: usize, times: usize) -> Result<(), AllocError>
    ensures { OnOk result (text.new.items ≡ text.old.items ++ turns_line n times) }
{
    put_counted(text, b"; the last ", n as u64, b" instruction")?;
    put_counted(text, verb(n), times as u64, b" time")?;
    text.extend_from_slice(b" more\n")
}

/// Adds the line of a stretch that comes again at a place, and tells how many instances behind that place stand in it.
fn add_again(
    text: &mut Vec<u8>,
    trail: &[Instance],
    i: usize,
    n: usize,
) -> Result<usize, AllocError>
    requires place { i ≤ length trail.now }
    requires some { 1 ≤ n }
    ensures { IfOk result (λ skip. (skip ≡ repeated trail.now i n - repeated trail.now i n % n - 1)
        × (text.new.items ≡ text.old.items ++ turns_line n (repeated trail.now i n / n))) }
{
    let count = repeated(trail, i, n);
    add_turns(text, n, count / n)?;
    Ok(count.saturating_sub(count % n).saturating_sub(1))
}

/// Adds what stands for the instance at a place, of which `skip` from there on stand in a line before, and tells how many of those
/// behind it do then.
fn add_next(
    alloc: Global,
    text: &mut Vec<u8>,
    image: &Image,
    labels: &Labels,
    trail: &[Instance],
    i: usize,
    skip: usize,
) -> Result<usize, AllocError>
    requires { i < length trail.now }
    ensures { IfOk result (λ next. (read : Reading) (x : Instance) (rest : List Instance) → IsReading image.now read
        → slice_get trail.now i ≡ Some x
        → text.new.items ++ lines_from image.now read labels.now trail.now (i + 1) next rest
        ≡ text.old.items ++ lines_from image.now read labels.now trail.now i skip (x ∷ rest)) }
{
    if skip > 0 {
        return Ok(skip - 1);
    }
    let n = stretch(trail, i);
    if n > 0 {
        return add_again(text, trail, i, n);
    }
    add_trail_line(alloc, text, image, labels, &trail[i])?;
    Ok(0)
}

/// Adds the lines of a trail.
pub(crate) fn add_turned(
    alloc: Global,
    text: &mut Vec<u8>,
    image: &Image,
    labels: &Labels,
    trail: &[Instance],
) -> Result<(), AllocError>
    ensures { OnOk result ((read : Reading) → IsReading image.now read
        → text.new.items ≡ text.old.items ++ turned_lines image.now read labels.now trail.now) }
{
    let mut skip = 0;
    for i in 0..trail.len() {
        skip = add_next(alloc, text, image, labels, trail, i, skip)?;
    }
    Ok(())
}
