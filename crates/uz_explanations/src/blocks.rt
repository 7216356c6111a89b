//! The different values that the instances of a block say, part by part.

ghost use Rattle.std.specs.Prelude.{◌≡◌, ◌≤◌, ℕ, true, List, [], OnOk, map, option_map};
ghost use Rattle.uz_explanations.specs.Differing.{values};
ghost use Rattle.uz_explanations.specs.Putting.{keep_all, kept, noted};
ghost use Rattle.uz_explanations.specs.Seen.{AreKept};
ghost use Rattle.uz_explanations.specs.declared.parts.Value.{Value};

use crate::said::Parts;
use crate::seen::{MOST_VALUES, Said, Seen, note};
use std::alloc::AllocError;
use uz_schedule::Instance;

/// Whether a value is the one that came last.
fn is_last<T: Said>(last: &Option<T>, value: &T) -> bool
    ensures { (seen : List Value) → result ≡ true → noted seen (option_map T.value last.now) ≡ seen → kept seen (T.value value.now) ≡ seen }
{
    match last {
        Some(other) => other.is_same(value),
        None => false,
    }
}

/// Whether what is said is the value that came last, or nothing.
fn is_again<T: Said>(last: &Option<T>, said: &Option<T>) -> bool
    ensures { (seen : List Value) → result ≡ true → noted seen (option_map T.value last.now) ≡ seen
        → noted seen (option_map T.value said.now) ≡ seen }
{
    match said {
        Some(value) => is_last(last, value),
        None => true,
    }
}

/// Keeps what is said.
fn note_said<T: Said>(seen: &mut Seen<T>, said: Option<T>) -> Result<(), AllocError>
    ensures { OnOk result (map T.value seen.new.values.items
        ≡ noted (map T.value seen.old.values.items) (option_map T.value said)) }
{
    match said {
        Some(value) => note(seen, &value),
        None => Ok(()),
    }
}

/// Keeps what instances say of a part.
fn note_part<T: Said, P: Parts<T>>(
    seen: &mut Seen<T>,
    here: &[&Instance],
    number: usize,
) -> Result<(), AllocError>
    ensures { OnOk result (map T.value seen.new.values.items
        ≡ keep_all (map T.value seen.old.values.items) (values P.class number (map (λ x. x.now) here.now))) }
{
    if seen.values.len() >= MOST_VALUES {
        return Ok(());
    }
    let mut last = None;
    for x in here {
        let said = P::said(*x, number);
        if is_again(&last, &said) {
            continue;
        }
        note_said(seen, said)?;
        last = said;
    }
    Ok(())
}

/// The greater one of two numbers.
fn greater(a: usize, b: usize) -> usize
    ensures first { a ≤ result }
    ensures second { b ≤ result }
{
    if a < b { b } else { a }
}

/// A number from which on no instance says anything of a part.
fn most_parts<T: Said, P: Parts<T>>(here: &[&Instance]) -> usize
    ensures { (k : ℕ) → result ≤ k → values P.class k (map (λ x. x.now) here.now) ≡ [] }
{
    let mut most = 0;
    for x in here {
        most = greater(most, P::count(*x));
    }
    most
}

/// Keeps what instances say of the parts of a kind.
pub(crate) fn note_parts<T: Said, P: Parts<T>>(
    seen: &mut Vec<Seen<T>>,
    here: &[&Instance],
) -> Result<(), AllocError>
    ensures { OnOk result (AreKept P.class T.value seen.old.items seen.new.items (map (λ x. x.now) here.now)) }
{
    for number in 0..seen.len().min(most_parts::<T, P>(here)) {
        note_part::<T, P>(&mut seen[number], here, number)?;
    }
    Ok(())
}
