//! The different values that are said of parts.

ghost use Rattle.std.specs.Prelude.{◌≡◌, ℕ, true, [], IfOk, OnOk, length, map, nat_lt};
ghost use Rattle.uz_explanations.specs.Putting.{is_among as among, kept, put_once};
ghost use Rattle.uz_explanations.specs.Seen.{seen_at};

use crate::parts::{same_bit, same_span, same_val, same_wide};
use std::alloc::{AllocError, Global};
use uz_schedule::{Bit, Span, Val, Wide};

/// Different values of a part are counted up to this number.
pub(crate) const MOST_VALUES: usize = 256;

/// What an instance says of a part.
pub(crate) trait Said: Copy {
    ghost use Rattle.std.specs.Prelude.{◌≡◌};
    ghost use Rattle.uz_explanations.specs.declared.parts.Value.{Value};
    ghost use Rattle.uz_explanations.specs.Parts.{same};

    ghost value: { Self → Value };

    /// Whether two say the same.
    fn is_same(&self, other: &Self) -> bool
        ensures { result ≡ same (value self.now) (value other.now) };
}

impl Said for Val {
    ghost use Rattle.uz_explanations.specs.declared.parts.Value.TheVariants.{Byte};

    ghost value = { Byte };

    fn is_same(&self, other: &Self) -> bool {
        same_val(self, other)
    }
}

impl Said for Span {
    ghost use Rattle.uz_schedule.specs.declared.facts.Val.TheVariants.{Range};
    ghost use Rattle.uz_explanations.specs.declared.parts.Value.TheVariants.{Byte};

    ghost value = { λ e. Byte (Range e) };

    fn is_same(&self, other: &Self) -> bool {
        same_span(self, other)
    }
}

impl Said for Wide {
    ghost use Rattle.uz_explanations.specs.declared.parts.Value.TheVariants.{Pair};

    ghost value = { Pair };

    fn is_same(&self, other: &Self) -> bool {
        same_wide(self, other)
    }
}

impl Said for Bit {
    ghost use Rattle.uz_explanations.specs.declared.parts.Value.TheVariants.{Flag};

    ghost value = { Flag };

    fn is_same(&self, other: &Self) -> bool {
        same_bit(*self, *other)
    }
}

/// The different values that were said of a part, at most 256 of them.
#[derive(Drop)]
pub(crate) struct Seen<T> {
    /// Each one once, in the order in which they came.
    pub(crate) values: Vec<T>,
    /// The place of the one that came last.
    last: usize,
}

/// Whether a value stands at this place.
fn is_at<T: Said>(seen: &Seen<T>, place: usize, value: &T) -> bool
    ensures { result ≡ true → among (map T.value seen.now.values.items) (T.value value.now) ≡ true }
{
    match seen.values.get(place) {
        Some(other) => other.is_same(value),
        None => false,
    }
}

/// The place of a value among others, and their number where it isn't there.
fn place_of<T: Said>(values: &[T], value: &T) -> usize
    ensures { among (map T.value values.now) (T.value value.now) ≡ nat_lt result (length values.now) }
{
    for (place, other) in values.iter().enumerate() {
        if other.is_same(value) {
            return place;
        }
    }
    values.len()
}

/// Puts a value behind others, unless it is there.
fn put<T: Said>(seen: &mut Seen<T>, value: &T) -> Result<(), AllocError>
    ensures { OnOk result (map T.value seen.new.values.items ≡ put_once (map T.value seen.old.values.items) (T.value value.now)) }
{
    let next = seen.last.saturating_add(1);
    if is_at(seen, next, value) {
        seen.last = next; // a counter goes on so
        return Ok(());
    }
    let place = place_of(seen.values.as_slice(), value);
    seen.last = place;
    if place < seen.values.len() {
        return Ok(());
    }
    seen.values.push(*value)?;
    Ok(())
}

/// Keeps a value, unless it is there or there are 256.
pub(crate) fn note<T: Said>(seen: &mut Seen<T>, value: &T) -> Result<(), AllocError>
    ensures { OnOk result (map T.value seen.new.values.items ≡ kept (map T.value seen.old.values.items) (T.value value.now)) }
{
    if seen.values.len() >= MOST_VALUES {
        return Ok(());
    }
    if is_at(seen, seen.last, value) {
        return Ok(());
    }
    put(seen, value)
}

/// So many parts, of which nothing was said.
pub(crate) fn unseen<T: Said>(alloc: Global, count: usize) -> Result<Vec<Seen<T>>, AllocError>
    ensures { IfOk result (λ v. (length v.items ≡ count) × ((k : ℕ) → seen_at T.value v.items k ≡ [])) }
{
    let mut all = Vec::with_capacity(alloc, count)?;
    for number in 0..count {
        all.push(Seen {
            values: Vec::new(alloc),
            last: 0,
        })?;
    }
    Ok(all)
}
