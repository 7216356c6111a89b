//! The places at which a number stands in a list, as words.

ghost use Rattle.std.specs.Prelude.{◌≡◌, ◌<◌, ◌++◌, OnOk, length};
ghost use Rattle.uz_report.specs.Places.{end_word, goes_on_to as goes_on, has as has_number, place_word, place_words, stands_at as stands, word_at};

use crate::words::put_number;
use std::alloc::AllocError;

/// Whether a number stands in a list.
pub(crate) fn has(number: u16, numbers: &[u16]) -> bool
    ensures { result ≡ has_number number numbers.now }
{
    for other in numbers {
        if *other == number {
            return true;
        }
    }
    false
}

/// Whether a number stands at a place.
fn stands_at(numbers: &[u16], number: u16, place: usize) -> bool
    ensures { result ≡ stands numbers.now number place }
{
    match numbers.get(place) {
        Some(there) => *there == number,
        None => false,
    }
}

/// Whether a run goes on to a place.
fn goes_on_to(numbers: &[u16], number: u16, place: usize) -> bool
    ensures { result ≡ goes_on numbers.now number place }
{
    place > 0 && stands_at(numbers, number, place - 1)
}

/// Puts the last place of a run where it ends here.
fn put_end(text: &mut Vec<u8>, numbers: &[u16], number: u16, place: usize) -> Result<(), AllocError>
    requires { place < length numbers.now }
    ensures { OnOk result (text.new.items ≡ text.old.items ++ end_word numbers.now number place) }
{
    if stands_at(numbers, number, place + 1) {
        Ok(())
    } else {
        put_number(text, b"-", place as u64)
    }
}

/// Puts the word for a place at which the number stands.
fn put_place(
    text: &mut Vec<u8>,
    numbers: &[u16],
    number: u16,
    place: usize,
) -> Result<(), AllocError>
    requires { place < length numbers.now }
    ensures { OnOk result (text.new.items ≡ text.old.items ++ place_word numbers.now number place) }
{
    if goes_on_to(numbers, number, place) {
        put_end(text, numbers, number, place)
    } else {
        put_number(text, b" ", place as u64)
    }
}

/// Puts the word for a place, where there is one.
fn put_word(
    text: &mut Vec<u8>,
    numbers: &[u16],
    number: u16,
    place: usize,
) -> Result<(), AllocError>
    requires { place < length numbers.now }
    ensures { OnOk result (text.new.items ≡ text.old.items ++ word_at numbers.now number place) }
{
    if stands_at(numbers, number, place) {
        put_place(text, numbers, number, place)
    } else {
        Ok(())
    }
}

/// Puts the places at which a number stands: runs as ` A` and ` A-B`.
#[tactic(auto, unfolding(crate::specs::Places::place_words))]
pub(crate) fn put_places(text: &mut Vec<u8>, numbers: &[u16], number: u16) -> Result<(), AllocError>
    ensures { OnOk result (text.new.items ≡ text.old.items ++ place_words numbers.now number) }
{
    for place in 0..numbers.len() {
        put_word(text, numbers, number, place)?;
    }
    Ok(())
}
