//! The numbers of the points where an instruction may lead: rising, each once.

ghost use Rattle.std.specs.Prelude.{◌≡◌, ◌<◌, ◌≤◌, ℕ, Some, length, slice_get};
ghost use Rattle.uz_paths.specs.Successors.{count_below as number_below, with_number, is_number};

use arrayvec::ArrayVec;

/// How many of the numbers, rising, are below one.
fn count_below(number: u32, numbers: &[u32]) -> usize
    ensures count { result ≡ number_below number numbers.now }
    ensures within { result ≤ length numbers.now }
{
    for (i, m) in numbers.iter().enumerate() {
        if *m >= number {
            return i;
        }
    }
    numbers.len()
}

/// Whether the number stands at this place.
fn stands_at(number: u32, numbers: &[u32], place: usize) -> bool
    ensures { result ≡ is_number number (slice_get numbers.now place) }
{
    match numbers.get(place) {
        Some(m) => *m == number,
        None => false,
    }
}

/// Puts a number in its place, where it isn't there and there is room.
pub(crate) fn put_number(numbers: &mut ArrayVec<u32, 16>, number: u32)
    ensures { numbers.new.items ≡ with_number number numbers.old.items }
{
    let place = count_below(number, numbers.as_slice());
    if !stands_at(number, numbers.as_slice(), place) && numbers.as_slice().len() < 16 {
        numbers.insert(place, number);
    }
}
