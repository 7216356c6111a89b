//! How far apart clocks of a line are.

ghost use Rattle.std.specs.Prelude.{◌≡◌, ◌<◌, ℕ, IfOk, length, slice_index_or};
ghost use Rattle.uz_schedule.specs.Schedule.{scanline};
ghost use Rattle.uz_report.specs.Shown.{distances as distances_of, odd_after as odd_clock, odd_in as first_odd, times};

use std::alloc::{AllocError, Global};
use uz_schedule::SCANLINE;

/// From each clock to the next one.
pub(crate) fn distances(alloc: Global, clocks: &[u16]) -> Result<Vec<u16>, AllocError>
    ensures { IfOk result (λ all. all.items ≡ distances_of clocks.now) }
{
    let mut all = Vec::new(alloc);
    for i in 0..clocks.len().saturating_sub(1) {
        all.push(clocks[i + 1].saturating_sub(clocks[i]))?;
    }
    Ok(all)
}

/// How often each distance below a line's length comes.
pub(crate) fn tally(alloc: Global, all: &[u16]) -> Result<Vec<usize>, AllocError>
    ensures length { IfOk result (λ counts. length counts.items ≡ scanline) }
    ensures times { IfOk result (λ counts. (d : ℕ) → d < scanline → slice_index_or counts.items d 0 ≡ times d all.now) }
{
    let mut counts = vec![in alloc; 0; usize::from(SCANLINE)]?;
    for distance in all {
        let place = usize::from(*distance);
        if place < usize::from(SCANLINE) {
            counts[place] += 1;
        }
    }
    Ok(counts)
}

/// The count at a place of a list, 0 past its end.
pub(crate) fn count_at(counts: &[usize], place: u16) -> usize
    ensures { result ≡ slice_index_or counts.now place 0 }
{
    match counts.get(usize::from(place)) {
        Some(count) => *count,
        None => 0,
    }
}

/// The first of these clocks that doesn't come this distance after the one before it.
fn odd_after(distance: u16, first: u16, clocks: &[u16]) -> Option<u16>
    ensures { result ≡ odd_clock distance first clocks.now }
{
    let mut before = first;
    for clock in clocks {
        if clock.saturating_sub(before) != distance {
            return Some(*clock);
        }
        before = *clock;
    }
    None
}

/// The first clock whose distance from the one before it isn't that of the second from the first.
pub(crate) fn odd_in(clocks: &[u16]) -> Option<u16>
    ensures { result ≡ first_odd clocks.now }
{
    match clocks {
        [first, second, later @ ..] => odd_after(second.saturating_sub(*first), *second, later),
        _ => None,
    }
}
