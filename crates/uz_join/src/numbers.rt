//! Lists of the numbers of points, counted from 0.

ghost use Rattle.std.specs.Prelude.{◌≡◌, IfOk, min, replicate, slice_index_or};

use std::alloc::{AllocError, Global};

/// The number of no point.
pub const NONE: u32 = u32::MAX;

/// A number that counts things, or `NONE` where there are more.
pub fn number_of(count: usize) -> u32
    ensures { result ≡ min count 4294967295 }
{
    u32::try_from(count).unwrap_or(NONE)
}

/// The number at a place of a list, or `NONE` past its end.
pub fn number_at(numbers: &[u32], at: u32) -> u32
    ensures { result ≡ slice_index_or numbers.now at 4294967295 }
{
    match numbers.get(at as usize) {
        Some(number) => *number,
        None => NONE,
    }
}

/// So many times `NONE`.
pub fn nones(alloc: Global, count: u32) -> Result<Vec<u32>, AllocError>
    ensures { IfOk result (λ numbers. numbers.items ≡ replicate count 4294967295) }
{
    vec![in alloc; NONE; count as usize]
}
