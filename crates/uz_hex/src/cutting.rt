//! Texts cut apart at a byte.

ghost use Rattle.std.specs.Prelude.{◌≡◌, ◌==◌, IfOk, map, option_map};
ghost use Rattle.std.specs.List.{slice_split};
ghost use Rattle.uz_hex.specs.Cutting.{cut_at};

use std::alloc::{AllocError, Global};

/// The parts of a text between its separators, in order: one more than there are separators. Only want of memory
/// refuses it.
pub fn parts(alloc: Global, text: &[u8], separator: u8) -> Result<Vec<&[u8]>, AllocError>
    ensures { IfOk result (λ v. map (λ x. x.now) v.items ≡ slice_split (λ b. b == separator) text.now) }
{
    text.split(|b| *b == separator).collect(alloc)
}

/// The bytes before the first separator and those after it, or None exactly where the word has none.
pub fn cut(word: &[u8], separator: u8) -> Option<(&[u8], &[u8])>
    ensures { option_map (λ p. (p.0.now, p.1.now)) result ≡ cut_at separator word.now }
{
    for (i, b) in word.iter().enumerate() {
        if *b == separator {
            return Some((&word[..i], &word[i + 1..]));
        }
    }
    None
}
