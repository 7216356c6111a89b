//! Lines, kept in one text.

ghost use Rattle.std.specs.Prelude.{◌≡◌, ◌<◌, ◌≤◌, ◌++◌, ◌∷◌, [], IfOk, length, slice_index, slice_index_or};
ghost use Rattle.std.specs.List.{slice_range};
ghost use Rattle.avr_macro.specs.Bodies.{lines_in, start_in};

use std::alloc::{AllocError, Global};
use std::marker::Model;

/// Lines of more bytes are given up as want of memory: arguments that double at each level would fill all of it.
const BODY_LIMIT: usize = 16_777_216;

/// Lines, kept in one text.
///
/// A clause sees the list of lines.
#[derive(Drop)]
pub struct Lines {
    /// The lines one after another, without their ends.
    text: Vec<u8>,
    /// Where each line ends in the text.
    ends: Vec<u32>,
}

impl Model for Lines {
    ghost use Rattle.std.specs.Prelude.{◌≤◌, List, ℕ, length};
    ghost use Rattle.std.specs.Coded.{coded_ℕ, coded_list};
    ghost use Rattle.avr_macro.specs.Bodies.{RiseTo, lines_in};

    ghost Value = { List (List ℕ) };

    ghost coded = { coded_list (coded_list coded_ℕ) };

    ghost view = { λ lines. lines_in lines.text.items 0 lines.ends.items };

    ghost invariant = { λ lines. RiseTo (length lines.text.items) 0 lines.ends.items × (length lines.text.items ≤ 16777216) };
}

/// Where a line begins in the text: where the one before it ends.
#[tactic(auto, using(crate::proofs::Kept::first_start, crate::proofs::Kept::later_start))]
fn start_of(ends: &[u32], n: usize) -> usize
    requires { n < length ends.now }
    ensures { result ≡ start_in 0 ends.now n }
{
    if n == 0 { 0 } else { ends[n - 1] as usize }
}

/// Where a line ends in the text.
fn end_of(ends: &[u32], n: usize) -> usize
    requires { n < length ends.now }
    ensures { result ≡ slice_index ends.now n }
{
    ends[n] as usize
}

impl Lines {
    /// None.
    pub fn new(alloc: Global) -> Lines
        ensures { result ≡ [] }
    {
        Lines {
            text: Vec::new(alloc),
            ends: Vec::new(alloc),
        }
    }

    /// How many they are.
    pub fn count(&self) -> usize
        ensures { result ≡ length self.now }
    {
        self.ends.as_slice().len()
    }

    /// A line by its place, counted from 0.
    pub fn line(&self, n: usize) -> &[u8]
        requires { n < length self.now }
        ensures { result.now ≡ slice_index_or self.now n [] }
    {
        let ends = self.ends.as_slice();
        let start = start_of(ends, n);
        let end = end_of(ends, n);
        let text = self.text.as_slice();
        &text[start..end]
    }

    /// The same with one line more.
    pub fn with(self, line: &[u8]) -> Result<Lines, AllocError>
        ensures { IfOk result (λ lines. lines ≡ self ++ line.now ∷ []) }
    {
        let mut lines = self;
        if lines.text.len() + line.len() > BODY_LIMIT {
            return Err(AllocError);
        }
        lines.text.extend_from_slice(line)?;
        let end = lines.text.as_slice().len() as u32;
        lines.ends.push(end)?;
        Ok(lines)
    }
}
