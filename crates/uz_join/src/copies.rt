//! Rests and entries with other numbers of points.

ghost use Rattle.std.specs.Prelude.{◌≡◌, ◌≤◌, IfOk, length, map};
ghost use Rattle.uz_join.specs.Joined.{rest_unnumbered, entry_unnumbered};

use crate::number_at;
use arrayvec::ArrayVec;
use std::alloc::{AllocError, Global};
use uz_schedule::{Entry, Fact, Point, Rest, Sequence, Span};

/// A copy of a value, at once.
pub(crate) fn copy_of<T: Copy>(value: &T) -> T
    ensures { result ≡ value.now }
{
    *value
}

/// A copy of ranges of cells, or of slots.
fn copy_spans<const CAP: usize>(from: &[Span]) -> ArrayVec<Span, CAP>
    requires { length from.now ≤ CAP }
    ensures { result.items ≡ from.now }
{
    let mut copy = ArrayVec::new();
    let _full = copy.try_extend_from_slice(from).is_err();
    copy
}

/// A rest with another vector.
fn with_vector(rest: &Rest, vector: u32) -> Rest
    ensures { rest_unnumbered result ≡ rest_unnumbered rest.now }
{
    Rest {
        line: rest.line,
        clock: rest.clock,
        vector,
        cells: copy_spans(rest.cells.as_slice()),
    }
}

/// The rests with the numbers of their vectors' chains.
pub fn rests_of(
    alloc: Global,
    rests: &[Rest],
    numbers: &[u32],
) -> Result<Sequence<Rest>, AllocError>
    ensures { IfOk result (λ r. map rest_unnumbered r ≡ map rest_unnumbered rests.now) }
{
    let mut all = Sequence::new(alloc);
    for rest in rests {
        all.push(with_vector(rest, number_at(numbers, rest.vector)))?;
    }
    Ok(all)
}

/// The entry with the number of its point's chain.
pub fn entry_of(entry: &Entry, numbers: &[u32]) -> Entry
    ensures { entry_unnumbered result ≡ entry_unnumbered entry.now }
{
    Entry {
        kind: entry.kind,
        id: number_at(numbers, entry.id),
        pc: entry.pc,
        line: entry.line,
        clock: entry.clock,
        regs: copy_of(&entry.regs),
        flags: entry.flags,
        stack: copy_spans(entry.stack.as_slice()),
        cells: copy_spans(entry.cells.as_slice()),
    }
}

/// A copy of facts of the stack, or of cells.
fn copy_facts<const CAP: usize>(from: &[Fact]) -> ArrayVec<Fact, CAP> {
    let mut copy = ArrayVec::new();
    let _full = copy.try_extend_from_slice(from).is_err();
    copy
}

/// A copy of a point without successors.
pub(crate) fn copy_point(from: &Point) -> Point {
    Point {
        regs: copy_of(&from.regs),
        pairs: copy_of(&from.pairs),
        stack: copy_facts(from.stack.as_slice()),
        cells: copy_facts(from.cells.as_slice()),
        next: ArrayVec::new(),
        ..*from
    }
}
