//! Where the handler returns on each line, and with which cells.

ghost use Rattle.std.specs.Prelude.{◌≡◌, ◌<◌, ◌↔◌, ℕ, IsFalse, IsTrue, IfOk, length, slice_get};
ghost use Rattle.uz_search.specs.declared.returns.Return.{Return};
ghost use Rattle.uz_search.specs.Returning.{IsReturnOf, NotesReturn, ReturnAt, SomeReturn};

use arrayvec::ArrayVec;
use std::alloc::AllocError;
use uz_schedule::{Instance, Span};

/// The first return found on a line.
#[derive(Drop)]
pub struct Return {
    /// The clock of its line at which it ends.
    pub clock: u16,
    /// The handler's cells at its end.
    pub cells: ArrayVec<Span, 16>,
    /// The number of the instance that returns.
    pub by: u32,
}

/// Whether cells have the same ranges.
fn are_same_cells(a: &ArrayVec<Span, 16>, b: &ArrayVec<Span, 16>) -> bool
    ensures { IsTrue result ↔ (a.now ≡ b.now) }
{
    *a == *b
}

/// Whether a return ends as the noted one does.
fn is_same(noted: &Return, end: &Instance) -> bool
    ensures { IsTrue result ↔ IsReturnOf noted.now end.now }
{
    noted.clock == end.clock && are_same_cells(&noted.cells, &end.cells)
}

/// The return that an end makes.
fn return_of(end: &Instance, by: u32) -> Result<Return, AllocError>
    ensures of { IfOk result (λ r. IsReturnOf r end.now) }
    ensures by { IfOk result (λ r. r.by ≡ by) }
{
    let cells = end.cells.clone()?;
    Ok(Return {
        clock: end.clock,
        cells,
        by,
    })
}

/// Notes a return, or answers the number of an instance that returns otherwise on its line.
pub(crate) fn note_return(
    returns: &mut [Option<Return>],
    end: &Instance,
    by: u32,
) -> Result<Option<u32>, AllocError>
    requires { end.now.line < length returns.old }
    ensures { IfOk result (λ other. NotesReturn returns.old end.now by other returns.new) }
{
    let line = end.line as usize;
    match &returns[line] {
        Some(noted) => {
            if is_same(noted, end) {
                Ok(None)
            } else {
                Ok(Some(noted.by))
            }
        }
        None => {
            returns[line] = Some(return_of(end, by)?);
            Ok(None)
        }
    }
}

/// Whether no return is noted.
pub(crate) fn is_without_return(returns: &[Option<Return>]) -> bool
    ensures none { IsTrue result → (line : ℕ) (r : Return) → ReturnAt returns.now line r → ⊥ }
    ensures some { IsFalse result → SomeReturn returns.now }
{
    'each: for noted in returns {
        if noted.is_some() {
            return false;
        }
    }
    true
}
