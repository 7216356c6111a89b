//! The cells of the hints in order of address.

ghost use Rattle.std.specs.Prelude.{◌≡◌, ◌<◌, ◌≤◌, length, map};
ghost use Rattle.uz_paths.specs.Cells.{owner_of as owner_of_kind, place_in as place_among, with_cell, with_hint};
ghost use Rattle.uz_paths.specs.Cells.{cells_of as cells_of_hints, first_values as values_of, HasRoom};
ghost use Rattle.uz_paths.specs.Faults.{CellsFine};

use arrayvec::ArrayVec;
use avr_asm::Hint;
use uz_schedule::{Cell, Kind, Owner, Span, tracks};

/// A tracked cell, with the value that the handler finds in it at the start.
#[derive(Clone, Copy, Default)]
pub struct Tracked {
    /// The cell.
    pub cell: Cell,
    /// The value, 0 for a cell of main.
    pub first: u8,
}

/// The owner of a cell that a hint names by a kind.
fn owner_of(kind: Kind) -> Owner
    ensures { result ≡ owner_of_kind kind }
{
    match kind {
        Kind::Handler => Owner::Handler,
        Kind::Main | Kind::Alone => Owner::Main,
    }
}

/// How many of the cells lie at or below an address, before the first that lies above it.
fn place_in(at: u16, cells: &[Tracked]) -> usize
    ensures place { result ≡ place_among at cells.now }
    ensures within { result ≤ length cells.now }
{
    for (i, tracked) in cells.iter().enumerate() {
        if at < tracked.cell.at {
            return i;
        }
    }
    cells.len()
}

/// Puts a cell among others, after those at or below its address.
fn put_cell(cells: &mut ArrayVec<Tracked, 16>, tracked: Tracked)
    requires { length cells.old.items < 16 }
    ensures { cells.new.items ≡ with_cell tracked cells.old.items }
{
    let place = place_in(tracked.cell.at, cells.as_slice());
    cells.insert(place, tracked);
}

/// The cell of a hint.
fn tracked_of(at: u16, owner: Kind, lo: u8, hi: u8, first: u8) -> Tracked
    requires { lo ≤ hi }
    ensures { result ≡ record {
      cell = record { at = at; owner = owner_of_kind owner; range = record { lo = lo; hi = hi } };
      first = first;
    } }
{
    Tracked {
        cell: Cell {
            at,
            owner: owner_of(owner),
            range: Span::between(lo, hi),
        },
        first,
    }
}

/// Puts the cell that a hint is, where it is one, among others.
fn put_hint(cells: &mut ArrayVec<Tracked, 16>, hint: &Hint)
    requires { HasRoom cells.old.items hint.now }
    ensures { cells.new.items ≡ with_hint cells.old.items hint.now }
{
    if let Hint::Cell {
        at,
        owner,
        lo,
        hi,
        first,
    } = hint
    {
        put_cell(cells, tracked_of(*at, *owner, *lo, *hi, *first));
    }
}

/// The cells of the hints in order of address.
pub(crate) fn cells_of(hints: &[Hint]) -> ArrayVec<Tracked, 16>
    requires { CellsFine hints.now }
    ensures { result.items ≡ cells_of_hints hints.now }
{
    let mut cells = ArrayVec::new();
    for hint in hints {
        put_hint(&mut cells, hint);
    }
    cells
}

/// The cells without their first values.
pub(crate) fn head_cells(tracked: &[Tracked]) -> ArrayVec<Cell, 16>
    requires { length tracked.now ≤ 16 }
    ensures cells { result.items ≡ map (λ t. t.cell) tracked.now }
    ensures few { length result.items ≤ 16 }
{
    let mut cells = ArrayVec::new();
    for t in tracked {
        cells.push(t.cell);
    }
    cells
}

/// The first value of each of the handler's cells.
pub(crate) fn first_values(tracked: &[Tracked]) -> ArrayVec<Span, 16>
    requires { length tracked.now ≤ 16 }
    ensures { result.items ≡ values_of tracked.now }
{
    let mut values = ArrayVec::new();
    for t in tracked {
        if tracks(Kind::Handler, t.cell.owner) {
            values.push(Span::single(t.first));
        }
    }
    values
}
