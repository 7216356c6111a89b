//! What an instance says of the parts of each kind.

ghost use Rattle.std.specs.Prelude.{◌≡◌, ℕ, length, option_map, slice_get};
ghost use Rattle.uz_explanations.specs.Parts.{said, same_kind};
ghost use Rattle.uz_explanations.specs.Seen.{cell_value};
ghost use Rattle.uz_explanations.specs.declared.parts.Class.TheVariants.{Cell};

use crate::seen::Said;
use uz_schedule::{Bit, Instance, Kind, Span, Val, Wide};

/// A kind of parts, of which an instance says such values.
pub(crate) trait Parts<T: Said> {
    ghost use Rattle.std.specs.Prelude.{◌≡◌, ◌≤◌, ℕ, None, option_map};
    ghost use Rattle.uz_explanations.specs.declared.parts.Class.{Class};
    ghost use Rattle.uz_explanations.specs.Parts.{said};

    ghost class: { Class };

    /// What an instance says of the part of this number, if it has one.
    fn said(x: &Instance, number: usize) -> Option<T>
        ensures { option_map T.value result ≡ said class number x.now };

    /// Of parts from this number on an instance says nothing.
    fn count(x: &Instance) -> usize
        ensures { (k : ℕ) → result ≤ k → said class k x.now ≡ None };
}

/// How many parts there are.
fn length_of<T>(parts: &[T]) -> usize
    ensures { result ≡ length parts.now }
{
    parts.len()
}

/// The registers.
pub(crate) struct Registers;

impl Parts<Val> for Registers {
    ghost use Rattle.uz_explanations.specs.declared.parts.Class.TheVariants.{Register};

    ghost class = { Register };

    fn said(x: &Instance, number: usize) -> Option<Val> {
        x.regs.get(number).copied()
    }

    fn count(x: &Instance) -> usize {
        length_of(&x.regs)
    }
}

/// The pairs X, Y and Z.
pub(crate) struct Pairs;

impl Parts<Wide> for Pairs {
    ghost use Rattle.uz_explanations.specs.declared.parts.Class.TheVariants.{Pair};

    ghost class = { Pair };

    fn said(x: &Instance, number: usize) -> Option<Wide> {
        x.pairs.get(number).copied()
    }

    fn count(x: &Instance) -> usize {
        length_of(&x.pairs)
    }
}

/// The flags.
pub(crate) struct Flags;

impl Parts<Bit> for Flags {
    ghost use Rattle.uz_explanations.specs.declared.parts.Class.TheVariants.{Flag};

    ghost class = { Flag };

    fn said(x: &Instance, number: usize) -> Option<Bit> {
        x.flags.get(number).copied()
    }

    fn count(x: &Instance) -> usize {
        length_of(&x.flags)
    }
}

/// The bytes of the stack.
pub(crate) struct Slots;

impl Parts<Val> for Slots {
    ghost use Rattle.uz_explanations.specs.declared.parts.Class.TheVariants.{Slot};

    ghost class = { Slot };

    fn said(x: &Instance, number: usize) -> Option<Val> {
        x.stack.as_slice().get(number).copied()
    }

    fn count(x: &Instance) -> usize {
        length_of(x.stack.as_slice())
    }
}

/// Whether an instance is of a side.
fn is_of(kind: Kind, side: Kind) -> bool
    ensures { result ≡ same_kind kind side }
{
    match (kind, side) {
        (Kind::Main, Kind::Main) => true,
        (Kind::Handler, Kind::Handler) => true,
        (Kind::Alone, Kind::Alone) => true,
        _ => false,
    }
}

/// What an instance says of the cells of a side.
fn cells_of(x: &Instance, side: Kind) -> &[Span]
    ensures { (k : ℕ) → option_map cell_value (slice_get result.now k) ≡ said (Cell side) k x.now }
{
    if is_of(x.kind, side) {
        x.cells.as_slice()
    } else {
        &[]
    }
}

/// The cells that main follows.
pub(crate) struct MainCells;

impl Parts<Span> for MainCells {
    ghost use Rattle.uz_schedule.specs.declared.kinds.Kind.TheVariants.{Main};
    ghost use Rattle.uz_explanations.specs.declared.parts.Class.TheVariants.{Cell};

    ghost class = { Cell Main };

    fn said(x: &Instance, number: usize) -> Option<Span> {
        cells_of(x, Kind::Main).get(number).copied()
    }

    fn count(x: &Instance) -> usize {
        length_of(cells_of(x, Kind::Main))
    }
}

/// The cells that the handler follows.
pub(crate) struct HandlerCells;

impl Parts<Span> for HandlerCells {
    ghost use Rattle.uz_schedule.specs.declared.kinds.Kind.TheVariants.{Handler};
    ghost use Rattle.uz_explanations.specs.declared.parts.Class.TheVariants.{Cell};

    ghost class = { Cell Handler };

    fn said(x: &Instance, number: usize) -> Option<Span> {
        cells_of(x, Kind::Handler).get(number).copied()
    }

    fn count(x: &Instance) -> usize {
        length_of(cells_of(x, Kind::Handler))
    }
}

/// The cells that are followed before there is a main program.
pub(crate) struct AloneCells;

impl Parts<Span> for AloneCells {
    ghost use Rattle.uz_schedule.specs.declared.kinds.Kind.TheVariants.{Alone};
    ghost use Rattle.uz_explanations.specs.declared.parts.Class.TheVariants.{Cell};

    ghost class = { Cell Alone };

    fn said(x: &Instance, number: usize) -> Option<Span> {
        cells_of(x, Kind::Alone).get(number).copied()
    }

    fn count(x: &Instance) -> usize {
        length_of(cells_of(x, Kind::Alone))
    }
}
