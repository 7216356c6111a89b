//! A copy of an instance.

ghost use Rattle.std.specs.Prelude.{◌≡◌, ◌<◌, ◌≤◌, ◌-◌, length, ◌*◌};

use arrayvec::ArrayVec;
use uz_schedule::{Instance, Span, Val};

/// A copy of values.
fn copied_vals(from: &[Val]) -> ArrayVec<Val, 32>
    requires { length from.now ≤ 32 }
    ensures { result.items ≡ from.now }
{
    let mut copy = ArrayVec::new();
    copy_slots(&mut copy, from);
    copy
}

/// A copy of ranges.
fn copied_spans(from: &[Span]) -> ArrayVec<Span, 16>
    requires { length from.now ≤ 16 }
    ensures { result.items ≡ from.now }
{
    let mut copy = ArrayVec::new();
    copy_cells(&mut copy, from);
    copy
}

/// Slots become copies of others.
fn copy_slots(slots: &mut ArrayVec<Val, 32>, from: &[Val])
    requires { length from.now ≤ 32 }
    ensures { slots.new.items ≡ from.now }
{
    slots.clear();
    if slots.try_extend_from_slice(from).is_err() {
        unreachable!();
    }
}

/// Ranges of cells become copies of others.
fn copy_cells(cells: &mut ArrayVec<Span, 16>, from: &[Span])
    requires { length from.now ≤ 16 }
    ensures { cells.new.items ≡ from.now }
{
    cells.clear();
    if cells.try_extend_from_slice(from).is_err() {
        unreachable!();
    }
}

/// A copy of a value, at once.
pub(crate) fn copy_of<T: Copy>(value: &T) -> T
    ensures { result ≡ value.now }
{
    *value
}

/// A copy of an instance.
pub fn copied(at: &Instance) -> Instance
    ensures { result ≡ at.now }
{
    Instance {
        regs: copy_of(&at.regs),
        stack: copied_vals(at.stack.as_slice()),
        cells: copied_spans(at.cells.as_slice()),
        ..*at
    }
}

/// An instance becomes a copy of another one.
pub(crate) fn copy_to(draft: &mut Instance, at: &Instance)
    ensures { draft.new ≡ at.now }
{
    draft.kind = at.kind;
    draft.pc = at.pc;
    draft.line = at.line;
    draft.clock = at.clock;
    draft.level = at.level;
    draft.pending = at.pending;
    draft.top = at.top;
    draft.temp = at.temp;
    draft.regs = copy_of(&at.regs);
    draft.pairs = at.pairs;
    draft.flags = at.flags;
    draft.compared = at.compared;
    copy_slots(&mut draft.stack, at.stack.as_slice());
    copy_cells(&mut draft.cells, at.cells.as_slice());
}
