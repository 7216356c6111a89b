//! What stores make of flags, cells and pointers.

ghost use Rattle.std.specs.Prelude.{◌≡◌, ◌<◌, ◌≤◌, ◌-◌, Option, length, if◌then◌else◌, ◌*◌};
ghost use Rattle.uz_core.specs.OperandRanges.{EffectFits, AddressModeFits};
ghost use Rattle.uz_core.specs.declared.machine.Effect.TheVariants.{Store};
ghost use Rattle.uz_transfer.specs.Values.{value_at};
ghost use Rattle.uz_transfer.specs.Memory.{flags_from as flags_from_val, with_cell, stored_in};
ghost use Rattle.uz_transfer.specs.Memory.{address_range as range_of_address, with_pointer_range};

use crate::memory::{address_range, cell_place, step_pointer};
use crate::values::{is_single_wide, span_of, val};
use uz_core::AddressMode;
use uz_range::bst;
use uz_schedule::{Bit, Head, Instance, Span, Val, Wide};

/// The flags after a value is stored to SREG.
fn flags_from(v: &Val) -> [Bit; 7]
    ensures { result ≡ flags_from_val v.now }
{
    match v {
        Val::Range(e) => [
            bst(*e, 0),
            bst(*e, 1),
            bst(*e, 2),
            bst(*e, 3),
            bst(*e, 4),
            bst(*e, 5),
            bst(*e, 6),
        ],
        Val::OldFlags => [
            Bit::Old,
            Bit::Old,
            Bit::Old,
            Bit::Old,
            Bit::Old,
            Bit::Old,
            Bit::Old,
        ],
        Val::Old(_) => [
            Bit::Free,
            Bit::Free,
            Bit::Free,
            Bit::Free,
            Bit::Free,
            Bit::Free,
            Bit::Free,
        ],
    }
}

/// A cell takes a range.
fn set_cell(at: &mut Instance, place: Option<u8>, range: Span)
    ensures { at.new ≡ with_cell place range at.old }
{
    if let Some(place) = place {
        let cells = at.cells.as_mut_slice();
        if (place as usize) < cells.len() {
            cells[place as usize] = range;
        }
    }
}

/// A value is stored at these addresses.
fn store_in(at: &mut Instance, head: &Head, a: &Wide, v: &Val)
    ensures { at.new ≡ stored_in head.now a.now v.now at.old }
{
    if !is_single_wide(a) {
        return;
    }
    if a.lo() == 0x5F {
        at.flags = flags_from(v);
    } else {
        let place = cell_place(head, at.kind, a.lo());
        set_cell(at, place, span_of(v));
    }
}

/// A value is stored at these addresses, and then the pointer takes its new value.
fn store_and_step(at: &mut Instance, head: &Head, to: AddressMode, a: &Wide, v: &Val)
    requires fits { AddressModeFits to }
    ensures { at.new ≡ with_pointer_range to at.old (stored_in head.now a.now v.now at.old) }
{
    store_in(at, head, a, v);
    step_pointer(at, to);
}

/// ST, STD, STS, OUT.
pub(crate) fn store(at: &mut Instance, head: &Head, to: AddressMode, r: u8)
    requires fits { EffectFits (Store to r) }
    ensures { at.new ≡ with_pointer_range to at.old (stored_in head.now (range_of_address to at.old) (value_at at.old.regs r) at.old) }
{
    let a = address_range(at, to);
    let v = val(at, r);
    store_and_step(at, head, to, &a, &v);
}
