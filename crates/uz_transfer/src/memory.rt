//! The stack, the tracked cells, and what loads and stores make of them.

ghost use Rattle.std.specs.Prelude.{◌≡◌, ◌<◌, ◌≤◌, ◌+◌, ◌-◌, ◌&&◌, ◌++◌, ◌∷◌, [], ℕ, false, true, Option, None, Some};
ghost use Rattle.std.specs.Prelude.{length, take, drop, nat_lt, if◌then◌else◌};
ghost use Rattle.uz_core.specs.OperandRanges.{AddressModeFits, EffectFits};
ghost use Rattle.uz_core.specs.declared.machine.Effect.TheVariants.{Load, Store};
ghost use Rattle.uz_transfer.specs.Values.{span_of as span_of_val, value_at, span_at, pair_range as range_of_pair};
ghost use Rattle.uz_transfer.specs.Values.{with_value, with_pair_value, with_flag_list};
ghost use Rattle.uz_transfer.specs.Kinds.{tracks as is_tracked, place_from, cell_place as place_of_cell, range_from};
ghost use Rattle.uz_transfer.specs.Kinds.{cell_range as range_of_cell, misses as misses_all, is_main as is_main_kind};
ghost use Rattle.uz_transfer.specs.Kinds.{is_handler as is_handler_kind};
ghost use Rattle.uz_transfer.specs.Memory.{cell_value as val_of_cell, address_range as range_of_address};
ghost use Rattle.uz_transfer.specs.Memory.{with_pointer_range, with_slots, depth_of, slot_value, without_slots};
ghost use Rattle.uz_range.specs.Answers.{ends};

use crate::values::{exact_pair, pair_range, set_pair_val, set_val, val};
use arrayvec::ArrayVec;
use uz_core::AddressMode;
use uz_range::{pair_add, pair_sub};
use uz_schedule::{Cell, Head, Instance, Kind, Owner, Span, Val, Wide};

/// Whether a kind tracks an owner's cells.
pub(crate) fn tracks(kind: Kind, owner: Owner) -> bool
    ensures { result ≡ is_tracked kind owner }
{
    match (kind, owner) {
        (Kind::Alone, _) | (Kind::Main, Owner::Main) | (Kind::Handler, Owner::Handler) => true,
        _ => false,
    }
}

/// Whether I is set in a kind.
pub(crate) fn is_main(kind: Kind) -> bool
    ensures { result ≡ is_main_kind kind }
{
    matches!(kind, Kind::Main)
}

/// Whether a kind is the handler's.
pub(crate) fn is_handler(kind: Kind) -> bool
    ensures { result ≡ is_handler_kind kind }
{
    matches!(kind, Kind::Handler)
}

/// The number, among the tracked ones, of the cell at an address, where it is tracked.
pub(crate) fn cell_place(head: &Head, kind: Kind, at: u16) -> Option<u8>
    ensures { result ≡ place_of_cell head.now kind at }
{
    let mut number = 0u8;
    let cells = head.cells.as_slice();
    for cell in cells {
        let tracked = tracks(kind, cell.owner);
        if cell.at == at {
            return if tracked { Some(number) } else { None };
        }
        if tracked {
            number += 1;
        }
    }
    None
}

/// The range that the head gives the cell at an address.
pub(crate) fn cell_range(head: &Head, at: u16) -> Option<Span>
    ensures { result ≡ range_of_cell head.now at }
{
    let cells = head.cells.as_slice();
    for cell in cells {
        if cell.at == at {
            return Some(cell.range);
        }
    }
    None
}

/// Whether no cell lies in a range of addresses.
pub(crate) fn misses(head: &Head, a: &Wide) -> bool
    ensures { result ≡ misses_all head.now.cells.items a.now }
{
    let cells = head.cells.as_slice();
    for cell in cells {
        if a.lo() <= cell.at && cell.at <= a.hi() {
            return false;
        }
    }
    true
}

/// The addresses that a load or a store may have.
pub(crate) fn address_range(at: &Instance, mode: AddressMode) -> Wide
    requires { AddressModeFits mode }
    ensures { result ≡ range_of_address mode at.now }
{
    match mode {
        AddressMode::Direct(k) => Wide::single(k),
        AddressMode::Displacement { pointer, offset } => displaced(pair_range(at, pointer), offset),
        AddressMode::PostIncrement { pointer } => pair_range(at, pointer),
        AddressMode::PreDecrement { pointer } => pair_sub(exact_pair(at, pointer), 1).span,
    }
}

/// A range moved on; any number where it could wrap.
fn displaced(range: Wide, offset: u8) -> Wide
    ensures { result ≡ (if nat_lt (range.hi + offset) 65536 then ends (range.lo + offset) (range.hi + offset) else ends 0 65535) }
{
    let hi = range.hi() as u32 + offset as u32;
    if hi < 65536 {
        Wide::between((range.lo() as u32 + offset as u32) as u16, hi as u16)
    } else {
        Wide::between(0, 65535)
    }
}

/// A pointer takes its value after it was used.
pub(crate) fn step_pointer(at: &mut Instance, mode: AddressMode)
    requires { AddressModeFits mode }
    ensures { at.new ≡ with_pointer_range mode at.old at.old }
{
    match mode {
        AddressMode::PostIncrement { pointer } => {
            let range = pair_add(exact_pair(at, pointer), 1).span;
            set_pair_val(at, pointer, range);
        }
        AddressMode::PreDecrement { pointer } => {
            let range = pair_sub(exact_pair(at, pointer), 1).span;
            set_pair_val(at, pointer, range);
        }
        _ => {}
    }
}

/// Slot i from the top, counted from 1.
pub(crate) fn slot(at: &Instance, i: u8) -> Val
    requires some { 1 ≤ i }
    requires few { i ≤ depth_of at.now }
    ensures { result ≡ slot_value i at.now }
{
    let slots = at.stack.as_slice();
    slots[slots.len() - i as usize]
}

/// A value is pushed.
pub(crate) fn push(at: &mut Instance, v: Val)
    requires { depth_of at.old < 32 }
    ensures { at.new ≡ with_slots (at.old.stack.items ++ v ∷ []) at.old }
{
    at.stack.push(v);
}

/// Slots are popped.
pub(crate) fn drop_slots(at: &mut Instance, n: u8)
    requires { n ≤ depth_of at.old }
    ensures { at.new ≡ without_slots n at.old }
{
    let left = at.stack.len() - n as usize;
    at.stack.truncate(left);
}
