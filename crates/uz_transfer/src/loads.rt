//! What loads give: SREG, the timer's count, tracked cells, flash bytes.

ghost use Rattle.std.specs.Prelude.{◌≡◌, ◌<◌, ◌≤◌, ◌+◌, ◌-◌, ◌*◌, ◌%◌, ◌&&◌, not, ℕ, false, true, Option, None, Some};
ghost use Rattle.std.specs.Prelude.{length, if◌then◌else◌};
ghost use Rattle.uz_core.specs.OperandRanges.{AddressModeFits, EffectFits};
ghost use Rattle.uz_core.specs.declared.machine.Effect.TheVariants.{Load};
ghost use Rattle.uz_core.specs.Arithmetic.{bit_value};
ghost use Rattle.uz_range.specs.Answers.{is_known as is_known_bit, is_one};
ghost use Rattle.uz_transfer.specs.Values.{exact_pair as exact_range, pair_range as range_of_pair, with_value};
ghost use Rattle.uz_transfer.specs.Values.{with_pair_value, span_at, known_byte as val_of_byte, any_byte};
ghost use Rattle.uz_transfer.specs.Kinds.{cell_place as place_of_cell, cell_range as range_of_cell};
ghost use Rattle.uz_transfer.specs.Kinds.{is_main as is_main_kind, is_handler as is_handler_kind};
ghost use Rattle.uz_transfer.specs.Memory.{all_flags, is_old as is_old_bit, flags_number, sreg_value as val_of_sreg};
ghost use Rattle.uz_transfer.specs.Memory.{cell_value as val_of_cell, value_at_address as val_of_address, loaded_value};
ghost use Rattle.uz_transfer.specs.Memory.{address_range as range_of_address, with_pointer_range, flash_value};
ghost use Rattle.uz_transfer.specs.Memory.{slot_value, without_slots, depth_of};
ghost use Rattle.uz_range.specs.Rules.{pair_add_answer};
ghost use Rattle.uz_schedule.specs.declared.facts.Val.TheVariants.{OldFlags};

use crate::memory::{
    address_range, cell_place, cell_range, drop_slots, is_handler, is_main, slot, step_pointer,
};
use crate::values::{exact_pair, is_single_wide, pair_range, set_pair_val, set_val};
use uz_core::AddressMode;
use uz_hex::Image;
use uz_range::pair_add;
use uz_schedule::{Bit, Head, Instance, Kind, Span, Val};

/// A byte that is known.
pub(crate) fn known_byte(value: u8) -> Val
    ensures { result ≡ val_of_byte value }
{
    Val::Range(Span::single(value))
}

/// Any byte.
fn unknown() -> Val
    ensures { result ≡ any_byte }
{
    Val::Range(Span::between(0, 255))
}

/// Whether a flag is the interrupted one.
fn is_old(b: Bit) -> bool
    ensures { result ≡ is_old_bit b }
{
    matches!(b, Bit::Old)
}

/// Whether a flag is known.
fn is_known(b: Bit) -> bool
    ensures { result ≡ is_known_bit b }
{
    matches!(b, Bit::Zero | Bit::One)
}

/// Whether all flags are the interrupted ones.
fn all_old(flags: &[Bit]) -> bool
    ensures { result ≡ all_flags is_old_bit flags.now }
{
    for b in flags {
        if !is_old(*b) {
            return false;
        }
    }
    true
}

/// Whether all flags are known.
fn all_known(flags: &[Bit]) -> bool
    ensures { result ≡ all_flags is_known_bit flags.now }
{
    for b in flags {
        if !is_known(*b) {
            return false;
        }
    }
    true
}

/// A flag's bit.
fn bit(b: Bit) -> u8
    ensures value { result ≡ bit_value (is_one b) }
    ensures below { result < 2 }
{
    if matches!(b, Bit::One) { 1 } else { 0 }
}

/// The number of each_flag flags.
#[tactic(auto, using(crate::proofs::Sevens::seven_flags))]
fn number(flags: &[Bit; 7]) -> u8
    ensures value { result ≡ flags_number flags.now }
    ensures below { result < 128 }
{
    let high = bit(flags[4]) + 2 * (bit(flags[5]) + 2 * bit(flags[6]));
    bit(flags[0]) + 2 * (bit(flags[1]) + 2 * (bit(flags[2]) + 2 * (bit(flags[3]) + 2 * high)))
}

/// What is known of SREG, whose I is the kind's.
fn sreg_of(kind: Kind, flags: &[Bit; 7]) -> Val
    ensures { result ≡ (if all_flags is_old_bit flags.now then OldFlags else
        if all_flags is_known_bit flags.now then val_of_byte (flags_number flags.now + 128 * bit_value (is_main_kind kind)) else any_byte) }
{
    let main = is_main(kind);
    if all_old(flags) {
        return Val::OldFlags;
    }
    if !all_known(flags) {
        return unknown();
    }
    known_byte(number(flags) + if main { 128 } else { 0 })
}

/// What is known of SREG.
pub(crate) fn sreg_value(at: &Instance) -> Val
    ensures { result ≡ val_of_sreg at.now }
{
    sreg_of(at.kind, &at.flags)
}

/// What is known of the byte at an address, but for SREG and the timer.
fn cell_value(head: &Head, at: &Instance, address: u16) -> Val
    ensures { result ≡ val_of_cell at.now.cells.items (place_of_cell head.now at.now.kind address) (range_of_cell head.now address) }
{
    if let Some(place) = cell_place(head, at.kind, address) {
        let cells = at.cells.as_slice();
        return match cells.get(place as usize) {
            Some(range) => Val::Range(*range),
            None => unknown(),
        };
    }
    match cell_range(head, address) {
        Some(range) => Val::Range(range),
        None => unknown(),
    }
}

/// What is known of the byte at an address. `sampled` is the clock of the line at which it is read.
fn value_at_address(head: &Head, sampled: u16, at: &Instance, address: u16) -> Val
    ensures { result ≡ val_of_address head.now sampled at.now address }
{
    if address == 0x5F {
        sreg_value(at)
    } else if address == 0x84 && is_handler(at.kind) {
        known_byte((sampled % 256) as u8)
    } else {
        cell_value(head, at, address)
    }
}

/// LD, LDD, LDS, IN.
pub(crate) fn load(at: &mut Instance, head: &Head, sampled: u16, d: u8, from: AddressMode)
    requires fits { EffectFits (Load d from) }
    ensures { at.new ≡ with_value d (loaded_value head.now sampled at.old (range_of_address from at.old))
        (with_pointer_range from at.old at.old) }
{
    let address = address_range(at, from);
    let value = if is_single_wide(&address) {
        value_at_address(head, sampled, at, address.lo())
    } else {
        unknown()
    };
    step_pointer(at, from);
    set_val(at, d, value);
}

/// LPM.
pub(crate) fn load_program(at: &mut Instance, image: &Image, d: u8, increment: bool)
    requires { d < 32 }
    ensures { at.new ≡ with_value d (flash_value image.now (range_of_pair at.old 30))
        (if increment then with_pair_value 30 (pair_add_answer (exact_range at.old 30) 1).span at.old else at.old) }
{
    let z = pair_range(at, 30);
    let value = if is_single_wide(&z) {
        known_byte(image.byte(z.lo()).unwrap_or(255))
    } else {
        unknown()
    };
    if increment {
        let stepped = pair_add(exact_pair(at, 30), 1).span;
        set_pair_val(at, 30, stepped);
    }
    set_val(at, d, value);
}

/// POP.
pub(crate) fn pop_byte(at: &mut Instance, d: u8)
    requires low { d < 32 }
    requires some { 1 ≤ depth_of at.old }
    ensures { at.new ≡ with_value d (slot_value 1 at.old) (without_slots 1 at.old) }
{
    let value = slot(at, 1);
    drop_slots(at, 1);
    set_val(at, d, value);
}
