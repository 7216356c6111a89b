//! What an instruction emits, and whether it clears the compare match.

ghost use Rattle.std.specs.Prelude.{◌||◌, ◌%◌, ◌≡◌, ◌<◌, ◌≤◌, ◌-◌, false, true, Option, None, Some, ◌&&◌, nat_eq, if◌then◌else◌};
ghost use Rattle.uz_core.specs.OperandRanges.{EffectFits};
ghost use Rattle.uz_core.specs.declared.machine.Effect.TheVariants.{Return, Store, WriteIoBit};
ghost use Rattle.uz_transfer.specs.Emission.{main_emits as emits_in_main, emission as emitted};
ghost use Rattle.uz_transfer.specs.Emission.{bit_event as event_of_bit, level_event as event_of_level};
ghost use Rattle.uz_transfer.specs.Emission.{toggle_event as event_of_toggle, byte_event as event_of_byte};
ghost use Rattle.uz_transfer.specs.Refusals.{stored_bit as bit_of_stored, flag_is as is_bit};
ghost use Rattle.uz_transfer.specs.Step.{clears_flag};
ghost use Rattle.uz_range.specs.Answers.{is_single as is_single_range};

use crate::arithmetic::known;
use crate::memory::address_range;
use crate::refusals::{flag_is, stored_bit};
use crate::values::{is_single_wide, span_of, val};
use uz_core::Effect;
use uz_range::bst;
use uz_schedule::{Bit, EventKind, Instance, Val, Wide};

/// What a new level shows.
fn level_event(level: u8, b: Bit) -> Option<Option<EventKind>>
    ensures { result ≡ event_of_level level b }
{
    match b {
        Bit::Zero => Some(if level == 0 {
            None
        } else {
            Some(EventKind::Sync(0))
        }),
        Bit::One => Some(if level == 1 {
            None
        } else {
            Some(EventKind::Sync(1))
        }),
        _ => None,
    }
}

/// What a toggled level shows.
fn toggle_event(level: u8, b: Bit) -> Option<Option<EventKind>>
    requires { level ≤ 1 }
    ensures { result ≡ event_of_toggle level b }
{
    match b {
        Bit::Zero => Some(None),
        Bit::One => Some(Some(EventKind::Sync(1 - level))),
        _ => None,
    }
}

/// What the store of a byte shows.
pub(crate) fn byte_event(level: u8, v: &Val, at: u16) -> Option<Option<EventKind>>
    requires { level ≤ 1 }
    ensures { result ≡ event_of_byte level v.now at }
{
    match at {
        0x23 => toggle_event(level, bst(span_of(v), 0)),
        0x25 => level_event(level, bst(span_of(v), 0)),
        0x26 | 0x28 => Some(Some(EventKind::Pixel)),
        0xB3 => Some(Some(EventKind::Sound)),
        _ => Some(None),
    }
}

/// What SBI or CBI shows.
pub(crate) fn bit_event(level: u8, bit: u8, set: bool, at: u16) -> Option<Option<EventKind>>
    requires { level ≤ 1 }
    ensures { result ≡ event_of_bit level bit set at }
{
    match at {
        0x23 => Some(if bit == 0 && set {
            Some(EventKind::Sync(1 - level))
        } else {
            None
        }),
        0x25 => if bit == 0 {
            level_event(level, known(set))
        } else {
            Some(None)
        },
        0x26 => Some(if set { Some(EventKind::Pixel) } else { None }),
        0x28 => Some(Some(EventKind::Pixel)),
        _ => Some(None),
    }
}

/// The level of sync, which counts by its bit 0.
pub(crate) fn sync_level(at: &Instance) -> u8
    ensures is { result ≡ at.now.level % 2 }
    ensures low { result ≤ 1 }
{
    at.level % 2
}

/// What a store shows.
pub(crate) fn store_event(at: &Instance, a: &Wide, v: &Val) -> Option<Option<EventKind>>
    ensures { result ≡ (if is_single_range a.now then event_of_byte (at.now.level % 2) v.now a.now.lo else Some None) }
{
    if is_single_wide(a) {
        byte_event(sync_level(at), v, a.lo())
    } else {
        Some(None)
    }
}

/// What is emitted. None is undecided.
pub fn emission(e: Effect, at: &Instance) -> Option<Option<EventKind>>
    requires fits { EffectFits e }
    ensures { result ≡ emitted e at.now }
{
    match e {
        Effect::Store { to, r } => store_event(at, &address_range(at, to), &val(at, r)),
        Effect::WriteIoBit { address, bit, set } => bit_event(
            sync_level(at),
            bit,
            set,
            address as u16,
        ),
        Effect::Return {
            from_interrupt: true,
        } => Some(Some(EventKind::Leave)),
        _ => Some(None),
    }
}

/// Whether a store clears OCF1A for sure.
pub(crate) fn store_clears(a: &Wide, v: &Val) -> bool
    ensures { result ≡ (is_single_range a.now && (nat_eq a.now.lo 0x36 && is_bit (bit_of_stored v.now 1) true)) }
{
    is_single_wide(a) && a.lo() == 0x36 && flag_is(stored_bit(v, 1), true)
}

/// Whether TIFR1 is stored with bit 1 set.
pub(crate) fn clears(e: Effect, at: &Instance) -> bool
    requires { EffectFits e }
    ensures { result ≡ clears_flag e at.now }
{
    match e {
        Effect::Store { to, r } => store_clears(&address_range(at, to), &val(at, r)),
        Effect::WriteIoBit { address, bit, set } => address == 0x36 && bit == 1 && set,
        _ => false,
    }
}

/// Whether an address is PINB, PORTB, PINC, PORTC or OCR2A.
fn is_seen(at: u16) -> bool
    ensures { result ≡ (nat_eq at 0x23 || (nat_eq at 0x25 || (nat_eq at 0x26 || (nat_eq at 0x28 || nat_eq at 0xB3)))) }
{
    matches!(at, 0x23 | 0x25 | 0x26 | 0x28 | 0xB3)
}

/// Whether a store of a byte is to one of them.
fn store_is_seen(a: &Wide) -> bool
    ensures { result ≡ (is_single_range a.now &&
        (nat_eq a.now.lo 0x23 || (nat_eq a.now.lo 0x25 ||
        (nat_eq a.now.lo 0x26 || (nat_eq a.now.lo 0x28 || nat_eq a.now.lo 0xB3))))) }
{
    is_single_wide(a) && is_seen(a.lo())
}

/// Whether SBI or CBI may emit: on PORTC, SBI on PINC, SBI on bit 0 of PINB, and on bit 0 of PORTB.
fn bit_is_seen(at: u8, bit: u8, set: bool) -> bool
    ensures { result ≡ (nat_eq at 0x28 || ((nat_eq at 0x26 && set) || (nat_eq bit 0 && ((nat_eq at 0x23 && set) || nat_eq at 0x25)))) }
{
    at == 0x28 || ((at == 0x26 && set) || (bit == 0 && ((at == 0x23 && set) || at == 0x25)))
}

/// Whether main's instruction stores what is seen outside, which it may not: PORTC, PINC, OCR2A, and PORTB and PINB but by SBI or CBI of
/// bits 1 to 7.
pub fn main_emits(e: Effect, at: &Instance) -> bool
    requires { EffectFits e }
    ensures { result ≡ emits_in_main e at.now }
{
    match e {
        Effect::Store { to, .. } => store_is_seen(&address_range(at, to)),
        Effect::WriteIoBit { address, bit, set } => bit_is_seen(address, bit, set),
        _ => false,
    }
}
