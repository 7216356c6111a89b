//! What a handler's instruction makes of OCR1A and TEMP.

ghost use Rattle.std.specs.Prelude.{◌≡◌, ◌<◌, ◌≤◌, ◌+◌, ◌-◌, ◌*◌, ◌/◌, ◌&&◌, nat_eq, nat_le, if◌then◌else◌};
ghost use Rattle.uz_core.specs.OperandRanges.{AddressModeFits, EffectFits};
ghost use Rattle.uz_core.specs.declared.machine.Effect.TheVariants.{Load, Store};
ghost use Rattle.uz_transfer.specs.Timer.{handler_stores as stores_of_handler, stores_top as stores_top_by};
ghost use Rattle.uz_transfer.specs.Timer.{top_after as top_by, temp_loaded as loaded_temp, temp_after as temp_by};
ghost use Rattle.uz_transfer.specs.Timer.{with_timer};

use crate::memory::{address_range, is_handler};
use crate::values::{is_single_wide, span};
use uz_core::{AddressMode, Effect};
use uz_schedule::{Instance, Span, Wide};

/// The data addresses of TCNT1L, OCR1AL and OCR1AH (ATmega644 data sheet).
const TCNT1L: u16 = 0x84;

const OCR1AL: u16 = 0x88;

const OCR1AH: u16 = 0x89;

/// Whether a handler's store goes to this address.
fn handler_stores(at: &Instance, address: u16, to: AddressMode) -> bool
    requires { AddressModeFits to }
    ensures { result ≡ stores_of_handler address to at.now }
{
    if !is_handler(at.kind) {
        return false;
    }
    let a = address_range(at, to);
    is_single_wide(&a) && a.lo() == address
}

/// Whether a handler's instruction stores OCR1AL.
pub(crate) fn stores_top(e: Effect, at: &Instance) -> bool
    requires { EffectFits e }
    ensures { result ≡ stores_top_by e at.now }
{
    match e {
        Effect::Store { to, .. } => handler_stores(at, OCR1AL, to),
        _ => false,
    }
}

/// OCR1A after an instruction.
pub(crate) fn top_after(e: Effect, at: &Instance) -> u16
    requires { EffectFits e }
    ensures { result ≡ top_by e at.now }
{
    match e {
        Effect::Store { to, r } => if handler_stores(at, OCR1AL, to) {
            u16::from(at.temp.lo()) * 256 + u16::from(span(at, r).lo())
        } else {
            at.top
        },
        _ => at.top,
    }
}

/// TEMP after a handler's load from these addresses. `sampled` is the timer's count that is read.
fn temp_loaded(sampled: u16, a: &Wide, temp: Span) -> Span
    ensures { result ≡ loaded_temp sampled a.now temp }
{
    let may = a.lo() <= TCNT1L && TCNT1L <= a.hi();
    if !may {
        temp
    } else if is_single_wide(a) {
        Span::single((sampled / 256) as u8)
    } else {
        Span::between(0, 255)
    }
}

/// TEMP after an instruction. `sampled` is the clock of the line at which a load samples.
pub(crate) fn temp_after(sampled: u16, e: Effect, at: &Instance) -> Span
    requires { EffectFits e }
    ensures { result ≡ temp_by sampled e at.now }
{
    match e {
        Effect::Load { from, .. } => if is_handler(at.kind) {
            temp_loaded(sampled, &address_range(at, from), at.temp)
        } else {
            at.temp
        },
        Effect::Store { to, r } => if handler_stores(at, OCR1AH, to) {
            span(at, r)
        } else {
            at.temp
        },
        _ => at.temp,
    }
}

/// Puts what an instruction of `at` makes of OCR1A and TEMP into what is known after it. `sampled` is the clock of the line at which
/// a load samples.
pub(crate) fn put_timer(draft: &mut Instance, at: &Instance, sampled: u16, e: Effect)
    requires { EffectFits e }
    ensures { draft.new ≡ with_timer (top_by e at.now) (temp_by sampled e at.now) draft.old }
{
    draft.top = top_after(e, at);
    draft.temp = temp_after(sampled, e, at);
}
