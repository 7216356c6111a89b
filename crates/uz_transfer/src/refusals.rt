//! Why an instruction has no abstract results.

ghost use Rattle.std.specs.Prelude.{◌%◌, ◌≡◌, ◌<◌, ◌≤◌, ◌+◌, ◌-◌, false, true, Option, None, length, ◌&&◌, not, nat_eq};
ghost use Rattle.std.specs.Prelude.{nat_le, ◌||◌, nat_lt, ◌*◌};
ghost use Rattle.uz_core.specs.OperandRanges.{EffectFits};
ghost use Rattle.uz_core.specs.declared.machine.Effect.TheVariants.{PushByte, PopByte, Jump, Return, Store, WriteIoBit};
ghost use Rattle.uz_transfer.specs.Kinds.{depth_limit as limit_of_depth, is_main as is_main_kind, misses as misses_all};
ghost use Rattle.uz_transfer.specs.Emission.{emission as emitted, bit_event as event_of_bit};
ghost use Rattle.uz_transfer.specs.Memory.{depth_of, slot_value};
ghost use Rattle.uz_transfer.specs.Refusals.{fail_of as fail_of_effect, is_known_slot as knows_slot};
ghost use Rattle.uz_transfer.specs.Refusals.{refuse_if as unless_it, is_setup_register as sets_up_at, is_some};
ghost use Rattle.uz_transfer.specs.Refusals.{stored_bit as bit_of_stored, flag_is as is_bit};
ghost use Rattle.uz_transfer.specs.Refusals.{range_inside as lies_within, cell_admits as takes_cell};
ghost use Rattle.uz_transfer.specs.Refusals.{may_store as may_be_stored, flag_fails as fails_by_flag};
ghost use Rattle.uz_transfer.specs.Refusals.{mask_fails as fails_by_mask, top_fails as fails_by_top};
ghost use Rattle.uz_transfer.specs.Refusals.{io_fails as fails_by_io, store_fail as fail_of_store};
ghost use Rattle.uz_transfer.specs.Refusals.{target_fails as fails_target};
ghost use Rattle.uz_transfer.specs.declared.fail.Fail.TheVariants.{Flag, Io, Edge};
ghost use Rattle.uz_range.specs.Answers.{is_known as is_known_bit};

use crate::emission::{bit_event, emission, sync_level};
use crate::fail::Fail;
use crate::memory::{address_range, cell_place, cell_range, is_handler, is_main, misses, slot};
use crate::values::{is_single, is_single_wide, pair_range, span_of, val};
use uz_core::{Effect, JumpTarget};
use uz_range::bst;
use uz_schedule::{Bit, EventKind, Head, Instance, Kind, Span, Val, Wide, is_top};

/// The reason, where it stands, else the later one.
pub(crate) fn refuse_if(stands: bool, why: Fail, later: Option<Fail>) -> Option<Fail>
    ensures { result ≡ unless_it stands why later }
{
    if stands { Some(why) } else { later }
}

/// Whether an address is one of DDRA to DDRD, SPL, SPH, TIMSK1, TCCR1A, TCCR1B, TCNT1 and OCR1A.
pub(crate) fn is_setup_register(at: u16) -> bool
    ensures { result ≡ sets_up_at at }
{
    matches!(
        at,
        0x21 | 0x24 | 0x27 | 0x2A | 0x5D | 0x5E | 0x6F | 0x80 | 0x81 | 0x84 | 0x85 | 0x88 | 0x89
    )
}

/// A bit of a value that is stored; the interrupted flags have bit 7 clear.
pub(crate) fn stored_bit(v: &Val, k: u8) -> Bit
    requires { k < 8 }
    ensures { result ≡ bit_of_stored v.now k }
{
    match v {
        Val::Range(span) => bst(*span, k),
        Val::OldFlags if k == 7 => Bit::Zero,
        _ => Bit::Free,
    }
}

/// Whether a flag is known to have this value.
pub(crate) fn flag_is(b: Bit, set: bool) -> bool
    ensures { result ≡ is_bit b set }
{
    match b {
        Bit::Zero => !set,
        Bit::One => set,
        _ => false,
    }
}

/// Whether a flag is known.
fn is_known(b: Bit) -> bool
    ensures { result ≡ is_known_bit b }
{
    matches!(b, Bit::Zero | Bit::One)
}

/// Whether a range lies in another.
fn range_inside(a: &Span, b: &Span) -> bool
    ensures { result ≡ lies_within a.now b.now }
{
    b.lo() <= a.lo() && a.hi() <= b.hi()
}

/// Whether a tracked cell takes a value.
fn cell_admits(place: Option<u8>, range: Option<Span>, v: &Span) -> bool
    ensures { result ≡ takes_cell place range v.now }
{
    match (place, range) {
        (Some(_), Some(range)) => range_inside(v, &range),
        _ => false,
    }
}

/// Whether an address is a single one of the registers from 0x20 on.
fn is_register(a: &Wide) -> bool
    ensures { result ≡ (nat_le 0x20 a.now.lo && nat_le a.now.lo 0xFF) }
{
    0x20 <= a.lo() && a.lo() <= 0xFF
}

/// Whether addresses lie in RAM, off the stack and the cells.
fn is_free(head: &Head, a: &Wide) -> bool
    ensures { result ≡ ((nat_le 0x100 a.now.lo && nat_le a.now.hi 0x10FF) &&
        ((nat_lt a.now.hi head.now.lo || nat_lt head.now.hi a.now.lo) && misses_all head.now.cells.items a.now)) }
{
    let ram = 0x100 <= a.lo() && a.hi() <= 0x10FF;
    let off = a.hi() < head.lo || head.hi < a.lo();
    ram && off && misses(head, a)
}

/// Whether a value may be stored at these addresses.
fn may_store(head: &Head, kind: Kind, a: &Wide, v: &Val) -> bool
    ensures { result ≡ may_be_stored head.now kind a.now v.now }
{
    let single = is_single_wide(a);
    if single && is_register(a) {
        return true;
    }
    let takes = cell_admits(
        cell_place(head, kind, a.lo()),
        cell_range(head, a.lo()),
        &span_of(v),
    );
    if single && takes {
        return true;
    }
    is_free(head, a)
}

/// Whether TIFR1 is stored where that isn't allowed.
fn flag_fails(kind: Kind, at: u16, v: &Val) -> bool
    ensures { result ≡ fails_by_flag kind at v.now }
{
    at == 0x36 && (is_main(kind) || is_handler(kind) && !is_known(stored_bit(v, 1)))
}

/// Whether SREG is stored with another I than the kind's.
fn mask_fails(kind: Kind, at: u16, v: &Val) -> bool
    ensures { result ≡ fails_by_mask kind at v.now }
{
    at == 0x5F && !flag_is(stored_bit(v, 7), is_main(kind))
}

/// Whether a store to OCR1AL isn't known to give a line's last clock, with the high byte that TEMP has.
fn top_fails(at: &Instance, v: &Val) -> bool
    ensures { result ≡ fails_by_top at.now v.now }
{
    let low = span_of(v);
    let known = is_single(&at.temp) && is_single(&low);
    !(known && is_top(u16::from(at.temp.lo()) * 256 + u16::from(low.lo())))
}

/// Whether a register is stored that sets the machine up. A handler may store OCR1AH, and OCR1AL where that gives a line's last
/// clock.
fn io_fails(at: &Instance, address: u16, v: &Val) -> bool
    ensures { result ≡ fails_by_io at.now address v.now }
{
    match address {
        0x88 if is_handler(at.kind) => top_fails(at, v),
        0x89 if is_handler(at.kind) => false,
        _ => is_setup_register(address),
    }
}

/// Whether there is none.
fn is_undecided(emitted: Option<Option<EventKind>>) -> bool
    ensures { result ≡ not (is_some emitted) }
{
    emitted.is_none()
}

/// Why a store is refused.
pub(crate) fn store_fail(
    head: &Head,
    a: &Wide,
    v: &Val,
    at: &Instance,
    emitted: Option<Option<EventKind>>,
) -> Option<Fail>
    ensures { result ≡ fail_of_store head.now a.now v.now at.now emitted }
{
    let single = is_single_wide(a);
    let undecided = refuse_if(is_undecided(emitted), Fail::Edge, None);
    let io = refuse_if(single && io_fails(at, a.lo(), v), Fail::Io, undecided);
    let store = refuse_if(!may_store(head, at.kind, a, v), Fail::Store, io);
    let mask = refuse_if(single && mask_fails(at.kind, a.lo(), v), Fail::Mask, store);
    refuse_if(single && flag_fails(at.kind, a.lo(), v), Fail::Flag, mask)
}

/// How many bytes a kind may push.
fn depth_limit(head: &Head, kind: Kind) -> u8
    ensures { result ≡ limit_of_depth head.now kind }
{
    match kind {
        Kind::Handler => head.handler,
        Kind::Main | Kind::Alone => head.main,
    }
}

/// Whether a slot is a single byte.
fn is_known_slot(v: &Val) -> bool
    ensures { result ≡ knows_slot v.now }
{
    match v {
        Val::Range(span) => is_single(span),
        _ => false,
    }
}

/// Why SBI or CBI is refused.
fn bit_fail(at: &Instance, address: u8, bit: u8, set: bool) -> Option<Fail>
    ensures { result ≡ unless_it (nat_eq address 0x36 && (set && is_main_kind at.now.kind)) Flag
        (unless_it (sets_up_at address) Io
        (unless_it (not (is_some (event_of_bit (at.now.level % 2) bit set address))) Edge None)) }
{
    let undecided = bit_event(sync_level(at), bit, set, address as u16).is_none();
    let edge = refuse_if(undecided, Fail::Edge, None);
    let io = refuse_if(is_setup_register(address as u16), Fail::Io, edge);
    refuse_if(address == 0x36 && set && is_main(at.kind), Fail::Flag, io)
}

/// Why RET is refused.
fn return_fails(at: &Instance) -> bool
    ensures { result ≡ not (nat_le 2 (depth_of at.now) && (knows_slot (slot_value 1 at.now) && knows_slot (slot_value 2 at.now))) }
{
    if at.stack.len() < 2 {
        return true;
    }
    !(is_known_slot(&slot(at, 1)) && is_known_slot(&slot(at, 2)))
}

/// Whether an indirect jump isn't known to go to one of at most 16 words of the flash.
pub(crate) fn target_fails(at: &Instance, target: JumpTarget) -> bool
    ensures { result ≡ fails_target target at.now }
{
    match target {
        JumpTarget::Indirect => {
            let z = pair_range(at, 30);
            16 + z.lo() as u32 <= z.hi() as u32 || z.hi() > 0x7FFF
        }
        _ => false,
    }
}

/// Why an instance has no abstract results, but for its words.
pub(crate) fn fail_of(head: &Head, e: Effect, at: &Instance) -> Option<Fail>
    requires fits { EffectFits e }
    ensures { result ≡ fail_of_effect head.now e at.now }
{
    let depth = at.stack.len();
    let limit = depth_limit(head, at.kind) as usize;
    match e {
        Effect::Store { to, r } => store_fail(
            head,
            &address_range(at, to),
            &val(at, r),
            at,
            emission(e, at),
        ),
        Effect::PushByte { .. } => refuse_if(limit <= depth, Fail::Stack, None),
        Effect::PopByte { .. } => refuse_if(depth == 0, Fail::Stack, None),
        Effect::WriteIoBit { address, bit, set } => bit_fail(at, address, bit, set),
        Effect::WriteFlag { flag, set } => refuse_if(
            flag == 7 && (set || is_main(at.kind)),
            Fail::Mask,
            None,
        ),
        Effect::Jump { target, call } => {
            let unknown = refuse_if(target_fails(at, target), Fail::Return, None);
            refuse_if(call && limit < depth + 2, Fail::Stack, unknown)
        }
        Effect::Return {
            from_interrupt: false,
        } => refuse_if(return_fails(at), Fail::Return, None),
        Effect::Return {
            from_interrupt: true,
        } => refuse_if(!is_handler(at.kind), Fail::Return, None),
        Effect::Stop => Some(Fail::Opcode),
        _ => None,
    }
}
