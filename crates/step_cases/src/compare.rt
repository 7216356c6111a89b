//! Compares a console with what is known of it.

ghost use Rattle.std.specs.Prelude.{◌≡◌, ◌<◌, ◌≤◌};

use crate::case::{Case, Core};
use crate::comparing::is_so;
use crate::draw::{LINES, length_of};
use crate::program::STACK;
use arrayvec::ArrayVec;
use uz_console::Console;
use uz_core::Edge;
use uz_core::address::{OCR1AH, OCR1AL, PORTB, SPH, SPL, SREG, TCNT1H, TCNT1L, TIFR1};
use uz_rules::{event_of, inside};
use uz_schedule::{Bit, EventKind, Head, Instance, Kind, Span, Val, Wide, tracks};

/// What of a console isn't as it is known to be.
#[derive(Clone, Copy, Debug)]
pub(crate) enum Fault {
    /// The instance that says all of the console doesn't lie in the known one.
    Outside,
    /// The level of sync.
    Level,
    /// Bit 7 of SREG, which is set in main alone, and after RETI.
    Enabled,
    /// What the flags are known to tell of the last comparison or result.
    Told,
    /// The depth of the stack.
    Depth,
    /// A byte under the slots, a cell that the kind doesn't track, or a cell beyond its header's range.
    Memory,
    /// In a handler TCNT1's low byte, which is the clock's.
    Timer,
}

/// A byte that was read, in the words of what is known of it: as an interrupted one where it is known to be that one and is it.
fn value_of(byte: u8, known: &Val, before: &Core) -> Val {
    match known {
        Val::Old(r) if before.regs[(*r % 32) as usize] == byte => Val::Old(*r),
        Val::OldFlags if before.flags == byte => Val::OldFlags,
        _ => Val::Range(Span::single(byte)),
    }
}

/// The same of a flag.
fn flag_of(set: bool, known: Bit, before: bool) -> Bit {
    match known {
        Bit::Old if before == set => Bit::Old,
        _ => if set { Bit::One } else { Bit::Zero },
    }
}

/// The flags in these words.
fn flags_of(sreg: u8, known: &[Bit; 7], before: u8) -> [Bit; 7] {
    let mut flags = [Bit::Free; 7];
    for k in 0..7usize {
        flags[k] = flag_of(sreg >> k & 1 == 1, known[k], before >> k & 1 == 1);
    }
    flags
}

/// The registers in these words.
fn registers_of(console: &Console, known: &[Val; 32], before: &Core) -> [Val; 32] {
    let mut regs = [Val::OldFlags; 32];
    for r in 0..32u8 {
        regs[r as usize] = value_of(console.reg(r), &known[r as usize], before);
    }
    regs
}

/// A register pair.
fn pair_of(console: &Console, low: u8) -> Wide
    requires { low < 31 }
{
    let high = u16::from(console.reg(low + 1));
    Wide::single(256 * high + u16::from(console.reg(low)))
}

/// SP.
fn stack_pointer(console: &Console) -> u16 {
    256 * u16::from(console.byte(SPH)) + u16::from(console.byte(SPL))
}

/// How many bytes lie under a case's slots.
fn depth_below(case: &Case) -> u16 {
    let mut depth = 0u16;
    for _ in case.below.as_slice() {
        depth = depth.wrapping_add(1);
    }
    depth
}

/// The slots in these words, as many as are known.
fn slots_of(console: &Console, case: &Case, known: &[Val]) -> ArrayVec<Val, 32> {
    let mut slots = ArrayVec::new();
    let mut at = STACK.wrapping_sub(depth_below(case));
    for value in known {
        let _kept = slots.try_push(value_of(console.byte(at), value, &case.before));
        at = at.wrapping_sub(1);
    }
    slots
}

/// The tracked cells.
fn cells_of(console: &Console, head: &Head, kind: Kind) -> ArrayVec<Span, 16> {
    let mut spans = ArrayVec::new();
    for cell in head.cells.as_slice() {
        if tracks(kind, cell.owner) {
            let _kept = spans.try_push(Span::single(console.byte(cell.at)));
        }
    }
    spans
}

/// Line and clock, so many clocks after an instance's.
fn place_after(at: &Instance, clocks: u64) -> (u16, u16) {
    if at.kind == Kind::Main {
        return (0, 0);
    }
    let length = u64::from(length_of(at.line));
    let end = u64::from(at.clock).wrapping_add(clocks);
    let clock = (end % length) as u16;
    if end < length {
        (at.line, clock)
    } else {
        (at.line.wrapping_add(1) % LINES, clock)
    }
}

/// OCR1A.
fn compare_register(console: &Console) -> u16 {
    256 * u16::from(console.byte(OCR1AH)) + u16::from(console.byte(OCR1AL))
}

/// Whether OCF1A is set.
fn is_matched(console: &Console) -> bool {
    console.byte(TIFR1) >> 1 & 1 == 1
}

/// The instance that says all of a console, so many clocks after the case's, in the words of what is known. Of the last comparison it
/// says what is known.
fn instance_of(
    console: &Console,
    head: &Head,
    case: &Case,
    known: &Instance,
    clocks: u64,
) -> Instance {
    let (line, clock) = place_after(&case.at, clocks);
    let kind = case.at.kind;
    let is_handler = kind == Kind::Handler;
    let blank = Instance::default();
    Instance {
        kind,
        pc: console.pc(),
        line,
        clock,
        level: console.byte(PORTB) % 2,
        pending: is_handler && is_matched(console),
        regs: registers_of(console, &known.regs, &case.before),
        pairs: [
            pair_of(console, 26),
            pair_of(console, 28),
            pair_of(console, 30),
        ],
        flags: flags_of(console.byte(SREG), &known.flags, case.before.flags),
        compared: known.compared,
        stack: slots_of(console, case, known.stack.as_slice()),
        cells: cells_of(console, head, kind),
        top: if is_handler {
            compare_register(console)
        } else {
            blank.top
        },
        temp: if is_handler {
            Span::single(console.byte(TCNT1H))
        } else {
            blank.temp
        },
    }
}

/// Whether the bytes under the slots are the drawn ones.
fn keeps_below(console: &Console, case: &Case) -> bool {
    let mut at = STACK;
    for byte in case.below.as_slice() {
        if console.byte(at) != *byte {
            return false;
        }
        at = at.wrapping_sub(1);
    }
    true
}

/// Whether each cell is within the header's range, and those that the kind doesn't track are the drawn ones.
fn keeps_cells(console: &Console, head: &Head, case: &Case) -> bool {
    for (cell, drawn) in head.cells.as_slice().iter().zip(case.cells) {
        let byte = console.byte(cell.at);
        let is_kept = tracks(case.at.kind, cell.owner) || byte == drawn;
        if !is_kept || byte < cell.range.lo() || cell.range.hi() < byte {
            return false;
        }
    }
    true
}

/// Whether a handler's timer is at this clock of its line.
fn is_at_clock(console: &Console, clock: u16) -> bool {
    console.byte(TCNT1L) == (clock % 256) as u8
}

/// The registers and the flags of a console.
fn core_of(console: &Console) -> Core {
    let mut regs = [0; 32];
    for r in 0..32u8 {
        regs[r as usize] = console.reg(r);
    }
    Core {
        regs,
        flags: console.byte(SREG) & 127,
    }
}

/// Whether SP is under the slots that are known.
fn is_deep(console: &Console, case: &Case, known: &Instance) -> bool {
    let mut bottom = stack_pointer(console).wrapping_add(depth_below(case));
    for _ in known.stack.as_slice() {
        bottom = bottom.wrapping_add(1);
    }
    bottom == STACK
}

/// What isn't as it is known to be, so many clocks after the case's. After RETI, pc and stack are the interrupted ones.
pub(crate) fn fault_of(
    console: &Console,
    head: &Head,
    case: &Case,
    known: &Instance,
    clocks: u64,
    returned: bool,
) -> Option<Fault> {
    let mut all = instance_of(console, head, case, known, clocks);
    if returned {
        all.pc = known.pc;
    }
    let kind = case.at.kind;
    let enabled = console.byte(SREG) >> 7 == 1;
    if !inside(&all, known) {
        Some(Fault::Outside)
    } else if kind != Kind::Main && all.level != known.level {
        Some(Fault::Level)
    } else if enabled != (returned || kind == Kind::Main) {
        Some(Fault::Enabled)
    } else if !is_so(&core_of(console), &known.compared) {
        Some(Fault::Told)
    } else if !returned && !is_deep(console, case, known) {
        Some(Fault::Depth)
    } else if !keeps_below(console, case) || !keeps_cells(console, head, case) {
        Some(Fault::Memory)
    } else if kind == Kind::Handler && !is_at_clock(console, all.clock) {
        Some(Fault::Timer)
    } else {
        None
    }
}

/// Whether the edges of a turn that began at this clock are what was told, and when.
pub(crate) fn are_told(edges: &[Edge], clock: u64, told: Option<(u8, EventKind)>) -> bool {
    match (edges, told) {
        ([], None) => true,
        ([edge], Some((clocks, kind))) => edge.clock == clock.wrapping_add(u64::from(clocks))
            && event_of(edge.kind) == Some(kind),
        _ => false,
    }
}
