//! Draws a state, and around it an instance.

ghost use Rattle.std.specs.Prelude.{◌≡◌, ◌<◌, ◌≤◌, ◌+◌};
ghost use Rattle.uz_schedule.specs.Schedule.{scanline, half_line};

use crate::case::{Case, Core};
use crate::words::words;
use arrayvec::ArrayVec;
use random_numbers::{Random, place};
use std::alloc::{AllocError, Global};
use uz_range::hull;
use uz_schedule::{
    Bit, Cell, Compared, HALF_LINE, Head, Instance, Kind, Owner, Response, RuleVersion, SCANLINE,
    Schedule, Sequence, Span, Val, Wide, tracks,
};

/// The tracked cells: address, owner, and the ends of the range.
const CELLS: [(u16, Owner, u8, u8); 4] = [
    (0x100, Owner::Main, 0, 10),
    (0x102, Owner::Handler, 5, 20),
    (0x103, Owner::Handler, 0, 255),
    (0x200, Owner::Main, 7, 7),
];

/// Bytes at which rules change.
const EDGES: [u8; 8] = [0, 1, 2, 15, 127, 128, 254, 255];

/// How many lines the frame has.
pub(crate) const LINES: u16 = 3;

/// The lengths of the lines.
const LENGTHS: [u16; 3] = [SCANLINE, HALF_LINE, SCANLINE];

/// The low and the high bytes of the last clocks of a half line and of a scanline.
const LOW: [u8; 2] = [141, 27];

const HIGH: [u8; 2] = [3, 7];

/// The registers that are stored to the timer's.
const STORED: [u8; 4] = [16, 17, 18, 19];

/// The least count of TCNT1 that a state of main has, so that its timer doesn't go round while it is prepared.
const LEAST_COUNT: u16 = 40;

/// The header of all instances by the rules of a version.
pub(crate) fn header(version: RuleVersion) -> Head
    ensures main { result.main ≡ 4 }
    ensures handler { result.handler ≡ 6 }
{
    let mut cells = ArrayVec::new();
    for (at, owner, lo, hi) in CELLS {
        let _kept = cells.try_push(Cell {
            at,
            owner,
            range: range(lo, hi),
        });
    }
    Head {
        irq: Response::Four,
        lo: 0x1000,
        hi: 0x10FF,
        main: 4,
        handler: 6,
        cells,
        version,
    }
}

/// The range between two bytes.
pub(crate) fn range(a: u8, b: u8) -> Span {
    if a <= b {
        Span::between(a, b)
    } else {
        Span::between(b, a)
    }
}

/// The range between two numbers.
pub(crate) fn wide_range(a: u16, b: u16) -> Wide {
    if a <= b {
        Wide::between(a, b)
    } else {
        Wide::between(b, a)
    }
}

/// A byte between two others, both among them.
fn byte_between(random: &mut Random, a: u8, b: u8) -> u8 {
    let span = range(a, b);
    let width = u32::from(span.hi() - span.lo()) + 1;
    span.lo().wrapping_add(random.below(width) as u8)
}

/// A number between two others, both among them.
fn number_between(random: &mut Random, a: u16, b: u16) -> u16 {
    let wide = wide_range(a, b);
    let width = u32::from(wide.hi() - wide.lo()) + 1;
    wide.lo().wrapping_add(random.below(width) as u16)
}

/// A byte.
pub(crate) fn byte(random: &mut Random) -> u8 {
    let any = random.byte();
    let edge = EDGES[random.below(8) as usize];
    if random.below(3) == 0 { edge } else { any }
}

/// A range, within these ends, around a byte of theirs.
pub(crate) fn range_around(random: &mut Random, byte: u8, lo: u8, hi: u8) -> Span {
    match random.below(4) {
        0 | 1 => Span::single(byte),
        2 => range(lo, hi),
        _ => {
            let low = byte_between(random, lo, byte);
            range(low, byte_between(random, byte, hi))
        }
    }
}

/// A byte, and what is known of it: a range, or in a handler also that it is an interrupted register or the interrupted flags.
fn value(random: &mut Random, kind: Kind, before: &Core) -> (u8, Val) {
    let form = random.below(8);
    let r = random.below(32) as u8;
    let any = byte(random);
    match form {
        0 | 1 if kind == Kind::Handler => (before.regs[r as usize], Val::Old(r)),
        2 if kind == Kind::Handler => (before.flags, Val::OldFlags),
        _ => (any, Val::Range(range_around(random, any, 0, 255))),
    }
}

/// What is known of a byte, as a range.
fn span_of(value: &Val) -> Span {
    match value {
        Val::Range(span) => *span,
        _ => Span::between(0, 255),
    }
}

/// What is known of a pair of bytes that make this number.
pub(crate) fn pair(random: &mut Random, number: u16, low: &Val, high: &Val) -> Wide {
    let less = random.below(24) as u16;
    let more = random.below(24) as u16;
    match random.below(8) {
        0..=2 => hull(span_of(low), span_of(high)),
        3 | 4 => Wide::single(number),
        5 | 6 => wide_range(number.saturating_sub(less), number.saturating_add(more)),
        _ => {
            let lo = number_between(random, 0, number);
            wide_range(lo, number_between(random, number, 65535))
        }
    }
}

/// The core that a handler has interrupted.
fn interrupted(random: &mut Random) -> Core {
    let mut regs = [0; 32];
    for r in 0..32usize {
        regs[r] = byte(random);
    }
    Core {
        regs,
        flags: random.below(128) as u8,
    }
}

/// A flag of this core, and what is known of it.
fn flag(random: &mut Random, kind: Kind, before: bool) -> (bool, Bit) {
    let set = random.below(2) == 1;
    match random.below(4) {
        0 | 1 => (set, if set { Bit::One } else { Bit::Zero }),
        2 if kind == Kind::Handler => (before, Bit::Old),
        _ => (set, Bit::Free),
    }
}

/// The flags, and what is known of each.
fn flags(random: &mut Random, kind: Kind, before: u8) -> (u8, [Bit; 7]) {
    if kind == Kind::Handler && random.below(6) == 0 {
        return (before, [Bit::Old; 7]);
    }
    let mut flags = 0;
    let mut known = [Bit::Free; 7];
    for k in 0..7usize {
        let (set, bit) = flag(random, kind, before >> k & 1 == 1);
        known[k] = bit;
        if set {
            flags |= 1 << k;
        }
    }
    (flags, known)
}

/// The registers, and what is known of each.
fn registers(random: &mut Random, kind: Kind, before: &Core) -> ([u8; 32], [Val; 32]) {
    let mut regs = [0; 32];
    let mut known = [Val::OldFlags; 32];
    for r in 0..32usize {
        let (byte, value) = value(random, kind, before);
        regs[r] = byte;
        known[r] = value;
    }
    (regs, known)
}

/// Makes a register pair a number that the rules speak of, and of its bytes ranges around it.
fn point(random: &mut Random, low: usize, regs: &mut [u8; 32], known: &mut [Val; 32])
    requires { low < 31 }
{
    let number = place(random);
    let bytes = [(number % 256) as u8, (number / 256) as u8];
    regs[low] = bytes[0];
    regs[low + 1] = bytes[1];
    known[low] = Val::Range(range_around(random, bytes[0], 0, 255));
    known[low + 1] = Val::Range(range_around(random, bytes[1], 0, 255));
}

/// The number that two registers make.
pub(crate) fn number(regs: &[u8; 32], low: usize) -> u16
    requires { low < 31 }
{
    u16::from(regs[low]) + 256 * u16::from(regs[low + 1])
}

/// Bytes of the stack, at most so many, and what is known of each.
fn slots(
    random: &mut Random,
    kind: Kind,
    before: &Core,
    most: u32,
) -> (ArrayVec<u8, 8>, ArrayVec<Val, 32>)
    requires { most < 1000 }
{
    let mut bytes = ArrayVec::new();
    let mut known = ArrayVec::new();
    for _ in 0..random.below(most + 1) {
        let (byte, value) = value(random, kind, before);
        let _kept = bytes.try_push(byte);
        let _known = known.try_push(value);
    }
    (bytes, known)
}

/// What lies under the slots of a kind: under a handler at most four bytes of main's, and an interrupted pc.
fn below(random: &mut Random, kind: Kind) -> ArrayVec<u8, 8> {
    let mut bytes = ArrayVec::new();
    if kind == Kind::Handler {
        for _ in 0..random.below(5) + 2 {
            let _kept = bytes.try_push(random.byte());
        }
    }
    bytes
}

/// The bytes of the cells, and what is known of those that the kind tracks.
fn cells(random: &mut Random, kind: Kind) -> ([u8; 4], ArrayVec<Span, 16>) {
    let mut bytes = [0; 4];
    let mut spans = ArrayVec::new();
    for j in 0..4usize {
        let (_, owner, lo, hi) = CELLS[j];
        let byte = byte_between(random, lo, hi);
        bytes[j] = byte;
        if tracks(kind, owner) {
            let _kept = spans.try_push(range_around(random, byte, lo, hi));
        }
    }
    (bytes, spans)
}

/// Where an instance stands in its frame.
#[derive(Drop)]
struct Standing {
    line: u16,
    clock: u16,
    level: u8,
    pending: bool,
    top: u16,
}

/// The length of a line.
pub(crate) fn length_of(line: u16) -> u16
    ensures low { half_line ≤ result }
    ensures high { result ≤ scanline }
{
    LENGTHS[line as usize % 3]
}

/// A clock below a number: any, or one of the last five.
fn clock(random: &mut Random, length: u16) -> u16
    requires { 5 < length }
    ensures { result < length }
{
    let any = random.below(u32::from(length)) as u16;
    let late = length - 5 + random.below(5) as u16;
    if random.below(2) == 1 { any } else { late }
}

/// Draws OCR1A of a handler: mostly the last clock of a line of this length, else that of a line of either. Others have that of a
/// scanline.
fn top(random: &mut Random, kind: Kind, length: u16) -> u16
    requires low { half_line ≤ length }
    requires high { length ≤ scanline }
    ensures low { half_line ≤ result + 1 }
    ensures high { result < scanline }
{
    let drawn = match random.below(4) {
        0 => HALF_LINE - 1,
        1 => SCANLINE - 1,
        _ => length - 1,
    };
    if kind == Kind::Handler {
        drawn
    } else {
        SCANLINE - 1
    }
}

/// Draws where an instance stands. Main has line and clock 0, and only a handler has a match that waits. No handler's clock is above
/// OCR1A.
fn draw_place(random: &mut Random, kind: Kind) -> Standing
    ensures line { result.line < 3 }
    ensures clock { result.clock < scanline }
{
    let line = random.below(u32::from(LINES)) as u16;
    let length = length_of(line);
    let top = top(random, kind, length);
    let clock = clock(random, length.min(top + 1));
    let level = random.below(2) as u8;
    let waits = random.below(2) == 1;
    let is_main = kind == Kind::Main;
    Standing {
        line: if is_main { 0 } else { line },
        clock: if is_main { 0 } else { clock },
        level,
        pending: waits && kind == Kind::Handler,
        top,
    }
}

/// Draws TEMP, and what a handler knows of it. Others know nothing.
fn temp(random: &mut Random, kind: Kind) -> (u8, Span) {
    let any = random.byte();
    let high = HIGH[random.below(2) as usize];
    let byte = if random.below(4) == 0 { any } else { high };
    let known = range_around(random, byte, 0, 255);
    let span = if kind == Kind::Handler {
        known
    } else {
        Span::between(0, 255)
    };
    (byte, span)
}

/// Gives registers that are stored to OCR1A bytes of a line's last clock, which are known.
fn clock_bytes(random: &mut Random, regs: &mut [u8; 32], known: &mut [Val; 32]) {
    for r in STORED {
        let byte = LOW[random.below(2) as usize];
        if random.below(2) == 1 {
            regs[r as usize % 32] = byte;
            known[r as usize % 32] = Val::Range(Span::single(byte));
        }
    }
}

/// The count of TCNT1: in main any that serves, else the clock.
fn count(random: &mut Random, kind: Kind, clock: u16) -> u16
    requires { clock < scanline }
    ensures { result < scanline }
{
    let least = u32::from(LEAST_COUNT);
    let any = LEAST_COUNT + random.below(u32::from(SCANLINE) - least) as u16;
    if kind == Kind::Main { any } else { clock }
}

/// A kind.
pub(crate) fn kind(random: &mut Random) -> Kind {
    match random.below(3) {
        0 => Kind::Main,
        1 => Kind::Handler,
        _ => Kind::Alone,
    }
}

/// A frame of a scanline, a half line and a scanline, in which nothing is seen.
pub(crate) fn frame(alloc: Global) -> Result<Schedule, AllocError> {
    let mut lengths = Sequence::new(alloc);
    let mut lines = Sequence::new(alloc);
    for line in 0..LINES {
        lengths.push(length_of(line))?;
        lines.push(line)?;
    }
    Ok(Schedule {
        kinds: Sequence::new(alloc),
        lengths,
        lines,
        fall: 1,
    })
}

/// Draws a state of a kind at this pc, and an instance that it meets, which knows nothing of comparisons.
pub(crate) fn case(random: &mut Random, kind: Kind, pc: u16) -> Case
    ensures line { result.at.line < 3 }
    ensures clock { result.at.clock < scanline }
    ensures count { result.count < scanline }
{
    let words = words(random);
    let place = draw_place(random, kind);
    let before = interrupted(random);
    let (mut regs, mut known) = registers(random, kind, &before);
    clock_bytes(random, &mut regs, &mut known);
    for low in [26, 28, 30] {
        if random.below(2) == 1 {
            point(random, low, &mut regs, &mut known);
        }
    }
    let pairs = [
        pair(random, number(&regs, 26), &known[26], &known[27]),
        pair(random, number(&regs, 28), &known[28], &known[29]),
        pair(random, number(&regs, 30), &known[30], &known[31]),
    ];
    let (flags, bits) = flags(random, kind, before.flags);
    let most = if kind == Kind::Handler { 6 } else { 4 };
    let (slots, stack) = slots(random, kind, &before, most);
    let (cells, spans) = cells(random, kind);
    let (temp, temps) = temp(random, kind);
    Case {
        words,
        core: Core { regs, flags },
        before,
        below: below(random, kind),
        slots,
        cells,
        count: count(random, kind, place.clock),
        temp,
        port_b: random.byte() & 0xFE | place.level,
        filler: random.byte(),
        at: Instance {
            kind,
            pc,
            line: place.line,
            clock: place.clock,
            level: place.level,
            pending: place.pending,
            regs: known,
            pairs,
            flags: bits,
            compared: Compared::Nothing,
            stack,
            cells: spans,
            top: place.top,
            temp: temps,
        },
    }
}
