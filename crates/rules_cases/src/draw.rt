//! Draws an instance and the words at its pc.

ghost use Rattle.std.specs.Prelude.{◌≡◌, ◌<◌};

use arrayvec::ArrayVec;
use random_numbers::{ROWS, Random, place};
use std::alloc::{AllocError, Global};
use uz_range::hull;
use uz_schedule::{
    Bit, Cell, HALF_LINE, Head, Instance, Kind, Owner, Response, RuleVersion, SCANLINE, Schedule,
    Sequence, Span, Val, Wide, tracks,
};

/// How many rows of the instruction table are drawn: all but BREAK and WDR, which the expected sums don't have.
const DRAWN_ROWS: u32 = 82;

/// The lengths of the lines.
const LENGTHS: [u16; 3] = [SCANLINE, HALF_LINE, SCANLINE];

/// TCNT1L, OCR1AL and OCR1AH.
const TIMER: [u16; 3] = [0x84, 0x88, 0x89];

/// STS and LDS.
const DIRECT: [u16; 2] = [0x9200, 0x9000];

/// The low and the high bytes of the last clocks of a half line and of a scanline.
const LOW: [u8; 2] = [141, 27];

const HIGH: [u8; 2] = [3, 7];

/// A range of bytes between two.
fn between(a: u8, b: u8) -> Span {
    if a <= b {
        Span::between(a, b)
    } else {
        Span::between(b, a)
    }
}

/// A range of numbers between two.
fn between_wide(a: u16, b: u16) -> Wide {
    if a <= b {
        Wide::between(a, b)
    } else {
        Wide::between(b, a)
    }
}

/// A cell of the header.
fn cell(at: u16, owner: Owner, lo: u8, hi: u8) -> Cell {
    Cell {
        at,
        owner,
        range: between(lo, hi),
    }
}

/// The header of all instances by the rules of a version.
pub(crate) fn header(version: RuleVersion) -> Head
    ensures main { result.main ≡ 4 }
    ensures handler { result.handler ≡ 6 }
{
    let mut cells = ArrayVec::new();
    for c in [
        cell(0x100, Owner::Main, 0, 10),
        cell(0x102, Owner::Handler, 5, 20),
        cell(0x103, Owner::Handler, 0, 255),
        cell(0x200, Owner::Main, 7, 7),
    ] {
        let _kept = cells.try_push(c);
    }
    Head {
        irq: Response::Four,
        lo: 0x1000,
        hi: 0x10FF,
        main: 4,
        handler: 6,
        cells,
        version,
    }
}

/// A store or a load of a register of the timer, and a word after it.
fn timer_words(random: &mut Random) -> [u16; 3] {
    let direct = DIRECT[random.below(2) as usize];
    let r = random.below(32) as u16;
    let at = TIMER[random.below(3) as usize];
    [direct | r * 16, at, random.word()]
}

/// The words at the pc.
pub(crate) fn words(random: &mut Random) -> [u16; 3] {
    if random.below(8) == 0 {
        return timer_words(random);
    }
    let is_row = random.below(4) > 0;
    let (fixed, fields) = ROWS[random.below(DRAWN_ROWS) as usize];
    let any = random.word();
    let first = if is_row { fixed | (any & fields) } else { any };
    let is_place = random.below(3) > 0;
    let place = place(random);
    let any = random.word();
    let second = if is_place { place } else { any };
    [first, second, random.word()]
}

/// What is known of a byte.
fn value(random: &mut Random, kind: Kind) -> Val {
    let form = random.below(8);
    let a = random.byte();
    let b = random.byte();
    let r = random.below(32) as u8;
    match form {
        0 | 1 => Val::Range(Span::single(a)),
        2 => Val::Range(Span::single(LOW[a as usize % 2])),
        3..=5 => Val::Range(between(a, b)),
        6 if kind == Kind::Handler => Val::Old(r),
        _ if kind == Kind::Handler => Val::OldFlags,
        _ => Val::Range(Span::between(0, 255)),
    }
}

/// The range of a byte.
fn span_of(value: &Val) -> Span {
    match value {
        Val::Range(span) => *span,
        _ => Span::between(0, 255),
    }
}

/// What is known of a pair of these bytes.
fn pair(random: &mut Random, low: &Val, high: &Val) -> Wide {
    let form = random.below(4);
    let a = random.word();
    let place = place(random);
    let more = random.below(24) as u16;
    match form {
        0 => hull(span_of(low), span_of(high)),
        1 => Wide::single(place),
        2 => between_wide(a, a.saturating_add(more)),
        _ => between_wide(a, a ^ place),
    }
}

/// What is known of a flag.
fn flag(random: &mut Random, kind: Kind) -> Bit {
    match random.below(4) {
        0 => Bit::Zero,
        1 => Bit::One,
        3 if kind == Kind::Handler => Bit::Old,
        _ => Bit::Free,
    }
}

/// What is known of the flags.
fn flags(random: &mut Random, kind: Kind) -> [Bit; 7] {
    let mut flags = [Bit::Free; 7];
    for k in 0..7usize {
        flags[k] = flag(random, kind);
    }
    if kind == Kind::Handler && random.below(8) == 0 {
        return [Bit::Old; 7];
    }
    flags
}

/// What is known of the registers.
fn registers(random: &mut Random, kind: Kind) -> [Val; 32] {
    let mut regs = [Val::OldFlags; 32];
    for r in 0..32usize {
        regs[r] = value(random, kind);
    }
    regs
}

/// What is known of the stack.
fn stack(random: &mut Random, kind: Kind) -> ArrayVec<Val, 32> {
    let most = if kind == Kind::Handler { 6 } else { 4 };
    let mut stack = ArrayVec::new();
    for _ in 0..random.below(most + 1) {
        let _kept = stack.try_push(value(random, kind));
    }
    stack
}

/// What is known of the tracked cells.
fn cells(random: &mut Random, head: &Head, kind: Kind) -> ArrayVec<Span, 16> {
    let mut spans = ArrayVec::new();
    for c in head.cells.as_slice() {
        let a = random.byte();
        let b = random.byte();
        if tracks(kind, c.owner) {
            let _kept = spans.try_push(between(a, b));
        }
    }
    spans
}

/// Where an instance stands.
#[derive(Drop)]
struct Standing {
    pc: u16,
    line: u16,
    clock: u16,
    level: u8,
    pending: bool,
}

/// A clock of a line of so many: any, or one of the last five.
fn clock(random: &mut Random, length: u16) -> u16
    requires { 5 < length }
{
    if random.below(2) == 1 {
        random.below(u32::from(length)) as u16
    } else {
        length - 5 + random.below(5) as u16
    }
}

/// The length of a line.
fn length_of(line: u16) -> u16
    ensures { 5 < result }
{
    LENGTHS[line as usize % 3]
}

/// Draws where an instance stands. Main has line and clock 0, and only a handler has a match that waits.
fn draw_place(random: &mut Random, kind: Kind) -> Standing {
    let pc = random.below(32768) as u16;
    let line = random.below(3) as u16;
    let clock = clock(random, length_of(line));
    let level = random.below(2) as u8;
    let waits = random.below(2) == 1;
    let is_main = kind == Kind::Main;
    Standing {
        pc,
        line: if is_main { 0 } else { line },
        clock: if is_main { 0 } else { clock },
        level,
        pending: waits && kind == Kind::Handler,
    }
}

/// Draws OCR1A: mostly the last clock of a line of this length, else that of a line of either.
fn top(random: &mut Random, length: u16) -> u16
    requires { 5 < length }
{
    match random.below(4) {
        0 => HALF_LINE - 1,
        1 => SCANLINE - 1,
        _ => length - 1,
    }
}

/// Draws what is known of TEMP: the high byte of a line's last clock, a range, or nothing.
fn temp(random: &mut Random) -> Span {
    let form = random.below(4) as usize;
    let a = random.byte();
    let b = random.byte();
    match form {
        0 | 1 => Span::single(HIGH[form]),
        2 => between(a, b),
        _ => Span::between(0, 255),
    }
}

/// A frame of a scanline, a half line and a scanline, in which nothing is seen.
pub(crate) fn frame(alloc: Global) -> Result<Schedule, AllocError> {
    let mut lengths = Sequence::new(alloc);
    let mut lines = Sequence::new(alloc);
    for line in 0..3u16 {
        lengths.push(length_of(line))?;
        lines.push(line)?;
    }
    Ok(Schedule {
        kinds: Sequence::new(alloc),
        lengths,
        lines,
        fall: 1,
    })
}

/// Draws an instance of the frame.
pub(crate) fn instance(random: &mut Random, head: &Head, kind: Kind) -> Instance {
    let place = draw_place(random, kind);
    let regs = registers(random, kind);
    let x = pair(random, &regs[26], &regs[27]);
    let y = pair(random, &regs[28], &regs[29]);
    let z = pair(random, &regs[30], &regs[31]);
    let flags = flags(random, kind);
    let stack = stack(random, kind);
    let cells = cells(random, head, kind);
    let top = top(random, length_of(place.line));
    let temp = temp(random);
    let blank = Instance::default();
    let is_handler = kind == Kind::Handler;
    Instance {
        kind,
        pc: place.pc,
        line: place.line,
        clock: place.clock,
        level: place.level,
        pending: place.pending,
        regs,
        pairs: [x, y, z],
        flags,
        compared: blank.compared,
        stack,
        cells,
        top: if is_handler { top } else { blank.top },
        temp: if is_handler { temp } else { blank.temp },
    }
}
