//! The programs that bring a console into drawn states.
//!
//! An image holds so many cases, of each its own code (`stub`) that gives registers, stack, cells, ports and timer their bytes
//! and jumps to the case's words. A console is put to the begin of a stub by a state that was saved: of a second console,
//! whose program goes with Z from stub to stub, each time over the word at which the other one has IJMP.

ghost use Rattle.std.specs.Prelude.{◌≡◌, ◌<◌};

use crate::case::Case;
use crate::writer::{CLEAR_MATCH, IJMP, PAUSE, Writer, set_word};
use std::alloc::{AllocError, Global};
use uz_console::{Console, Response, SaveState};
use uz_core::address::{
    OCR1AH, OCR1AL, PORTB, PORTC, SPH, SPL, SREG, TCCR1B, TCNT1H, TCNT1L, TIMSK1,
};
use uz_hex::Image;
use uz_schedule::Kind;

/// How many cases an image holds.
pub(crate) const CASES: u16 = 250;

/// Where the first stub begins.
const FIRST: u16 = 16;

/// How many words a stub has room for.
const ROOM: u16 = 128;

/// The word at which a case begins, by IJMP.
const BEGIN: u16 = 2;

/// The clocks from the begin of the timer's counting in a stub to the case's words.
const LATE: u16 = 23;

/// The highest byte of the stack.
pub(crate) const STACK: u16 = 0x10FF;

/// The pc of a case. Its words stand there, and the one before it is the stub's last.
pub(crate) fn pc_of(k: u16) -> u16
    requires { k < 250 }
    ensures low { 0 < result }
    ensures high { result < 32768 }
{
    32767 - 3 * k
}

/// Lets a compare match come.
fn match_once(code: &mut Writer<'_>) {
    code.store(TCCR1B, 9);
    code.word(0);
    code.store(TCCR1B, 0);
}

/// Stack, cells, ports and a byte of RAM and of I/O.
fn put_memory(code: &mut Writer<'_>, case: &Case) {
    code.put_out(SPL, (STACK % 256) as u8);
    code.put_out(SPH, (STACK / 256) as u8);
    for byte in case.below.as_slice() {
        code.push(*byte);
    }
    for byte in case.slots.as_slice() {
        code.push(*byte);
    }
    code.store(0x100, case.cells[0]);
    code.store(0x102, case.cells[1]);
    code.store(0x103, case.cells[2]);
    code.store(0x200, case.cells[3]);
    code.put_out(PORTB, case.port_b);
    code.put_out(PORTC, case.filler);
    code.store_again(0x101);
    code.put_out(0x40, case.filler);
}

/// A timer that stands, whose compare match interrupts, and whose count is so many clocks before the case's. TEMP is the case's.
fn put_timer(code: &mut Writer<'_>, case: &Case) {
    let top = case.at.top;
    let period = u32::from(top.max(LATE)) + 1;
    let late = u32::from(LATE);
    let count = ((u32::from(case.count) % period + (period - late)) % period) as u16;
    code.store(OCR1AH, (top / 256) as u8);
    code.store(OCR1AL, (top % 256) as u8);
    code.store(TCNT1H, (count / 256) as u8);
    code.store(TCNT1L, (count % 256) as u8);
    code.store(OCR1AH, case.temp);
    code.store(TIMSK1, 2);
}

/// SREG, whose bit 7 is set in main.
fn status(case: &Case) -> u8 {
    if case.at.kind == Kind::Main {
        128 | case.core.flags
    } else {
        case.core.flags
    }
}

/// The registers and SREG, and after r0 to r15 the begin of the timer's counting.
fn put_core(code: &mut Writer<'_>, case: &Case) {
    for r in 0..16u8 {
        code.load(16, case.core.regs[r as usize]);
        code.move_to(r);
    }
    code.store(TCCR1B, 9);
    code.put_out(SREG, status(case));
    for r in 16..32u8 {
        code.load(r, case.core.regs[r as usize]);
    }
}

/// Writes case number `k`, its stub, and the word between the two: a match that came is cleared there, if none is to wait.
fn put_case(image: &mut Image, k: u16, case: &Case)
    requires { k < 250 }
{
    let pc = pc_of(k);
    let mut code = Writer::new(image, FIRST + ROOM * k);
    if case.at.pending {
        match_once(&mut code);
    }
    put_memory(&mut code, case);
    put_timer(&mut code, case);
    put_core(&mut code, case);
    code.jump(pc - 1);
    let last = if case.at.pending { PAUSE } else { CLEAR_MATCH };
    set_word(image, pc - 1, last);
    set_word(image, pc, case.words[0]);
    set_word(image, pc + 1, case.words[1]);
}

/// The image of these cases.
pub(crate) fn image_of(alloc: Global, cases: &[Case]) -> Result<Image, AllocError> {
    let mut image = Image::empty(alloc)?;
    set_word(&mut image, BEGIN, IJMP);
    for k in 0..CASES {
        if let Some(case) = cases.get(k as usize) {
            put_case(&mut image, k, case);
        }
    }
    Ok(image)
}

/// Makes a turn, and answers whether there was one.
fn go_on(console: &mut Console) -> bool {
    console.clock() < 1 << 40 && console.pass_turn().is_none()
}

/// Makes turns up to a pc, a few hundred at most, and answers whether it came there.
pub(crate) fn go_to(console: &mut Console, pc: u16) -> bool {
    for _ in 0..300 {
        if console.pc() == pc {
            return true;
        }
        if !go_on(console) {
            return false;
        }
    }
    false
}

/// The program that goes with Z from stub to stub.
fn selecting(alloc: Global) -> Result<Image, AllocError> {
    let mut image = Image::empty(alloc)?;
    let mut code = Writer::new(&mut image, 0);
    code.load(30, (FIRST % 256) as u8);
    code.load(31, (FIRST / 256) as u8);
    code.add_to_z(63);
    code.add_to_z(63);
    code.add_to_z(2);
    code.word(0xCFFC);
    Ok(image)
}

/// For each case the state at the begin of its stub.
pub(crate) fn starts(alloc: Global) -> Result<Vec<SaveState>, AllocError> {
    let mut console = Console::reset(alloc, selecting(alloc)?, Vec::new(alloc), Response::Four)?;
    let mut starts = Vec::new(alloc);
    for _ in 0..CASES {
        if go_to(&mut console, BEGIN) {
            starts.push(console.save(alloc)?)?;
            let _left = go_on(&mut console);
        }
    }
    Ok(starts)
}
