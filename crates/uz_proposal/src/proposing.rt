//! From what a run shows to hints.

ghost use Rattle.std.specs.Prelude.{◌≡◌, ◌<◌, ◌≤◌, ◌^◌, length};

use crate::alone::find_alone;
use crate::falls::with_falls;
use crate::flood::{Flood, flood_from};
use crate::frame::{Cells, Frame, frame_of, is_periodic, is_short, no_frame, no_line};
use crate::no_hints::NoHints;
use crate::remarks::{Remark, Remarked};
use crate::seen::{Seen, candidates, main_loop, see};
use crate::{Line, Registers, register_bit, registers_at};
use avr_asm::Hint;
use std::alloc::{AllocError, Global};
use uz_console::Console;
use uz_core::address::{SREG, TIMER1_COMPA};
use uz_schedule::{HALF_LINE, Kind};

/// The most bytes that main or the handler may push.
const MOST_PUSHED: u16 = 32;

/// The most cells.
const MOST_CELLS: usize = 16;

/// RAM, and the first address behind it.
const RAM_BEGIN: u16 = 256;

const RAM_LIMIT: u16 = 4352;

/// Whether a byte may be a cell of the handler: the handler alone stores it, and more than one value, and it doesn't lie in the stack.
fn is_handlers(seen: &Seen, at: u16) -> bool {
    if at < RAM_BEGIN || RAM_LIMIT <= at || seen.survey.least < at {
        return false;
    }
    match seen.window.stored_by_handler(at) {
        None => false,
        Some(extent) => {
            extent.least < extent.greatest && seen.window.stored_by_main(at).is_none()
        }
    }
}

/// The places of the cells among the bytes that were looked at: those of the handler with which the lines are periodic.
fn chosen_cells(
    alloc: Global,
    seen: &Seen,
    lines: &[Line],
    addresses: &[u16],
) -> Result<Vec<usize>, AllocError> {
    let mut chosen = Vec::new(alloc);
    let cells = Cells {
        bytes: seen.survey.cells.as_slice(),
        width: addresses.len(),
    };
    for (n, at) in addresses.iter().enumerate() {
        if chosen.len() < MOST_CELLS
            && is_handlers(seen, *at)
            && is_periodic(alloc, lines, cells, n)?
        {
            chosen.push(n)?;
        }
    }
    Ok(chosen)
}

/// Whether a byte of the handler is one with which the lines aren't periodic.
fn has_open_byte(
    alloc: Global,
    seen: &Seen,
    lines: &[Line],
    addresses: &[u16],
) -> Result<bool, AllocError> {
    let cells = Cells {
        bytes: seen.survey.cells.as_slice(),
        width: addresses.len(),
    };
    for (n, at) in addresses.iter().enumerate() {
        if is_handlers(seen, *at) && !is_periodic(alloc, lines, cells, n)? {
            return Ok(true);
        }
    }
    Ok(false)
}

fn put(hints: &mut Vec<Remarked>, remark: Remark, hint: Hint) -> Result<(), AllocError> {
    hints.push(Remarked { remark, hint })?;
    Ok(())
}

/// A number of 16 bits, or the greatest.
fn short(n: usize) -> u16 {
    u16::try_from(n).unwrap_or(u16::MAX)
}

/// Whether a line of the frame is a half line.
fn is_half(lines: &[Line], frame: &Frame, n: usize) -> bool {
    match frame.line(lines, n) {
        None => false,
        Some(line) => line.length == u64::from(HALF_LINE),
    }
}

/// How many lines of the frame are half lines.
fn half_lines(lines: &[Line], frame: &Frame) -> u16 {
    let mut count = 0u16;
    for n in 0..frame.lines {
        if is_half(lines, frame, n) {
            count = count.saturating_add(1);
        }
    }
    count
}

/// The hint of the frame's lines and its fall.
fn put_lines(hints: &mut Vec<Remarked>, lines: &[Line], frame: &Frame) -> Result<(), AllocError> {
    let fall = u16::try_from(frame.fall).unwrap_or(u16::MAX);
    put(
        hints,
        Remark::Falls {
            clock: fall,
            falling: frame.falling,
            lines: short(frame.lines),
            halves: half_lines(lines, frame),
        },
        Hint::Lines {
            lines: short(frame.lines),
            fall,
        },
    )
}

/// The hints of the half lines: from each line that begins some to the last of them.
fn put_halves(hints: &mut Vec<Remarked>, lines: &[Line], frame: &Frame) -> Result<(), AllocError> {
    let mut from = None;
    for n in 0..frame.lines {
        let half = is_half(lines, frame, n);
        if half && from.is_none() {
            from = Some(n);
        }
        let last = n.saturating_add(1) == frame.lines
            || !is_half(lines, frame, n.saturating_add(1));
        if half && last {
            let hint = Hint::Half {
                from: short(from.unwrap_or(n)),
                to: short(n),
            };
            put(hints, Remark::Halves, hint)?;
            from = None;
        }
    }
    Ok(())
}

/// What some code pushes, unless that has no end.
fn pushed(code: &Flood) -> u16 {
    let depth = u16::from(code.depth);
    if depth <= MOST_PUSHED { depth } else { 0 }
}

/// What the handler pushes.
fn handler_pushes(seen: &Seen, handler: &Flood) -> u16 {
    seen.window.handler_depth().max(pushed(handler))
}

/// The hint of the stack, whose highest address is SP at the start.
fn put_stack(
    hints: &mut Vec<Remarked>,
    seen: &Seen,
    top: u16,
    main: &Flood,
    handlers: u16,
) -> Result<(), AllocError> {
    let mains = top
        .saturating_sub(seen.survey.main_least)
        .max(pushed(main))
        .min(MOST_PUSHED);
    let handlers = handlers.min(MOST_PUSHED);
    let hint = Hint::Stack {
        lo: top.saturating_sub(mains + 1 + handlers),
        hi: top,
        main: mains as u8,
        handler: handlers as u8,
    };
    put(hints, Remark::Pushes, hint)
}

/// The hint of the start.
fn put_start(
    hints: &mut Vec<Remarked>,
    remark: Remark,
    kind: Kind,
    at: u16,
) -> Result<(), AllocError> {
    put(hints, remark, Hint::Start { kind, at })
}

/// The hint of a cell of the handler, with its byte at line 0.
fn put_cell(hints: &mut Vec<Remarked>, seen: &Seen, at: u16, first: u8) -> Result<(), AllocError> {
    if at < RAM_BEGIN || RAM_LIMIT <= at {
        return Ok(());
    }
    let (remark, lo, hi) = match seen.window.stored_by_handler(at) {
        None => (Remark::Unwritten, first, first),
        Some(extent) => (
            Remark::Stored {
                least: extent.least,
                greatest: extent.greatest,
            },
            extent.least.min(first),
            extent.greatest.max(first),
        ),
    };
    let hint = Hint::Cell {
        at,
        owner: Kind::Handler,
        lo,
        hi,
        first,
    };
    put(hints, remark, hint)
}

/// The hints of the cells.
fn put_cells(
    hints: &mut Vec<Remarked>,
    seen: &Seen,
    zero: &Line,
    addresses: &[u16],
    chosen: &[usize],
) -> Result<(), AllocError> {
    let cells = Cells {
        bytes: seen.survey.cells.as_slice(),
        width: addresses.len(),
    };
    for n in chosen {
        if let Some(at) = addresses.get(*n) {
            put_cell(hints, seen, *at, cells.on(zero, *n).unwrap_or(0))?;
        }
    }
    Ok(())
}

/// The registers whose values at the start tell something, a bit each: the code from there on reads them, and the run read them before
/// it wrote them, or didn't write them.
fn telling(code: &Flood, registers: &Registers) -> u32 {
    code.reads & (registers.live | !registers.written)
}

/// The hints of the registers that were the same at all visits, and that tell something.
fn put_facts(
    hints: &mut Vec<Remarked>,
    code: &Flood,
    registers: &Registers,
    pc: u16,
) -> Result<(), AllocError> {
    let visits = registers.visits;
    let telling = telling(code, registers);
    for n in 0..32u8 {
        let place = usize::from(n);
        if registers.same[place] && telling & register_bit(n) != 0 && visits > 0 {
            let value = u16::from(registers.values[place]);
            let hint = Hint::Fact {
                at: pc,
                place: n,
                lo: value,
                hi: value,
            };
            put(hints, Remark::Constant { visits }, hint)?;
        }
    }
    Ok(())
}

/// What is known of a kernel with interrupts.
#[derive(Drop)]
struct Kernel {
    lines: Vec<Line>,
    chosen: Vec<usize>,
    frame: Frame,
    /// What the code from main's loop on does.
    main: Flood,
    /// Where main's loop begins, and the registers there.
    pc: u16,
    registers: Registers,
}

/// Finds the frame and the cells, and then main's loop.
fn find_kernel(
    alloc: Global,
    seen: &mut Seen,
    start: &mut Console,
    limit: u64,
    addresses: &[u16],
) -> Result<Kernel, NoHints>
    requires { limit ≤ 2 ^ 62 }
{
    let lines = seen.window.lines(alloc)?;
    if is_short(lines.as_slice()) && has_open_byte(alloc, seen, lines.as_slice(), addresses)? {
        return Err(no_frame(lines.as_slice()));
    }
    let chosen = chosen_cells(alloc, seen, lines.as_slice(), addresses)?;
    let cells = Cells {
        bytes: seen.survey.cells.as_slice(),
        width: addresses.len(),
    };
    let frame = frame_of(alloc, lines.as_slice(), cells, chosen.as_slice())?;
    let pc = main_loop(alloc, start, limit, &seen.survey)?;
    let main = flood_from(alloc, start.image(), pc)?;
    let top = seen.survey.main_top;
    let registers = registers_at(&mut seen.begin, limit, seen.handling, pc, top);
    Ok(Kernel {
        lines,
        chosen,
        frame,
        main,
        pc,
        registers,
    })
}

/// The hints of a kernel with interrupts.
fn kernel_hints(
    alloc: Global,
    seen: &Seen,
    kernel: &Kernel,
    handlers: u16,
    addresses: &[u16],
) -> Result<Vec<Remarked>, AllocError> {
    let mut hints = Vec::new(alloc);
    let lines = kernel.lines.as_slice();
    let visits = kernel.registers.visits;
    put_lines(&mut hints, lines, &kernel.frame)?;
    put_halves(&mut hints, lines, &kernel.frame)?;
    put_stack(
        &mut hints,
        seen,
        seen.survey.main_top,
        &kernel.main,
        handlers,
    )?;
    put_start(&mut hints, Remark::Loop { visits }, Kind::Main, kernel.pc)?;
    if let Some(zero) = kernel.frame.line(lines, 0) {
        put_cells(&mut hints, seen, zero, addresses, kernel.chosen.as_slice())?;
    }
    put_facts(&mut hints, &kernel.main, &kernel.registers, kernel.pc)?;
    Ok(hints)
}

/// The hints of a kernel with interrupts, where there are some.
fn interrupted_hints(
    alloc: Global,
    seen: &mut Seen,
    start: &mut Console,
    limit: u64,
    handler: &Flood,
    addresses: &[u16],
) -> Result<Vec<Remarked>, NoHints>
    requires { limit ≤ 2 ^ 62 }
{
    let kernel = find_kernel(alloc, seen, start, limit, addresses)?;
    let handlers = handler_pushes(seen, handler);
    Ok(kernel_hints(alloc, seen, &kernel, handlers, addresses)?)
}

/// Whether an interrupt is to come: timer 1 counts, and I is set.
fn waits_for_entry(console: &Console) -> bool {
    console.timer().counting() && console.byte(SREG) >> 7 & 1 == 1
}

/// The hints of a program without interrupts. If one is to come, the run is too short where it shows no line.
fn alone_hints(
    alloc: Global,
    seen: &mut Seen,
    start: &Console,
    limit: u64,
    waits: bool,
) -> Result<Vec<Remarked>, NoHints>
    requires { limit ≤ 2 ^ 62 }
{
    if waits && seen.survey.falls.len() < 2 {
        return Err(no_line());
    }
    let found = find_alone(alloc, seen.window.edges(), seen.survey.falls.as_slice())?;
    let pc = found.start.pc;
    let code = flood_from(alloc, start.image(), pc)?;
    let registers = registers_at(&mut seen.begin, limit, false, pc, found.start.sp);
    let visits = registers.visits;
    let mut hints = Vec::new(alloc);
    put_lines(&mut hints, found.lines.as_slice(), &found.frame)?;
    put_halves(&mut hints, found.lines.as_slice(), &found.frame)?;
    put_stack(&mut hints, seen, found.start.sp, &code, 0)?;
    put_start(&mut hints, Remark::Fall { visits }, Kind::Alone, pc)?;
    put_facts(&mut hints, &code, &registers, pc)?;
    Ok(hints)
}

/// Runs a console from reset for so many clocks, and proposes hints for its program by what the second half of the run shows, at most
/// its last 2,097,152 clocks. Which hints are proposed is a choice: whether they lead to a certificate the search and the checker
/// decide. There are none where the run stops, where the lines make no frame, where main has no loop, where sync doesn't fall, and for
/// want of memory.
pub fn propose(alloc: Global, console: &mut Console, limit: u64) -> Result<Vec<Remarked>, NoHints>
    requires { limit ≤ 2 ^ 62 }
{
    let mut start = console.copy(alloc)?;
    let handler = flood_from(alloc, console.image(), TIMER1_COMPA)?;
    let addresses = candidates(alloc, &handler)?;
    let mut seen = see(alloc, console, limit, addresses.as_slice())?;
    let hints = if seen.survey.entries == 0 {
        alone_hints(alloc, &mut seen, &start, limit, waits_for_entry(console))
    } else {
        interrupted_hints(
            alloc,
            &mut seen,
            &mut start,
            limit,
            &handler,
            addresses.as_slice(),
        )
    };
    match hints {
        Ok(hints) => Ok(hints),
        Err(why) => Err(with_falls(why, seen.window.edges())),
    }
}
