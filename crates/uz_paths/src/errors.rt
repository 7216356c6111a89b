//! Which hint is at fault.

ghost use Rattle.std.specs.Prelude.{◌≡◌, ◌≢◌, ◌<◌, ◌≤◌, ◌↔◌, ◌^◌, IsTrue, MatchOption, Some, length, slice_get};
ghost use Rattle.uz_transfer.specs.Step.{IsReadAt};
ghost use Rattle.uz_paths.specs.Words.{first_start as start_in, first_stack as stack_in};
ghost use Rattle.uz_paths.specs.Faults.{Reads, starts_main as enters_main, StartFine, LinesFine, HalvesFit, HalfFine};
ghost use Rattle.uz_paths.specs.Faults.{StackFine, OffStack, CellRangeFine, CellPlaceFine, CellFine, FactFine, IsFine};
ghost use Rattle.uz_paths.specs.Faults.{FineBefore, FirstFault};

use crate::words::{
    Beginning, FrameSize, StackRegion, cell_count, first_lines, first_stack, first_start, has_cell,
    has_half,
};
use avr_asm::Hint;
use avr_decode::decode;
use avr_table::Instr;
use uz_hex::{FLASH_WORDS, Image};
use uz_schedule::{CLOCK_LIMIT, HALF_LINE, Kind, MOST_LINES, Response};
use uz_transfer::word_after;

/// The lowest and the highest address of RAM in the data space (ATmega644 data sheet).
pub(crate) const RAM: (u16, u16) = (256, 4351);

/// The most bytes that main or the handler may push.
pub(crate) const MOST_SLOTS: u8 = 32;

/// The most cells.
pub(crate) const MOST_CELLS: usize = 16;

/// The greatest place of a fact: 0 to 31 are registers, 32 to 34 the pairs X, Y and Z.
pub(crate) const LAST_PLACE: u8 = 34;

/// What is read at a word address.
fn row_at(image: &Image, at: u16) -> Option<Instr>
    requires { at < 32768 }
    ensures { IsReadAt image.now at result }
{
    decode(image.word(at), image.word(word_after(at, 1)))
}

/// Whether a row reads the words at this word address of the flash.
pub(crate) fn is_instruction(image: &Image, at: u16) -> bool
    ensures { IsTrue result ↔ Reads image.now at }
{
    at < FLASH_WORDS && row_at(image, at).is_some()
}

/// Whether runs enter main.
pub(crate) fn starts_main(start: Option<Beginning>) -> bool
    ensures { result ≡ enters_main start }
{
    match start {
        None => false,
        Some(start) => match start.kind {
            Kind::Main => true,
            Kind::Handler | Kind::Alone => false,
        },
    }
}

fn is_fine_start(image: &Image, hints: &[Hint], i: usize, kind: Kind, at: u16) -> bool
    requires { i < length hints.now }
    ensures { IsTrue result ↔ StartFine image.now hints.now i kind at }
{
    is_instruction(image, at) && kind != Kind::Handler && first_start(&hints[..i]).is_none()
}

fn is_fine_lines(irq: Response, hints: &[Hint], i: usize, lines: u16, fall: u16) -> bool
    requires { i < length hints.now }
    ensures { IsTrue result ↔ LinesFine irq hints.now i lines fall }
{
    1 <= lines
        && usize::from(lines) <= MOST_LINES
        && 1 <= fall
        && fall < CLOCK_LIMIT
        && (!starts_main(first_start(hints)) || irq.clocks() + 3 < fall)
        && first_lines(&hints[..i]).is_none()
}

/// Whether lines up to this one stand in the frame, and its fall is a clock of half a scanline.
fn halves_fit(to: u16, size: Option<FrameSize>) -> bool
    ensures { IsTrue result ↔ HalvesFit to size }
{
    match size {
        None => true,
        Some(size) => to < size.lines && size.fall < HALF_LINE,
    }
}

#[tactic(auto, using(crate::proofs::HalfLemmas::none_halved, crate::proofs::HalfLemmas::none_shared))]
fn is_fine_half(hints: &[Hint], i: usize, from: u16, to: u16) -> bool
    requires { i < length hints.now }
    ensures { IsTrue result ↔ HalfFine hints.now i from to }
{
    from <= to && halves_fit(to, first_lines(hints)) && !has_half(&hints[..i], from, to)
}

fn is_fine_stack(hints: &[Hint], i: usize, lo: u16, hi: u16, main: u8, handler: u8) -> bool
    requires { i < length hints.now }
    ensures { IsTrue result ↔ StackFine hints.now i lo hi main handler }
{
    RAM.0 <= lo
        && lo <= hi
        && hi <= RAM.1
        && main <= MOST_SLOTS
        && handler <= MOST_SLOTS
        && u16::from(main) + 2 + u16::from(handler) <= hi - lo + 1
        && first_stack(&hints[..i]).is_none()
}

/// Whether an address lies off the stack.
pub(crate) fn is_off_stack(at: u16, stack: Option<StackRegion>) -> bool
    ensures { IsTrue result ↔ OffStack at stack }
{
    match stack {
        None => true,
        Some(stack) => at < stack.lo || stack.hi < at,
    }
}

fn is_fine_range(owner: Kind, lo: u8, hi: u8, first: u8) -> bool
    ensures { IsTrue result ↔ CellRangeFine owner lo hi first }
{
    lo <= hi && owner != Kind::Alone && (owner != Kind::Handler || (lo <= first && first <= hi))
}

fn is_fine_place(hints: &[Hint], i: usize, at: u16) -> bool
    requires { i < length hints.now }
    ensures { IsTrue result ↔ CellPlaceFine hints.now i at }
{
    RAM.0 <= at
        && at <= RAM.1
        && is_off_stack(at, first_stack(hints))
        && cell_count(&hints[..i]) < MOST_CELLS
        && !has_cell(&hints[..i], at)
        && !has_cell(&hints[i + 1..], at)
}

fn is_fine_fact(image: &Image, at: u16, place: u8, lo: u16, hi: u16) -> bool
    ensures { IsTrue result ↔ FactFine image.now at place lo hi }
{
    is_instruction(image, at) && lo <= hi && place <= LAST_PLACE && (32 <= place || hi <= 255)
}

/// Whether nothing is at fault with a hint of this index. It looks at the other hints for all but a fact.
fn is_fine(image: &Image, irq: Response, hints: &[Hint], i: usize, hint: &Hint) -> bool
    requires { i < length hints.now }
    ensures { IsTrue result ↔ IsFine image.now irq hints.now i hint.now }
{
    match *hint {
        Hint::Start { kind, at } => is_fine_start(image, hints, i, kind, at),
        Hint::Lines { lines, fall } => is_fine_lines(irq, hints, i, lines, fall),
        Hint::Half { from, to } => is_fine_half(hints, i, from, to),
        Hint::Stack {
            lo,
            hi,
            main,
            handler,
        } => is_fine_stack(hints, i, lo, hi, main, handler),
        Hint::Cell {
            at,
            owner,
            lo,
            hi,
            first,
        } => is_fine_range(owner, lo, hi, first) && is_fine_place(hints, i, at),
        Hint::Fact { at, place, lo, hi } => is_fine_fact(image, at, place, lo, hi),
    }
}

/// The index of the first hint that is at fault. Linear in the number of hints: of starts, lines and stacks the second
/// is at fault, of cells
/// the 17th, and each `.half` that isn't at fault names further lines of the frame.
pub(crate) fn first_fault(image: &Image, irq: Response, hints: &[Hint]) -> Option<u32>
    requires { length hints.now < 2 ^ 32 }
    ensures { MatchOption result (FineBefore image.now irq hints.now (length hints.now))
        (λ index. FirstFault image.now irq hints.now index) }
{
    for (i, hint) in hints.iter().enumerate() {
        if !is_fine(image, irq, hints, i, hint) {
            return Some(i as u32);
        }
    }
    None
}
