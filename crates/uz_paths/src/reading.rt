//! What the hints of a source say: the header and the frame that they ask for, and where runs enter.

ghost use Rattle.std.specs.Prelude.{◌≡◌, ◌<◌, ◌≤◌, ◌^◌, ℕ, List, IfOk, IfErr, IfSome, Some, length};
ghost use Rattle.uz_paths.specs.Words.{first_fact as fact_in, first_stack as first_stack_in};
ghost use Rattle.uz_paths.specs.Faults.{FineBefore, HintRefusal, FactsFine, CellsFine};
ghost use Rattle.uz_paths.specs.Reading.{byte_range as range_of, start_registers as registers_at, IsHeader, IsReading};
ghost use Rattle.uz_paths.specs.Reading.{ReadingFits, LengthsFit};
ghost use Rattle.uz_paths.specs.Cells.{cells_of as cells_of_hints, first_values as values_of};

use crate::cells::{cells_of, first_values, head_cells};
use crate::errors::first_fault;
use crate::words::{
    Beginning, FrameSize, PlaceRange, StackRegion, first_fact, first_lines, first_stack,
    first_start,
};
use arrayvec::ArrayVec;
use avr_asm::Hint;
use uz_hex::Image;
use uz_schedule::{Cell, Head, Response, RuleVersion, Span};

/// What the hints of a source say.
#[derive(Drop)]
pub struct Reading {
    /// The header: response, stack, and cells in order of address.
    pub head: Head,
    /// The lines of a frame, and the clock of the fall.
    pub size: FrameSize,
    /// Where runs enter.
    pub start: Beginning,
    /// The values that each register may have there.
    pub registers: [Span; 32],
    /// The value that each of the handler's cells has before the handler runs first.
    pub firsts: ArrayVec<Span, 16>,
}

/// The range of a register that a fact is about.
fn byte_range(range: Option<PlaceRange>) -> Span
    requires { IfSome range (λ r. (r.lo ≤ r.hi) × (r.hi ≤ 255)) }
    ensures { result ≡ range_of range }
{
    match range {
        None => Span::between(0, 255),
        Some(range) => Span::between(range.lo as u8, range.hi as u8),
    }
}

/// The range of a register at a program counter.
#[tactic(auto, using(crate::proofs::HintLemmas::first_fits))]
fn register_range(hints: &[Hint], pc: u16, register: u8) -> Span
    requires facts { FactsFine hints.now }
    requires register { register < 32 }
    ensures { result ≡ range_of (fact_in pc register hints.now) }
{
    byte_range(first_fact(hints, pc, register))
}

/// The ranges of all registers at a program counter.
fn start_registers(hints: &[Hint], pc: u16) -> [Span; 32]
    requires { FactsFine hints.now }
    ensures { result ≡ registers_at hints.now pc }
{
    let mut ranges = [Span::between(0, 255); 32];
    for r in 0..32u8 {
        ranges[r as usize] = register_range(hints, pc, r);
    }
    ranges
}

/// The header that hints ask for, by the rules of a version.
fn head_of(
    irq: Response,
    version: RuleVersion,
    stack: StackRegion,
    cells: ArrayVec<Cell, 16>,
) -> Head
    ensures { result ≡ record {
      irq = irq;
      lo = stack.lo;
      hi = stack.hi;
      main = stack.main;
      handler = stack.handler;
      cells = cells;
      version = version;
    } }
{
    Head {
        irq,
        lo: stack.lo,
        hi: stack.hi,
        main: stack.main,
        handler: stack.handler,
        cells,
        version,
    }
}

/// Reads hints of which none is at fault.
fn read_fine(
    irq: Response,
    version: RuleVersion,
    hints: &[Hint],
    size: FrameSize,
    start: Beginning,
    stack: StackRegion,
) -> Reading
    requires cells { CellsFine hints.now }
    requires facts { FactsFine hints.now }
    requires stack { first_stack_in hints.now ≡ Some stack }
    ensures head { IsHeader irq hints.now result.head }
    ensures version { result.head.version ≡ version }
    ensures few { length result.head.cells.items ≤ 16 }
    ensures size { result.size ≡ size }
    ensures start { result.start ≡ start }
    ensures registers { result.registers ≡ registers_at hints.now start.pc }
    ensures firsts { result.firsts.items ≡ values_of (cells_of_hints hints.now) }
{
    let tracked = cells_of(hints);
    Reading {
        head: head_of(irq, version, stack, head_cells(tracked.as_slice())),
        size,
        start,
        registers: start_registers(hints, start.pc),
        firsts: first_values(tracked.as_slice()),
    }
}

/// Reads hints for the rules of a version: what they say, or where they are refused.
#[tactic(auto, using(crate::proofs::HintLemmas::cells_fine, crate::proofs::HintLemmas::facts_fine))]
fn read(image: &Image, irq: Response, version: RuleVersion, hints: &[Hint]) -> Result<Reading, u32>
    requires { length hints.now < 2 ^ 32 }
    ensures read { IfOk result (IsReading image.now irq hints.now) }
    ensures version { IfOk result (λ r. r.head.version ≡ version) }
    ensures limits { IfOk result ReadingFits }
    ensures lengths { IfOk result (LengthsFit hints.now) }
    ensures refused { IfErr result (HintRefusal image.now irq hints.now) }
{
    if let Some(index) = first_fault(image, irq, hints) {
        return Err(index);
    }
    match (first_start(hints), first_lines(hints), first_stack(hints)) {
        (Some(start), Some(size), Some(stack)) => Ok(read_fine(
            irq, version, hints, size, start, stack,
        )),
        _ => Err(hints.len() as u32),
    }
}

/// Reads hints for the image that they stand beside, and for the rules of a version. Where one of them is at fault the error is the
/// index of the first such, counted from 0; where none is, but start, lines or stack are missing, it is the number of hints. Takes no
/// memory.
#[tactic(auto, using(crate::proofs::OneRefusal::exact_answer))]
pub fn read_hints(
    image: &Image,
    irq: Response,
    version: RuleVersion,
    hints: &[Hint],
) -> Result<Reading, u32>
    requires { length hints.now < 2 ^ 32 }
    ensures read { IfOk result (IsReading image.now irq hints.now) }
    ensures version { IfOk result (λ r. r.head.version ≡ version) }
    ensures limits { IfOk result ReadingFits }
    ensures lengths { IfOk result (LengthsFit hints.now) }
    ensures refused { IfErr result (HintRefusal image.now irq hints.now) }
    ensures exact { (index : ℕ) → HintRefusal image.now irq hints.now index → result ≡ Err index }
{
    read(image, irq, version, hints)
}
