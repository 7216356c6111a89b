//! The different values of all parts of the instances at a program counter.

ghost use Rattle.std.specs.Prelude.{◌≡◌, IfOk, OnOk, List, [], ◌++◌, map};
ghost use Rattle.uz_schedule.specs.declared.states.Instance.{Instance as OneInstance};
ghost use Rattle.uz_explanations.specs.Counting.{count_at, crowd};
ghost use Rattle.uz_explanations.specs.Seen.{AreAllOf, AreCellsOf};

use crate::blocks::note_parts;
use crate::said::{AloneCells, Flags, HandlerCells, MainCells, Pairs, Registers, Slots};
use crate::seen::{Seen, unseen};
use std::alloc::{AllocError, Global};
use uz_schedule::{Bit, Instance, Span, Val, Wide};

/// So many instances are taken at a time.
const BLOCK: usize = 256;

/// The different values of the cells of each side, by number.
#[derive(Drop)]
pub(crate) struct CellValues {
    pub(crate) main: Vec<Seen<Span>>,
    pub(crate) handler: Vec<Seen<Span>>,
    pub(crate) alone: Vec<Seen<Span>>,
}

/// The different values of each part, the parts of a kind by their numbers.
#[derive(Drop)]
pub(crate) struct Values {
    pub(crate) registers: Vec<Seen<Val>>,
    pub(crate) pairs: Vec<Seen<Wide>>,
    pub(crate) flags: Vec<Seen<Bit>>,
    pub(crate) slots: Vec<Seen<Val>>,
    pub(crate) cells: CellValues,
}

/// No values of cells.
fn no_cells(alloc: Global) -> Result<CellValues, AllocError>
    ensures { IfOk result (λ v. (all : List OneInstance) → AreCellsOf all all v) }
{
    let main = unseen(alloc, 16)?;
    let handler = unseen(alloc, 16)?;
    let alone = unseen(alloc, 16)?;
    Ok(CellValues {
        main,
        handler,
        alone,
    })
}

/// No values.
fn no_values(alloc: Global) -> Result<Values, AllocError>
    ensures { IfOk result (λ v. (all : List OneInstance) → AreAllOf all all v) }
{
    let registers = unseen(alloc, 32)?;
    let pairs = unseen(alloc, 3)?;
    let flags = unseen(alloc, 7)?;
    let slots = unseen(alloc, 32)?;
    let cells = no_cells(alloc)?;
    Ok(Values {
        registers,
        pairs,
        flags,
        slots,
        cells,
    })
}

/// The instances of a block at a program counter.
fn crowd_of(alloc: Global, block: &[Instance], pc: u16) -> Result<Vec<&Instance>, AllocError>
    ensures { IfOk result (λ v. map (λ x. x.now) v.items ≡ crowd pc block.now) }
{
    let mut here = Vec::new(alloc);
    for x in block {
        if x.pc == pc {
            here.push(x)?;
        }
    }
    Ok(here)
}

/// Keeps what instances say of the cells of each side.
fn note_cells(values: &mut CellValues, here: &[&Instance]) -> Result<(), AllocError>
    ensures { OnOk result ((rest all : List OneInstance)
        → AreCellsOf (map (λ x. x.now) here.now ++ rest) all values.old → AreCellsOf rest all values.new) }
{
    note_parts::<Span, MainCells>(&mut values.main, here)?;
    note_parts::<Span, HandlerCells>(&mut values.handler, here)?;
    note_parts::<Span, AloneCells>(&mut values.alone, here)?;
    Ok(())
}

/// Keeps what instances say.
fn note_crowd(values: &mut Values, here: &[&Instance]) -> Result<(), AllocError>
    ensures { OnOk result ((rest all : List OneInstance)
        → AreAllOf (map (λ x. x.now) here.now ++ rest) all values.old → AreAllOf rest all values.new) }
{
    note_parts::<Val, Registers>(&mut values.registers, here)?;
    note_parts::<Wide, Pairs>(&mut values.pairs, here)?;
    note_parts::<Bit, Flags>(&mut values.flags, here)?;
    note_parts::<Val, Slots>(&mut values.slots, here)?;
    note_cells(&mut values.cells, here)?;
    Ok(())
}

/// Keeps what the instances of a block at a program counter say, and answers how many there are.
fn note_block(
    alloc: Global,
    values: &mut Values,
    block: &[Instance],
    pc: u16,
) -> Result<usize, AllocError>
    ensures { IfOk result (λ count. (count ≡ count_at pc block.now) × ((rest all : List OneInstance)
        → AreAllOf (crowd pc block.now ++ rest) all values.old → AreAllOf rest all values.new)) }
{
    let here = crowd_of(alloc, block, pc)?;
    note_crowd(values, here.as_slice())?;
    Ok(here.len())
}

/// The different values of the instances at a program counter, of which there are so many. They are taken block by block, and of a
/// block part by part, since a part mostly has the value that came last.
pub(crate) fn values_at(
    alloc: Global,
    instances: &[Instance],
    pc: u16,
    count: u32,
) -> Result<Values, AllocError>
    requires { count ≡ count_at pc instances.now }
    ensures { IfOk result (AreAllOf [] (crowd pc instances.now)) }
{
    let mut values = no_values(alloc)?;
    let mut left = count as usize;
    let mut rest = instances;
    while left > 0 {
        let (block, later) = rest.split_at(rest.len().min(BLOCK));
        left = left.saturating_sub(note_block(alloc, &mut values, block, pc)?);
        rest = later;
    }
    Ok(values)
}
