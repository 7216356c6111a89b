//! The parts in which the instances of a program counter differ.

ghost use Rattle.std.specs.Prelude.{◌≡◌, ◌++◌, ℕ, List, [], OnOk};
ghost use Rattle.uz_schedule.specs.declared.states.Instance.{Instance as OneInstance};
ghost use Rattle.uz_explanations.specs.Counting.{count_at, crowd};
ghost use Rattle.uz_explanations.specs.Differing.{cells_text, differing, part_line, parts_text, values_text};
ghost use Rattle.uz_explanations.specs.Seen.{AreCellsOf, AreOf};

use crate::gathering::{CellValues, values_at};
use crate::parts::{Class, add_name};
use crate::seen::{MOST_VALUES, Said, Seen};
use itoa::Buffer;
use std::alloc::{AllocError, Global};
use uz_schedule::{Instance, Kind};

/// Adds how many values there are, of which so many were counted.
fn add_values(text: &mut Vec<u8>, count: usize) -> Result<(), AllocError>
    ensures { OnOk result (text.new.items ≡ text.old.items ++ values_text count) }
{
    text.extend_from_slice(Buffer::new().format(count).as_bytes())?;
    if count >= MOST_VALUES {
        text.extend_from_slice(b" or more")?;
    }
    text.extend_from_slice(b" values\n")
}

/// Adds the line of a part of which so many different values were counted. None where they are all alike.
fn add_part(text: &mut Vec<u8>, class: Class, number: usize, count: usize) -> Result<(), AllocError>
    ensures { OnOk result (text.new.items ≡ text.old.items ++ part_line class number count) }
{
    if count < 2 {
        return Ok(());
    }
    text.extend_from_slice(b" ")?;
    add_name(text, class, number)?;
    text.extend_from_slice(b" ")?;
    add_values(text, count)
}

/// Adds the lines of the parts of a kind, of which these values were seen.
fn add_class<T: Said>(text: &mut Vec<u8>, class: Class, seen: &[Seen<T>]) -> Result<(), AllocError>
    ensures { OnOk result ((all : List OneInstance) (n : ℕ) → AreOf class n T.value [] all seen.now
        → text.new.items ≡ text.old.items ++ parts_text class n all) }
{
    for number in 0..seen.len() {
        add_part(text, class, number, seen[number].values.len())?;
    }
    Ok(())
}

/// Adds the lines of the cells of each side.
fn add_cells(text: &mut Vec<u8>, values: &CellValues) -> Result<(), AllocError>
    ensures { OnOk result ((all : List OneInstance) → AreCellsOf [] all values.now
        → text.new.items ≡ text.old.items ++ cells_text all) }
{
    add_class(text, Class::Cell(Kind::Main), values.main.as_slice())?;
    add_class(text, Class::Cell(Kind::Handler), values.handler.as_slice())?;
    add_class(text, Class::Cell(Kind::Alone), values.alone.as_slice())?;
    Ok(())
}

/// Adds a line for each part in which the instances at a program counter differ, of which there are so many.
pub(crate) fn add_differing(
    alloc: Global,
    text: &mut Vec<u8>,
    instances: &[Instance],
    pc: u16,
    count: u32,
) -> Result<(), AllocError>
    requires { count ≡ count_at pc instances.now }
    ensures { OnOk result (text.new.items ≡ text.old.items ++ differing (crowd pc instances.now)) }
{
    let values = values_at(alloc, instances, pc, count)?;
    add_class(text, Class::Register, values.registers.as_slice())?;
    add_class(text, Class::Pair, values.pairs.as_slice())?;
    add_class(text, Class::Flag, values.flags.as_slice())?;
    add_class(text, Class::Slot, values.slots.as_slice())?;
    add_cells(text, &values.cells)?;
    Ok(())
}
