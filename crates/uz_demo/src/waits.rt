//! Instructions that take a given number of clocks.

ghost use Rattle.std.specs.Prelude.{◌≡◌, ◌++◌, OnOk, decimal};
ghost use Rattle.uz_demo.specs.Waits.{block, last_block, nops, set, turn, wait, whole_blocks};

use itoa::Buffer;
use std::alloc::AllocError;

/// The clocks of a block of `WHOLE_TURNS` turns.
const WHOLE: u16 = 750;

const WHOLE_TURNS: u8 = 250;

/// Adds a number in decimal.
pub(crate) fn add_decimal(text: &mut Vec<u8>, number: u16) -> Result<(), AllocError>
    ensures { OnOk result (text.new.items ≡ text.old.items ++ decimal number) }
{
    text.extend_from_slice(Buffer::new().format(number).as_bytes())
}

/// Adds an LDI.
pub(crate) fn add_set(text: &mut Vec<u8>, register: u8, number: u8) -> Result<(), AllocError>
    ensures { OnOk result (text.new.items ≡ text.old.items ++ set register number) }
{
    text.extend_from_slice(b"  ldi r")?;
    add_decimal(text, u16::from(register))?;
    text.extend_from_slice(b",")?;
    add_decimal(text, u16::from(number))?;
    text.extend_from_slice(b"\n")
}

/// Adds the label of a block, and its branch back.
fn add_turn(text: &mut Vec<u8>, label: u16) -> Result<(), AllocError>
    ensures { OnOk result (text.new.items ≡ text.old.items ++ turn label) }
{
    text.extend_from_slice(b"d")?;
    add_decimal(text, label)?;
    text.extend_from_slice(b": dec r31\n  brne d")?;
    add_decimal(text, label)?;
    text.extend_from_slice(b"\n")
}

/// Adds a loop of so many turns, 3 clocks each.
fn add_block(text: &mut Vec<u8>, label: u16, turns: u8) -> Result<(), AllocError>
    ensures { OnOk result (text.new.items ≡ text.old.items ++ block label turns) }
{
    add_set(text, 31, turns)?;
    add_turn(text, label)
}

/// Adds blocks of 750 clocks, with the labels from 0 on.
fn add_whole_blocks(text: &mut Vec<u8>, count: u16) -> Result<(), AllocError>
    ensures { OnOk result (text.new.items ≡ text.old.items ++ whole_blocks count) }
{
    for label in 0..count {
        add_block(text, label, WHOLE_TURNS)?;
    }
    Ok(())
}

/// Adds a block, unless it has no turns.
fn add_last_block(text: &mut Vec<u8>, label: u16, turns: u8) -> Result<(), AllocError>
    ensures { OnOk result (text.new.items ≡ text.old.items ++ last_block label turns) }
{
    if turns == 0 {
        Ok(())
    } else {
        add_block(text, label, turns)
    }
}

/// Adds so many NOPs.
fn add_nops(text: &mut Vec<u8>, count: u16) -> Result<(), AllocError>
    ensures { OnOk result (text.new.items ≡ text.old.items ++ nops count) }
{
    for _ in 0..count {
        text.extend_from_slice(b"  nop\n")?;
    }
    Ok(())
}

/// Adds a wait of so many clocks.
pub(crate) fn add_wait(text: &mut Vec<u8>, clocks: u16) -> Result<(), AllocError>
    ensures { OnOk result (text.new.items ≡ text.old.items ++ wait clocks) }
{
    let rest = clocks % WHOLE;
    add_whole_blocks(text, clocks / WHOLE)?;
    add_last_block(text, clocks / WHOLE, (rest / 3) as u8)?;
    add_nops(text, rest % 3)
}
