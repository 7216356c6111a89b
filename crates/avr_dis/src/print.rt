// An instruction as text.

ghost use Rattle.std.specs.Prelude.{◌≡◌, ◌++◌, ◌*◌, ◌-◌, if◌then◌else◌, IfOk, OnOk, codes, decimal, nat_lt};
ghost use Rattle.std.specs.String.{string_bytes};
ghost use Rattle.avr_dis.specs.Operands.{operand_text, pointer_text};
ghost use Rattle.avr_dis.specs.Text.{text_of};

use crate::operands::{Operand, Operands, PointerForm, row_operands};
use avr_table::{Instr, name};
use itoa::Buffer;
use std::alloc::{AllocError, Global};

/// The text of an instruction: the row's mnemonic in lower case, and its operands.
///
/// Numbers are decimal. A relative target is `.+n` or `.-n`, in bytes from the following instruction, so
/// the text doesn't depend on `pc`, the instruction's word address; JMP and CALL have the byte address of
/// their target. Other names of a row, as `lsl`, aren't used. The one error is want of memory.
pub fn print_one(alloc: Global, _pc: u16, i: &Instr) -> Result<String, AllocError>
    ensures { IfOk result (λ text. string_bytes text ≡ text_of i.now) }
{
    let mut text = name(i).to_ascii_lowercase(alloc)?;
    match row_operands(i) {
        Operands::Nothing => {}
        Operands::One(a) => {
            text.push_str(" ")?;
            write_operand(&mut text, a)?;
        }
        Operands::Two(a, b) => {
            text.push_str(" ")?;
            write_operand(&mut text, a)?;
            text.push_str(",")?;
            write_operand(&mut text, b)?;
        }
    }
    Ok(text)
}

/// Adds an operand's text.
fn write_operand(text: &mut String, operand: Operand) -> Result<(), AllocError>
    ensures { OnOk result (string_bytes text.new ≡ string_bytes text.old ++ operand_text operand) }
{
    match operand {
        Operand::Register(d) => write_number(text, "r", d as u32),
        Operand::UpperRegister(d) => write_number(text, "r", 16 + d as u32),
        Operand::Pair(d) => write_number(text, "r", 2 * d as u32),
        Operand::UpperPair(d) => write_number(text, "r", 24 + 2 * d as u32),
        Operand::Number(k) => write_number(text, "", k as u32),
        Operand::Pointer(pointer) => text.push_str(pointer_text(pointer)),
        Operand::Displaced(y, q) => write_number(text, if y == 1 { "Y+" } else { "Z+" }, q as u32),
        Operand::Relative7(k) => write_relative(text, 64, k),
        Operand::Relative12(k) => write_relative(text, 2048, k),
        Operand::Absolute(k) => write_number(text, "", 2 * k as u32),
    }
}

/// The text of a pointer register, with its step.
fn pointer_text(pointer: PointerForm) -> &'static str
    ensures { result.now ≡ pointer_text pointer }
{
    match pointer {
        PointerForm::X => "X",
        PointerForm::XInc => "X+",
        PointerForm::XDec => "-X",
        PointerForm::YInc => "Y+",
        PointerForm::YDec => "-Y",
        PointerForm::Z => "Z",
        PointerForm::ZInc => "Z+",
        PointerForm::ZDec => "-Z",
    }
}

/// Adds a number of words in two's complement, negative from `half` on, as a number of bytes.
fn write_relative(text: &mut String, half: u16, k: u16) -> Result<(), AllocError>
    ensures { OnOk result (string_bytes text.new ≡ string_bytes text.old
        ++ (if nat_lt k half then codes ".+" ++ decimal (2 * k) else codes ".-" ++ decimal (2 * (2 * half - k)))) }
{
    if k < half {
        write_number(text, ".+", 2 * k as u32)
    } else {
        write_number(text, ".-", 2 * (2 * half as u32).saturating_sub(k as u32))
    }
}

/// Adds a prefix and a decimal number.
fn write_number(text: &mut String, prefix: &str, number: u32) -> Result<(), AllocError>
    ensures { OnOk result (string_bytes text.new ≡ string_bytes text.old ++ prefix.now ++ decimal number) }
{
    text.push_str(prefix)?;
    text.push_str(Buffer::new().format(number))
}
