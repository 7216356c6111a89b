// The operands of an instruction, as its row writes them.

ghost use Rattle.std.specs.Prelude.{◌≡◌};
ghost use Rattle.avr_dis.specs.Operands.{operand_texts};
ghost use Rattle.avr_dis.specs.Text.{operands_of};

use avr_table::{Instr, rows};

/// A pointer register, with its step.
#[derive(Clone, Copy)]
pub(crate) enum PointerForm {
    X,
    XInc,
    XDec,
    YInc,
    YDec,
    Z,
    ZInc,
    ZDec,
}

/// An operand, by its written form, with what its fields hold.
#[derive(Clone, Copy)]
pub(crate) enum Operand {
    /// A register.
    Register(u16),
    /// A register, counted from 16.
    UpperRegister(u16),
    /// A pair of registers, in pairs.
    Pair(u16),
    /// A pair of registers, in pairs from 24.
    UpperPair(u16),
    /// A number without a sign.
    Number(u16),
    /// A pointer register, with its step.
    Pointer(PointerForm),
    /// A displacement, from Y where the first is 1, and else from Z.
    Displaced(u16, u16),
    /// A signed number of words in 7 bits, from the following instruction.
    Relative7(u16),
    /// A signed number of words in 12 bits, from the following instruction.
    Relative12(u16),
    /// A word address.
    Absolute(u16),
}

/// The operands of an instruction, in order.
#[derive(Clone, Copy)]
pub(crate) enum Operands {
    Nothing,
    One(Operand),
    Two(Operand, Operand),
}

/// The pointer of a text.
macro_rules! row_pointer {
    ("X") => {
        PointerForm::X
    };
    ("X+") => {
        PointerForm::XInc
    };
    ("-X") => {
        PointerForm::XDec
    };
    ("Y+") => {
        PointerForm::YInc
    };
    ("-Y") => {
        PointerForm::YDec
    };
    ("Z") => {
        PointerForm::Z
    };
    ("Z+") => {
        PointerForm::ZInc
    };
    ("-Z") => {
        PointerForm::ZDec
    };
}

/// An operand, as a row writes it.
macro_rules! row_operand {
    (register($d:ident)) => {
        Operand::Register($d.value)
    };
    (upper_register($d:ident)) => {
        Operand::UpperRegister($d.value)
    };
    (pair($d:ident)) => {
        Operand::Pair($d.value)
    };
    (upper_pair($d:ident)) => {
        Operand::UpperPair($d.value)
    };
    (number($k:ident)) => {
        Operand::Number($k.value)
    };
    (pointer($text:tt)) => {
        Operand::Pointer(row_pointer!($text))
    };
    (displaced($y:ident, $q:ident)) => {
        Operand::Displaced($y.value, $q.value)
    };
    (relative_7($k:ident)) => {
        Operand::Relative7($k.value)
    };
    (relative_12($k:ident)) => {
        Operand::Relative12($k.value)
    };
    (absolute($k:ident)) => {
        Operand::Absolute($k.value)
    };
}

macro_rules! in_order {
    () => {
        Operands::Nothing
    };
    ($a:expr) => {
        Operands::One($a)
    };
    ($a:expr, $b:expr) => {
        Operands::Two($a, $b)
    };
}

macro_rules! operands_match {
    (($i:expr) $($variant:ident { $($field:ident $bits:literal),* } $key:ident $name:literal [$($operand:ident($($part:tt),*)),*],
      words $words:literal, clocks ($next:literal, $taken:literal, $one:literal, $two:literal),
      fixed $mask:literal is $value:literal;)*) => {
        match $i {
            $(Instr::$variant { $($field),* } => in_order!($(row_operand!($operand($($part),*))),*),)*
        }
    };
}

/// The operands of an instruction.
pub(crate) fn row_operands(i: &Instr) -> Operands
    ensures { operand_texts result ≡ operands_of i.now }
{
    rows!(operands_match(*i))
}
