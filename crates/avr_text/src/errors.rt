//! Why a line is refused.

ghost use Rattle.std.specs.Prelude.{◌≡◌};
ghost use Rattle.avr_text.specs.Faults.{number_of, least as least_of, why_of};
ghost use Rattle.avr_text.specs.WhyNames.{asm_why_name};

use crate::ValueWhy;
use std::alloc::{AllocError, AllocFailed};

/// Why a line is refused.
///
/// A first pass over the lines finds Lex, Mnemonic, Twice, Past and Directive, and every fault of `.org` and `.equ`.
/// A second pass finds the rest. Of all faults one of the first pass goes before those of the second; in a pass
/// the least line is named, and in a line the fault that stands first here.
#[derive(Clone, Copy, Debug)]
pub enum AsmWhy {
    /// The line can't be cut into tokens.
    Lex,
    /// The line begins with no name of an instruction and no directive.
    Mnemonic,
    /// The operands' number or form isn't the instruction's, or an expression has no form.
    Operand,
    /// A value or register doesn't fit, a target or a `.start` address is odd, a step overflows, or a divisor is 0.
    Range,
    /// A name has no value, or in `.org` and `.equ` none from an earlier line.
    Symbol,
    /// A label or `.equ` name is defined already, is predefined, or names a register or pointer.
    Twice,
    /// A byte falls where an earlier line placed one.
    Overlap,
    /// A byte falls at 65,536 or beyond.
    Past,
    /// The directive is unknown, has the wrong operands, is a `.fact` that no instruction follows, or an
    /// instruction stands at an odd address.
    Directive,
    /// There was no memory. Unlike the others, it may come for any source.
    Memory,
}

impl AsmWhy {
    /// The name, as it is printed.
    pub fn name(self) -> &'static str
        ensures { result.now ≡ asm_why_name self }
    {
        match self {
            AsmWhy::Lex => "Lex",
            AsmWhy::Mnemonic => "Mnemonic",
            AsmWhy::Operand => "Operand",
            AsmWhy::Range => "Range",
            AsmWhy::Symbol => "Symbol",
            AsmWhy::Twice => "Twice",
            AsmWhy::Overlap => "Overlap",
            AsmWhy::Past => "Past",
            AsmWhy::Directive => "Directive",
            AsmWhy::Memory => "Memory",
        }
    }

    /// The place of the fault in the order above, counted from 1.
    pub fn number(self) -> u8
        ensures { result ≡ number_of self }
    {
        match self {
            AsmWhy::Lex => 1,
            AsmWhy::Mnemonic => 2,
            AsmWhy::Operand => 3,
            AsmWhy::Range => 4,
            AsmWhy::Symbol => 5,
            AsmWhy::Twice => 6,
            AsmWhy::Overlap => 7,
            AsmWhy::Past => 8,
            AsmWhy::Directive => 9,
            AsmWhy::Memory => 10,
        }
    }

    /// The one that goes first of two faults of a line.
    pub fn least(self, other: AsmWhy) -> AsmWhy
        ensures { result ≡ least_of self other }
    {
        if other.number() < self.number() {
            other
        } else {
            self
        }
    }
}

/// The fault of a line whose expression has no value.
pub fn why_without_value(why: ValueWhy) -> AsmWhy
    ensures { result ≡ why_of why }
{
    match why {
        ValueWhy::Form => AsmWhy::Operand,
        ValueWhy::Unknown => AsmWhy::Symbol,
        ValueWhy::Overflow | ValueWhy::ZeroDivisor => AsmWhy::Range,
    }
}

impl From<AllocError> for AsmWhy {
    ghost use Rattle.std.specs.Prelude.{◌≡◌};
    ghost use Rattle.avr_text.specs.declared.errors.AsmWhy.TheVariants.{Memory};

    ghost from_gives = { λ _ e. e ≡ Memory };

    fn from(_e: AllocError) -> AsmWhy {
        AsmWhy::Memory
    }
}

impl<T: Drop> From<AllocFailed<T>> for AsmWhy {
    ghost use Rattle.std.specs.Prelude.{◌≡◌};
    ghost use Rattle.avr_text.specs.declared.errors.AsmWhy.TheVariants.{Memory};

    ghost from_gives = { λ _ e. e ≡ Memory };

    fn from(_e: AllocFailed<T>) -> AsmWhy {
        AsmWhy::Memory
    }
}
