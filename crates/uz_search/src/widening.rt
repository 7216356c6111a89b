//! Widening: facts of registers and pointers, and what they make of an instance where the search comes by.

ghost use Rattle.std.specs.Prelude.{◌≡◌};
ghost use Rattle.uz_search.specs.Widened.{widened as widened_at};

use crate::loosened::loosen;
use crate::program::Program;
use uz_schedule::{Instance, Span, Wide};

/// A fact of a register or a pointer at a program counter. A place whose range lies in the fact's range has that range from
/// there on.
#[derive(Clone, Copy)]
pub enum Widening {
    /// Of a register, 0 to 31.
    Register { register: u8, range: Span },
    /// Of X, Y or Z, 0 to 2.
    Pair { pair: u8, range: Wide },
}

/// Loosens an instance, and widens it by the facts of its program counter.
pub(crate) fn widen(program: &Program, at: &mut Instance)
    ensures { at.new ≡ widened_at program.now at.old }
{
    loosen(at);
    if let Some(facts) = program.facts.get(&at.pc) {
        facts.widen(at);
    }
}
