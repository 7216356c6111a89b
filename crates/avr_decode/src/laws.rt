// Reading and writing words undo each other, and words are read in one way.

ghost use Rattle.std.specs.Prelude.{◌≡◌, ℕ, Some};
ghost use Rattle.avr_table.specs.Rows.{Reads};
ghost use Rattle.avr_table.specs.declared.Instr.{Instr};

use crate::{decode, encode};
use avr_table::Instr;

/// What is read at the words of an instruction: the instruction itself.
pub fn decode_encoded(i: &Instr) -> Option<Instr>
    ensures { result ≡ Some i.now }
{
    let code = encode(i);
    decode(code.first, code.second)
}

/// The law that of any two words at most one instruction is read. Does nothing.
pub fn at_most_one()
    ensures { (first second : ℕ) (i j : Instr) → Reads first second i → Reads first second j → i ≡ j }
{}
