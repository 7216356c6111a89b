//! What the words at a program counter are read as.

ghost use Rattle.std.specs.Prelude.{◌≡◌, Option};
ghost use Rattle.avr_table.specs.declared.Instr.{Instr};
ghost use Rattle.uz_transfer.specs.Step.{IsReadAt};

use avr_decode::decode;
use avr_table::Instr;
use uz_hex::Image;
use uz_transfer::word_after;

/// The instruction that is read at a program counter, and None where none is.
#[tactic(auto, using(crate::proofs::ReadingLemmas::same_answer))]
pub(crate) fn row_at(image: &Image, pc: u16) -> Option<Instr>
    ensures reads { IsReadAt image.now pc result }
    ensures same { (row : Option Instr) → IsReadAt image.now pc row → result ≡ row }
{
    decode(image.word(pc % 32768), image.word(word_after(pc, 1)))
}
