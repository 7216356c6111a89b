//! The law of an instruction's words.

ghost use Rattle.std.specs.Prelude.{◌≡◌, Ok};
ghost use Rattle.avr_table.specs.declared.Instr.{Instr};
ghost use Rattle.avr_table.specs.Rows.{words_of as row_words};
ghost use Rattle.avr_text.specs.declared.mnemonics.Mnemonic.{Mnemonic};
ghost use Rattle.avr_text.specs.Instructions.{instruction_of};
ghost use Rattle.avr_text.specs.Mnemonics.{words_of};
ghost use Rattle.avr_text.specs.Operands.{Operands};

/// The law that the instruction which a name has with some operands is of as many words as the name says, whatever the
/// operands are. Does nothing.
pub fn name_gives_word_count()
    ensures { (name : Mnemonic) (operands : Operands) (instr : Instr) → instruction_of name operands ≡ Ok instr
        → row_words instr ≡ words_of name }
{}
