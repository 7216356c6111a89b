// How many words an instruction has, by its first word.

ghost use Rattle.std.specs.Prelude.{◌≡◌, ◌<◌, ◌^◌, ℕ};
ghost use Rattle.avr_table.specs.Length.{length_of};
ghost use Rattle.avr_table.specs.Rows.{Reads, words_of};
ghost use Rattle.avr_table.specs.declared.Instr.{Instr};

/// How many words begin here: 2 exactly for the first words of LDS, STS, JMP and CALL, else 1.
///
/// The bits of k in a first word may be any, and the second word isn't looked at. So a JMP whose target is
/// no word of the flash counts two words here, though `decode` reads none.
pub fn length(first: u16) -> u8
    ensures value { result ≡ length_of first }
    ensures words { (second : ℕ) (i : Instr) → second < 2 ^ 16 → Reads first second i → result ≡ words_of i }
{
    match first & 0xFE0F {
        0x9000 => 2,
        0x9200 => 2,
        _ => match first & 0xFE0E {
            0x940C => 2,
            0x940E => 2,
            _ => 1,
        },
    }
}
