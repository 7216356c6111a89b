// Instructions to words: the row's fixed bits, with each field's bits put into their places.

ghost use Rattle.std.specs.Prelude.{◌≡◌, ◌<◌, ◌^◌, ℕ, bit_and};
ghost use Rattle.avr_decode.specs.Gathered.{gathered, ones_below};
ghost use Rattle.avr_table.specs.Rows.{Reads, ReadsAt, words_of};

use avr_table::{Instr, rows, words};

/// The words of an instruction.
#[derive(Clone, Copy)]
pub struct Code {
    /// The first word.
    pub first: u16,
    /// The second word, and 0 for an instruction of one word.
    pub second: u16,
    /// How many words the instruction has, 1 or 2.
    pub words: u8,
}

/// The words of an instruction. Source: AVR Instruction Set Manual.
pub fn encode(i: &Instr) -> Code
    ensures reads { Reads result.first result.second i.now }
    ensures words { result.words ≡ words_of i.now }
    ensures second { words_of i.now ≡ 1 → result.second ≡ 0 }

    // Of any two words that are read as the instruction, the first is this one, and the second where it has two.
    ensures same_first { (first second : ℕ) → first < 2 ^ 16 → second < 2 ^ 16 → Reads first second i.now → result.first ≡ first }
    ensures same_second { (first second : ℕ) → first < 2 ^ 16 → second < 2 ^ 16 → Reads first second i.now → words_of i.now ≡ 2
        → result.second ≡ second }
{
    let number = both_words(i);
    Code {
        first: (number / 0x1_0000) as u16,
        second: (number % 0x1_0000) as u16,
        words: words(i),
    }
}

/// A row's fixed bits, with each field's bits put into their places.
macro_rules! row_number {
    ($fixed:literal) => {
        $fixed
    };
    ($fixed:literal, $a_bits:literal $a:ident) => {
        scatter($fixed, $a_bits, $a.value)
    };
    ($fixed:literal, $a_bits:literal $a:ident, $b_bits:literal $b:ident) => {
        scatter_two($fixed, $a_bits, $a.value, $b_bits, $b.value)
    };
    ($fixed:literal, $a_bits:literal $a:ident, $b_bits:literal $b:ident, $c_bits:literal $c:ident) => {
        scatter(scatter_two($fixed, $a_bits, $a.value, $b_bits, $b.value), $c_bits, $c.value)
    };
}

macro_rules! both_words_match {
    (($i:expr) $($variant:ident { $($field:ident $bits:literal),* } $key:ident $name:literal [$($operand:ident($($part:tt),*)),*],
      words $words:literal, clocks ($next:literal, $taken:literal, $one:literal, $two:literal),
      fixed $mask:literal is $value:literal;)*) => {
        match $i {
            $(Instr::$variant { $($field),* } => row_number!($value $(, $bits $field)*),)*
        }
    };
}

/// The words of an instruction as one number, the first word in its upper half.
#[tactic(auto, unfolding(crate::specs::Gathered::ones_below))]
fn both_words(i: &Instr) -> u32
    ensures reads { ReadsAt result i.now }
    ensures second { words_of i.now ≡ 1 → bit_and result 0xFFFF ≡ 0 }
{
    let i = *i;
    rows!(both_words_match(i))
}

/// The number with the bits of `x` and `y` in the places of their masks, lowest first, and `base` in all others.
fn scatter_two(base: u32, x_mask: u32, x: u16, y_mask: u32, y: u16) -> u32
    requires apart { (bit_and base x_mask ≡ 0) × (bit_and base y_mask ≡ 0) × (bit_and x_mask y_mask ≡ 0) }
    requires fit { (x < 2 ^ ones_below 32 x_mask) × (y < 2 ^ ones_below 32 y_mask) }
    ensures x_own { gathered 32 x_mask result ≡ x }
    ensures y_own { gathered 32 y_mask result ≡ y }
    ensures others { (m : ℕ) → bit_and m x_mask ≡ 0 → bit_and m y_mask ≡ 0 → bit_and result m ≡ bit_and base m }
{
    let number = scatter(base, x_mask, x);
    scatter(number, y_mask, y)
}

/// The number with the bits of `x` in the places of the mask, lowest first, and `base` in all others.
fn scatter(base: u32, mask: u32, x: u16) -> u32
    requires free { bit_and base mask ≡ 0 }
    requires fits { x < 2 ^ ones_below 32 mask }
    ensures own { gathered 32 mask result ≡ x }
    ensures others { (m : ℕ) → bit_and m mask ≡ 0 → bit_and result m ≡ bit_and base m }
{
    let mut number = base;
    let mut rest = x;
    for i in 0..32u32 {
        if mask >> i & 1 == 1 {
            number |= (rest as u32 % 2) << i;
            rest /= 2;
        }
    }
    number
}
