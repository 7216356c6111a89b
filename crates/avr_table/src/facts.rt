// What a row says of its instruction.

ghost use Rattle.std.specs.Prelude.{◌≡◌, ◌<◌, [], codes, get_or, length, map};
ghost use Rattle.avr_table.specs.RowFacts.{row_facts};
ghost use Rattle.avr_table.specs.Rows.{clocks_of, name_of, words_of};

use crate::{Instr, Outcome, rows};

macro_rules! facts_match {
    (($i:expr, $($place:literal)*) $($variant:ident { $($field:ident $bits:literal),* } $key:ident $name:literal
      [$($operand:ident($($part:tt),*)),*],
      words $words:literal, clocks ($next:literal, $taken:literal, $one:literal, $two:literal),
      fixed $mask:literal is $value:literal;)*) => {
        match $i {
            $(Instr::$variant { .. } => RowFacts {
                place: $place,
                words: $words,
                next: $next,
                taken: $taken,
                skip_one: $one,
                skip_two: $two,
            },)*
        }
    };
}

macro_rules! names_in_order {
    (() $($variant:ident { $($field:ident $bits:literal),* } $key:ident $name:literal [$($operand:ident($($part:tt),*)),*],
      words $words:literal, clocks ($next:literal, $taken:literal, $one:literal, $two:literal),
      fixed $mask:literal is $value:literal;)*) => {
        [$($name),*]
    };
}

/// The numbers of a row: its place in the table, its words, and its clocks by outcome.
#[derive(Clone, Copy)]
struct RowFacts {
    place: u8,
    words: u8,
    next: u8,
    taken: u8,
    skip_one: u8,
    skip_two: u8,
}

/// The mnemonics of the rows, by their places.
static NAMES: [&str; 84] = rows!(names_in_order());

/// The numbers of an instruction's row: of numbers alone, so that each of them is a table and no jump.
#[inline(always)]
fn row_facts(i: &Instr) -> RowFacts
    ensures { result ≡ row_facts i.now }
{
    rows!(facts_match(
        i,
        0 1 2 3 4 5 6 7 8 9 10 11 12 13 14 15 16 17 18 19 20 21 22 23 24 25 26 27 28 29 30 31 32 33 34 35 36
        37 38 39 40 41 42 43 44 45 46 47 48 49 50 51 52 53 54 55 56 57 58 59 60 61 62 63 64 65 66 67 68 69
        70 71 72 73 74 75 76 77 78 79 80 81 82 83
    ))
}

/// How many words an instruction has: 1, or 2 for LDS, STS, JMP and CALL.
#[inline(always)]
pub fn words(i: &Instr) -> u8
    ensures { result ≡ words_of i.now }
{
    row_facts(i).words
}

/// The clocks of an instruction that had this outcome.
///
/// An outcome that the row can't have counts as `Next`. SPM has no clocks here, since it isn't run: 0.
#[inline(always)]
pub fn clocks(i: &Instr, outcome: Outcome) -> u8
    ensures { result ≡ clocks_of i.now outcome }
{
    let facts = row_facts(i);
    match outcome {
        Outcome::Next => facts.next,
        Outcome::Taken => facts.taken,
        Outcome::SkipOne => facts.skip_one,
        Outcome::SkipTwo => facts.skip_two,
    }
}

/// The name at a place of some names.
fn name_at<'a>(names: &[&'a str], place: u8) -> &'a str
    requires { place < length names.now }
    ensures { result.now ≡ get_or (map (λ name. name.now) names.now) place [] }
{
    names[place as usize]
}

/// The mnemonic, in upper case, as `ADD`.
pub fn name(i: &Instr) -> &'static str
    ensures { result.now ≡ codes (name_of i.now) }
{
    name_at(&NAMES, row_facts(i).place)
}
