//! What a line is, by the words at its front.

ghost use Rattle.std.specs.Prelude.{◌≡◌, slice_index};
ghost use Rattle.avr_text.specs.Characters.{begins_name as begins_name_byte};
ghost use Rattle.std.specs.Option.{option_copied};
ghost use Rattle.avr_macro.specs.Blocks.{same_word as same_word_of};
ghost use Rattle.avr_macro.specs.Directives.{after_dot as after_dot_in, after_first_word as after_first_word_in};
ghost use Rattle.avr_macro.specs.Directives.{closes_well as closes_well_line, directive_of as directive_of_line};
ghost use Rattle.avr_macro.specs.Directives.{dot_word as dot_word_of, ends_word as ends_word_at};
ghost use Rattle.avr_macro.specs.Directives.{first_word as first_word_of, macro_name as macro_name_of};
ghost use Rattle.avr_macro.specs.Directives.{macro_name_at as macro_name_in, named_word as named_word_of};
ghost use Rattle.avr_macro.specs.Directives.{operands_of as operands_of_line};

use crate::lines::{after_blanks, after_word, is_bare, word_of};
use avr_text::{begins_name, is_word_named};
use uz_hex::is_blank;

/// The directives of macros and blocks.
#[derive(Clone, Copy)]
pub(crate) enum Word {
    /// `.macro NAME`
    Macro,
    /// `.endm`
    EndMacro,
    /// `.rept E`
    Repeat,
    /// `.endr`
    EndRepeat,
    /// `.if E`
    If,
    /// `.else`
    Else,
    /// `.endif`
    EndIf,
    /// `.include NAME`
    Include,
    /// `.equ NAME = E`
    Constant,
    /// None of these.
    Other,
}

/// Whether two words are one.
pub(crate) fn same_word(a: Word, b: Word) -> bool
    ensures { result ≡ same_word_of a b }
{
    match (a, b) {
        (Word::Macro, Word::Macro) => true,
        (Word::EndMacro, Word::EndMacro) => true,
        (Word::Repeat, Word::Repeat) => true,
        (Word::EndRepeat, Word::EndRepeat) => true,
        (Word::If, Word::If) => true,
        (Word::Else, Word::Else) => true,
        (Word::EndIf, Word::EndIf) => true,
        (Word::Include, Word::Include) => true,
        (Word::Constant, Word::Constant) => true,
        (Word::Other, Word::Other) => true,
        _ => false,
    }
}

/// The directive that a word names, in either case.
pub(crate) fn named_word(word: &[u8]) -> Word
    ensures { result ≡ named_word_of word.now }
{
    if is_word_named(word, b"macro") {
        Word::Macro
    } else if is_word_named(word, b"endm") {
        Word::EndMacro
    } else if is_word_named(word, b"rept") {
        Word::Repeat
    } else if is_word_named(word, b"endr") {
        Word::EndRepeat
    } else if is_word_named(word, b"if") {
        Word::If
    } else if is_word_named(word, b"else") {
        Word::Else
    } else if is_word_named(word, b"endif") {
        Word::EndIf
    } else if is_word_named(word, b"include") {
        Word::Include
    } else if is_word_named(word, b"equ") {
        Word::Constant
    } else {
        Word::Other
    }
}

/// The directive at the front, which is `.` and its name.
fn dot_word(text: &[u8]) -> Word
    ensures { result ≡ dot_word_of text.now }
{
    match text {
        [first, rest @ ..] => {
            if *first == b'.' {
                named_word(word_of(after_blanks(rest)))
            } else {
                Word::Other
            }
        }
        [] => Word::Other,
    }
}

/// Which directive a line is.
#[tactic(auto, unfolding(crate::specs::Directives::directive_of))]
pub(crate) fn directive_of(line: &[u8]) -> Word
    ensures { result ≡ directive_of_line line.now }
{
    dot_word(after_blanks(line))
}

/// What comes after `.` and a name.
fn after_dot(text: &[u8]) -> &[u8]
    ensures { result.now ≡ after_dot_in text.now }
{
    match text {
        [_, rest @ ..] => after_word(after_blanks(rest)),
        [] => b"",
    }
}

/// What comes after a directive's name.
#[tactic(auto, unfolding(crate::specs::Directives::operands_of))]
pub(crate) fn operands_of(line: &[u8]) -> &[u8]
    ensures { result.now ≡ operands_of_line line.now }
{
    after_dot(after_blanks(line))
}

/// Whether a first word ends before this.
fn ends_word(text: &[u8]) -> bool
    ensures { result ≡ ends_word_at text.now }
{
    match text {
        [] => true,
        [byte, ..] => is_blank(*byte) || *byte == b';',
    }
}

/// The first word of a line, where a blank, a comment or the line's end comes after it.
pub(crate) fn first_word(line: &[u8]) -> Option<&[u8]>
    ensures { option_copied result ≡ first_word_of line.now }
{
    let text = after_blanks(line);
    if ends_word(after_word(text)) {
        Some(word_of(text))
    } else {
        None
    }
}

/// What comes after the first word.
pub(crate) fn after_first_word(line: &[u8]) -> &[u8]
    ensures { result.now ≡ after_first_word_in line.now }
{
    after_word(after_blanks(line))
}

/// Whether a name begins here.
fn begins_with_name(text: &[u8]) -> bool
    ensures { result ≡ begins_name_byte (slice_index text.now 0) }
{
    match text {
        [byte, ..] => begins_name(*byte),
        [] => false,
    }
}

fn macro_name_at(text: &[u8]) -> Option<&[u8]>
    ensures { option_copied result ≡ macro_name_in text.now }
{
    if begins_with_name(text) && is_bare(after_word(text)) {
        Some(word_of(text))
    } else {
        None
    }
}

/// The one name after `.macro`.
pub(crate) fn macro_name(operands: &[u8]) -> Option<&[u8]>
    ensures { option_copied result ≡ macro_name_of operands.now }
{
    macro_name_at(after_blanks(operands))
}

/// Whether a line that closes a block, or parts it, has no further words.
#[tactic(auto, unfolding(crate::specs::Directives::closes_well))]
pub(crate) fn closes_well(line: &[u8]) -> bool
    ensures { result ≡ closes_well_line line.now }
{
    is_bare(operands_of(line))
}
