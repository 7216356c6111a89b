//! A line of a call, read byte by byte without being made.

ghost use Rattle.std.specs.Prelude.{◌≡◌, ◌<◌, ◌++◌, ◌∷◌, [], IfNone, IfOk, decimal, false, length, ℕ};
ghost use Rattle.avr_macro.specs.Arguments.{replaced as replaced_line, replaced_from};
ghost use Rattle.avr_macro.specs.Directives.{closes_well as closes_well_line, directive_of as directive_of_line};
ghost use Rattle.avr_macro.specs.Directives.{after_dot as after_dot_in, dot_word as dot_word_of};
ghost use Rattle.avr_macro.specs.Directives.{named_word as named_word_of};
ghost use Rattle.avr_macro.specs.Lines.{after_blanks as after_blanks_in, after_word as after_word_in};
ghost use Rattle.avr_macro.specs.Lines.{is_bare as is_bare_text, word_of as word_of_text};
ghost use Rattle.avr_macro.specs.Readers.{Reads, from_next, letter as letter_of_name};

use crate::arguments::{Substitution, argument};
use crate::at_signs::is_steady;
use crate::directives::{Word, directive_of, named_word};
use crate::kept_lines::Lines;
use avr_text::{is_digit, is_word};
use itoa::Buffer;
use std::alloc::{AllocError, Global};
use std::marker::Model;
use uz_hex::is_blank;

/// A number of letters that no directive's name has.
const LONG_NAME: usize = 8;

/// What stands for the `@` at a line's front and the byte after it, and what comes after them.
fn named_piece<'a>(
    arguments: &'a Lines,
    number: &'a [u8],
    line: &'a [u8],
    rest: &'a [u8],
) -> (&'a [u8], &'a [u8])
    requires { line.now ≡ 64 ∷ rest.now }
    ensures put { (call : ℕ) → number.now ≡ decimal call → replaced_from arguments.now call false line.now
        ≡ result.0.now ++ replaced_from arguments.now call false result.1.now }
    ensures shorter { length result.1.now < length line.now }
{
    match rest {
        [byte, tail @ ..] => {
            if *byte == b'@' {
                (number, tail)
            } else if is_digit(*byte) {
                (argument(arguments, usize::from(*byte - b'0')), tail)
            } else {
                line.split_at(2)
            }
        }
        [] => line.split_at(1),
    }
}

/// What stands for the front of a line, and what comes after it.
fn piece<'a>(arguments: &'a Lines, number: &'a [u8], line: &'a [u8]) -> (&'a [u8], &'a [u8])
    requires { 0 < length line.now }
    ensures put { (call : ℕ) → number.now ≡ decimal call → replaced_from arguments.now call false line.now
        ≡ result.0.now ++ replaced_from arguments.now call false result.1.now }
    ensures shorter { length result.1.now < length line.now }
{
    match line {
        [first, rest @ ..] => {
            if *first == b'@' {
                named_piece(arguments, number, line, rest)
            } else {
                line.split_at(1)
            }
        }
        [] => (line, line),
    }
}

/// The same of a line of which some is put already, so that some is put unless nothing is left.
fn some_piece<'a>(
    arguments: &'a Lines,
    number: &'a [u8],
    put: &'a [u8],
    line: &'a [u8],
) -> (&'a [u8], &'a [u8])
    ensures put { (call : ℕ) → number.now ≡ decimal call → put.now ++ replaced_from arguments.now call false line.now
        ≡ result.0.now ++ replaced_from arguments.now call false result.1.now }
    ensures some { result.0.now ≡ [] → result.1.now ≡ [] }
{
    let mut front = put;
    let mut rest = line;
    while front.len() == 0 && rest.len() > 0 {
        let (more, left) = piece(arguments, number, rest);
        front = more;
        rest = left;
    }
    (front, rest)
}

/// A line of a call, as far as it isn't read yet.
///
/// A clause sees the bytes that are left.
#[derive(Drop)]
struct Reader<'a> {
    arguments: &'a Lines,
    /// The number of the call, and its text.
    call: u32,
    number: &'a [u8],
    /// What is to be read before what the rest of the line puts.
    put: &'a [u8],
    line: &'a [u8],
}

impl<'a> Model for Reader<'a> {
    ghost use Rattle.std.specs.Prelude.{◌≡◌, ◌++◌, List, ℕ, decimal, false};
    ghost use Rattle.avr_macro.specs.Arguments.{replaced_from};

    ghost Value = { List ℕ };

    ghost view = { λ r. r.put.now ++ replaced_from r.arguments.now r.call false r.line.now };

    ghost invariant = { λ r. r.number.now ≡ decimal r.call };
}

impl<'a> Reader<'a> {
    /// A line of a call, as a whole.
    fn new(substitution: &'a Substitution, number: &'a [u8], line: &'a [u8]) -> Reader<'a>
        requires { number.now ≡ decimal substitution.now.call }
        ensures { result ≡ replaced_line substitution.now.arguments substitution.now.call line.now }
    {
        Reader {
            arguments: &substitution.arguments,
            call: substitution.call,
            number,
            put: b"",
            line,
        }
    }

    /// The next byte.
    fn next(&mut self) -> Option<u8>
        ensures { Reads result self.old self.new }
    {
        let (put, line) = some_piece(self.arguments, self.number, self.put, self.line);
        self.line = line;
        match put {
            [byte, rest @ ..] => {
                self.put = rest;
                Some(*byte)
            }
            [] => {
                self.put = put;
                None
            }
        }
    }

    /// The first byte that is no blank, by the next one.
    fn past_blanks(&mut self, next: Option<u8>) -> Option<u8>
        requires { IfNone next (self.old ≡ []) }
        ensures { Reads result (after_blanks_in (from_next next self.old)) self.new }
    {
        let mut ahead = next;
        while let Some(byte) = ahead
            && is_blank(byte)
        {
            ahead = self.next();
        }
        ahead
    }

    /// The first byte that is of no word, by the next one.
    fn past_word(&mut self, next: Option<u8>) -> Option<u8>
        requires { IfNone next (self.old ≡ []) }
        ensures { Reads result (after_word_in (from_next next self.old)) self.new }
    {
        let mut ahead = next;
        while let Some(byte) = ahead
            && is_word(byte)
        {
            ahead = self.next();
        }
        ahead
    }

    /// The first letters of the word at the front, by the next byte: all where no directive's name has more.
    fn name(&mut self, alloc: Global, next: Option<u8>) -> Result<Vec<u8>, AllocError>
        requires { IfNone next (self.old ≡ []) }
        ensures { IfOk result (λ name. named_word_of name.items ≡ named_word_of (word_of_text (from_next next self.old))) }
    {
        let mut ahead = next;
        let mut name = Vec::new(alloc);
        while let Some(byte) = letter(name.as_slice().len(), ahead) {
            name.push(byte)?;
            ahead = self.next();
        }
        Ok(name)
    }

    /// The directive that a line is.
    fn directive(&mut self, alloc: Global) -> Result<Word, AllocError>
        ensures { IfOk result (λ word. word ≡ dot_word_of (after_blanks_in self.old)) }
    {
        let next = self.next();
        match self.past_blanks(next) {
            Some(byte) => {
                if byte != b'.' {
                    return Ok(Word::Other);
                }
                let next = self.next();
                let next = self.past_blanks(next);
                let name = self.name(alloc, next)?;
                Ok(named_word(name.as_slice()))
            }
            None => Ok(Word::Other),
        }
    }

    /// Whether there is nothing but blanks and a comment, by the next byte.
    fn is_bare(&mut self, next: Option<u8>) -> bool
        requires { IfNone next (self.old ≡ []) }
        ensures { result ≡ is_bare_text (from_next next self.old) }
    {
        match self.past_blanks(next) {
            Some(byte) => byte == b';',
            None => true,
        }
    }

    /// Whether a line that closes a block, or parts it, has no further words.
    fn closes_well(&mut self) -> bool
        ensures { result ≡ is_bare_text (after_dot_in (after_blanks_in self.old)) }
    {
        let next = self.next();
        match self.past_blanks(next) {
            Some(_) => {
                let next = self.next();
                let next = self.past_blanks(next);
                let next = self.past_word(next);
                self.is_bare(next)
            }
            None => true,
        }
    }
}

/// The next letter of a name of so many, where the name goes on.
fn letter(count: usize, next: Option<u8>) -> Option<u8>
    ensures { result ≡ letter_of_name count next }
{
    match next {
        Some(byte) if is_word(byte) && count < LONG_NAME => Some(byte),
        _ => None,
    }
}

/// Which directive a line of a call is. The line isn't made.
#[tactic(auto, using(crate::proofs::Steady::directive_stays), unfolding(crate::specs::Directives::directive_of))]
pub(crate) fn directive_in_call(
    alloc: Global,
    substitution: &Substitution,
    line: &[u8],
) -> Result<Word, AllocError>
    ensures { IfOk result (λ word. word
        ≡ directive_of_line (replaced_line substitution.now.arguments substitution.now.call line.now)) }
{
    if is_steady(line) {
        return Ok(directive_of(line));
    }
    let mut buffer = Buffer::new();
    let number = buffer.format(substitution.call).as_bytes();
    let mut reader = Reader::new(substitution, number, line);
    reader.directive(alloc)
}

/// Whether a line of a call that closes a block, or parts it, has no further words. The line isn't made.
#[tactic(auto, unfolding(crate::specs::Directives::closes_well, crate::specs::Directives::operands_of))]
pub(crate) fn closes_well_in_call(substitution: &Substitution, line: &[u8]) -> bool
    ensures { result ≡ closes_well_line (replaced_line substitution.now.arguments substitution.now.call line.now) }
{
    let mut buffer = Buffer::new();
    let number = buffer.format(substitution.call).as_bytes();
    let mut reader = Reader::new(substitution, number, line);
    reader.closes_well()
}
