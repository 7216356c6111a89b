//! What a source text is cut into.

use std::alloc::{AllocError, AllocFailed};

/// What a token is.
#[derive(Clone, Copy)]
pub enum TokenKind {
    /// Letters, digits and `_`, not beginning with a digit. Case counts.
    Name,
    /// A decimal, `0x` hexadecimal or `0b` binary number, from 0 to 2^63 - 1.
    Number(i64),
    /// One of the bytes `:` `,` `=` `.` `+` `-` `*` `/` `%` `(` `)` `|` `^` `&` `~`.
    Mark(u8),
    /// `<<`
    ShiftLeft,
    /// `>>`
    ShiftRight,
    /// The LF at a line's end, which a last line may lack.
    LineEnd,
}

/// A token, with its line and its place in the text.
#[derive(Clone, Copy)]
pub struct Token {
    /// What it is.
    pub kind: TokenKind,
    /// The line that it stands in, counted from 1.
    pub line: u32,
    /// Where it begins: its text is the slice of the source from here to before `to`.
    pub from: u32,
    /// The byte after its last one.
    pub to: u32,
}

/// Why a text can't be cut into tokens.
#[derive(Clone, Copy, Debug)]
pub enum LexWhy {
    /// No token begins at the byte.
    Byte,
    /// A digit begins a word that is no number, or one above 2^63 - 1.
    Number,
    /// There was no memory. Unlike the others, it may come for any text.
    Memory,
}

/// The first fault of a text.
#[derive(Clone, Copy, Debug)]
pub struct LexError {
    /// The line of the fault, counted from 1; 0 for want of memory.
    pub line: u32,
    /// What is wrong.
    pub why: LexWhy,
}

impl From<AllocError> for LexError {
    ghost use Rattle.std.specs.Prelude.{◌≡◌};
    ghost use Rattle.avr_text.specs.declared.tokens.LexWhy.TheVariants.{Memory};

    ghost from_gives = { λ _ e. (e.why ≡ Memory) × (e.line ≡ 0) };

    fn from(_e: AllocError) -> LexError {
        LexError {
            line: 0,
            why: LexWhy::Memory,
        }
    }
}

impl<T: Drop> From<AllocFailed<T>> for LexError {
    ghost use Rattle.std.specs.Prelude.{◌≡◌};
    ghost use Rattle.avr_text.specs.declared.tokens.LexWhy.TheVariants.{Memory};

    ghost from_gives = { λ _ e. (e.why ≡ Memory) × (e.line ≡ 0) };

    fn from(_e: AllocFailed<T>) -> LexError {
        LexError {
            line: 0,
            why: LexWhy::Memory,
        }
    }
}
