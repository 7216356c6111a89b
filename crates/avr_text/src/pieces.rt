//! The piece at the front of a text.

ghost use Rattle.std.specs.Prelude.{◌≡◌, ◌<◌, ◌≤◌, length};
ghost use Rattle.avr_text.specs.Characters.{is_word as is_word_byte, goes_on_line as goes_on_line_byte};
ghost use Rattle.std.specs.List.{prefix_len};
ghost use Rattle.avr_text.specs.Pieces.{second as second_byte, word_piece as word_piece_of};
ghost use Rattle.avr_text.specs.Pieces.{other_piece as other_piece_of, piece_at as piece_at_front, piece_len};

use crate::characters::{goes_on_line, is_digit, is_mark, is_word};
use crate::numbers::number_of;
use crate::tokens::{LexWhy, TokenKind};
use uz_hex::is_blank;

/// What stands at the front of a text, with its length in bytes.
#[derive(Clone, Copy)]
pub enum Piece {
    /// Blanks or a comment.
    Gap(usize),
    /// A token.
    Token(TokenKind, usize),
    /// No piece begins here.
    Fault(LexWhy),
}

/// How many letters, digits and `_` stand at the front.
fn word_len(text: &[u8]) -> usize
    ensures word { result ≡ prefix_len is_word_byte text.now }
    ensures within { result ≤ length text.now }
{
    for (n, b) in text.iter().enumerate() {
        if !is_word(*b) {
            return n;
        }
    }
    text.len()
}

/// How many bytes stand before the line's end.
fn line_len(text: &[u8]) -> usize
    ensures rest { result ≡ prefix_len goes_on_line_byte text.now }
    ensures within { result ≤ length text.now }
{
    for (n, b) in text.iter().enumerate() {
        if !goes_on_line(*b) {
            return n;
        }
    }
    text.len()
}

/// The piece that a word is.
fn word_piece(word: &[u8]) -> Piece
    requires { 0 < length word.now }
    ensures piece { result ≡ word_piece_of word.now }
    ensures some { 0 < piece_len result }
    ensures within { piece_len result ≤ length word.now }
{
    if !is_digit(word[0]) {
        return Piece::Token(TokenKind::Name, word.len());
    }
    match number_of(word) {
        Some(n) => Piece::Token(TokenKind::Number(n as i64), word.len()),
        None => Piece::Fault(LexWhy::Number),
    }
}

/// The byte after the first, and 0 at the end.
fn second(text: &[u8]) -> u8
    ensures byte { result ≡ second_byte text.now }
    ensures there { 0 < result → 1 < length text.now }
{
    if text.len() > 1 { text[1] } else { 0 }
}

/// The piece at the front where no word is.
fn other_piece(text: &[u8]) -> Piece
    requires { 0 < length text.now }
    ensures piece { result ≡ other_piece_of text.now }
    ensures some { 0 < piece_len result }
    ensures within { piece_len result ≤ length text.now }
{
    let next = second(text);
    match text[0] {
        b if is_blank(b) => Piece::Gap(1),
        b'\n' => Piece::Token(TokenKind::LineEnd, 1),
        b if is_mark(b) => Piece::Token(TokenKind::Mark(b), 1),
        b';' => Piece::Gap(1 + line_len(&text[1..])),
        b'\r' if next == b'\n' => Piece::Gap(1),
        b'<' if next == b'<' => Piece::Token(TokenKind::ShiftLeft, 2),
        b'>' if next == b'>' => Piece::Token(TokenKind::ShiftRight, 2),
        _ => Piece::Fault(LexWhy::Byte),
    }
}

/// The piece at the front of a text.
pub fn piece_at(text: &[u8]) -> Piece
    requires { 0 < length text.now }
    ensures piece { result ≡ piece_at_front text.now }
    ensures some { 0 < piece_len result }
    ensures within { piece_len result ≤ length text.now }
{
    if is_word(text[0]) {
        word_piece(&text[..word_len(text)])
    } else {
        other_piece(text)
    }
}
