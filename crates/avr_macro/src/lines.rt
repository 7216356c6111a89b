//! The lines of a file, and the blanks and words at the front of a line.

ghost use Rattle.std.specs.Prelude.{◌≡◌, ◌≤◌, IfOk, length, reverse};
ghost use Rattle.std.specs.Str.Lines.{strip_carriage_return};
ghost use Rattle.avr_macro.specs.Lines.{after_blanks as after_blanks_in, after_word as after_word_in};
ghost use Rattle.avr_macro.specs.Lines.{begins_comment as begins_comment_at, is_bare as is_bare_text};
ghost use Rattle.avr_macro.specs.Lines.{lines_of as lines_of_text, trimmed as trimmed_text};
ghost use Rattle.avr_macro.specs.Lines.{word_of as word_of_text};

use crate::kept_lines::Lines;
use avr_text::is_word;
use std::alloc::{AllocError, Global};
use uz_hex::is_blank;

/// A line that ended in LF, without the CR right before it.
fn cut_return(line: &mut Vec<u8>)
    ensures { line.new.items ≡ strip_carriage_return line.old.items }
{
    let len = line.len();
    if len > 0 && line[len - 1] == b'\r' {
        line.truncate(len - 1);
    }
}

/// The lines of a text, without their ends: LF or CRLF, which a last line may lack.
pub fn lines_of(alloc: Global, text: &[u8]) -> Result<Lines, AllocError>
    ensures lines { IfOk result (λ lines. lines ≡ lines_of_text text.now) }
    ensures few { IfOk result (λ lines. length lines ≤ length text.now) }
{
    let mut lines = Lines::new(alloc);
    let mut line = Vec::new(alloc);
    for byte in text {
        if *byte == b'\n' {
            cut_return(&mut line);
            lines = lines.with(line.as_slice())?;
            line.clear();
        } else {
            line.push(*byte)?;
        }
    }
    if line.len() > 0 {
        lines = lines.with(line.as_slice())?;
    }
    Ok(lines)
}

/// What comes after the blanks at the front.
pub(crate) fn after_blanks(text: &[u8]) -> &[u8]
    ensures { result.now ≡ after_blanks_in text.now }
{
    let mut rest = text;
    while let [byte, tail @ ..] = rest {
        if !is_blank(*byte) {
            break;
        }
        rest = tail;
    }
    rest
}

/// What comes before the blanks at the end.
#[tactic(auto, using(crate::proofs::Fronts::drops_last, crate::proofs::Fronts::keeps_last))]
fn before_blanks(text: &[u8]) -> &[u8]
    ensures { result.now ≡ reverse (after_blanks_in (reverse text.now)) }
{
    let mut rest = text;
    while let [front @ .., byte] = rest {
        if !is_blank(*byte) {
            break;
        }
        rest = front;
    }
    rest
}

/// What stands between the blanks at both ends.
pub(crate) fn trimmed(text: &[u8]) -> &[u8]
    ensures { result.now ≡ trimmed_text text.now }
{
    before_blanks(after_blanks(text))
}

/// What comes after the letters, digits and `_` at the front.
pub(crate) fn after_word(text: &[u8]) -> &[u8]
    ensures rest { result.now ≡ after_word_in text.now }
    ensures within { length result.now ≤ length text.now }
{
    let mut rest = text;
    while let [byte, tail @ ..] = rest {
        if !is_word(*byte) {
            break;
        }
        rest = tail;
    }
    rest
}

/// The letters, digits and `_` at the front.
#[tactic(auto, using(crate::proofs::Fronts::word_front))]
pub(crate) fn word_of(text: &[u8]) -> &[u8]
    ensures { result.now ≡ word_of_text text.now }
{
    let (word, _) = text.split_at(text.len() - after_word(text).len());
    word
}

/// Whether nothing or a comment stands at the front.
fn begins_comment(text: &[u8]) -> bool
    ensures { result ≡ begins_comment_at text.now }
{
    match text {
        [] => true,
        [byte, ..] => *byte == b';',
    }
}

/// Whether there is nothing but blanks and a comment.
pub(crate) fn is_bare(text: &[u8]) -> bool
    ensures { result ≡ is_bare_text text.now }
{
    begins_comment(after_blanks(text))
}
