//! The lines of a text, and blanks.

ghost use Rattle.std.specs.Prelude.{◌≡◌, ◌==◌, ◌≤◌, ◌<◌, ◌+◌, IfOk, length, map};
ghost use Rattle.std.specs.List.{slice_split};
ghost use Rattle.std.specs.Str.Lines.{strip_carriage_return};
ghost use Rattle.uz_hex.specs.Lines.{is_blank as is_blank_byte, line_at};

use std::alloc::{AllocError, Global};

/// Whether a byte is a space or a tab.
pub fn is_blank(byte: u8) -> bool
    ensures { result ≡ is_blank_byte byte }
{
    byte == b' ' || byte == b'\t'
}

/// The pieces of a text between LF bytes, in order: one more than there are LF bytes. Only want of memory refuses it.
pub fn pieces(alloc: Global, text: &[u8]) -> Result<Vec<&[u8]>, AllocError>
    ensures pieces { IfOk result (λ v. map (λ x. x.now) v.items ≡ slice_split (λ b. b == 10) text.now) }
    ensures count { IfOk result (λ v. length v.items ≤ length text.now + 1) }
{
    text.split(|byte| *byte == b'\n').collect(alloc)
}

/// A line that LF ends, without its CR.
pub fn without_return(line: &[u8]) -> &[u8]
    ensures { result.now ≡ strip_carriage_return line.now }
{
    match line {
        [front @ .., b'\r'] => front,
        _ => line,
    }
}

/// The line at a place among the pieces of a text: a CR before its LF is no part of it.
pub fn line_at<'a>(pieces: &[&'a [u8]], at: usize) -> &'a [u8]
    requires { at < length pieces.now }
    ensures { result.now ≡ line_at (map (λ piece. piece.now) pieces.now) at }
{
    if at + 1 < pieces.len() {
        without_return(pieces[at])
    } else {
        pieces[at]
    }
}
