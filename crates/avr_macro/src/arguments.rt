//! The arguments of a call, and a line of a macro with them in their places.

ghost use Rattle.std.specs.Prelude.{◌≡◌, ◌-◌, ◌++◌, ◌&&◌, ◌≤◌, decimal, length, IfOk, OnOk, map, ℕ};
ghost use Rattle.std.specs.List.{slice_split};
ghost use Rattle.avr_macro.specs.Lines.{trimmed as trimmed_text};
ghost use Rattle.avr_macro.specs.Arguments.{argument as argument_of, arguments_of as arguments_of_text};
ghost use Rattle.avr_macro.specs.Arguments.{at_named as at_named_of, before_comment as before_comment_in};
ghost use Rattle.avr_macro.specs.Arguments.{is_comma as is_comma_byte, put_byte as put_byte_of};
ghost use Rattle.avr_macro.specs.Arguments.{put_end as put_end_of, replaced as replaced_line};
ghost use Rattle.avr_macro.specs.LineViews.{lent};

use crate::kept_lines::Lines;
use crate::lines::{after_blanks, trimmed};
use avr_text::is_digit;
use itoa::Buffer;
use std::alloc::{AllocError, Global};

/// A replaced line of more bytes is given up as want of memory: arguments that double at each level would fill all of it.
const LINE_LIMIT: usize = 16_777_216;

/// What stands for `@` in the lines of a call.
#[derive(Drop)]
pub(crate) struct Substitution {
    pub arguments: Lines,
    /// The number of the call, counted from 0.
    pub call: u32,
}

/// How many bytes stand before a comment.
fn comment_at(text: &[u8]) -> usize
    ensures len { result ≡ length (before_comment_in text.now) }
    ensures within { result ≤ length text.now }
{
    for (n, byte) in text.iter().enumerate() {
        if *byte == b';' {
            return n;
        }
    }
    text.len()
}

/// What comes before a comment.
#[tactic(auto, using(crate::proofs::Fronts::comment_front))]
fn before_comment(text: &[u8]) -> &[u8]
    ensures { result.now ≡ before_comment_in text.now }
{
    let (front, _) = text.split_at(comment_at(text));
    front
}

fn is_comma(byte: u8) -> bool
    ensures { result ≡ is_comma_byte byte }
{
    byte == b','
}

/// The parts between the commas.
fn split_at_commas(alloc: Global, text: &[u8]) -> Result<Vec<&[u8]>, AllocError>
    ensures { IfOk result (λ v. lent v ≡ slice_split is_comma_byte text.now) }
{
    text.split(|byte| is_comma(*byte)).collect(alloc)
}

/// Each part without the blanks at its ends.
fn trim_each(alloc: Global, parts: &[&[u8]]) -> Result<Lines, AllocError>
    ensures { IfOk result (λ arguments. arguments ≡ map trimmed_text (map (λ part. part.now) parts.now)) }
{
    let mut arguments = Lines::new(alloc);
    for part in parts {
        arguments = arguments.with(trimmed(part))?;
    }
    Ok(arguments)
}

/// The arguments that come after a macro's name.
#[tactic(auto, unfolding(crate::specs::Arguments::arguments_of))]
pub(crate) fn arguments_of(alloc: Global, text: &[u8]) -> Result<Lines, AllocError>
    ensures { IfOk result (λ arguments. arguments ≡ arguments_of_text text.now) }
{
    let text = before_comment(text);
    if after_blanks(text).len() == 0 {
        return Ok(Lines::new(alloc));
    }
    let parts = split_at_commas(alloc, text)?;
    trim_each(alloc, parts.as_slice())
}

/// The argument of a number.
pub(crate) fn argument(arguments: &Lines, k: usize) -> &[u8]
    ensures { result.now ≡ argument_of arguments.now k }
{
    if k < arguments.count() {
        arguments.line(k)
    } else {
        b""
    }
}

/// Adds bytes to a line.
fn put(line: &mut Vec<u8>, bytes: &[u8]) -> Result<(), AllocError>
    ensures { OnOk result (line.new.items ≡ line.old.items ++ bytes.now) }
{
    if line.len() + bytes.len() > LINE_LIMIT {
        return Err(AllocError);
    }
    line.extend_from_slice(bytes)
}

/// What `@` and the byte after it stand for.
fn put_named(
    line: &mut Vec<u8>,
    arguments: &Lines,
    number: &[u8],
    byte: u8,
) -> Result<(), AllocError>
    ensures { (call : ℕ) → number.now ≡ decimal call →
        OnOk result (line.new.items ≡ line.old.items ++ at_named_of arguments.now call byte) }
{
    if byte == b'@' {
        put(line, number)
    } else if is_digit(byte) {
        put(line, argument(arguments, usize::from(byte - b'0')))
    } else {
        put(line, &[b'@', byte])
    }
}

/// A byte of a body, after a `@` that waits for it or not.
fn put_byte(
    line: &mut Vec<u8>,
    arguments: &Lines,
    number: &[u8],
    named: bool,
    byte: u8,
) -> Result<(), AllocError>
    ensures { (call : ℕ) → number.now ≡ decimal call →
        OnOk result (line.new.items ≡ line.old.items ++ put_byte_of arguments.now call named byte) }
{
    if named {
        put_named(line, arguments, number, byte)
    } else if byte == b'@' {
        Ok(())
    } else {
        put(line, &[byte])
    }
}

/// The end of a line, after a `@` or not.
fn put_end(line: &mut Vec<u8>, named: bool) -> Result<(), AllocError>
    ensures { OnOk result (line.new.items ≡ line.old.items ++ put_end_of named) }
{
    if named { put(line, b"@") } else { Ok(()) }
}

/// A line with arguments and a call's number in their places.
fn with_number(
    alloc: Global,
    arguments: &Lines,
    number: &[u8],
    text: &[u8],
) -> Result<Vec<u8>, AllocError>
    ensures { (call : ℕ) → number.now ≡ decimal call → IfOk result (λ line. line.items ≡ replaced_line arguments.now call text.now) }
{
    let mut line = Vec::with_capacity(alloc, text.len())?;
    let mut named = false;
    for byte in text {
        put_byte(&mut line, arguments, number, named, *byte)?;
        named = !named && *byte == b'@';
    }
    put_end(&mut line, named)?;
    Ok(line)
}

/// A line of a macro in a call.
pub(crate) fn replaced(
    alloc: Global,
    substitution: &Substitution,
    text: &[u8],
) -> Result<Vec<u8>, AllocError>
    ensures { IfOk result (λ line. line.items ≡ replaced_line substitution.now.arguments substitution.now.call text.now) }
{
    let mut buffer = Buffer::new();
    let number = buffer.format(substitution.call).as_bytes();
    with_number(alloc, &substitution.arguments, number, text)
}
