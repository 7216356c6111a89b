//! The `@` in lines of a macro, which arguments and the number of a call replace.

ghost use Rattle.std.specs.Prelude.{◌≡◌, ◌-◌, ◌+◌, ◌≤◌, false, max, length};
ghost use Rattle.std.specs.List.{slice_range};
ghost use Rattle.avr_macro.specs.AtSigns.{any_dot, are_quiet as are_quiet_lines, begins_dot as begins_dot_at};
ghost use Rattle.avr_macro.specs.AtSigns.{is_quiet as is_quiet_line, is_quiet_front as is_quiet_text, opens_dot as opens_dot_at};
ghost use Rattle.avr_macro.specs.AtSigns.{are_plain as are_plain_lines, are_steady as are_steady_lines};
ghost use Rattle.avr_macro.specs.AtSigns.{digit_needs as digit_needs_of, is_plain as is_plain_line};
ghost use Rattle.avr_macro.specs.AtSigns.{is_steady as is_steady_line, is_steady_front as is_steady_text};
ghost use Rattle.avr_macro.specs.AtSigns.{lacks_at as lacks_at_front, needed_by as needed_by_lines};
ghost use Rattle.avr_macro.specs.AtSigns.{needed_in as needed_in_line};
ghost use Rattle.avr_macro.specs.Lines.{after_blanks as after_blanks_in, after_word as after_word_in};

use crate::kept_lines::Lines;
use crate::lines::{after_blanks, after_word};
use avr_text::is_digit;
use uz_hex::is_blank;

/// Whether a line has no `@`.
fn is_plain(line: &[u8]) -> bool
    ensures { result ≡ is_plain_line line.now }
{
    let mut rest = line;
    while let [byte, tail @ ..] = rest {
        if *byte == b'@' {
            return false;
        }
        rest = tail;
    }
    true
}

/// Whether some lines have no `@`: those from a place to before another.
#[tactic(auto, using(crate::proofs::Slices::next_line))]
pub(crate) fn are_plain(lines: &Lines, from: usize, to: usize) -> bool
    requires order { from ≤ to }
    requires bound { to ≤ length lines.now }
    ensures { result ≡ are_plain_lines (slice_range lines.now from to) }
{
    for n in from..to {
        if !is_plain(lines.line(n)) {
            return false;
        }
    }
    true
}

/// Whether no `@` stands at the front.
fn lacks_at(text: &[u8]) -> bool
    ensures { result ≡ lacks_at_front text.now }
{
    match text {
        [] => true,
        [byte, ..] => *byte != b'@',
    }
}

/// Whether no `@` comes right after a directive's name, which comes after `.`.
fn keeps_name(rest: &[u8]) -> bool
    ensures { result ≡ lacks_at_front (after_word_in (after_blanks_in rest.now)) }
{
    lacks_at(after_word(after_blanks(rest)))
}

/// Whether a text that begins with no blank is of the same directive in each call.
fn is_steady_front(text: &[u8]) -> bool
    ensures { result ≡ is_steady_text text.now }
{
    match text {
        [] => true,
        [byte, rest @ ..] => {
            if *byte == b'.' {
                keeps_name(rest)
            } else {
                *byte != b'@'
            }
        }
    }
}

/// Whether a line is of the same directive in each call.
#[tactic(auto, unfolding(crate::specs::AtSigns::is_steady))]
pub(crate) fn is_steady(line: &[u8]) -> bool
    ensures { result ≡ is_steady_line line.now }
{
    is_steady_front(after_blanks(line))
}

/// Whether each line is of the same directive in each call.
#[tactic(auto, using(crate::proofs::Slices::next_line_of_all, crate::proofs::Slices::none_left))]
pub(crate) fn are_steady(lines: &Lines) -> bool
    ensures { result ≡ are_steady_lines lines.now }
{
    for n in 0..lines.count() {
        if !is_steady(lines.line(n)) {
            return false;
        }
    }
    true
}

/// Whether a `.` comes first, but for blanks and arguments.
fn opens_dot(line: &[u8]) -> bool
    ensures { result ≡ opens_dot_at false line.now }
{
    let mut rest = line;
    let mut named = false;
    while let [byte, tail @ ..] = rest {
        if named {
            if !is_digit(*byte) {
                return false;
            }
            named = false;
        } else if !is_blank(*byte) {
            if *byte != b'@' {
                return *byte == b'.';
            }
            named = true;
        }
        rest = tail;
    }
    false
}

/// Whether a text that begins with no blank is of the same directive in each call no argument of which begins with `.`.
fn is_quiet_front(text: &[u8]) -> bool
    ensures { result ≡ is_quiet_text text.now }
{
    match text {
        [] => true,
        [byte, rest @ ..] => {
            if *byte == b'.' {
                keeps_name(rest)
            } else {
                !opens_dot(text)
            }
        }
    }
}

/// Whether a line is of the same directive in each call no argument of which begins with `.`.
#[tactic(auto, unfolding(crate::specs::AtSigns::is_quiet))]
fn is_quiet(line: &[u8]) -> bool
    ensures { result ≡ is_quiet_line line.now }
{
    is_quiet_front(after_blanks(line))
}

/// Whether each line is of the same directive in each call no argument of which begins with `.`.
#[tactic(auto, using(crate::proofs::Slices::next_line_of_all, crate::proofs::Slices::none_left))]
pub(crate) fn are_quiet(lines: &Lines) -> bool
    ensures { result ≡ are_quiet_lines lines.now }
{
    for n in 0..lines.count() {
        if !is_quiet(lines.line(n)) {
            return false;
        }
    }
    true
}

/// Whether an argument begins with `.`.
fn begins_dot(argument: &[u8]) -> bool
    ensures { result ≡ begins_dot_at argument.now }
{
    match argument {
        [] => false,
        [byte, ..] => *byte == b'.',
    }
}

/// Whether any argument begins with `.`.
#[tactic(auto, using(crate::proofs::Slices::next_line_of_all, crate::proofs::Slices::none_left))]
pub(crate) fn have_dot(arguments: &Lines) -> bool
    ensures { result ≡ any_dot arguments.now }
{
    for n in 0..arguments.count() {
        if begins_dot(after_blanks(arguments.line(n))) {
            return true;
        }
    }
    false
}

/// How many arguments a byte needs, after a `@` that waits for it or not.
fn digit_needs(named: bool, byte: u8) -> usize
    ensures { result ≡ digit_needs_of named byte }
{
    if named && is_digit(byte) {
        usize::from(byte - b'0') + 1
    } else {
        0
    }
}

/// How many arguments a line needs.
fn needed_in(line: &[u8]) -> usize
    ensures { result ≡ needed_in_line line.now }
{
    let mut needed = 0;
    let mut named = false;
    for byte in line {
        needed = greater(needed, digit_needs(named, *byte));
        named = !named && *byte == b'@';
    }
    needed
}

/// The greater of two numbers.
fn greater(a: usize, b: usize) -> usize
    ensures { result ≡ max a b }
{
    if a < b { b } else { a }
}

/// How many arguments lines need.
pub(crate) fn needed_by(lines: &Lines) -> usize
    ensures { result ≡ needed_by_lines lines.now }
{
    let mut needed = 0;
    for n in 0..lines.count() {
        needed = greater(needed, needed_in(lines.line(n)));
    }
    needed
}
