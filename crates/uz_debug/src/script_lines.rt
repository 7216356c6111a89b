//! The lines of a script.

ghost use Rattle.std.specs.Prelude.{◌≡◌, ◌≤◌, ◌<◌, IfOk, IfSome, bytes_eq, map, option_map};
ghost use Rattle.std.specs.List.{slice_split};
ghost use Rattle.uz_hex.specs.Lines.{is_blank as is_blank_byte};
ghost use Rattle.uz_debug.specs.Scripts.{kind_in, line_in, mem_in, one_number_in, one_word_in, slot_in, two_numbers_in};
ghost use Rattle.uz_debug.specs.Scripts.{turns_in, address_in, words_of, IsLineInRange};
ghost use Rattle.uz_debug.specs.Sessions.{IsInRange};
ghost use Rattle.uz_debug.specs.declared.command.Command.TheVariants.{Step, Run, Back, Break, Clear, Save, Load};

use crate::command::Command;
use crate::errors::ScriptWhy;
use std::alloc::{AllocError, Global};
use uz_hex::{is_blank, number_within, short_number};

/// What a line of a script is.
#[derive(Clone, Copy)]
pub enum Line {
    /// No word.
    Blank,
    /// A command within its ranges.
    Command(Command),
    /// Anything else: `Word` or `Number`.
    Faulty(ScriptWhy),
}

/// A number of turns.
fn turns(word: &[u8]) -> Option<u32>
    ensures number { result ≡ turns_in word.now }
    ensures low { IfSome result (λ n. 1 ≤ n) }
    ensures high { IfSome result (λ n. n ≤ 100000000) }
{
    number_within(word, 1, 100_000_001)
}

/// A word address of the flash.
fn address(word: &[u8]) -> Option<u16>
    ensures number { result ≡ address_in word.now }
    ensures range { IfSome result (λ n. n < 32768) }
{
    short_number(word, 0, 32768)
}

/// The number of a slot.
fn slot(word: &[u8]) -> Option<u8>
    ensures number { result ≡ slot_in word.now }
    ensures range { IfSome result (λ n. n < 10) }
{
    match short_number(word, 0, 10) {
        Some(n) => Some(n as u8),
        None => None,
    }
}

/// The line of a command whose number is read.
fn line_of(command: Option<Command>) -> Line
    requires { IfSome command IsInRange }
    ensures line { result ≡ line_in command }
    ensures range { IsLineInRange result }
{
    match command {
        Some(command) => Line::Command(command),
        None => Line::Faulty(ScriptWhy::Number),
    }
}

fn step(word: &[u8]) -> Option<Command>
    ensures command { result ≡ option_map Step (turns_in word.now) }
    ensures range { IfSome result IsInRange }
{
    Some(Command::Step(turns(word)?))
}

fn run(word: &[u8]) -> Option<Command>
    ensures command { result ≡ option_map Run (turns_in word.now) }
    ensures range { IfSome result IsInRange }
{
    Some(Command::Run(turns(word)?))
}

fn back(word: &[u8]) -> Option<Command>
    ensures command { result ≡ option_map Back (turns_in word.now) }
    ensures range { IfSome result IsInRange }
{
    Some(Command::Back(turns(word)?))
}

fn set_breakpoint(word: &[u8]) -> Option<Command>
    ensures command { result ≡ option_map Break (address_in word.now) }
    ensures range { IfSome result IsInRange }
{
    Some(Command::Break(address(word)?))
}

fn clear_breakpoint(word: &[u8]) -> Option<Command>
    ensures command { result ≡ option_map Clear (address_in word.now) }
    ensures range { IfSome result IsInRange }
{
    Some(Command::Clear(address(word)?))
}

fn save(word: &[u8]) -> Option<Command>
    ensures command { result ≡ option_map Save (slot_in word.now) }
    ensures range { IfSome result IsInRange }
{
    Some(Command::Save(slot(word)?))
}

fn load(word: &[u8]) -> Option<Command>
    ensures command { result ≡ option_map Load (slot_in word.now) }
    ensures range { IfSome result IsInRange }
{
    Some(Command::Load(slot(word)?))
}

/// `mem A N`.
fn mem(at: &[u8], count: &[u8]) -> Option<Command>
    ensures command { result ≡ mem_in at.now count.now }
    ensures range { IfSome result IsInRange }
{
    match (number_within(at, 0, 65536), short_number(count, 1, 17)) {
        (Some(at), Some(count)) => Some(Command::Mem(at as u16, count as u8)),
        _ => None,
    }
}

/// Whether a word is a command's name.
fn spells(word: &[u8], name: &[u8]) -> bool
    ensures { result ≡ bytes_eq word.now name.now }
{
    word == name
}

/// A command with one number.
fn one_number(verb: &[u8], word: &[u8]) -> Line
    ensures line { result ≡ one_number_in verb.now word.now }
    ensures range { IsLineInRange result }
{
    if spells(verb, b"step") {
        line_of(step(word))
    } else if spells(verb, b"run") {
        line_of(run(word))
    } else if spells(verb, b"back") {
        line_of(back(word))
    } else if spells(verb, b"break") {
        line_of(set_breakpoint(word))
    } else if spells(verb, b"clear") {
        line_of(clear_breakpoint(word))
    } else if spells(verb, b"save") {
        line_of(save(word))
    } else if spells(verb, b"load") {
        line_of(load(word))
    } else {
        Line::Faulty(ScriptWhy::Word)
    }
}

/// A command of one word.
fn one_word(verb: &[u8]) -> Line
    ensures line { result ≡ one_word_in verb.now }
    ensures range { IsLineInRange result }
{
    if spells(verb, b"show") {
        Line::Command(Command::Show)
    } else {
        Line::Faulty(ScriptWhy::Word)
    }
}

/// A command with two numbers.
fn two_numbers(verb: &[u8], at: &[u8], count: &[u8]) -> Line
    ensures line { result ≡ two_numbers_in verb.now at.now count.now }
    ensures range { IsLineInRange result }
{
    if spells(verb, b"mem") {
        line_of(mem(at, count))
    } else {
        Line::Faulty(ScriptWhy::Word)
    }
}

/// What the words of a line are.
pub(crate) fn line_kind(words: &[&[u8]]) -> Line
    ensures line { result ≡ kind_in (map (λ word. word.now) words.now) }
    ensures range { IsLineInRange result }
{
    match words {
        [] => Line::Blank,
        [verb] => one_word(verb),
        [verb, word] => one_number(verb, word),
        [verb, at, count] => two_numbers(verb, at, count),
        _ => Line::Faulty(ScriptWhy::Word),
    }
}

/// The pieces of a line between blanks.
fn between_blanks(alloc: Global, line: &[u8]) -> Result<Vec<&[u8]>, AllocError>
    ensures { IfOk result (λ v. map (λ x. x.now) v.items ≡ slice_split is_blank_byte line.now) }
{
    line.split(|byte| is_blank(*byte)).collect(alloc)
}

/// The words of a line, which stand apart by spaces and tabs.
pub(crate) fn words(alloc: Global, line: &[u8]) -> Result<Vec<&[u8]>, AllocError>
    ensures { IfOk result (λ v. map (λ x. x.now) v.items ≡ words_of line.now) }
{
    let pieces = between_blanks(alloc, line)?;
    let mut words = Vec::new(alloc);
    for piece in pieces.as_slice() {
        if !piece.is_empty() {
            words.push(*piece)?;
        }
    }
    Ok(words)
}
