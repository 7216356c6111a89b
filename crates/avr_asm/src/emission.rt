//! What a line puts out.

ghost use Rattle.std.specs.Prelude.{◌≡◌, ◌≤◌, ◌++◌, ◌∷◌, [], IfOk, OnOk, MatchResult, Ok, Err, length, map as mapped};
ghost use Rattle.avr_text.specs.Faults.{Gives};
ghost use Rattle.avr_text.specs.Operands.{AllLie, EachLies};
ghost use Rattle.avr_asm.specs.Codes.{first_word, second_word, word_count};
ghost use Rattle.avr_asm.specs.Emission.{low_byte as low_byte_of, bytes_of_number, data_value, data_from, data_state};
ghost use Rattle.avr_asm.specs.Emission.{with_number, least_of_faults, byte_data as byte_data_of};
ghost use Rattle.avr_asm.specs.Emission.{word_data as word_data_of, word_bytes, instruction_bytes, put as put_bytes};

use avr_decode::{Code, encode};
use avr_table::Instr;
use avr_text::{AsmWhy, Symbols, Token, number};
use std::alloc::{AllocError, Global};
use uz_hex::Image;

/// Bits 0 to 7.
fn low_byte(value: i64) -> u8
    ensures { result ≡ low_byte_of value }
{
    value.rem_euclid(256) as u8
}

/// A value's low byte, and for a word its high byte after it.
fn push_number(bytes: &mut Vec<u8>, wide: bool, value: i64) -> Result<(), AllocError>
    ensures { OnOk result (bytes.new.items ≡ bytes.old.items ++ bytes_of_number wide value) }
{
    bytes.push(low_byte(value))?;
    if wide {
        bytes.push(low_byte(value >> 8))?;
    }
    Ok(())
}

/// The value of an operand of `.db`, or of `.dw`.
fn data_number(wide: bool, line: &[u8], symbols: &Symbols, tokens: &[Token]) -> Result<i64, AsmWhy>
    requires { AllLie (length line.now) tokens.now }
    ensures { result ≡ data_value wide line.now symbols.now tokens.now }
{
    if wide {
        number(-32768, 65535, line, symbols, tokens)
    } else {
        number(-128, 255, line, symbols, tokens)
    }
}

/// The least of the fault so far and one more.
fn least_fault(fault: Option<AsmWhy>, other: AsmWhy) -> AsmWhy
    ensures { result ≡ least_of_faults fault other }
{
    match fault {
        Some(why) => why.least(other),
        None => other,
    }
}

/// One more operand's bytes, or the least fault so far.
fn take_number(
    bytes: &mut Vec<u8>,
    wide: bool,
    fault: Option<AsmWhy>,
    value: Result<i64, AsmWhy>,
) -> Result<Option<AsmWhy>, AllocError>
    ensures { IfOk result (λ f. data_state f bytes.new.items ≡ with_number wide (data_state fault bytes.old.items) value) }
{
    match value {
        Err(why) => Ok(Some(least_fault(fault, why))),
        Ok(x) => match fault {
            Some(why) => Ok(Some(why)),
            None => {
                push_number(bytes, wide, x)?;
                Ok(None)
            }
        },
    }
}

/// The bytes of the operands of `.db` or `.dw`, or the least of their faults.
fn data(
    alloc: Global,
    wide: bool,
    line: &[u8],
    symbols: &Symbols,
    parts: &[&[Token]],
) -> Result<Vec<u8>, AsmWhy>
    requires { EachLies (length line.now) parts.now }
    ensures { Gives (λ v. v.items) result (data_from wide line.now symbols.now (Ok []) (mapped (λ p. p.now) parts.now)) }
{
    let mut bytes = Vec::new(alloc);
    let mut fault = None;
    for part in parts {
        let value = data_number(wide, line, symbols, part);
        fault = take_number(&mut bytes, wide, fault, value)?;
    }
    match fault {
        Some(why) => Err(why),
        None => Ok(bytes),
    }
}

/// The bytes of `.db`: an odd number is followed by a 0 byte.
pub fn byte_data(
    alloc: Global,
    line: &[u8],
    symbols: &Symbols,
    parts: &[&[Token]],
) -> Result<Vec<u8>, AsmWhy>
    requires { EachLies (length line.now) parts.now }
    ensures { Gives (λ v. v.items) result (byte_data_of line.now symbols.now (mapped (λ p. p.now) parts.now)) }
{
    let mut bytes = data(alloc, false, line, symbols, parts)?;
    if bytes.len() % 2 != 0 {
        bytes.push(0)?;
    }
    Ok(bytes)
}

/// The bytes of `.dw`, low byte first.
pub fn word_data(
    alloc: Global,
    line: &[u8],
    symbols: &Symbols,
    parts: &[&[Token]],
) -> Result<Vec<u8>, AsmWhy>
    requires { EachLies (length line.now) parts.now }
    ensures { Gives (λ v. v.items) result (word_data_of line.now symbols.now (mapped (λ p. p.now) parts.now)) }
{
    data(alloc, true, line, symbols, parts)
}

/// The words of an instruction by its row's pattern.
fn words_of(instr: &Instr) -> Code
    ensures first { result.first ≡ first_word instr.now }
    ensures second { result.second ≡ second_word instr.now }
    ensures words { result.words ≡ word_count instr.now }
{
    encode(instr)
}

/// A word's bytes, low byte first.
fn push_word(bytes: &mut Vec<u8>, word: u16) -> Result<(), AllocError>
    ensures { OnOk result (bytes.new.items ≡ bytes.old.items ++ word_bytes word) }
{
    bytes.push((word % 256) as u8)?;
    bytes.push((word / 256) as u8)?;
    Ok(())
}

fn one_word(alloc: Global, first: u16) -> Result<Vec<u8>, AllocError>
    ensures { IfOk result (λ v. v.items ≡ word_bytes first) }
{
    let mut bytes = Vec::new(alloc);
    push_word(&mut bytes, first)?;
    Ok(bytes)
}

fn two_words(alloc: Global, first: u16, second: u16) -> Result<Vec<u8>, AllocError>
    ensures { IfOk result (λ v. v.items ≡ word_bytes first ++ word_bytes second) }
{
    let mut bytes = Vec::new(alloc);
    push_word(&mut bytes, first)?;
    push_word(&mut bytes, second)?;
    Ok(bytes)
}

/// The bytes of an instruction's words.
pub fn code_of(alloc: Global, instr: &Instr) -> Result<Vec<u8>, AllocError>
    ensures { IfOk result (λ v. v.items ≡ instruction_bytes instr.now) }
{
    let code = words_of(instr);
    if code.words == 2 {
        two_words(alloc, code.first, code.second)
    } else {
        one_word(alloc, code.first)
    }
}

/// Puts bytes at a byte address and after it, where no byte is yet.
pub fn put(image: &mut Image, at: u32, bytes: &[u8]) -> Result<(), AsmWhy>
    requires { at ≤ 65536 }
    ensures { MatchResult result (λ _. put_bytes at bytes.now image.old ≡ Ok image.new)
        (λ why. put_bytes at bytes.now image.old ≡ Err why) }
{
    let mut at = at;
    for byte in bytes {
        if at >= 65536 {
            return Err(AsmWhy::Past);
        }
        let place = at as u16;
        if image.byte(place).is_some() {
            return Err(AsmWhy::Overlap);
        }
        image.set(place, *byte);
        at += 1;
    }
    Ok(())
}
