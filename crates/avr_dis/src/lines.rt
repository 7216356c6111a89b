//! The listing of a flash image.

ghost use Rattle.std.specs.Prelude.{◌≡◌, ◌++◌, ◌+◌, ◌<◌, List, ℕ, IfOk, OnOk, codes, decimal};
ghost use Rattle.std.specs.String.{string_bytes};
ghost use Rattle.avr_dis.specs.Listing.{Adds, IsListing, LineAt, address, both_words, line, present, second_text};

use crate::print::print_one;
use avr_decode::decode;
use avr_table::words;
use itoa::Buffer;
use std::alloc::{AllocError, Global};
use uz_hex::{FLASH_WORDS, Image, word_digits};

/// The listing of a flash image: a line for each word of which a byte is present, in order.
///
/// An instruction of two words takes both into its line. A line is the word address in four digits of base
/// 16, `: `, the first word in four, a space, the second word in four or four spaces, a space, the text, and
/// LF. A word that no row reads is `.dw` with its decimal value. An absent byte counts as 255, and after the
/// last word of the flash comes word 0. The one error is want of memory.
pub fn listing(alloc: Global, image: &Image) -> Result<Vec<u8>, AllocError>
    ensures { IfOk result (λ text. IsListing image.now text.items) }
{
    let mut text = Vec::new(alloc);
    let mut taken = false;
    for at in 0..FLASH_WORDS {
        taken = add_word(alloc, image, at, taken, &mut text)?;
    }
    Ok(text)
}

/// Adds what a word adds to the listing, and tells whether its line takes the following word too.
fn add_word(
    alloc: Global,
    image: &Image,
    at: u16,
    taken: bool,
    text: &mut Vec<u8>,
) -> Result<bool, AllocError>
    requires { at < 32768 }
    ensures { IfOk result (λ two. (added : List ℕ) × Adds image.now at taken added two × (text.new.items ≡ text.old.items ++ added)) }
{
    if taken || !is_present(image, at) {
        return Ok(false);
    }
    add_line(alloc, image, at, text)
}

/// Whether a byte of the word at a word address is present.
fn is_present(image: &Image, at: u16) -> bool
    requires { at < 32768 }
    ensures { result ≡ present image.now at }
{
    image.byte(2 * at).is_some() || image.byte(2 * at + 1).is_some()
}

/// Adds the line that begins at a word address, and tells whether it takes the following word too.
fn add_line(alloc: Global, image: &Image, at: u16, text: &mut Vec<u8>) -> Result<bool, AllocError>
    requires { at < 32768 }
    ensures { IfOk result (λ two. (added : List ℕ) × LineAt image.now at two added × (text.new.items ≡ text.old.items ++ added)) }
{
    let first = image.word(at);
    let second = image.word(at + 1);
    match decode(first, second) {
        Some(i) => {
            let two = words(&i) == 2;
            let written = print_one(alloc, at, &i)?;
            write_line(
                text,
                at,
                first,
                if two { Some(second) } else { None },
                written.as_str(),
            )?;
            Ok(two)
        }
        None => {
            let written = data_word(alloc, first)?;
            write_line(text, at, first, None, written.as_str())?;
            Ok(false)
        }
    }
}

/// The text of a word that no row reads: `.dw` and its decimal value. The one error is want of memory.
pub fn data_word(alloc: Global, word: u16) -> Result<String, AllocError>
    ensures { IfOk result (λ text. string_bytes text ≡ codes ".dw " ++ decimal word) }
{
    let mut text = String::from_str(alloc, ".dw ")?;
    text.push_str(Buffer::new().format(word))?;
    Ok(text)
}

/// Adds a line: the address, the first word, the second word or blanks, and the text.
fn write_line(
    text: &mut Vec<u8>,
    at: u16,
    first: u16,
    second: Option<u16>,
    written: &str,
) -> Result<(), AllocError>
    ensures { OnOk result (text.new.items ≡ text.old.items ++ line at first (second_text second) written.now) }
{
    write_address(text, at)?;
    write_words(text, first, second)?;
    text.extend_from_slice(written.as_bytes())?;
    text.extend_from_slice(b"\n")
}

fn write_address(text: &mut Vec<u8>, at: u16) -> Result<(), AllocError>
    ensures { OnOk result (text.new.items ≡ text.old.items ++ address at) }
{
    text.extend_from_slice(&word_digits(at))?;
    text.extend_from_slice(b": ")
}

/// Adds the words of an instruction as a line of the listing has them: the first in four digits of base 16, a space, the second in four
/// or four spaces, and a space. The one error is want of memory.
pub fn write_words(text: &mut Vec<u8>, first: u16, second: Option<u16>) -> Result<(), AllocError>
    ensures { OnOk result (text.new.items ≡ text.old.items ++ both_words first (second_text second)) }
{
    text.extend_from_slice(&word_digits(first))?;
    text.extend_from_slice(b" ")?;
    text.extend_from_slice(&second_digits(second))?;
    text.extend_from_slice(b" ")
}

/// The four places of a second word.
fn second_digits(second: Option<u16>) -> [u8; 4]
    ensures { result ≡ second_text second }
{
    match second {
        Some(word) => word_digits(word),
        None => *b"    ",
    }
}
