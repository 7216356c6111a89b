//! An image and the source of hints beside it, as `find` and `why` read them.

ghost use Rattle.std.specs.Prelude.{◌≡◌, ◌≤◌, ◌<◌, ◌-◌, ◌^◌, IfErr, IfOk, codes, length};
ghost use Rattle.avr_macro.specs.Answers.{names_of};
ghost use Rattle.uz_shelf.specs.Faults.{Rose};
ghost use Rattle.uz_files.specs.Endings.{EndsBy};
ghost use Rattle.uz_program_commands.specs.MacroCommands.{origin_of};
ghost use Rattle.uz_program_commands.specs.MacroSource.{bad_line_of};
ghost use Rattle.uz_certificate_commands.specs.HintedSearch.{AreOdd, Fits, SpellsHinted, first_odd_line, unless_same};
ghost use Rattle.uz_certificate_commands.specs.HintedValues.{HintedFails, HintsFail, hints_seen};

use avr_asm::{AsmError, AsmWhy, Built, assemble_over};
use std::alloc::{AllocError, Global};
use uz_files::{Failure, HexText, read_file};
use uz_hex::{FLASH_BYTES, Image};
use uz_program_commands::{Expanded, assemble_flat, expand_file, fault_line};
use uz_shelf::Shelf;

/// The source of hints, and what it assembles to.
#[derive(Drop)]
pub(crate) struct HintsRead {
    /// Its flat text with the origins, and the names of its files.
    pub source: Expanded,
    /// Its bytes and hints.
    pub built: Built,
}

/// An image, and hints whose bytes are in it.
#[derive(Drop)]
pub(crate) struct Hinted {
    /// The image.
    pub image: Image,
    /// The hints with their source.
    pub hints: HintsRead,
}

/// A byte, unless the other one is the same.
fn odd_byte(byte: Option<u8>, other: Option<u8>) -> Option<u8>
    ensures { result ≡ unless_same byte other }
{
    match (byte, other) {
        (None, _) => None,
        (Some(byte), None) => Some(byte),
        (Some(byte), Some(other)) => { if byte == other { None } else { Some(byte) } }
    }
}

/// The bytes that a source places and that an image lacks or has with another value.
fn odd_bytes(alloc: Global, placed: &Image, image: &Image) -> Result<Image, AllocError>
    ensures { IfOk result (AreOdd placed.now image.now) }
{
    placed.is_flash();
    let mut odd = Image::empty(alloc)?;
    for at in 0..FLASH_BYTES {
        let at = at as u16;
        if let Some(byte) = odd_byte(placed.byte(at), image.byte(at)) {
            odd.set(at, byte);
        }
    }
    Ok(odd)
}

/// The line of a flat text that is refused where these cells are taken, 0 where none is.
fn odd_line(alloc: Global, text: &[u8], odd: Image) -> Result<u32, AllocError>
    requires { length text.now < 2 ^ 32 - 1 }
    ensures { IfOk result (λ line. line ≡ first_odd_line odd text.now) }
{
    match assemble_over(alloc, text, odd) {
        Ok(_) => Ok(0),
        Err(
            AsmError {
                why: AsmWhy::Memory,
                ..
            },
        ) => Err(AllocError),
        Err(AsmError { line, .. }) => Ok(line),
    }
}

/// The line that tells the first line of a source that places one of these bytes.
fn misfit(alloc: Global, source: &Expanded, odd: Image) -> Result<Vec<u8>, AllocError>
    requires { length source.now.flat.text.items < 2 ^ 32 - 1 }
    ensures { IfOk result (λ text. text.items ≡ bad_line_of (names_of source.now.names)
        (origin_of source.now.flat.origins.items (first_odd_line odd source.now.flat.text.items)) (codes "Image")) }
{
    let line = odd_line(alloc, source.flat.text.as_slice(), odd)?;
    fault_line(alloc, source, line, "Image")
}

/// Reads the source of the hints, and looks whether the image has its bytes.
fn read_hints<H: Shelf>(
    alloc: Global,
    shelf: &mut H,
    hints: &str,
    image: &Image,
) -> Result<HintsRead, Failure>
    ensures fits { IfOk result (λ read. Fits (H.files shelf.old) hints.now image.now (hints_seen read)) }
    ensures few { IfOk result (λ read. length read.built.hints.items < 2 ^ 32) }
    ensures short { IfOk result (λ read. length read.source.flat.text.items ≤ 1048576) }
    ensures fails { IfErr result (EndsBy (HintsFail (H.files shelf.old)
        (Rose (H.load_faults shelf.old) (H.load_faults shelf.new)) hints.now image.now)) }
    ensures files { H.files shelf.new ≡ H.files shelf.old }
    ensures load_faults { H.load_faults shelf.old ≤ H.load_faults shelf.new }
    ensures write_faults { H.write_faults shelf.new ≡ H.write_faults shelf.old }
{
    let source = match expand_file(alloc, shelf, hints) {
        Ok(source) => source,
        Err(failure) => return Err(failure),
    };
    let built = match assemble_flat(alloc, &source) {
        Ok(built) => built,
        Err(failure) => return Err(failure),
    };
    let odd = odd_bytes(alloc, &built.image, image)?;
    if odd.count() == 0 {
        return Ok(HintsRead { source, built });
    }
    Err(Failure::BadInput(misfit(alloc, &source, odd)?))
}

/// Reads both files in their order.
pub(crate) fn read_hinted<H: Shelf>(
    alloc: Global,
    shelf: &mut H,
    hex: &str,
    hints: &str,
) -> Result<Hinted, Failure>
    ensures spelled { IfOk result (λ read. SpellsHinted (H.files shelf.old) hex.now hints.now read.image (hints_seen read.hints)) }
    ensures few { IfOk result (λ read. length read.hints.built.hints.items < 2 ^ 32) }
    ensures short { IfOk result (λ read. length read.hints.source.flat.text.items ≤ 1048576) }
    ensures fails { IfErr result (EndsBy (HintedFails (H.files shelf.old)
        (Rose (H.load_faults shelf.old) (H.load_faults shelf.new)) hex.now hints.now)) }
    ensures files { H.files shelf.new ≡ H.files shelf.old }
    ensures load_faults { H.load_faults shelf.old ≤ H.load_faults shelf.new }
    ensures write_faults { H.write_faults shelf.new ≡ H.write_faults shelf.old }
{
    let image = match read_file::<HexText, H>(alloc, shelf, hex) {
        Ok(image) => image,
        Err(failure) => return Err(failure),
    };
    let hints = match read_hints(alloc, shelf, hints, &image) {
        Ok(hints) => hints,
        Err(failure) => return Err(failure),
    };
    Ok(Hinted { image, hints })
}
