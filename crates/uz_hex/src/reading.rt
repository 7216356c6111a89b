//! Reading an Intel HEX text into an image.

ghost use Rattle.std.specs.Prelude.{◌≡◌, ℕ, ◌⊎◌, Ok, Err, ◌<◌, ◌≤◌, ◌+◌, ◌*◌, ◌-◌, ◌^◌, IsTrue, IfOk, IfErr, length, slice_index};
ghost use Rattle.uz_hex.specs.Records.{value_of as value_of_bytes};
ghost use Rattle.uz_hex.specs.Reading.{takes as cell_takes, has_length, with_bytes, place as placed_in, after_record};
ghost use Rattle.uz_hex.specs.Reading.{data_of as data_of_record};
ghost use Rattle.uz_hex.specs.Reading.{after_line as line_goes_on, go_on, read_text as text_read, GivesHex};
ghost use Rattle.uz_hex.specs.HexText.{IsHexOf, IsFirstFault, trimmed};
ghost use Rattle.uz_hex.specs.declared.errors.HexWhy.TheVariants as HexWhys;
ghost use Rattle.uz_hex.specs.declared.errors.HexWhy.{HexWhy};
ghost use Rattle.std.specs.FinMap.{FinMap};
ghost use Rattle.std.specs.Ordering.{nat_cmp};

use crate::errors::{HexError, HexWhy};
use crate::image::Image;
use crate::lines::{line_length, without_blanks};
use crate::records::{Progress, RECORD_BYTES, RecordType, decode_line, kind_of};
use crate::without_return;
use std::alloc::Global;

/// Whether a cell that is empty or holds a byte can take this one.
fn takes(held: Option<u8>, byte: u8) -> bool
    ensures { result ≡ cell_takes held byte }
{
    match held {
        Some(there) => there == byte,
        None => true,
    }
}

/// Sets bytes from an address on, unless one of them differs from one that is there.
fn set_bytes(image: &mut Image, start: u16, bytes: &[u8]) -> Result<(), HexWhy>
    requires { start + length bytes.now ≤ 65536 }
    ensures ok { IfOk result (λ _. with_bytes image.old start bytes.now ≡ Ok image.new) }
    ensures err { IfErr result (λ why. with_bytes image.old start bytes.now ≡ Err why) }
{
    for (i, byte) in bytes.iter().enumerate() {
        let at = start + i as u16;
        if !takes(image.byte(at), *byte) {
            return Err(HexWhy::Conflict);
        }
        image.set(at, *byte);
    }
    Ok(())
}

/// Places a record's data bytes at an address.
fn place(image: &mut Image, start: u64, bytes: &[u8]) -> Result<(), HexWhy>
    requires { (start < 2 ^ 33) × (length bytes.now ≤ 255) }
    ensures ok { IfOk result (λ _. placed_in image.old start bytes.now ≡ Ok image.new) }
    ensures err { IfErr result (λ why. placed_in image.old start bytes.now ≡ Err why) }
{
    if bytes.is_empty() {
        return Ok(());
    }
    if start + bytes.len() as u64 > 65536 {
        return Err(HexWhy::Range);
    }
    set_bytes(image, start as u16, bytes)
}

/// The number that the first two bytes spell, high byte first.
fn value_of(bytes: &[u8]) -> u32
    requires { 2 ≤ length bytes.now }
    ensures fits { result < 65536 }
    ensures exact { result ≡ value_of_bytes bytes.now }
{
    256 * u32::from(bytes[0]) + u32::from(bytes[1])
}

/// The data bytes of a record's bytes.
fn data_of(bytes: &[u8]) -> &[u8]
    requires { slice_index bytes.now 0 + 5 ≡ length bytes.now }
    ensures exact { result.now ≡ data_of_record bytes.now }
    ensures counted { length result.now ≡ slice_index bytes.now 0 }
{
    &bytes[4..bytes.len() - 1]
}

/// Acts on a record that has been checked.
fn take_record(
    image: &mut Image,
    base: u32,
    bytes: &[u8],
    kind: RecordType,
) -> Result<Progress, HexWhy>
    requires counted { slice_index bytes.now 0 + 5 ≡ length bytes.now }
    requires fits { IsTrue (has_length kind (slice_index bytes.now 0)) }
    ensures ok { IfOk result (λ next. after_record base image.old bytes.now kind ≡ Ok (next, image.new)) }
    ensures err { IfErr result (λ why. after_record base image.old bytes.now kind ≡ Err why) }
{
    let data = data_of(bytes);
    match kind {
        RecordType::Data => {
            let address = 256 * u64::from(bytes[1]) + u64::from(bytes[2]);
            place(image, u64::from(base) + address, data)?;
            Ok(Progress::More(base))
        }
        RecordType::EndOfFile => Ok(Progress::Ended),
        RecordType::ExtendedSegment => Ok(Progress::More(16 * value_of(data))),
        RecordType::ExtendedLinear => Ok(Progress::More(65536 * value_of(data))),
        RecordType::StartSegment | RecordType::StartLinear => Ok(Progress::More(base)),
    }
}

/// Reads a line without the blanks at its end.
fn take_line(image: &mut Image, base: u32, line: &[u8]) -> Result<Progress, HexWhy>
    ensures ok { IfOk result (λ next. line_goes_on base image.old line.now ≡ Ok (next, image.new)) }
    ensures err { IfErr result (λ why. line_goes_on base image.old line.now ≡ Err why) }
{
    if line.is_empty() {
        return Ok(Progress::More(base));
    }
    let mut buffer = [0; RECORD_BYTES];
    let count = decode_line(line, &mut buffer)?;
    let bytes = &buffer[..count];
    let kind = kind_of(bytes)?;
    take_record(image, base, bytes, kind)
}

/// Reads the last line, behind which no LF stands, after so many others.
fn read_last(image: Image, base: u32, before: u32, line: &[u8]) -> Result<Image, HexError>
    requires { before < 2 ^ 32 - 1 }
    ensures { GivesHex result (go_on (before + 1) (line_goes_on base image (trimmed line.now))
        (λ next held. Err (before + 1, HexWhys.NoEnd))) }
{
    let mut image = image;
    let line_number = before + 1;
    match take_line(&mut image, base, without_blanks(line)) {
        Ok(Progress::More(_)) => Err(HexError {
            line: line_number,
            why: HexWhy::NoEnd,
        }),
        Ok(Progress::Ended) => Ok(image),
        Err(why) => Err(HexError {
            line: line_number,
            why,
        }),
    }
}

/// Reads a text line by line.
fn read_text(alloc: Global, text: &[u8]) -> Result<Image, HexError>
    requires { length text.now < 2 ^ 32 - 1 }
    ensures { GivesHex result (text_read text.now) }
{
    let mut image = Image::empty(alloc)?;
    let mut base = 0;
    let mut start = 0;
    let mut before = 0;
    while let Some(length) = line_length(&text[start..]) {
        let line = before + 1;
        let end = start + length;
        let content = without_blanks(without_return(&text[start..end]));
        match take_line(&mut image, base, content) {
            Ok(Progress::More(next)) => base = next,
            Ok(Progress::Ended) => return Ok(image),
            Err(why) => return Err(HexError { line, why }),
        }
        start = end + 1;
        before = line;
    }
    read_last(image, base, before, &text[start..])
}

/// Reads an Intel HEX text into an image, or tells its first fault.
///
/// Lines end in LF or CRLF, spaces and tabs at a line's end are dropped, and blank lines are
/// skipped. A data byte stands at the base plus the load offset plus its index, without wrapping
/// (this project's profile; Intel's segmented addressing wraps at offset 65,536). What follows the
/// end record is ignored. A byte that is given twice with one value is accepted.
///
/// The error names the first faulty line, counted from 1, and of its faults the one that stands
/// first in `HexWhy`. `Memory` may come at any point.
#[tactic(auto, using(crate::proofs::Verdicts::verdicts))]
pub fn read_hex(alloc: Global, text: &[u8]) -> Result<Image, HexError>
    requires { length text.now < 2 ^ 32 - 1 }

    // Ok with exactly the image of which the text is Intel HEX.
    ensures found { IfOk result (λ image. IsHexOf text.now image) }
    ensures only { (image : FinMap nat_cmp ℕ) → IsHexOf text.now image → GivesHex result (Ok image) }

    // Refused exactly with the first fault.
    ensures first { IfErr result (λ e. (e.why ≡ HexWhy.Memory) ⊎ IsFirstFault text.now e.line e.why) }
    ensures faulty { (line : ℕ) (why : HexWhy) → IsFirstFault text.now line why → GivesHex result (Err (line, why)) }

    // The same, as a function of the text.
    ensures exact { GivesHex result (text_read text.now) }
{
    read_text(alloc, text)
}
