//! The records of Intel HEX.

ghost use Rattle.std.specs.Prelude.{◌≡◌, ◌≤◌, ◌+◌, ◌/◌, IsTrue, IfOk, IfErr, take, length, sum, slice_index};
ghost use Rattle.std.specs.List.{list_all};
ghost use Rattle.hex.specs.Hex.{is_hex_digit, decode_of};
ghost use Rattle.uz_hex.specs.Reading.{bytes_of, bytes_of_digits, counted, type_of as type_of_code};
ghost use Rattle.uz_hex.specs.Reading.{has_length as length_fits, kind_of as kind_of_bytes};

use crate::errors::HexWhy;

/// What a record is, by its record type, 00 to 05.
#[derive(Clone, Copy)]
pub enum RecordType {
    /// 00: data bytes at the base plus the load offset.
    Data,
    /// 01: the end; what follows is ignored.
    EndOfFile,
    /// 02: sets the base to its value times 16.
    ExtendedSegment,
    /// 03: a start address, checked and not used.
    StartSegment,
    /// 04: sets the base to its value times 65,536.
    ExtendedLinear,
    /// 05: a start address, checked and not used.
    StartLinear,
}

/// How reading goes on after a line.
#[derive(Clone, Copy)]
pub enum Progress {
    /// With the next line, at this base.
    More(u32),
    /// Not at all, since the end record came.
    Ended,
}

/// How many bytes a record has at most: length, load offset, type, 255 data bytes and checksum.
pub const RECORD_BYTES: usize = 260;

fn all_digits(digits: &[u8]) -> bool
    ensures { result ≡ list_all is_hex_digit digits.now }
{
    digits.iter().all(|digit| digit.is_ascii_hexdigit())
}

/// Decodes pairs of digits into room for them, whose first byte has to be the record length.
fn decode_pairs(digits: &[u8], room: &mut [u8]) -> Result<(), HexWhy>
    requires { length room.old ≡ length digits.now / 2 }
    ensures ok { IfOk result (λ _. counted (decode_of digits.now) ≡ Ok room.new) }
    ensures err { IfErr result (λ why. counted (decode_of digits.now) ≡ Err why) }
{
    if hex::decode_to_slice(digits, room).is_err() {
        return Err(HexWhy::Short);
    }
    if room.is_empty() || usize::from(room[0]) + 5 != room.len() {
        return Err(HexWhy::Short);
    }
    Ok(())
}

/// Decodes the digits of a record into the front of `buffer`, and answers how many bytes it has.
#[tactic(auto, using(crate::proofs::RecordSteps::counted_long))]
fn decode_digits(digits: &[u8], buffer: &mut [u8; RECORD_BYTES]) -> Result<usize, HexWhy>
    ensures fits { IfOk result (λ n. n ≤ 260) }
    ensures ok { IfOk result (λ n. bytes_of_digits digits.now ≡ Ok (take n buffer.new)) }
    ensures err { IfErr result (λ why. bytes_of_digits digits.now ≡ Err why) }
{
    if !all_digits(digits) {
        return Err(HexWhy::BadDigit);
    }
    let count = digits.len() / 2;
    if count > RECORD_BYTES {
        return Err(HexWhy::Short);
    }
    decode_pairs(digits, &mut buffer[..count])?;
    Ok(count)
}

/// Decodes a record's line into the front of `buffer`, and answers how many bytes it has.
pub fn decode_line(line: &[u8], buffer: &mut [u8; RECORD_BYTES]) -> Result<usize, HexWhy>
    ensures fits { IfOk result (λ n. n ≤ 260) }
    ensures ok { IfOk result (λ n. bytes_of line.now ≡ Ok (take n buffer.new)) }
    ensures err { IfErr result (λ why. bytes_of line.now ≡ Err why) }
{
    match line {
        [b':', digits @ ..] => decode_digits(digits, buffer),
        _ => Err(HexWhy::NoColon),
    }
}

fn type_of(code: u8) -> Option<RecordType>
    ensures { result ≡ type_of_code code }
{
    match code {
        0 => Some(RecordType::Data),
        1 => Some(RecordType::EndOfFile),
        2 => Some(RecordType::ExtendedSegment),
        3 => Some(RecordType::StartSegment),
        4 => Some(RecordType::ExtendedLinear),
        5 => Some(RecordType::StartLinear),
        _ => None,
    }
}

fn has_length(kind: RecordType, count: u8) -> bool
    ensures { result ≡ length_fits kind count }
{
    match kind {
        RecordType::Data => true,
        RecordType::EndOfFile => count == 0,
        RecordType::ExtendedSegment | RecordType::ExtendedLinear => count == 2,
        RecordType::StartSegment | RecordType::StartLinear => count == 4,
    }
}

/// The sum of a record's bytes.
fn sum_of(bytes: &[u8]) -> u32
    requires { length bytes.now ≤ 260 }
    ensures { result ≡ sum bytes.now }
{
    bytes.iter().map(|byte| u32::from(*byte)).sum()
}

/// Checks the checksum, the type and the length of a record's bytes.
pub fn kind_of(bytes: &[u8]) -> Result<RecordType, HexWhy>
    requires room { length bytes.now ≤ 260 }
    requires counted { slice_index bytes.now 0 + 5 ≡ length bytes.now }
    ensures fits { IfOk result (λ kind. IsTrue (length_fits kind (slice_index bytes.now 0))) }
    ensures exact { result ≡ kind_of_bytes bytes.now }
{
    if sum_of(bytes) % 256 != 0 {
        return Err(HexWhy::Sum);
    }
    match type_of(bytes[3]) {
        Some(kind) if has_length(kind, bytes[0]) => Ok(kind),
        Some(_) => Err(HexWhy::Length),
        None => Err(HexWhy::Kind),
    }
}
