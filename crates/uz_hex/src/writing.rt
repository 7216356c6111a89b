//! Writing an image as Intel HEX.

ghost use Rattle.std.specs.Prelude.{◌≡◌, ℕ, ◌≤◌, ◌<◌, ◌+◌, ◌-◌, ◌%◌, sum, ◌++◌, ◌∷◌, [], List, IfOk, OnOk, length, codes};
ghost use Rattle.std.specs.Vec.{vec_len};
ghost use Rattle.uz_hex.specs.Cells.{held_from};
ghost use Rattle.uz_hex.specs.Records.{record_bytes};
ghost use Rattle.uz_hex.specs.Writing.{data_record, closed, goes_on as goes_on_record, cut};
ghost use Rattle.uz_hex.specs.Writing.{checksum_of as checksum_of_record, line_of, with_lf, lines_text, hex_text};
ghost use Rattle.uz_hex.specs.Writing.{records_of, IsCutOf};
ghost use Rattle.uz_hex.specs.HexText.{IsHexOf};

use crate::image::Image;
use std::alloc::{AllocError, Global};

/// How many data bytes a record has at most.
const DATA_BYTES: usize = 16;

/// The text so far, and the bytes that are to stand in its next record, from an address on.
#[derive(Drop)]
struct Writer {
    text: Vec<u8>,
    start: u16,
    bytes: Vec<u8>,
}

/// What brings the sum of bytes to 0 modulo 256.
fn checksum_of(bytes: &[u8]) -> u8
    requires { length bytes.now ≤ 20 }
    ensures { result ≡ (256 - sum bytes.now % 256) % 256 }
{
    let sum: u32 = bytes.iter().map(|byte| u32::from(*byte)).sum();
    ((256 - sum % 256) % 256) as u8
}

/// The bytes of a data record.
fn bytes_of(alloc: Global, start: u16, data: &[u8]) -> Result<Vec<u8>, AllocError>
    requires { length «data».now ≤ 16 }
    ensures { IfOk result (λ v. v.items ≡ record_bytes (data_record start «data».now) (checksum_of_record (data_record start «data».now))) }
{
    let mut bytes = Vec::with_capacity(alloc, data.len() + 5)?;
    let head = [
        data.len() as u8,
        (start / 256) as u8,
        (start % 256) as u8,
        0,
    ];
    bytes.extend_from_slice(&head)?;
    bytes.extend_from_slice(data)?;
    let checksum = checksum_of(bytes.as_slice());
    bytes.push(checksum)?;
    Ok(bytes)
}

/// Adds the line of these digits: the colon before them, and LF behind.
fn push_line(text: &mut Vec<u8>, digits: &[u8]) -> Result<(), AllocError>
    ensures { OnOk result (text.new.items ≡ text.old.items ++ with_lf (codes ":" ++ digits.now)) }
{
    text.push(b':')?;
    text.extend_from_slice(digits)?;
    text.push(b'\n')?;
    Ok(())
}

impl Writer {
    /// Whether a byte at this address goes on the record that is kept.
    fn goes_on(&self, at: u16) -> bool
        requires { self.now.start + vec_len self.now.bytes ≤ 65536 }
        ensures { result ≡ goes_on_record self.now.start self.now.bytes.items at }
    {
        usize::from(at) == usize::from(self.start) + self.bytes.len()
            && self.bytes.len() < DATA_BYTES
    }

    /// Writes the bytes that are kept as a record, if there are any, and keeps none.
    fn close(&mut self, alloc: Global) -> Result<(), AllocError>
        requires { vec_len self.old.bytes ≤ 16 }
        ensures text { OnOk result (self.new.text.items ≡ self.old.text.items ++ lines_text (closed self.old.start self.old.bytes.items)) }
        ensures bytes { OnOk result (self.new.bytes.items ≡ []) }
        ensures start { self.new.start ≡ self.old.start }
    {
        if self.bytes.is_empty() {
            return Ok(());
        }
        let bytes = bytes_of(alloc, self.start, self.bytes.as_slice())?;
        let digits = hex::encode_upper(alloc, bytes.as_slice())?;
        push_line(&mut self.text, digits.as_bytes())?;
        self.bytes.clear();
        Ok(())
    }

    /// Takes the next byte in the order of the addresses.
    fn take(&mut self, alloc: Global, at: u16, byte: u8) -> Result<(), AllocError>
        requires few { vec_len self.old.bytes ≤ 16 }
        requires before { self.old.start + vec_len self.old.bytes ≤ at }
        ensures few { OnOk result (vec_len self.new.bytes ≤ 16) }
        ensures after { OnOk result (self.new.start + vec_len self.new.bytes ≡ at + 1) }
        ensures text { OnOk result ((entries : List (ℕ × ℕ))
            → self.new.text.items ++ lines_text (cut self.new.start self.new.bytes.items entries)
            ≡ self.old.text.items ++ lines_text (cut self.old.start self.old.bytes.items ((at, byte) ∷ entries))) }
    {
        if self.goes_on(at) {
            self.bytes.push(byte)?;
            return Ok(());
        }
        self.close(alloc)?;
        self.start = at;
        self.bytes.push(byte)?;
        Ok(())
    }

    /// The text, with the bytes that are kept as a record, and with the end record.
    fn end(self, alloc: Global) -> Result<Vec<u8>, AllocError>
        requires { vec_len self.bytes ≤ 16 }
        ensures { IfOk result (λ v. v.items
            ≡ (self.text.items ++ lines_text (closed self.start self.bytes.items)) ++ with_lf (codes ":00000001FF")) }
    {
        let mut writer = self;
        writer.close(alloc)?;
        writer.text.extend_from_slice(b":00000001FF\n")?;
        Ok(writer.text)
    }
}

/// Writes the bytes of cells that stand from address 0 on.
fn write_cells(alloc: Global, cells: &[Option<u8>]) -> Result<Vec<u8>, AllocError>
    requires { length cells.now ≤ 65536 }
    ensures { IfOk result (λ v. v.items ≡ lines_text (cut 0 [] (held_from 0 cells.now)) ++ with_lf (codes ":00000001FF")) }
{
    let mut writer = Writer {
        text: Vec::new(alloc),
        start: 0,
        bytes: Vec::new(alloc),
    };
    for (at, cell) in cells.iter().enumerate() {
        if let Some(byte) = *cell {
            writer.take(alloc, at as u16, byte)?;
        }
    }
    writer.end(alloc)
}

/// Writes an image as Intel HEX: each run of present bytes, from its first address, in data
/// records of 16 bytes, in upper case, with LF, and the end record `:00000001FF`.
///
/// `read_hex` of the text gives an equal image.
#[tactic(auto, using(crate::proofs::Written::written, crate::proofs::CutLaws::records_cut))]
pub fn write_hex(alloc: Global, image: &Image) -> Result<Vec<u8>, AllocError>
    // The text, whole: the lines of these records, and the end record.
    ensures exact { IfOk result (λ text. text.items ≡ hex_text image.now) }

    // The records give the image's bytes in order, and only a run's last one may have fewer than 16.
    ensures cut { IsCutOf image.now (records_of image.now) }

    // Reading gives the image back.
    ensures reads_back { IfOk result (λ text. IsHexOf text.items image.now) }
    ensures short { IfOk result (λ text. vec_len text ≤ 1048576) }
{
    write_cells(alloc, image.cells())
}
