//! Ended lines and frames, and their records.

ghost use Rattle.std.specs.Prelude.{◌≡◌};
ghost use Rattle.uz_scan.specs.Pictures.{end_bytes, row_bytes, row_head};

use byteorder::{ByteOrder, LittleEndian};

/// A line that has ended.
#[derive(Clone, Copy)]
pub struct LineInfo {
    /// The frame that it belongs to, counted from 1. 0 means that no frame has begun.
    pub frame: u64,
    /// Its place in the frame, counted from 0, modulo 2^64; 0 before the first frame.
    pub row: u64,
    /// Clocks from its fall to the next fall.
    pub length: u64,
    /// Clocks from its fall to its rise.
    pub low: u64,
    /// The sound value at its end.
    pub sound: u8,
}

/// A frame that has ended.
#[derive(Clone, Copy)]
pub struct FrameInfo {
    /// Its number, counted from 1.
    pub frame: u64,
    /// How many lines it has, modulo 2^64.
    pub rows: u64,
}

fn row_head(row: u64) -> [u8; 5]
    ensures { result ≡ row_head row }
{
    let mut head = [0; 5];
    head[0] = 0x52;
    LittleEndian::write_u16(&mut head[1..], (row % 65536) as u16);
    LittleEndian::write_u16(&mut head[3..], 455);
    head
}

/// The record of a line: 0x52, its row and its width 455 as 16-bit words, low byte first, 455 samples, the sound.
/// The row is counted modulo 65,536.
pub fn row_record(info: &LineInfo, row: &[u8; 455]) -> [u8; 461]
    ensures { result ≡ row_bytes info.now row.now }
{
    let mut record = [0; 461];
    record[..5].copy_from_slice(&row_head(info.row));
    record[5..460].copy_from_slice(row);
    record[460] = info.sound;
    record
}

/// The record of a frame's end: 0x46, its number and its rows as 16-bit words, low byte first, each modulo 65,536.
pub fn end_record(info: &FrameInfo) -> [u8; 5]
    ensures { result ≡ end_bytes info.now }
{
    let mut record = [0; 5];
    record[0] = 0x46;
    LittleEndian::write_u16(&mut record[1..], (info.frame % 65536) as u16);
    LittleEndian::write_u16(&mut record[3..], (info.rows % 65536) as u16);
    record
}
