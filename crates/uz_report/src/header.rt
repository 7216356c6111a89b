//! The head of a WAVE file.

ghost use Rattle.std.specs.Prelude.{◌≡◌, ◌<◌, ◌^◌};
ghost use Rattle.uz_report.specs.Waves.{data_part, format_part, header_bytes, riff_part};

use byteorder::{ByteOrder, LittleEndian};

/// The rate of NTSC lines, a second.
const LINE_RATE: u32 = 15_734;

/// RIFF: how many bytes follow, an even number, and that they are a WAVE.
fn riff(samples: u32) -> [u8; 12]
    requires { samples < 2 ^ 30 }
    ensures { result ≡ riff_part samples }
{
    let mut part = *b"RIFF\0\0\0\0WAVE";
    LittleEndian::write_u32(&mut part[4..8], 36 + samples + samples % 2);
    part
}

/// The form of the samples: PCM, one channel, 8 bits, one a line.
fn format() -> [u8; 24]
    ensures { result ≡ format_part }
{
    let mut part = *b"fmt \0\0\0\0\0\0\0\0\0\0\0\0\0\0\0\0\0\0\0\0";
    LittleEndian::write_u32(&mut part[4..8], 16);
    LittleEndian::write_u16(&mut part[8..10], 1);
    LittleEndian::write_u16(&mut part[10..12], 1);
    LittleEndian::write_u32(&mut part[12..16], LINE_RATE);
    LittleEndian::write_u32(&mut part[16..20], LINE_RATE);
    LittleEndian::write_u16(&mut part[20..22], 1);
    LittleEndian::write_u16(&mut part[22..24], 8);
    part
}

/// That so many bytes of samples follow.
fn data(samples: u32) -> [u8; 8]
    ensures { result ≡ data_part samples }
{
    let mut part = *b"data\0\0\0\0";
    LittleEndian::write_u32(&mut part[4..8], samples);
    part
}

/// The 44 bytes before the samples of a sound file with so many of them, one byte a line, 15,734 a second. Where their
/// number is odd, a byte 0 follows them, which the first length counts. Takes no memory.
pub fn wave_header(samples: u32) -> [u8; 44]
    requires { samples < 2 ^ 30 }
    ensures { result ≡ header_bytes samples }
{
    let mut header = [0; 44];
    header[..12].copy_from_slice(&riff(samples));
    header[12..36].copy_from_slice(&format());
    header[36..].copy_from_slice(&data(samples));
    header
}
