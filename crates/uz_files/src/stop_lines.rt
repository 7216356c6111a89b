//! The line of a run that is stopped.

ghost use Rattle.std.specs.Prelude.{◌≡◌, IfOk};
ghost use Rattle.uz_files.specs.StopLines.{stopped_at_line, stopped_line, stopping_word};

use crate::put_value;
use std::alloc::{AllocError, Global};
use uz_core::Why;
use uz_hex::word_digits;

fn word_of(why: Why) -> u16
    ensures { result ≡ stopping_word why }
{
    match why {
        Why::Opcode(word) => word,
        Why::Spm => 0x95E8,
    }
}

/// The line of a run that is stopped at a word address, with the word there.
pub fn stop_line_at(alloc: Global, pc: u16, word: u16) -> Result<Vec<u8>, AllocError>
    ensures { IfOk result (λ line. line.items ≡ stopped_at_line pc word) }
{
    let mut line = Vec::new(alloc);
    put_value(&mut line, b"stopped pc 0x", &word_digits(pc))?;
    put_value(&mut line, b" word 0x", &word_digits(word))?;
    line.extend_from_slice(b"\n")?;
    Ok(line)
}

/// The line of a run that is stopped, by the reason.
pub fn stop_line(alloc: Global, pc: u16, why: Why) -> Result<Vec<u8>, AllocError>
    ensures { IfOk result (λ line. line.items ≡ stopped_line pc why) }
{
    stop_line_at(alloc, pc, word_of(why))
}
