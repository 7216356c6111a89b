//! Reads and writes of real files and outputs that a signal doesn't end.

ghost use Rattle.std.specs.Prelude.{◌≤◌, IfOk, IsErrOf, length};
ghost use Rattle.std.specs.Io.KnownBytes.{ReadConsumes, WriteAppends};

use crate::errors::{LoadError, WriteError};
use std::io::{ErrorKind, Read, Write};

/// As `read`, but tried again where a signal interrupts it. Any other `Err` is `Failed`, and then no byte
/// was read.
pub(crate) fn read<F: Read>(file: &mut F, buffer: &mut [u8]) -> Result<usize, LoadError>
    ensures bound { IfOk result (λ count. count ≤ length buffer.old) }
    ensures bytes { ReadConsumes (F.remaining file.old) (F.remaining file.new) result buffer.new }
    ensures unlimited { IsErrOf result LoadError.TooLong → ⊥ }
{
    'tries: for _ in 0..u64::MAX {
        match file.read(buffer) {
            Ok(count) => return Ok(count),
            Err(error) if error.kind() == ErrorKind::Interrupted => {}
            Err(_) => return Err(LoadError::Failed),
        }
    }
    Err(LoadError::Failed)
}

/// As `write`, but tried again where a signal interrupts it. Any other `Err` is `Failed`, and then no byte
/// was written.
pub(crate) fn write<W: Write>(out: &mut W, piece: &[u8]) -> Result<usize, WriteError>
    ensures bound { IfOk result (λ count. count ≤ length piece.now) }
    ensures bytes { WriteAppends (W.contents out.old) (W.contents out.new) result piece.now }
{
    'tries: for _ in 0..u64::MAX {
        match out.write(piece) {
            Ok(count) => return Ok(count),
            Err(error) if error.kind() == ErrorKind::Interrupted => {}
            Err(_) => return Err(WriteError::Failed),
        }
    }
    Err(WriteError::Failed)
}
