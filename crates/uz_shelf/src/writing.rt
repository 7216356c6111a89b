//! Writing a whole piece to a real output.

ghost use Rattle.std.specs.Prelude.{◌<◌, ℕ, IsErrOf, OnErr, OnOk, length, take};
ghost use Rattle.std.specs.Io.KnownBytes.{Appends};

use crate::errors::WriteError;
use crate::transfers;
use std::io::Write;

/// Writes the piece in as many steps as the output takes for it. An `Err` of the output, and a step that
/// takes no byte, end it with `Failed`, so that no empty piece fails. Where the output tells its bytes, they grow by the whole piece, and
/// by a prefix of it where this fails.
pub(crate) fn write_piece<W: Write>(out: &mut W, piece: &[u8]) -> Result<(), WriteError>
    ensures ok { OnOk result (Appends (W.contents out.old) (W.contents out.new) piece.now) }
    ensures err { OnErr result ((count : ℕ) × Appends (W.contents out.old) (W.contents out.new) (take count piece.now)) }
    ensures some { OnErr result (0 < length piece.now) }
    ensures memory { IsErrOf result WriteError.Memory → ⊥ }
{
    let mut done = 0;
    while done < piece.len() {
        match transfers::write(out, &piece[done..]) {
            Ok(0) | Err(_) => return Err(WriteError::Failed),
            Ok(count) => done += count,
        }
    }
    Ok(())
}
