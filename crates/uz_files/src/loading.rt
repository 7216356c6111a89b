//! Loading a file, or the line that says why it can't be used.

ghost use Rattle.std.specs.Prelude.{◌≡◌, ◌≤◌, IfErr, IfOk, codes, vec_len};
ghost use Rattle.uz_shelf.specs.Faults.{Rose};
ghost use Rattle.uz_shelf.specs.Files.{HoldsFile};
ghost use Rattle.uz_files.specs.Endings.{EndsBy};
ghost use Rattle.uz_files.specs.Lines.{bad_line, unread_line};
ghost use Rattle.uz_files.specs.Reading.{IsUnloaded};

use crate::ending::Failure;
use crate::lines::{put_number, put_value};
use std::alloc::{AllocError, Global};
use uz_shelf::{LoadError, Shelf};

/// The limit of a source, a HEX text and a pad file, in bytes.
pub const TEXT_LIMIT: u32 = 1_048_576;

/// The limit of a certificate, in bytes.
pub(crate) const CERTIFICATE_LIMIT: u32 = 1_073_741_824;

/// The line of a file that couldn't be read.
pub fn unread(alloc: Global, name: &str) -> Result<Vec<u8>, AllocError>
    ensures { IfOk result (λ line. line.items ≡ unread_line name.now) }
{
    let mut line = Vec::new(alloc);
    put_value(&mut line, b"unread ", name.as_bytes())?;
    line.extend_from_slice(b"\n")?;
    Ok(line)
}

/// The line of a file that has a fault in the line of that number.
pub fn bad_input(alloc: Global, name: &str, number: u32, why: &str) -> Result<Vec<u8>, AllocError>
    ensures { IfOk result (λ line. line.items ≡ bad_line name.now number why.now) }
{
    let mut line = Vec::new(alloc);
    put_value(&mut line, b"bad ", name.as_bytes())?;
    put_number(&mut line, b" line ", u64::from(number))?;
    put_value(&mut line, b" ", why.as_bytes())?;
    line.extend_from_slice(b"\n")?;
    Ok(line)
}

/// The bytes of a file within its limit.
pub fn load<H: Shelf>(
    alloc: Global,
    shelf: &mut H,
    name: &str,
    limit: u32,
) -> Result<Vec<u8>, Failure>
    ensures held { IfOk result (λ bytes. HoldsFile (H.files shelf.old) name.now bytes.items) }
    ensures short { IfOk result (λ bytes. vec_len bytes ≤ limit) }
    ensures unloaded { IfErr result (EndsBy (IsUnloaded (H.files shelf.old)
        (Rose (H.load_faults shelf.old) (H.load_faults shelf.new)) name.now limit)) }
    ensures files { H.files shelf.new ≡ H.files shelf.old }
    ensures load_faults { H.load_faults shelf.old ≤ H.load_faults shelf.new }
    ensures write_faults { H.write_faults shelf.new ≡ H.write_faults shelf.old }
{
    match shelf.load(alloc, name, limit) {
        Ok(bytes) => Ok(bytes),
        Err(LoadError::Failed) => Err(Failure::Unread(unread(alloc, name)?)),
        Err(LoadError::TooLong) => Err(Failure::BadInput(bad_input(alloc, name, 0, "TooLong")?)),
        Err(LoadError::Memory) => Err(Failure::Memory),
    }
}
