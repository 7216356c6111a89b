//! Writing a file.

ghost use Rattle.std.specs.Prelude.{◌≡◌, ◌≤◌, IsErrOf, OnErr, OnOk, Some};
ghost use Rattle.uz_shelf.specs.Faults.{Rose};
ghost use Rattle.uz_files.specs.Answers.{WritesFile};
ghost use Rattle.uz_files.specs.Writing.{WritesSome};

use std::alloc::Global;
use uz_shelf::{Shelf, WriteError};

/// Writes a whole file, which stays open.
pub fn write_file<H: Shelf>(
    alloc: Global,
    shelf: &mut H,
    name: &str,
    bytes: &[u8],
) -> Result<(), WriteError>
    ensures ok { OnOk result (WritesFile (H.files shelf.old) name.now bytes.now (H.files shelf.new)) }
    ensures open { OnOk result (H.open_file shelf.new ≡ Some name.now) }
    ensures err { OnErr result (WritesSome (H.files shelf.old) name.now bytes.now (H.files shelf.new)) }
    ensures failed { IsErrOf result WriteError.Failed → Rose (H.write_faults shelf.old) (H.write_faults shelf.new) }
    ensures load_faults { H.load_faults shelf.new ≡ H.load_faults shelf.old }
    ensures write_faults { H.write_faults shelf.old ≤ H.write_faults shelf.new }
{
    match shelf.create(alloc, name) {
        Ok(()) => shelf.append(alloc, bytes),
        Err(error) => Err(error),
    }
}
