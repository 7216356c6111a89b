//! A place of files by name.

ghost use Rattle.std.specs.Prelude.{◌≡◌, ◌⊎◌, ℕ, ◌≤◌, IfOk, IsErrOf, IsSome, None, OnErr, OnOk, Some, vec_len};

use crate::errors::{LoadError, WriteError};
use std::alloc::Global;

/// Files that are loaded whole, and written one at a time in pieces.
pub trait Shelf {
    ghost use Rattle.std.specs.Prelude.{List, Option};
    ghost use Rattle.uz_shelf.specs.Files.{AppendsAll, AppendsPrefix, Creates, CreatesOrKeeps, FileMap, HoldsFile, HoldsLonger, LacksFile};
    ghost use Rattle.uz_shelf.specs.Faults.{Rose};

    /// The bytes of each file by its name, where the shelf tells them.
    ghost files: { Self → Option FileMap };

    /// The name of the file that is open for writing, if one is.
    ghost open_file: { Self → Option (List ℕ) };

    /// How many faults loading has met. It never falls, and stands still at 2^64 - 1.
    ghost load_faults: { Self → ℕ };

    /// How many faults creating and appending have met. It never falls, and stands still at 2^64 - 1.
    ghost write_faults: { Self → ℕ };

    /// The bytes of the named file, of which there may be at most `limit`.
    ///
    /// `Failed` comes only where the count of load faults rose in this call, or where the shelf tells its
    /// files and holds none of that name. Where the files are told, `TooLong` comes only where the held
    /// file has more than `limit` bytes. `Memory` may come at any time. The files, the open file and the
    /// count of write faults stay.
    fn load(&mut self, alloc: Global, name: &str, limit: u32) -> Result<Vec<u8>, LoadError>
        ensures held { IfOk result (λ bytes. HoldsFile (files self.old) name.now bytes.items) }
        ensures limit { IfOk result (λ bytes. vec_len bytes ≤ limit) }
        ensures failed { IsErrOf result LoadError.Failed → Rose (load_faults self.old) (load_faults self.new)
            ⊎ LacksFile (files self.old) name.now }
        ensures too_long { IsErrOf result LoadError.TooLong → HoldsLonger (files self.old) name.now limit }
        ensures files { files self.new ≡ files self.old }
        ensures open_file { open_file self.new ≡ open_file self.old }
        ensures load_faults { load_faults self.old ≤ load_faults self.new }
        ensures write_faults { write_faults self.new ≡ write_faults self.old };

    /// Makes the named file empty and open for writing. A file that was open is closed.
    ///
    /// `Failed` comes only where the count of write faults rose in this call, and `Memory` may come at any
    /// time. After either the named file is as it was or empty, and no file is open. All other files stay,
    /// whatever the answer, and so does the count of load faults.
    fn create(&mut self, alloc: Global, name: &str) -> Result<(), WriteError>
        ensures ok { OnOk result (Creates (files self.old) name.now (files self.new)) }
        ensures open { OnOk result (open_file self.new ≡ Some name.now) }
        ensures err { OnErr result (CreatesOrKeeps (files self.old) name.now (files self.new)) }
        ensures closed { OnErr result (open_file self.new ≡ None) }
        ensures failed { IsErrOf result WriteError.Failed → Rose (write_faults self.old) (write_faults self.new) }
        ensures load_faults { load_faults self.new ≡ load_faults self.old }
        ensures write_faults { write_faults self.old ≤ write_faults self.new };

    /// Adds a piece at the end of the open file.
    ///
    /// `Failed` comes only where the count of write faults rose in this call, and `Memory` may come at any
    /// time. After either a prefix of the piece was added. The file stays open and all other files stay,
    /// whatever the answer, and so does the count of load faults.
    fn append(&mut self, alloc: Global, piece: &[u8]) -> Result<(), WriteError>
        requires { IsSome (open_file self.old) }
        ensures ok { OnOk result (AppendsAll (files self.old) (open_file self.old) piece.now (files self.new)) }
        ensures err { OnErr result (AppendsPrefix (files self.old) (open_file self.old) piece.now (files self.new)) }
        ensures failed { IsErrOf result WriteError.Failed → Rose (write_faults self.old) (write_faults self.new) }
        ensures open_file { open_file self.new ≡ open_file self.old }
        ensures load_faults { load_faults self.new ≡ load_faults self.old }
        ensures write_faults { write_faults self.old ≤ write_faults self.new };
}
