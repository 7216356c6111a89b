//! Files in memory, whose calls meet no fault.

ghost use Rattle.std.specs.Prelude.{◌≡◌, ◌<◌, ◌≤◌, List, ℕ, IfOk, IsErrOf, IsSome, None, OnErr, OnOk, Some, [], length, option_map, vec_len};
ghost use Rattle.std.specs.FinMap as finmap;
ghost use Rattle.uz_shelf.specs.Files.{AppendsAll, AppendsPrefix};
ghost use Rattle.uzebox_c.specs.Held.{bytes_of, files_of, given_files, map_of, open_in};

use std::alloc::{AllocError, Global};
use uz_shelf::{LoadError, Shelf, WriteError};

/// A file that was handed in.
#[derive(Clone, Copy)]
pub(crate) struct Given<'a> {
    pub name: &'a [u8],
    pub bytes: &'a [u8],
}

/// A file, and whether it is open for writing, as only the first can be.
#[derive(Drop)]
pub(crate) struct Held {
    pub name: Vec<u8>,
    pub bytes: Vec<u8>,
    pub is_open: bool,
}

/// Files by name, of which the first of a name counts.
#[derive(Drop)]
pub(crate) struct HeldFiles {
    files: Vec<Held>,
}

/// The bytes of the first file of that name.
pub(crate) fn bytes_under<'a>(files: &'a [Held], name: &[u8]) -> Option<&'a [u8]>
    ensures { option_map (λ bytes. bytes.now) result ≡ bytes_of (files_of files.now) name.now }
{
    for file in files {
        if name == file.name.as_slice() {
            return Some(file.bytes.as_slice());
        }
    }
    None
}

/// A copy of a file's bytes, if there is one and it isn't too long.
fn copy_of(alloc: Global, bytes: Option<&[u8]>, limit: u32) -> Result<Vec<u8>, LoadError>
    ensures held { IfOk result (λ copy. option_map (λ b. b.now) bytes.entry ≡ Some copy.items) }
    ensures limit { IfOk result (λ copy. vec_len copy ≤ limit) }
    ensures failed { IsErrOf result LoadError.Failed → option_map (λ b. b.now) bytes.entry ≡ None }
    ensures too_long { IsErrOf result LoadError.TooLong → (all : List ℕ) × (option_map (λ b. b.now) bytes.entry ≡ Some all)
        × (limit < length all) }
{
    match bytes {
        None => Err(LoadError::Failed),
        Some(bytes) => {
            if bytes.len() > limit as usize {
                return Err(LoadError::TooLong);
            }
            Ok(bytes.to_vec(alloc)?)
        }
    }
}

/// Closes the first file, if there is one.
fn close_first(files: &mut Vec<Held>)
    ensures files { files_of files.new.items ≡ files_of files.old.items }
    ensures open { open_in files.new.items ≡ None }
{
    if !files.is_empty() {
        let first = &mut files[0];
        first.is_open = false;
    }
}

/// Adds an empty file of that name in front, which is open.
fn open_first(files: &mut Vec<Held>, alloc: Global, name: &[u8]) -> Result<(), AllocError>
    ensures ok { OnOk result (map_of (files_of files.new.items) ≡ finmap.insert (map_of (files_of files.old.items)) name.now []) }
    ensures open { OnOk result (open_in files.new.items ≡ Some name.now) }
    ensures err { OnErr result (files.new.items ≡ files.old.items) }
{
    let name = name.to_vec(alloc)?;
    let created = Held {
        name,
        bytes: Vec::new(alloc),
        is_open: true,
    };
    files.insert(0, created)?;
    Ok(())
}

/// Adds bytes at the end of the open file.
fn extend_first(files: &mut Vec<Held>, piece: &[u8]) -> Result<(), AllocError>
    requires { IsSome (open_in files.old.items) }
    ensures ok { OnOk result (AppendsAll (Some (map_of (files_of files.old.items))) (open_in files.old.items) piece.now
        (Some (map_of (files_of files.new.items)))) }
    ensures err { OnErr result (AppendsPrefix (Some (map_of (files_of files.old.items))) (open_in files.old.items) piece.now
        (Some (map_of (files_of files.new.items)))) }
    ensures open { open_in files.new.items ≡ open_in files.old.items }
{
    let first = &mut files[0];
    first.bytes.extend_from_slice(piece)
}

impl HeldFiles {
    ghost use Rattle.uzebox_c.specs.Held.{held_files, held_open};

    /// The files that were handed in.
    pub fn new(alloc: Global, given: &[Given<'_>]) -> Result<HeldFiles, AllocError>
        ensures files { IfOk result (λ held. held_files held ≡ given_files given.now) }
        ensures open { IfOk result (λ held. held_open held ≡ None) }
    {
        let mut files = Vec::new(alloc);
        for file in given {
            files.push(Held {
                name: file.name.to_vec(alloc)?,
                bytes: file.bytes.to_vec(alloc)?,
                is_open: false,
            })?;
        }
        Ok(HeldFiles { files })
    }

    /// The bytes of the file of that name, and None exactly where there is none.
    #[tactic(auto, using(crate::proofs::HeldLaws::get_named))]
    fn file(&self, name: &str) -> Option<&[u8]>
        ensures { option_map (λ bytes. bytes.now) result ≡ finmap.get (map_of (held_files self.now)) name.now }
    {
        bytes_under(self.files.as_slice(), name.as_bytes())
    }

    /// All files, the newest first.
    pub fn all(&self) -> &[Held]
        ensures { files_of result.now ≡ held_files self.now }
    {
        self.files.as_slice()
    }
}

impl Shelf for HeldFiles {
    ghost use Rattle.uzebox_c.specs.Held.{held_open, told_files};

    ghost files = { told_files };

    ghost open_file = { held_open };

    ghost load_faults = { λ held. 0 };

    ghost write_faults = { λ held. 0 };

    fn load(&mut self, alloc: Global, name: &str, limit: u32) -> Result<Vec<u8>, LoadError> {
        copy_of(alloc, self.file(name), limit)
    }

    fn create(&mut self, alloc: Global, name: &str) -> Result<(), WriteError> {
        close_first(&mut self.files);
        open_first(&mut self.files, alloc, name.as_bytes())?;
        Ok(())
    }

    fn append(&mut self, _alloc: Global, piece: &[u8]) -> Result<(), WriteError> {
        extend_first(&mut self.files, piece)?;
        Ok(())
    }
}
