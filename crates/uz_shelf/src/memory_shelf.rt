//! A shelf in memory. It tells its files, and its calls fail as planned.

ghost use Rattle.std.specs.Prelude.{◌≡◌, ◌≢◌, ◌⊎◌, ◌<◌, ◌≤◌, ◌↔◌, ℕ, List, length, IfOk, IfSome, IsErr, IsErrOf, IsSome, IsTrue};
ghost use Rattle.std.specs.Prelude.{None, OnErr, OnOk, Some, [], option_map, take, vec_len};
ghost use Rattle.std.specs.Prelude.{false};
ghost use Rattle.std.specs.FinMap as finmap;
ghost use Rattle.uz_shelf.specs.Files.{AppendsAll, AppendsPrefix};
ghost use Rattle.uz_shelf.specs.InMemory.{bytes_of, files_of, first_name, open_in};
ghost use Rattle.uz_shelf.specs.Planned.{kept_of};

use crate::errors::{LoadError, WriteError};
use crate::fail::{Fail, count_call};
use crate::shelf::Shelf;
use std::alloc::{AllocError, Global};

/// A file's name and bytes, and whether it is open for writing, as only the first of a shelf can be.
#[derive(Drop)]
struct File {
    name: Vec<u8>,
    bytes: Vec<u8>,
    is_open: bool,
}

/// Files in memory, and the faults that are planned for its calls.
///
/// A call is one of `load`, `create` and `append`, and calls are counted from 1. A planned fault raises
/// the count of load or write faults. A planned `load` or `create` leaves the files as they are, and a
/// planned `append` adds the first `keep` bytes of its piece. With no fault planned the counts stay at 0.
#[derive(Drop)]
pub struct MemoryShelf {
    files: Vec<File>,
    fails: Vec<Fail>,
    calls: u32,
    load_faults: u64,
    write_faults: u64,
}

/// The bytes of the first file of that name.
fn bytes_under<'a>(files: &'a [File], name: &str) -> Option<&'a [u8]>
    ensures { option_map (λ bytes. bytes.now) result ≡ bytes_of files.now name.now }
{
    for file in files {
        if name.as_bytes() == file.name.as_slice() {
            return Some(file.bytes.as_slice());
        }
    }
    None
}

/// Whether the first file has that name.
fn has_first(files: &[File], name: &str) -> bool
    ensures { IsTrue result ↔ (first_name files.now ≡ Some name.now) }
{
    match files {
        [first, ..] => first.name.as_slice() == name.as_bytes(),
        [] => false,
    }
}

/// Gives the first file other bytes.
fn replace_first(files: &mut Vec<File>, bytes: Vec<u8>)
    requires { 0 < vec_len files.old }
    ensures files { IfSome (first_name files.old.items)
        (λ name. files_of files.new.items ≡ finmap.insert (files_of files.old.items) name bytes.items) }
    ensures open { open_in files.new.items ≡ open_in files.old.items }
{
    let first = &mut files[0];
    first.bytes = bytes;
}

/// Adds a closed file, with another name than the first has, behind the first.
fn insert_behind_first(files: &mut Vec<File>, file: File) -> Result<(), AllocError>
    requires closed { file.is_open ≡ false }
    requires other { first_name files.old.items ≢ Some file.name.items }
    ensures ok { OnOk result (files_of files.new.items ≡ finmap.insert (files_of files.old.items) file.name.items file.bytes.items) }
    ensures err { OnErr result (files.new.items ≡ files.old.items) }
    ensures open { open_in files.new.items ≡ open_in files.old.items }
{
    if files.is_empty() {
        files.push(file)?;
    } else {
        files.insert(1, file)?;
    }
    Ok(())
}

/// Closes the first file, if there is one.
fn close_first(files: &mut Vec<File>)
    ensures files { files_of files.new.items ≡ files_of files.old.items }
    ensures open { open_in files.new.items ≡ None }
{
    if !files.is_empty() {
        let first = &mut files[0];
        first.is_open = false;
    }
}

/// Adds bytes at the end of the open file.
fn extend_first(files: &mut Vec<File>, piece: &[u8]) -> Result<(), AllocError>
    requires { IsSome (open_in files.old.items) }
    ensures ok { OnOk result (AppendsAll (Some (files_of files.old.items)) (open_in files.old.items) piece.now
        (Some (files_of files.new.items))) }
    ensures err { OnErr result (AppendsPrefix (Some (files_of files.old.items)) (open_in files.old.items) piece.now
        (Some (files_of files.new.items))) }
    ensures open { open_in files.new.items ≡ open_in files.old.items }
{
    let first = &mut files[0];
    first.bytes.extend_from_slice(piece)
}

/// Adds the piece at the end of the open file, or as much of it as a planned fault keeps.
fn extend_as_planned(
    files: &mut Vec<File>,
    piece: &[u8],
    planned: Option<Fail>,
) -> Result<(), WriteError>
    requires { IsSome (open_in files.old.items) }
    ensures ok { OnOk result (AppendsAll (Some (files_of files.old.items)) (open_in files.old.items) piece.now
        (Some (files_of files.new.items))) }
    ensures err { OnErr result (AppendsPrefix (Some (files_of files.old.items)) (open_in files.old.items) piece.now
        (Some (files_of files.new.items))) }
    ensures planned { IsSome planned → IsErr result }
    ensures unplanned { IsErrOf result WriteError.Failed → IsSome planned }
    ensures kept { IsErrOf result WriteError.Failed → AppendsAll (Some (files_of files.old.items)) (open_in files.old.items)
        (kept_of planned piece.now) (Some (files_of files.new.items)) }
    ensures open { open_in files.new.items ≡ open_in files.old.items }
{
    match planned {
        Some(fail) => {
            let keep = piece.len().min(fail.keep as usize);
            extend_first(files, &piece[..keep])?;
            Err(WriteError::Failed)
        }
        None => {
            extend_first(files, piece)?;
            Ok(())
        }
    }
}

/// Adds an empty file of that name in front, which is open.
fn open_first(files: &mut Vec<File>, alloc: Global, name: &str) -> Result<(), WriteError>
    ensures ok { OnOk result (files_of files.new.items ≡ finmap.insert (files_of files.old.items) name.now []) }
    ensures open { OnOk result (open_in files.new.items ≡ Some name.now) }
    ensures err { OnErr result (files.new.items ≡ files.old.items) }
    ensures memory { IsErrOf result WriteError.Failed → ⊥ }
{
    let name = name.as_bytes().to_vec(alloc)?;
    let created = File {
        name,
        bytes: Vec::new(alloc),
        is_open: true,
    };
    files.insert(0, created)?;
    Ok(())
}

impl MemoryShelf {
    ghost use Rattle.uz_shelf.specs.InMemory.{calls_of, held_files, held_open, load_faults_of, plan_of, write_faults_of};

    /// A shelf that holds no file, with those faults planned.
    pub fn new(alloc: Global, fails: &[Fail]) -> Result<MemoryShelf, AllocError>
        ensures files { IfOk result (λ shelf. held_files shelf ≡ finmap.empty) }
        ensures open { IfOk result (λ shelf. held_open shelf ≡ None) }
        ensures plan { IfOk result (λ shelf. plan_of shelf ≡ fails.now) }
        ensures calls { IfOk result (λ shelf. calls_of shelf ≡ 0) }
        ensures load_faults { IfOk result (λ shelf. load_faults_of shelf ≡ 0) }
        ensures write_faults { IfOk result (λ shelf. write_faults_of shelf ≡ 0) }
    {
        Ok(MemoryShelf {
            files: Vec::new(alloc),
            fails: fails.to_vec(alloc)?,
            calls: 0,
            load_faults: 0,
            write_faults: 0,
        })
    }

    /// Sets a file, new or not, to those bytes. It is no call that a planned fault counts. An open file
    /// stays open. Refused, it changes nothing.
    pub fn add(&mut self, alloc: Global, name: &str, bytes: &[u8]) -> Result<(), AllocError>
        ensures ok { OnOk result (held_files self.new ≡ finmap.insert (held_files self.old) name.now bytes.now) }
        ensures err { OnErr result (held_files self.new ≡ held_files self.old) }
        ensures open { held_open self.new ≡ held_open self.old }
        ensures plan { plan_of self.new ≡ plan_of self.old }
        ensures calls { calls_of self.new ≡ calls_of self.old }
        ensures load_faults { load_faults_of self.new ≡ load_faults_of self.old }
        ensures write_faults { write_faults_of self.new ≡ write_faults_of self.old }
    {
        let bytes = bytes.to_vec(alloc)?;
        if has_first(self.files.as_slice(), name) {
            replace_first(&mut self.files, bytes);
            return Ok(());
        }
        let name = name.as_bytes().to_vec(alloc)?;
        insert_behind_first(
            &mut self.files,
            File {
                name,
                bytes,
                is_open: false,
            },
        )
    }

    /// The bytes of the file of that name. `None` exactly where no such file is held. Takes no memory.
    #[tactic(auto, using(crate::proofs::HeldLemmas::get_files))]
    pub fn file(&self, name: &str) -> Option<&[u8]>
        ensures { option_map (λ bytes. bytes.now) result ≡ finmap.get (held_files self.now) name.now }
    {
        bytes_under(self.files.as_slice(), name)
    }

    /// A copy of a file's bytes, where there is one and it isn't too long.
    fn copy_of(alloc: Global, bytes: Option<&[u8]>, limit: u32) -> Result<Vec<u8>, LoadError>
        ensures held { IfOk result (λ copy. option_map (λ b. b.now) bytes.entry ≡ Some copy.items) }
        ensures limit { IfOk result (λ copy. vec_len copy ≤ limit) }
        ensures failed { IsErrOf result LoadError.Failed → option_map (λ b. b.now) bytes.entry ≡ None }
        ensures too_long { IsErrOf result LoadError.TooLong → (all : List ℕ) × (option_map (λ b. b.now) bytes.entry ≡ Some all)
            × (limit < length all) }
    {
        match bytes {
            None => Err(LoadError::Failed),
            Some(bytes) => {
                if bytes.len() > limit as usize {
                    return Err(LoadError::TooLong);
                }
                Ok(bytes.to_vec(alloc)?)
            }
        }
    }
}

impl Shelf for MemoryShelf {
    ghost use Rattle.uz_shelf.specs.Faults.{Rose, next_call};
    ghost use Rattle.uz_shelf.specs.Files.{AppendsAll, AppendsPrefix, Creates, CreatesOrKeeps, HoldsFile, HoldsLonger, LacksFile};
    ghost use Rattle.uz_shelf.specs.InMemory.{calls_of, held_open, load_faults_of, plan_of, told_files, write_faults_of};
    ghost use Rattle.uz_shelf.specs.Planned.{counted, planned_fail};

    ghost files = { told_files };

    ghost open_file = { held_open };

    ghost load_faults = { load_faults_of };

    ghost write_faults = { write_faults_of };

    fn load(&mut self, alloc: Global, name: &str, limit: u32) -> Result<Vec<u8>, LoadError>
        ensures held { IfOk result (λ bytes. HoldsFile (told_files self.old) name.now bytes.items) }
        ensures limit { IfOk result (λ bytes. vec_len bytes ≤ limit) }
        ensures failed { IsErrOf result LoadError.Failed → Rose (load_faults_of self.old) (load_faults_of self.new)
            ⊎ LacksFile (told_files self.old) name.now }
        ensures too_long { IsErrOf result LoadError.TooLong → HoldsLonger (told_files self.old) name.now limit }
        ensures files { told_files self.new ≡ told_files self.old }
        ensures open_file { held_open self.new ≡ held_open self.old }
        ensures load_faults { load_faults_of self.old ≤ load_faults_of self.new }
        ensures write_faults { write_faults_of self.new ≡ write_faults_of self.old }

        // A planned fault fails, and nothing else raises the count.
        ensures planned { IsSome (planned_fail (plan_of self.old) (calls_of self.old)) → IsErrOf result LoadError.Failed }
        ensures counted { load_faults_of self.new ≡ counted (planned_fail (plan_of self.old) (calls_of self.old))
            (load_faults_of self.old) }
        ensures plan { plan_of self.new ≡ plan_of self.old }
        ensures calls { calls_of self.new ≡ next_call (calls_of self.old) }
    {
        if count_call(
            self.fails.as_slice(),
            &mut self.calls,
            &mut self.load_faults,
        )
        .is_some()
        {
            return Err(LoadError::Failed);
        }
        MemoryShelf::copy_of(alloc, self.file(name), limit)
    }

    fn create(&mut self, alloc: Global, name: &str) -> Result<(), WriteError>
        ensures ok { OnOk result (Creates (told_files self.old) name.now (told_files self.new)) }
        ensures open { OnOk result (held_open self.new ≡ Some name.now) }
        ensures err { OnErr result (CreatesOrKeeps (told_files self.old) name.now (told_files self.new)) }
        ensures closed { OnErr result (held_open self.new ≡ None) }
        ensures failed { IsErrOf result WriteError.Failed → Rose (write_faults_of self.old) (write_faults_of self.new) }
        ensures load_faults { load_faults_of self.new ≡ load_faults_of self.old }
        ensures write_faults { write_faults_of self.old ≤ write_faults_of self.new }

        // It fails exactly where a fault is planned, and then the files stay. Nothing else raises the count.
        ensures planned { IsSome (planned_fail (plan_of self.old) (calls_of self.old)) → IsErrOf result WriteError.Failed }
        ensures unplanned { IsErrOf result WriteError.Failed → IsSome (planned_fail (plan_of self.old) (calls_of self.old)) }
        ensures kept { OnErr result (told_files self.new ≡ told_files self.old) }
        ensures counted { write_faults_of self.new ≡ counted (planned_fail (plan_of self.old) (calls_of self.old))
            (write_faults_of self.old) }
        ensures plan { plan_of self.new ≡ plan_of self.old }
        ensures calls { calls_of self.new ≡ next_call (calls_of self.old) }
    {
        close_first(&mut self.files);
        if count_call(
            self.fails.as_slice(),
            &mut self.calls,
            &mut self.write_faults,
        )
        .is_some()
        {
            return Err(WriteError::Failed);
        }
        open_first(&mut self.files, alloc, name)
    }

    fn append(&mut self, _alloc: Global, piece: &[u8]) -> Result<(), WriteError>
        requires { IsSome (held_open self.old) }
        ensures ok { OnOk result (AppendsAll (told_files self.old) (held_open self.old) piece.now (told_files self.new)) }
        ensures err { OnErr result (AppendsPrefix (told_files self.old) (held_open self.old) piece.now (told_files self.new)) }
        ensures failed { IsErrOf result WriteError.Failed → Rose (write_faults_of self.old) (write_faults_of self.new) }
        ensures open_file { held_open self.new ≡ held_open self.old }
        ensures load_faults { load_faults_of self.new ≡ load_faults_of self.old }
        ensures write_faults { write_faults_of self.old ≤ write_faults_of self.new }

        // It fails exactly where a fault is planned, which keeps as much as it says. Nothing else raises the count.
        ensures planned { IsSome (planned_fail (plan_of self.old) (calls_of self.old)) → IsErr result }
        ensures unplanned { IsErrOf result WriteError.Failed → IsSome (planned_fail (plan_of self.old) (calls_of self.old)) }
        ensures kept { IsErrOf result WriteError.Failed → AppendsAll (told_files self.old) (held_open self.old)
            (kept_of (planned_fail (plan_of self.old) (calls_of self.old)) piece.now) (told_files self.new) }
        ensures counted { write_faults_of self.new ≡ counted (planned_fail (plan_of self.old) (calls_of self.old))
            (write_faults_of self.old) }
        ensures plan { plan_of self.new ≡ plan_of self.old }
        ensures calls { calls_of self.new ≡ next_call (calls_of self.old) }
    {
        let planned = count_call(
            self.fails.as_slice(),
            &mut self.calls,
            &mut self.write_faults,
        );
        extend_as_planned(&mut self.files, piece, planned)
    }
}
