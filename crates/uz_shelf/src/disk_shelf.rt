//! The shelf of real files. As a shelf it tells nothing of their content; what it reads and writes of a file
//! is told by the bytes that the kit's readers have left and its writers hold. Nothing ties a name to them.

ghost use Rattle.std.specs.Prelude.{◌≡◌, ◌≤◌, ◌<◌, ◌+◌, ◌^◌, ◌++◌, ◌⊎◌, ℕ, List, IfOk, IfSome, IsErrOf, OnErr, OnOk};
ghost use Rattle.std.specs.Prelude.{IsSome, None, Some, option_map, length, string_bytes, take, vec_len};
ghost use Rattle.std.specs.Io.KnownBytes.{Appends, Consumes, IsAtEnd};
ghost use Rattle.uz_shelf.specs.Faults.{Rose};
ghost use Rattle.uz_shelf.specs.Files.{AppendsAll, AppendsPrefix, Creates, CreatesOrKeeps, HoldsFile, HoldsLonger, LacksFile};
ghost use Rattle.uz_shelf.specs.RealFiles.{AppendsOpen, IsLonger, IsWhole, count_after_load, count_after_write};
ghost use Rattle.uz_shelf.specs.RealFiles.{load_faults_of, name_after_append, name_after_create, open_name, told_files};
ghost use Rattle.uz_shelf.specs.RealFiles.{unwritten_name, write_faults_of};

use crate::errors::{LoadError, WriteError};
use crate::kept_files::KeptFiles;
use crate::shelf::Shelf;
use crate::transfers;
use crate::writing::write_piece;
use std::alloc::Global;
use std::fs;
use std::fs::{Metadata, OpenFile as FileCalls, OpenOptions};
use std::io::{Read, Write};
use std::rt::Files;

/// Real files, with the counts of the faults that they have met.
///
/// A file that was loaded or created, under any name or link, isn't created: that fails, and nothing is touched. So does the
/// file that printed text goes to, where it is told. A character device, as a terminal or `/dev/null`, may be any of these.
#[derive(Drop)]
pub struct DiskShelf<R: Files + Drop> {
    rt: R,
    kept: KeptFiles,
    target: Option<OpenFile<R>>,
    uncreated: Option<String>,
    is_cut: bool,
    load_faults: u64,
    write_faults: u64,
}

/// A file that is open for writing.
#[derive(Drop)]
struct OpenFile<R: Files + Drop> {
    name: String,
    file: R::File,
}

impl<R: Files + Drop> DiskShelf<R> {
    /// The files that the runtime reaches, with none open and no fault met. Takes no memory.
    pub fn new(rt: R) -> DiskShelf<R>
        ensures open { ⟦<DiskShelf<R> as Shelf>⟧.open_file result ≡ None }
        ensures load_faults { ⟦<DiskShelf<R> as Shelf>⟧.load_faults result ≡ 0 }
        ensures write_faults { ⟦<DiskShelf<R> as Shelf>⟧.write_faults result ≡ 0 }
        ensures unwritten { unwritten_name result ≡ None }
    {
        DiskShelf {
            rt,
            kept: KeptFiles::new(),
            target: None,
            uncreated: None,
            is_cut: false,
            load_faults: 0,
            write_faults: 0,
        }
    }

    /// The file that printed text goes to, as the system tells it. It isn't created from now on. Takes no memory.
    pub fn set_output(&mut self, file: &Metadata)
        ensures open { open_name self.new ≡ open_name self.old }
        ensures load_faults { load_faults_of self.new ≡ load_faults_of self.old }
        ensures write_faults { write_faults_of self.new ≡ write_faults_of self.old }
        ensures unwritten { unwritten_name self.new ≡ unwritten_name self.old }
    {
        self.kept.set_output(file);
    }

    /// The name of the file that couldn't be created or didn't take a piece, if the last file that was to be written is one.
    pub fn unwritten(&self) -> Option<&str>
        ensures { option_map (λ name. name.now) result ≡ unwritten_name self.now }
    {
        match &self.target {
            Some(opened) if self.is_cut => Some(opened.name.as_str()),
            _ => match &self.uncreated {
                Some(name) => Some(name.as_str()),
                None => None,
            },
        }
    }
}

/// Reads more bytes, at most that many, and says how many came.
fn read_some<F: Read>(file: &mut F, bytes: &mut Vec<u8>, room: usize) -> Result<usize, LoadError>
    requires { 0 < room }
    ensures added { IfOk result (λ count. vec_len bytes.new ≡ vec_len bytes.old + count) }
    ensures room { IfOk result (λ count. count ≤ room) }
    ensures read { IfOk result (λ count. (piece : List ℕ) × (bytes.new.items ≡ bytes.old.items ++ piece)
        × Consumes (F.remaining file.old) (F.remaining file.new) piece) }
    ensures end { IfOk result (λ count. count ≡ 0 → IsAtEnd (F.remaining file.new)) }
    ensures unlimited { IsErrOf result LoadError.TooLong → ⊥ }
{
    let mut buffer = [0u8; 4096];
    let want = room.min(4096);
    let count = transfers::read(file, &mut buffer[..want])?;
    bytes.extend_from_slice(&buffer[..count])?;
    Ok(count)
}

/// All bytes of the file, unless there are more than `limit`. Reads at most `limit + 1` bytes, in turns
/// each of which takes at least one byte or is the last.
fn read_all<F: Read>(alloc: Global, file: &mut F, limit: usize) -> Result<Vec<u8>, LoadError>
    requires { limit < 2 ^ 32 }
    ensures limit { IfOk result (λ bytes. vec_len bytes ≤ limit) }
    ensures whole { IfOk result (λ bytes. IfSome (F.remaining file.old) (λ left. bytes.items ≡ left)) }
    ensures too_long { IsErrOf result LoadError.TooLong → IfSome (F.remaining file.old) (λ left. limit < length left) }
{
    let mut bytes = Vec::new(alloc);
    while bytes.len() <= limit {
        let room = limit + 1 - bytes.len();
        let count = read_some(file, &mut bytes, room)?;
        if count == 0 {
            return Ok(bytes);
        }
    }
    Err(LoadError::TooLong)
}

/// All bytes of the named file, unless there are more than `limit`. From now on it is kept.
fn read_file<R: Files>(
    rt: &R,
    kept: &mut KeptFiles,
    alloc: Global,
    name: &str,
    limit: u32,
) -> Result<Vec<u8>, LoadError>
    ensures limit { IfOk result (λ bytes. vec_len bytes ≤ limit) }
    ensures whole { IfOk result (λ bytes. IsWhole (⟦<R::File as Read>⟧.remaining) bytes.items) }
    ensures too_long { IsErrOf result LoadError.TooLong → IsLonger (⟦<R::File as Read>⟧.remaining) limit }
{
    let mut file = fs::open(rt, name)?;
    kept.add(alloc, &file.metadata()?)?;
    read_all(alloc, &mut file, limit as usize)
}

/// The named file, open for writing: the one that is there, with its bytes, or a new empty one.
fn open_as_is<R: Files>(rt: &R, name: &str) -> Result<R::File, WriteError> {
    Ok(OpenOptions::new().write(true).create(true).open(rt, name)?)
}

/// The named file, open for writing and empty, unless it is kept. From now on it is.
fn open_new<R: Files>(
    rt: &R,
    kept: &mut KeptFiles,
    alloc: Global,
    name: &str,
) -> Result<R::File, WriteError> {
    let file = open_as_is(rt, name)?;
    let found = file.metadata()?;
    if kept.has(&found) {
        return Err(WriteError::Failed);
    }
    kept.add(alloc, &found)?;
    if found.is_file() && found.len() > 0 {
        file.set_len(0)?;
    }
    Ok(file)
}

/// Adds a piece at the end of the file.
fn append_to<R: Files + Drop>(
    target: &mut Option<OpenFile<R>>,
    piece: &[u8],
) -> Result<(), WriteError>
    requires { IsSome target.old }
    ensures names { option_map (λ opened. string_bytes opened.name) target.new
        ≡ option_map (λ opened. string_bytes opened.name) target.old }
    ensures ok { OnOk result (IfSome target.old (λ a. IfSome target.new
        (λ b. Appends (⟦<R::File as Write>⟧.contents a.file) (⟦<R::File as Write>⟧.contents b.file) piece.now))) }
    ensures err { OnErr result (IfSome target.old (λ a. IfSome target.new
        (λ b. (count : ℕ) × Appends (⟦<R::File as Write>⟧.contents a.file) (⟦<R::File as Write>⟧.contents b.file)
        (take count piece.now)))) }
    ensures some { OnErr result (0 < length piece.now) }
{
    match target {
        Some(opened) => write_piece(&mut opened.file, piece),
        None => unreachable!(),
    }
}

impl<R: Files + Drop> Shelf for DiskShelf<R> {
    ghost use Rattle.uz_shelf.specs.RealFiles.{load_faults_of, open_name, told_files, write_faults_of};

    ghost files = { λ s. told_files s };

    ghost open_file = { λ s. open_name s };

    ghost load_faults = { λ s. load_faults_of s };

    ghost write_faults = { λ s. write_faults_of s };

    fn load(&mut self, alloc: Global, name: &str, limit: u32) -> Result<Vec<u8>, LoadError>
        ensures held { IfOk result (λ bytes. HoldsFile (told_files self.old) name.now bytes.items) }
        ensures limit { IfOk result (λ bytes. vec_len bytes ≤ limit) }
        ensures failed { IsErrOf result LoadError.Failed →
            Rose (load_faults_of self.old) (load_faults_of self.new) ⊎ LacksFile (told_files self.old) name.now }
        ensures too_long { IsErrOf result LoadError.TooLong → HoldsLonger (told_files self.old) name.now limit }
        ensures files { told_files self.new ≡ told_files self.old }
        ensures open_file { open_name self.new ≡ open_name self.old }
        ensures load_faults { load_faults_of self.old ≤ load_faults_of self.new }
        ensures write_faults { write_faults_of self.new ≡ write_faults_of self.old }

        // A file was opened: these are all its bytes, or it has more than the limit. Each failure raises the count by one,
        // and nothing else does.
        ensures whole { IfOk result (λ bytes. IsWhole (⟦<R::File as Read>⟧.remaining) bytes.items) }
        ensures longer { IsErrOf result LoadError.TooLong → IsLonger (⟦<R::File as Read>⟧.remaining) limit }
        ensures counted { load_faults_of self.new ≡ count_after_load result (load_faults_of self.old) }
        ensures unwritten { unwritten_name self.new ≡ unwritten_name self.old }
    {
        let loaded = read_file(&self.rt, &mut self.kept, alloc, name, limit);
        if matches!(&loaded, Err(LoadError::Failed)) {
            self.load_faults = self.load_faults.saturating_add(1);
        }
        loaded
    }

    fn create(&mut self, alloc: Global, name: &str) -> Result<(), WriteError>
        ensures ok { OnOk result (Creates (told_files self.old) name.now (told_files self.new)) }
        ensures open { OnOk result (open_name self.new ≡ Some name.now) }
        ensures err { OnErr result (CreatesOrKeeps (told_files self.old) name.now (told_files self.new)) }
        ensures closed { OnErr result (open_name self.new ≡ None) }
        ensures failed { IsErrOf result WriteError.Failed → Rose (write_faults_of self.old) (write_faults_of self.new) }
        ensures load_faults { load_faults_of self.new ≡ load_faults_of self.old }
        ensures write_faults { write_faults_of self.old ≤ write_faults_of self.new }

        // Each failure raises the count by one, and nothing else does. The name of a file that fails is kept.
        ensures counted { write_faults_of self.new ≡ count_after_write result (write_faults_of self.old) }
        ensures unwritten { unwritten_name self.new ≡ name_after_create result name.now }
    {
        self.target = None;
        self.uncreated = None;
        self.is_cut = false;
        let name = String::from_str(alloc, name)?;
        match open_new(&self.rt, &mut self.kept, alloc, name.as_str()) {
            Ok(file) => {
                self.target = Some(OpenFile { name, file });
                Ok(())
            }
            Err(WriteError::Failed) => {
                self.uncreated = Some(name);
                self.write_faults = self.write_faults.saturating_add(1);
                Err(WriteError::Failed)
            }
            Err(WriteError::Memory) => Err(WriteError::Memory),
        }
    }

    fn append(&mut self, _alloc: Global, piece: &[u8]) -> Result<(), WriteError>
        requires { IsSome (open_name self.old) }
        ensures ok { OnOk result (AppendsAll (told_files self.old) (open_name self.old) piece.now (told_files self.new)) }
        ensures err { OnErr result (AppendsPrefix (told_files self.old) (open_name self.old) piece.now (told_files self.new)) }
        ensures failed { IsErrOf result WriteError.Failed → Rose (write_faults_of self.old) (write_faults_of self.new) }
        ensures open_file { open_name self.new ≡ open_name self.old }
        ensures load_faults { load_faults_of self.new ≡ load_faults_of self.old }
        ensures write_faults { write_faults_of self.old ≤ write_faults_of self.new }

        // Where the file tells its bytes, the piece is added to them once, and a prefix of it where this fails, which no empty
        // piece does. Each failure raises the count by one, and nothing else does.
        ensures written { OnOk result (AppendsOpen (⟦<R::File as Write>⟧.contents) self.old self.new piece.now) }
        ensures written_part { OnErr result ((count : ℕ) ×
            AppendsOpen (⟦<R::File as Write>⟧.contents) self.old self.new (take count piece.now)) }
        ensures some { OnErr result (0 < length piece.now) }
        ensures counted { write_faults_of self.new ≡ count_after_write result (write_faults_of self.old) }
        ensures unwritten { unwritten_name self.new ≡ name_after_append result (open_name self.old) (unwritten_name self.old) }
    {
        let written = append_to(&mut self.target, piece);
        if matches!(&written, Err(WriteError::Failed)) {
            self.is_cut = true;
            self.write_faults = self.write_faults.saturating_add(1);
        }
        written
    }
}
