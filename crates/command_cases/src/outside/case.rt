//! The files that are there, and what a command asks of the outside.

use crate::{Answer, Fail, MemoryShelf, run, words_of};
use anyhow::Result;
use std::alloc::Global;

/// A file that is there before the command.
#[derive(Drop)]
struct Held {
    name: String,
    bytes: Vec<u8>,
}

/// A file that the command writes: after it is created, pieces of these lengths are appended. A piece is no longer than what
/// is left of the file.
#[derive(Drop)]
pub(crate) struct Written {
    pub name: String,
    pub pieces: Vec<usize>,
}

/// What a run leaves.
#[derive(Drop)]
pub(crate) struct RunEnd {
    pub answer: Answer,
    pub shelf: MemoryShelf,
}

/// The files that are there, and what the command asks of the outside.
#[derive(Drop)]
pub(crate) struct Case {
    files: Vec<Held>,
    pub loads: Vec<String>,
    pub writes: Vec<Written>,
    last: Option<RunEnd>,
}

impl Case {
    /// No file.
    pub(crate) fn new(alloc: Global) -> Case {
        Case {
            files: Vec::new(alloc),
            loads: Vec::new(alloc),
            writes: Vec::new(alloc),
            last: None,
        }
    }

    /// A file begins, with no byte.
    pub(crate) fn begin_file(&mut self, alloc: Global, name: &str) -> Result<()> {
        let name = String::from_str(alloc, name)?;
        let bytes = Vec::new(alloc);
        self.files.push(Held { name, bytes })?;
        Ok(())
    }

    /// The last file goes on by a line.
    pub(crate) fn continue_file(&mut self, line: &str) -> Result<()> {
        if let Some(held) = self.files.last_mut() {
            held.bytes.extend_from_slice(line.as_bytes())?;
            held.bytes.push(b'\n')?;
        }
        Ok(())
    }

    /// The files that the command loads.
    pub(crate) fn set_loads(&mut self, alloc: Global, names: &str) -> Result<()> {
        self.loads = words_of(alloc, names)?;
        Ok(())
    }

    /// One more file that the command writes.
    pub(crate) fn add_write(&mut self, alloc: Global, words: &str) -> Result<()> {
        let (name, lengths) = words.split_once(" ").unwrap_or((words, ""));
        let mut pieces = Vec::new(alloc);
        for length in lengths.split_whitespace() {
            pieces.push(length.parse().unwrap_or(usize::MAX))?;
        }
        let name = String::from_str(alloc, name)?;
        self.writes.push(Written { name, pieces })?;
        Ok(())
    }

    /// The run that nothing disturbed.
    pub(crate) fn remember(&mut self, outcome: RunEnd) {
        self.last = Some(outcome);
    }

    /// A file that the last run wrote is there.
    pub(crate) fn take(&mut self, alloc: Global, name: &str) -> Result<()> {
        if let Some(last) = &self.last
            && let Some(bytes) = last.shelf.file(name)
        {
            let bytes = bytes.to_vec(alloc)?;
            let name = String::from_str(alloc, name)?;
            self.files.push(Held { name, bytes })?;
        }
        self.loads.clear();
        self.writes.clear();
        Ok(())
    }

    /// A file's bytes before the command: those of the last of that name.
    pub(crate) fn before(&self, name: &str) -> Option<&[u8]> {
        let mut found = None;
        for held in self.files.as_slice() {
            if held.name.as_str() == name {
                found = Some(held.bytes.as_slice());
            }
        }
        found
    }

    /// Whether all files that the command doesn't write are as they were.
    pub(crate) fn others_stay(&self, shelf: &MemoryShelf) -> bool {
        for held in self.files.as_slice() {
            let name = held.name.as_str();
            if !self.is_written(name) && shelf.file(name) != self.before(name) {
                return false;
            }
        }
        true
    }

    fn is_written(&self, name: &str) -> bool {
        for written in self.writes.as_slice() {
            if written.name.as_str() == name {
                return true;
            }
        }
        false
    }

    /// How many calls of the shelf the command makes.
    pub(crate) fn shelf_calls(&self) -> usize {
        let mut calls = self.loads.len();
        for written in self.writes.as_slice() {
            calls = calls.saturating_add(written.calls());
        }
        calls
    }

    /// Runs the words over the files, with those faults planned.
    pub(crate) fn run(
        &self,
        alloc: Global,
        words: &[String],
        shelf_fails: &[Fail],
        sink_fails: &[Fail],
    ) -> Result<RunEnd> {
        let mut shelf = MemoryShelf::new(alloc, shelf_fails)?;
        for held in self.files.as_slice() {
            shelf.add(alloc, held.name.as_str(), held.bytes.as_slice())?;
        }
        let answer = run(alloc, words, &mut shelf, sink_fails)?;
        Ok(RunEnd { answer, shelf })
    }
}

impl Written {
    /// How many calls write the file: its `create` and an `append` for each piece.
    pub(crate) fn calls(&self) -> usize {
        self.pieces.len().saturating_add(1)
    }

    /// How many bytes the file has where the `append` of that number, counted from 0, keeps so many.
    pub(crate) fn kept(&self, number: usize, keep: usize) -> usize {
        let mut length = 0usize;
        let mut place = 0usize;
        for piece in self.pieces.as_slice() {
            if place < number {
                length = length.saturating_add(*piece);
            } else if place == number {
                length = length.saturating_add(keep.min(*piece));
            }
            place = place.saturating_add(1);
        }
        length
    }
}
