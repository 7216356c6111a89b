//! Files in memory, and the one that is being put together.

use crate::running::{Answer, run};
use crate::words::words_of;
use std::alloc::{AllocError, Global};
use uz_shelf::{Fail, MemoryShelf};

/// The files of a case.
#[derive(Drop)]
pub struct Bench {
    shelf: MemoryShelf,
    name: String,
    text: Vec<u8>,
}

/// A text with a line in place of that with this number, counted from 1, or without it where the line is empty.
fn with_line(alloc: Global, text: &[u8], number: usize, line: &str) -> Result<Vec<u8>, AllocError> {
    let mut changed = Vec::new(alloc);
    let mut at = 0usize;
    for part in text.split_inclusive(|byte| *byte == b'\n') {
        at = at.saturating_add(1);
        if at != number {
            changed.extend_from_slice(part)?;
        } else if !line.is_empty() {
            changed.extend_from_slice(line.as_bytes())?;
            changed.push(b'\n')?;
        }
    }
    Ok(changed)
}

impl Bench {
    /// No file, with those faults of files planned.
    pub fn new(alloc: Global, fails: &[Fail]) -> Result<Bench, AllocError> {
        Ok(Bench {
            shelf: MemoryShelf::new(alloc, fails)?,
            name: String::new(alloc),
            text: Vec::new(alloc),
        })
    }

    /// A file begins.
    pub fn begin_file(&mut self, alloc: Global, name: &str) -> Result<(), AllocError> {
        self.name = String::from_str(alloc, name)?;
        Ok(())
    }

    /// The file goes on by a line.
    pub fn add_line(&mut self, line: &str) -> Result<(), AllocError> {
        self.text.extend_from_slice(line.as_bytes())?;
        self.text.push(b'\n')?;
        Ok(())
    }

    /// The file goes on by bytes.
    pub fn add_bytes(&mut self, bytes: &[u8]) -> Result<(), AllocError> {
        self.text.extend_from_slice(bytes)?;
        Ok(())
    }

    /// The file that was being put together is there.
    pub fn end_file(&mut self, alloc: Global) -> Result<(), AllocError> {
        if !self.name.is_empty() {
            self.shelf
                .add(alloc, self.name.as_str(), self.text.as_slice())?;
            self.name.clear();
        }
        self.text.clear();
        Ok(())
    }

    /// A file of these bytes is there.
    pub fn put(&mut self, alloc: Global, name: &str, bytes: &[u8]) -> Result<(), AllocError> {
        self.shelf.add(alloc, name, bytes)
    }

    /// A file's bytes.
    pub fn file(&self, name: &str) -> Option<&[u8]> {
        self.shelf.file(name)
    }

    /// A file as another with one line changed, as `FROM TO NUMBER TEXT` says: the text is in place of the line of this number,
    /// counted from 1, which is left out where there is no text.
    pub fn swap(&mut self, alloc: Global, line: &str) -> Result<(), AllocError> {
        if let Some((from, rest)) = line.split_once(" ")
            && let Some((to, rest)) = rest.split_once(" ")
        {
            let (number, text) = rest.split_once(" ").unwrap_or((rest, ""));
            self.swap_line(alloc, from, to, number.parse().unwrap_or(0), text)?;
        }
        Ok(())
    }

    fn swap_line(
        &mut self,
        alloc: Global,
        from: &str,
        to: &str,
        number: usize,
        text: &str,
    ) -> Result<(), AllocError> {
        let changed = match self.shelf.file(from) {
            Some(file) => with_line(alloc, file, number, text)?,
            None => Vec::new(alloc),
        };
        self.shelf.add(alloc, to, changed.as_slice())
    }

    /// Runs the words of a line, with those faults of output planned.
    pub fn run(&mut self, alloc: Global, line: &str, fails: &[Fail]) -> Result<Answer, AllocError> {
        let words = words_of(alloc, line)?;
        run(alloc, words.as_slice(), &mut self.shelf, fails)
    }
}
