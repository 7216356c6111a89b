//! Files that aren't to be written over, told apart by what the system says of them and not by their names.

use std::alloc::{AllocError, Global};
use std::fs::Metadata;
use std::os::unix::fs::{FileTypeExt, MetadataExt};

/// A file, whatever its names and links: the device that it lies on, and its number there.
#[derive(Clone, Copy, PartialEq, Eq)]
struct FileNumber {
    device: u64,
    number: u64,
}

/// The files that were read or written, and the one that printed text goes to.
#[derive(Drop)]
pub(crate) struct KeptFiles {
    output: Option<FileNumber>,
    used: Option<Vec<FileNumber>>,
}

/// The number of a file. None of a character device, as a terminal or `/dev/null`: it keeps no bytes that could be lost.
fn number_of(file: &Metadata) -> Option<FileNumber> {
    if file.file_type().is_char_device() {
        return None;
    }
    Some(FileNumber {
        device: file.dev(),
        number: file.ino(),
    })
}

impl KeptFiles {
    /// None so far.
    pub(crate) fn new() -> KeptFiles {
        KeptFiles {
            output: None,
            used: None,
        }
    }

    /// Printed text goes to this file.
    pub(crate) fn set_output(&mut self, file: &Metadata) {
        self.output = number_of(file);
    }

    /// This file is read or written.
    pub(crate) fn add(&mut self, alloc: Global, file: &Metadata) -> Result<(), AllocError> {
        let Some(number) = number_of(file) else {
            return Ok(());
        };
        match &mut self.used {
            Some(used) => used.push(number)?,
            None => {
                let mut used = Vec::new(alloc);
                used.push(number)?;
                self.used = Some(used);
            }
        }
        Ok(())
    }

    /// Whether this file is one of them.
    pub(crate) fn has(&self, file: &Metadata) -> bool {
        let Some(number) = number_of(file) else {
            return false;
        };
        let is_used = match &self.used {
            Some(used) => used.as_slice().contains(&number),
            None => false,
        };
        is_used || self.output == Some(number)
    }
}
