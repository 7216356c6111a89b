//! Places in files.

/// A line of a file.
#[derive(Clone, Copy, Debug)]
pub struct Origin {
    /// The file, by its place in the list of names, counted from 0.
    pub file: u32,
    /// Its line, counted from 1; 0 where the file as a whole is meant.
    pub line: u32,
}
