//! The words of a script.

use std::alloc::{AllocError, Global};
use uz_shelf::Fail;

/// The words of a line.
pub fn words_of(alloc: Global, line: &str) -> Result<Vec<String>, AllocError> {
    let mut words = Vec::new(alloc);
    for word in line.split_whitespace() {
        words.push(String::from_str(alloc, word)?)?;
    }
    Ok(words)
}

/// The fault that `CALL KEEP` says: that call fails and keeps so many bytes.
pub fn fail_of(line: &str) -> Option<Fail> {
    let (call, keep) = line.split_once(" ")?;
    match (call.parse(), keep.parse()) {
        (Ok(call), Ok(keep)) => Some(Fail { call, keep }),
        _ => None,
    }
}
