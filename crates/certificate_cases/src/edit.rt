//! Texts that differ from a text in one place.

use anyhow::Result;
use std::alloc::Global;

/// How a text differs from the one at hand. Lines are counted from 1.
#[derive(Clone, Copy)]
pub(crate) enum Edit<'a> {
    /// Not at all.
    Whole,
    /// This line stands for that one.
    Put(usize, &'a str),
    /// This line stands before that one.
    Add(usize, &'a str),
    /// That line is missing.
    Drop(usize),
    /// This follows the last LF.
    Tail(&'a str),
    /// So many lines alone.
    Front(usize),
    /// So many lines, and the next without its LF.
    Part(usize),
}

impl<'a> Edit<'a> {
    /// What a row of the table says, if it is one of an edit.
    pub(crate) fn read(row: &'a str) -> Option<Edit<'a>> {
        if row == "read" {
            return Some(Edit::Whole);
        }
        let (word, rest) = row.split_once(" ")?;
        match word {
            "put" => {
                let (n, line) = numbered(rest)?;
                Some(Edit::Put(n, line))
            }
            "add" => {
                let (n, line) = numbered(rest)?;
                Some(Edit::Add(n, line))
            }
            "drop" => Some(Edit::Drop(rest.parse().ok()?)),
            "tail" => Some(Edit::Tail(rest)),
            _ => None,
        }
    }

    /// Writes what stands for the line of this number.
    fn write(self, text: &mut Vec<u8>, n: usize, line: &str) -> Result<()> {
        match self {
            Edit::Put(k, other) if k == n => write_line(text, other),
            Edit::Add(k, other) if k == n => {
                write_line(text, other)?;
                write_line(text, line)
            }
            Edit::Drop(k) if k == n => Ok(()),
            Edit::Front(k) if k < n => Ok(()),
            Edit::Part(k) if k < n => {
                if n - k == 1 {
                    text.extend_from_slice(line.as_bytes())?;
                }
                Ok(())
            }
            _ => write_line(text, line),
        }
    }
}

/// A number, and what follows it.
fn numbered(text: &str) -> Option<(usize, &str)> {
    let (n, line) = text.split_once(" ")?;
    Some((n.parse().ok()?, line))
}

fn write_line(text: &mut Vec<u8>, line: &str) -> Result<()> {
    text.extend_from_slice(line.as_bytes())?;
    text.push(b'\n')?;
    Ok(())
}

/// The text of these lines, which differs as the edit says.
pub(crate) fn text_of(alloc: Global, lines: &[String], edit: Edit) -> Result<Vec<u8>> {
    let mut text = Vec::new(alloc);
    for (i, line) in lines.iter().enumerate() {
        edit.write(&mut text, i + 1, line.as_str())?;
    }
    if let Edit::Tail(rest) = edit {
        text.extend_from_slice(rest.as_bytes())?;
    }
    Ok(text)
}
