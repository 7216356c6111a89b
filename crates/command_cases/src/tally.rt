//! How often each answer came.

use anyhow::Result;
use std::alloc::Global;
use std::io::{self, Write};

/// An answer, told by its status and its first and last word, and how often it came.
#[derive(Drop)]
struct Counted {
    status: u8,
    first: Vec<u8>,
    last: Vec<u8>,
    count: u32,
}

/// The answers of many runs.
#[derive(Drop)]
pub(crate) struct Tally {
    answers: Vec<Counted>,
    runs: u32,
    sum: u32,
}

/// The first and the last word of a text; they are empty where it has none.
fn first_and_last(text: &[u8]) -> (&[u8], &[u8]) {
    let mut first: &[u8] = b"";
    let mut last: &[u8] = b"";
    for word in text.split(|byte| *byte <= b' ') {
        if !word.is_empty() {
            if first.is_empty() {
                first = word;
            }
            last = word;
        }
    }
    (first, last)
}

impl Tally {
    /// No run.
    pub(crate) fn new(alloc: Global) -> Tally {
        Tally {
            answers: Vec::new(alloc),
            runs: 0,
            sum: 0,
        }
    }

    fn add_byte(&mut self, byte: u8) {
        self.sum = self.sum.wrapping_mul(31).wrapping_add(u32::from(byte));
    }

    /// One more run, with its status and what it printed.
    pub(crate) fn add(&mut self, alloc: Global, status: u8, text: &[u8]) -> Result<()> {
        self.runs = self.runs.wrapping_add(1);
        self.add_byte(status);
        for byte in text {
            self.add_byte(*byte);
        }
        self.count(alloc, status, text)
    }

    fn count(&mut self, alloc: Global, status: u8, text: &[u8]) -> Result<()> {
        let (first, last) = first_and_last(text);
        for counted in self.answers.iter_mut() {
            if counted.status == status
                && counted.first.as_slice() == first
                && counted.last.as_slice() == last
            {
                counted.count = counted.count.wrapping_add(1);
                return Ok(());
            }
        }
        self.answers.push(Counted {
            status,
            first: first.to_vec(alloc)?,
            last: last.to_vec(alloc)?,
            count: 1,
        })?;
        Ok(())
    }

    /// Prints the answers in the order in which they first came.
    pub(crate) fn print(&self, rt: &HostRuntime) -> Result<()> {
        for counted in self.answers.as_slice() {
            print!(rt; "{} times {} ", counted.count, counted.status)?;
            io::writer(rt).write_all(counted.first.as_slice())?;
            print!(rt; " ")?;
            io::writer(rt).write_all(counted.last.as_slice())?;
            println!(rt; "")?;
        }
        println!(rt; "runs {} sum {}", self.runs, self.sum)?;
        Ok(())
    }
}
